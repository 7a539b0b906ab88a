//! The terms and the values of a document.
ghost use Rattle.std.specs.Prelude.{◌≡◌, ◌<◌, [], ◌∷◌, ◌++◌, length, All, IfOk, OnOk, OnErr};
ghost use Rattle.sk_base.specs.Order.{Precedes};
ghost use Rattle.sk_base.specs.Documents.{AreTerms, AreValues};

use crate::{DocTerm, SlotValue};
use std::alloc::{AllocError, Global};
use std::marker::Model;

/// The terms of a document, in byte order, each once.
#[derive(Debug, Drop)]
pub struct DocTerms {
    items: Vec<DocTerm>,
}

/// The values of a document, by rising slot.
#[derive(Debug, Drop)]
pub struct SlotValues {
    items: Vec<SlotValue>,
}

impl Model for DocTerms {
    ghost use Rattle.std.specs.Prelude.{List};
    ghost use Rattle.sk_base.specs.declared.doc_entry.DocTerm.{DocTerm};
    ghost use Rattle.sk_base.specs.Documents.{AreTerms};

    ghost Value = { List DocTerm };

    ghost view = { λ t. t.items.items };

    ghost invariant = { λ t. AreTerms t.items.items };
}

impl Model for SlotValues {
    ghost use Rattle.std.specs.Prelude.{List};
    ghost use Rattle.sk_base.specs.declared.doc_entry.SlotValue.{SlotValue};
    ghost use Rattle.sk_base.specs.Documents.{AreValues};

    ghost Value = { List SlotValue };

    ghost view = { λ v. v.items.items };

    ghost invariant = { λ v. AreValues v.items.items };
}

impl DocTerms {
    /// No term. It takes no memory.
    pub fn new(alloc: Global) -> DocTerms
        ensures { result ≡ [] }
    {
        DocTerms {
            items: Vec::new(alloc),
        }
    }

    /// It takes no memory.
    pub fn from_vec(items: Vec<DocTerm>) -> DocTerms
        requires rising { AreTerms items.items }
        ensures { result ≡ items.items }
    {
        DocTerms { items }
    }

    /// Puts a term behind all others.
    pub fn push(&mut self, item: DocTerm) -> Result<(), AllocError>
        requires behind { All (λ t. Precedes t.term item.term) self.old }
        ensures ok { OnOk result (self.new ≡ self.old ++ item ∷ []) }
        ensures err { OnErr result (self.new ≡ self.old) }
    {
        self.items.push(item)?;
        Ok(())
    }

    /// The same terms once more.
    pub fn copy(&self, alloc: Global) -> Result<DocTerms, AllocError>
        ensures { IfOk result (λ copy. copy ≡ self.now) }
    {
        let mut items = Vec::new(alloc);
        'terms: for term in self.items.as_slice() {
            let copy = term.copy(alloc)?;
            items.push(copy)?;
        }
        Ok(DocTerms { items })
    }

    pub fn as_slice(&self) -> &[DocTerm]
        ensures value { result.now ≡ self.now }
        ensures rising { AreTerms self.now }
    {
        self.items.as_slice()
    }
}

impl SlotValues {
    /// No value. It takes no memory.
    pub fn new(alloc: Global) -> SlotValues
        ensures { result ≡ [] }
    {
        SlotValues {
            items: Vec::new(alloc),
        }
    }

    /// It takes no memory.
    pub fn from_vec(items: Vec<SlotValue>) -> SlotValues
        requires rising { AreValues items.items }
        ensures { result ≡ items.items }
    {
        SlotValues { items }
    }

    /// Puts a value behind those of lower slots.
    pub fn push(&mut self, item: SlotValue) -> Result<(), AllocError>
        requires behind { All (λ v. v.slot < item.slot) self.old }
        requires some { 0 < length item.value }
        ensures ok { OnOk result (self.new ≡ self.old ++ item ∷ []) }
        ensures err { OnErr result (self.new ≡ self.old) }
    {
        self.items.push(item)?;
        Ok(())
    }

    /// The same values once more.
    pub fn copy(&self, alloc: Global) -> Result<SlotValues, AllocError>
        ensures { IfOk result (λ copy. copy ≡ self.now) }
    {
        let mut items = Vec::new(alloc);
        'values: for value in self.items.as_slice() {
            let copy = value.copy(alloc)?;
            items.push(copy)?;
        }
        Ok(SlotValues { items })
    }

    pub fn as_slice(&self) -> &[SlotValue]
        ensures value { result.now ≡ self.now }
        ensures rising { AreValues self.now }
    {
        self.items.as_slice()
    }

    /// The values, given up. It takes no memory.
    pub fn into_vec(self) -> Vec<SlotValue>
        ensures value { result.items ≡ self }
        ensures rising { AreValues self }
    {
        self.items
    }
}
