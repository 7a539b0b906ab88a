//! The documents of an index, packed, and its lists.
ghost use Rattle.std.specs.Prelude.{◌≡◌, ◌≤◌, ℕ, [], length, None, IfOk, OnOk, IfSome};
ghost use Rattle.std.specs.Option.{option_map};
ghost use Rattle.sk_base.specs.Documents.{AreTerms};
ghost use Rattle.sk_sorted.specs.Runs.{flat};
ghost use Rattle.sk_model.specs.Edits.{document_at, put_document};
ghost use Rattle.sk_packed.specs.Packed.{AreKnown};
ghost use Rattle.sk_terms.specs.Named.{named_all};
ghost use Rattle.sk_index.specs.Indexed.{HavePositions, all_postings};
ghost use Rattle.sk_index.specs.Stands.{AreListsOf, AreSlotsOf};
ghost use Rattle.sk_index.specs.Unpacked.{unpacked, unpacked_all, AreWhole};

use sk_base::{Doc, DocId};
use sk_documents::Keeper;
use sk_lists::List;
use sk_packed::{PackedTerms, Payloads, TermsCopier};
use sk_pieces::Pieces;
use sk_slots::SlotLists;
use sk_terms::TermLists;
use std::alloc::{AllocError, Global};
use std::marker::Model;

/// The documents, the list of all of them, a list for each term, and one for each slot. A document stands as numbers of
/// the terms: the texts of the terms stand once, with the lists, its values in the lists of the slots alone, and its
/// payload, if it has one, beside. Contracts see the documents and the lists.
#[derive(Drop)]
pub(crate) struct Lists {
    map: Pieces<PackedTerms>,
    /// The terms of a document that is not there.
    none: PackedTerms,
    all: List,
    terms: TermLists,
    slots: SlotLists,
    payloads: Payloads,
}

impl Model for Lists {
    ghost use Rattle.std.specs.Prelude.{◌≡◌, []};
    ghost use Rattle.sk_sorted.specs.Runs.{flat};
    ghost use Rattle.sk_index.specs.Unpacked.{Kept, AreWhole, unpacked_all};

    ghost Value = { Kept };

    ghost view = { λ l. record { documents = unpacked_all l.terms.terms l.slots l.payloads (flat l.map); all = l.all; listed = l.terms; slots = l.slots; payloads = l.payloads } };

    ghost invariant = { λ l. AreWhole l.all l.terms l.slots l.payloads (flat l.map) × (l.none ≡ []) };
}

impl Lists {
    /// No document, and room for the lists of so many slots.
    pub fn new(alloc: Global, slots: usize) -> Result<Lists, AllocError>
        ensures { IfOk result (λ lists. lists ≡ record { documents = []; all = []; listed = record { terms = []; lists = [] }; slots = []; payloads = [] }) }
    {
        Ok(Lists {
            map: Pieces::new(alloc),
            none: PackedTerms::new(alloc),
            all: List::new(alloc),
            terms: TermLists::new(alloc),
            slots: SlotLists::new(alloc, slots)?,
            payloads: Payloads::new(alloc),
        })
    }

    /// The same documents and lists, in memory of their own.
    pub fn copy(&self, alloc: Global) -> Result<Lists, AllocError>
        ensures { IfOk result (λ copy. copy ≡ self.now) }
    {
        let (map, payloads) = documents_copied(alloc, &self.map, &self.payloads)?;
        let (all, terms, slots) = lists_copied(&self.all, &self.terms, &self.slots)?;
        Ok(Lists {
            map,
            none: PackedTerms::new(alloc),
            all,
            terms,
            slots,
            payloads,
        })
    }

    /// The list of all documents.
    pub fn all(&self) -> &List
        ensures runs { result.now ≡ self.now.all }
        ensures entries { flat result.now ≡ all_postings self.now.documents }
    {
        &self.all
    }

    /// The lists of the terms.
    pub fn terms(&self) -> &TermLists
        ensures value { result.now ≡ self.now.listed }
        ensures entries { AreListsOf self.now.documents result.now }
    {
        &self.terms
    }

    /// The lists of the slots.
    pub fn slots(&self) -> &SlotLists
        ensures value { result.now ≡ self.now.slots }
        ensures entries { AreSlotsOf self.now.documents result.now }
    {
        &self.slots
    }

    /// The terms of the document, none where it is not there.
    pub fn terms_of(&self, id: DocId) -> &PackedTerms
        ensures value { HavePositions (named_all self.now.listed.terms result.now) (document_at id self.now.documents) }
        ensures rising { AreTerms (named_all self.now.listed.terms result.now) }
        ensures known { AreKnown (length self.now.listed.terms) result.now }
    {
        match self.packed(id) {
            Some(packed) => packed,
            None => &self.none,
        }
    }

    /// The payload of the document, none where it is not there.
    pub fn payload(&self, id: DocId) -> Option<&str>
        ensures { option_map (λ s. s.now) result ≡ option_map (λ d. d.payload) (document_at id self.now.documents) }
    {
        self.packed(id)?;
        Some(self.payloads.of(id))
    }

    fn packed(&self, id: DocId) -> Option<&PackedTerms>
        ensures value { option_map (λ p. unpacked self.now.listed.terms self.now.slots self.now.payloads id p.now) result ≡ document_at id self.now.documents }
        ensures rising { IfSome result (λ p. AreTerms (named_all self.now.listed.terms p.now)) }
        ensures known { IfSome result (λ p. AreKnown (length self.now.listed.terms) p.now) }
    {
        self.map.get(id)
    }
}

impl Keeper for Lists {
    ghost documents = { λ l. l.documents };

    fn count(&self) -> usize {
        self.map.length() as usize
    }

    fn put(self, id: DocId, doc: Doc) -> Result<Lists, AllocError> {
        let Lists {
            mut map,
            none,
            mut all,
            mut terms,
            mut slots,
            mut payloads,
        } = self;
        put_into(
            &mut map,
            &mut all,
            &mut terms,
            &mut slots,
            &mut payloads,
            id,
            doc,
        )?;
        Ok(Lists {
            map,
            none,
            all,
            terms,
            slots,
            payloads,
        })
    }

    fn remove(&mut self, id: DocId) -> bool {
        let Some(packed) = self.map.take(id) else {
            return false;
        };
        self.all.remove(id);
        self.terms.take_out_all(id, &packed);
        self.slots.clear_all(id);
        self.payloads.clear(id);
        true
    }

    fn ids_with(&mut self, term: &[u8]) -> Result<Vec<DocId>, AllocError> {
        self.terms.ids(term)
    }
}

/// Puts the document into each list. Where memory runs out, some have it and some have not.
fn put_into(
    map: &mut Pieces<PackedTerms>,
    all: &mut List,
    terms: &mut TermLists,
    slots: &mut SlotLists,
    payloads: &mut Payloads,
    id: DocId,
    doc: Doc,
) -> Result<(), AllocError>
    requires id { 1 ≤ id }
    requires whole { AreWhole all.old terms.old slots.old payloads.old (flat map.old) }
    requires free { document_at id (unpacked_all terms.old.terms slots.old payloads.old (flat map.old)) ≡ None }
    ensures whole { OnOk result (AreWhole all.new terms.new slots.new payloads.new (flat map.new)) }
    ensures documents { OnOk result (unpacked_all terms.new.terms slots.new payloads.new (flat map.new)
        ≡ put_document id doc (unpacked_all terms.old.terms slots.old payloads.old (flat map.old))) }
{
    all.insert(id, 0)?;
    let packed = terms.put_all(id, doc.terms.as_slice())?;
    let Doc {
        terms: texts,
        values,
        payload,
    } = doc;
    drop(texts);
    slots.set_all(id, values.into_vec())?;
    payloads.set(id, payload)?;
    map.put(id, packed)?;
    Ok(())
}

/// The same documents and payloads.
fn documents_copied(
    alloc: Global,
    map: &Pieces<PackedTerms>,
    payloads: &Payloads,
) -> Result<(Pieces<PackedTerms>, Payloads), AllocError>
    ensures map { IfOk result (λ copies. copies.0 ≡ map.now) }
    ensures payloads { IfOk result (λ copies. copies.1 ≡ payloads.now) }
{
    let map = map.copy(&TermsCopier { alloc })?;
    let payloads = payloads.copy(alloc)?;
    Ok((map, payloads))
}

/// The same lists.
fn lists_copied(
    all: &List,
    terms: &TermLists,
    slots: &SlotLists,
) -> Result<(List, TermLists, SlotLists), AllocError>
    ensures all { IfOk result (λ copies. copies.0 ≡ all.now) }
    ensures terms { IfOk result (λ copies. copies.1 ≡ terms.now) }
    ensures slots { IfOk result (λ copies. copies.2 ≡ slots.now) }
{
    let all = all.copy()?;
    let terms = terms.copy()?;
    let slots = slots.copy()?;
    Ok((all, terms, slots))
}
