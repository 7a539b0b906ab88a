//! A term and a value of a document.
ghost use Rattle.std.specs.Prelude.{◌≡◌, IfOk};

use crate::{Bytes, Positions, Term, Text};
use std::alloc::{AllocError, Global};

/// A term of a document.
#[derive(Debug, Drop)]
pub struct DocTerm {
    pub term: Term,
    /// How often the document has it, each occurrence weighted by the step of its field.
    pub wdf: u32,
    /// Where it stands.
    pub positions: Positions,
}

/// A value of a document.
#[derive(Debug, Drop)]
pub struct SlotValue {
    pub slot: u32,
    /// At least one byte.
    pub value: Bytes,
}

impl DocTerm {
    /// The same term once more.
    pub fn copy(&self, alloc: Global) -> Result<DocTerm, AllocError>
        ensures { IfOk result (λ copy. copy ≡ self.now) }
    {
        let term = Text::new(alloc, self.term.as_str())?;
        let positions = self.positions.copy(alloc)?;
        Ok(DocTerm {
            term,
            wdf: self.wdf,
            positions,
        })
    }
}

impl SlotValue {
    /// The same value once more.
    pub fn copy(&self, alloc: Global) -> Result<SlotValue, AllocError>
        ensures { IfOk result (λ copy. copy ≡ self.now) }
    {
        let value = Bytes::new(alloc, self.value.as_slice())?;
        Ok(SlotValue {
            slot: self.slot,
            value,
        })
    }
}
