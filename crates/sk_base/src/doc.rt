//! What a document is in the index.
ghost use Rattle.std.specs.Prelude.{◌≡◌, IfOk};

use crate::{DocTerms, SlotValues, Text};
use std::alloc::{AllocError, Global};

/// A document as it is indexed.
#[derive(Debug, Drop)]
pub struct Doc {
    pub terms: DocTerms,
    pub values: SlotValues,
    /// A text that is handed back with a hit.
    pub payload: Text,
}

impl Doc {
    /// The same document once more.
    pub fn copy(&self, alloc: Global) -> Result<Doc, AllocError>
        ensures { IfOk result (λ copy. copy ≡ self.now) }
    {
        let terms = self.terms.copy(alloc)?;
        let values = self.values.copy(alloc)?;
        let payload = Text::new(alloc, self.payload.as_str())?;
        Ok(Doc {
            terms,
            values,
            payload,
        })
    }
}
