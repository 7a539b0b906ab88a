//! The documents of an index, as a page reads them.
use sk_base::DocId;
use sk_index::Index;
use sk_page::Reader;
use sk_steps::Steps;
use std::sync::ledger::Ledger;

/// Reads the documents of an index.
#[derive(Drop)]
pub(crate) struct IndexReader<'a> {
    pub(crate) index: &'a Index,
}

impl<'a> Reader for IndexReader<'a> {
    ghost documents = { λ r. r.index.now.live.documents };

    fn value<L: Ledger>(&self, slot: u32, id: DocId, steps: &mut Steps<L>) -> &[u8] {
        self.index.value(slot, id, steps)
    }

    fn payload<L: Ledger>(&self, id: DocId, steps: &mut Steps<L>) -> Option<&str> {
        self.index.payload(id, steps)
    }
}
