//! The documents of several indexes, as a page reads them.
ghost use Rattle.std.specs.Prelude.{◌≡◌};
ghost use Rattle.sk_model.specs.Edits.{document_at};
ghost use Rattle.sk_documents.specs.Turned.{AreTurns};
ghost use Rattle.sk_shards.specs.Forests.{docs_of};
ghost use Rattle.sk_shards.specs.Turning.{AreTurns-prop};

use sk_base::DocId;
use sk_index::Index;
use sk_page::Reader;
use sk_sorted::{own_id, part_of};
use sk_steps::Steps;
use std::sync::ledger::Ledger;

/// Reads the documents of indexes that take turns, each in its part.
#[derive(Drop)]
pub(crate) struct PartsReader<'a> {
    pub(crate) indexes: &'a [Index],
    ghost turns: { AreTurns (λ i. i.live.documents) indexes.now } by { AreTurns-prop indexes.now },
}

impl<'a> PartsReader<'a> {
    /// The index that has a document, and the document's own id there. The id 0 is no document's, whatever the index.
    fn place(&self, id: DocId) -> (&Index, DocId)
        ensures { document_at result.1 result.0.now.live.documents ≡ document_at id (docs_of self.now.indexes.now) }
    {
        if id == 0 {
            return (&self.indexes[0], 0);
        }
        let parts = self.indexes.len() as u32;
        let part = part_of(parts, id) as usize;
        (&self.indexes[part], own_id(parts, id))
    }
}

impl<'a> Reader for PartsReader<'a> {
    ghost use Rattle.std.specs.Prelude.{map};
    ghost use Rattle.sk_sorted.specs.Joined.{joined};

    ghost documents = { λ r. joined (map (λ i. i.live.documents) r.indexes.now) };

    fn value<L: Ledger>(&self, slot: u32, id: DocId, steps: &mut Steps<L>) -> &[u8] {
        let (index, own) = self.place(id);
        index.value(slot, own, steps)
    }

    fn payload<L: Ledger>(&self, id: DocId, steps: &mut Steps<L>) -> Option<&str> {
        let (index, own) = self.place(id);
        index.payload(own, steps)
    }
}
