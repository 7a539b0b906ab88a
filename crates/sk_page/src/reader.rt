//! What a page reads of documents.
ghost use Rattle.std.specs.Prelude.{◌≡◌, ◌≤◌, ◌+◌, [], length, map, IfOk};
ghost use Rattle.std.specs.Option.{option_map};
ghost use Rattle.sk_base.specs.Numbers.{Docs};
ghost use Rattle.sk_model.specs.Allowance.{key_readings, value_readings};
ghost use Rattle.sk_model.specs.Edits.{document_at};
ghost use Rattle.sk_model.specs.Matches.{key_for};
ghost use Rattle.sk_page.specs.Hits.{value_in_slot, value_in_order};

use sk_base::{Collapse, DocId, OrderBy};
use sk_steps::Steps;
use std::sync::ledger::Ledger;

/// Documents of which a value and a payload are read by id, each in one step.
pub trait Reader {
    /// The documents, by rising id.
    ghost documents: { Self → Docs };

    /// The document's value in the slot, empty where it has none.
    fn value<L: Ledger>(&self, slot: u32, id: DocId, steps: &mut Steps<L>) -> &[u8]
        ensures value { result.now ≡ value_in_slot slot (document_at id (documents self.now)) }
        ensures cost { steps.new ≡ steps.old + 1 };

    /// The document's payload, none where it is not live.
    fn payload<L: Ledger>(&self, id: DocId, steps: &mut Steps<L>) -> Option<&str>
        ensures value { option_map (λ s. s.now) result ≡ option_map (λ d. d.payload) (document_at id (documents self.now)) }
        ensures cost { steps.new ≡ steps.old + 1 };
}

/// The value that an order reads of a document, which is one reading where it reads one.
pub(crate) fn value_of<'a, R: Reader, L: Ledger>(
    reader: &'a R,
    by: OrderBy,
    id: DocId,
    steps: &mut Steps<L>,
) -> &'a [u8]
    ensures value { result.now ≡ value_in_order by (document_at id (R.documents reader.now)) }
    ensures cost { steps.new ≡ steps.old + value_readings by 1 }
{
    let key = match by {
        OrderBy::Relevance => return &[],
        OrderBy::Value(key) => key,
        OrderBy::ValueThenRelevance(key) => key,
        OrderBy::RelevanceThenValue(key) => key,
    };
    reader.value(key.slot, id, steps)
}

/// The key that a document is collapsed on, which is one reading where something is collapsed.
pub(crate) fn key_of<'a, R: Reader, L: Ledger>(
    reader: &'a R,
    collapse: Option<Collapse>,
    id: DocId,
    steps: &mut Steps<L>,
) -> &'a [u8]
    ensures key { result.now ≡ key_for collapse (document_at id (R.documents reader.now)) }
    ensures cost { steps.new ≡ steps.old + key_readings collapse 1 }
{
    match collapse {
        Some(collapse) => reader.value(collapse.slot, id, steps),
        None => &[],
    }
}
