//! What a tree leaves, and what it may leave.
ghost use Rattle.std.specs.Prelude.{◌≤◌};
ghost use Rattle.sk_tree.specs.Built.{IsTree};

use sk_base::{DocId, Weight};
use sk_index::Index;
use sk_steps::Steps;
use sk_tree::Tree;
use std::alloc::{AllocError, Global};
use std::sync::ledger::Ledger;

/// A document that is left, and its weight.
#[derive(Clone, Copy)]
pub(crate) struct Left {
    pub id: DocId,
    pub weight: Weight,
}

/// All that is left of a tree under a need.
pub(crate) fn left_of<L: Ledger>(
    alloc: Global,
    index: &Index,
    tree: &mut Tree,
    need: Weight,
    steps: &mut Steps<L>,
) -> Result<Vec<Left>, AllocError>
    requires tree { IsTree index.now tree.old }
    requires need { tree.old.need ≤ need }
{
    let mut left = Vec::new(alloc);
    'walk: for _ in 0..u32::MAX {
        let Some(id) = tree.head() else {
            return Ok(left);
        };
        left.push(Left {
            id,
            weight: tree.weight(),
        })?;
        if id == DocId::MAX {
            return Ok(left);
        }
        tree.seek(index, id + 1, need, steps);
    }
    Ok(left)
}

/// Whether the document has just this weight there.
fn has_weight(all: &[Left], id: DocId, weight: Weight) -> bool {
    all.iter().any(|one| one.id == id && one.weight == weight)
}

/// Whether the document lies from the target on, and weighs no less there.
pub(crate) fn was_left(all: &[Left], target: DocId, id: DocId, weight: Weight) -> bool {
    target <= id && all.iter().any(|one| one.id == id && weight <= one.weight)
}

/// Whether each document from the target on that weighs what is needed is left with its weight.
pub(crate) fn keeps_what_is_wanted(
    all: &[Left],
    left: &[Left],
    target: DocId,
    need: Weight,
) -> bool {
    all.iter().all(|one| one.id < target
        || one.weight < need
        || has_weight(left, one.id, one.weight))
}

/// Whether each document from the target to the first that is left weighs less than what is needed, or is that first
/// one, with its weight.
pub(crate) fn passes_what_is_unwanted(
    all: &[Left],
    first: Left,
    target: DocId,
    need: Weight,
) -> bool {
    all.iter().all(|one| {
        one.id < target
            || first.id < one.id
            || one.weight < need
            || (one.id == first.id && one.weight == first.weight)
    })
}
