//! How the node of a range is opened.
ghost use Rattle.std.specs.Prelude.{◌≡◌, ℕ, true, IfOk};
ghost use Rattle.sk_base.specs.declared.find.Scheme.{Scheme};
ghost use Rattle.sk_base.specs.Numbers.{slot_length_of};
ghost use Rattle.sk_query.specs.Trees as QueryTree;
ghost use Rattle.sk_query.specs.Trees.{limit_of};
ghost use Rattle.sk_model.specs.Ranges.{end_of, is_crossed};
ghost use Rattle.sk_tree.specs.Readings.{Pays, CountsReadings};
ghost use Rattle.sk_nodes.specs.Shapes.{shape_of};
ghost use Rattle.sk_nodes.specs.Left.{unread_of};
ghost use Rattle.sk_tree.specs.Opened.{CanRead, score_of, Opens};

use crate::words::raise;
use sk_base::{Bytes, number_bytes};
use sk_index::Index;
use sk_nodes::{Node, RangeNode, Top};
use sk_query::Bound;
use sk_steps::Steps;
use sk_weight::is_crossed;
use std::alloc::{AllocError, Global};
use std::sync::ledger::Ledger;

/// The node of a range: nothing, and no step, where the lower end lies above the upper one.
#[inline(never)]
pub(crate) fn open_range<L: Ledger>(
    alloc: Global,
    index: &Index,
    slot: u32,
    lo: &Bound,
    hi: &Bound,
    most: &mut u128,
    spent: &mut u128,
    steps: &mut Steps<L>,
) -> Result<(Top, Node), AllocError>
    requires can { CanRead index.now spent.old most.old }
    ensures opens { IfOk result (λ p. (scheme : Scheme) (factor : ℕ) → Opens index.now p.0 (shape_of p.1) (score_of (QueryTree.range slot (limit_of lo.now) (limit_of hi.now)) scheme factor) 0) }
    ensures pays { IfOk result (λ p. Pays spent.old spent.new most.old most.new (unread_of index.now (shape_of p.1)) (slot_length_of slot index.now.live.documents)) }
    ensures counts { CountsReadings spent.old spent.new steps.old steps.new most.new }
    ensures crossed { is_crossed (end_of (limit_of lo.now)) (end_of (limit_of hi.now)) ≡ true → steps.new ≡ steps.old }
{
    if is_crossed(lo, hi) {
        return Ok((Top::ended(), Node::Nothing));
    }
    let lo = end_bytes(alloc, lo)?;
    let hi = end_bytes(alloc, hi)?;
    raise(most, index.values(slot).length())?;
    let mut top = Top::ended();
    let range = RangeNode::open(&mut top, index, slot, lo, hi, spent, steps);
    Ok((top, Node::Range(range)))
}

/// The bytes of an end that is not open.
fn end_bytes(alloc: Global, bound: &Bound) -> Result<Option<Bytes>, AllocError>
    ensures { IfOk result (λ b. b ≡ end_of (limit_of bound.now)) }
{
    match bound {
        Bound::Unbounded => Ok(None),
        Bound::Number(n) => {
            let bytes = Bytes::new(alloc, &number_bytes(*n))?;
            Ok(Some(bytes))
        }
        Bound::Text(text) => {
            let bytes = Bytes::new(alloc, text.as_str().as_bytes())?;
            Ok(Some(bytes))
        }
    }
}
