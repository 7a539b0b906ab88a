//! The documents whose value in a slot lies in a range.
ghost use Rattle.std.specs.Prelude.{◌≡◌, ◌≤◌, ◌<◌, ◌+◌, ◌^◌, ℕ, length, IfSome, IfNone};
ghost use Rattle.sk_base.specs.declared.find.Scheme.{Scheme};
ghost use Rattle.sk_sorted.specs.Entries.{AreSorted};
ghost use Rattle.sk_values.specs.RangeCursor.{in_range};
ghost use Rattle.sk_index.specs.Indexed.{Indexed, slot_values};
ghost use Rattle.sk_nodes.specs.Accounts.{Spends};
ghost use Rattle.sk_nodes.specs.Leaves.{weighed, head_of};
ghost use Rattle.sk_nodes.specs.Shapes as Shapes;
ghost use Rattle.sk_nodes.specs.Shapes.{shape_of};
ghost use Rattle.sk_nodes.specs.Left.{unread_of};
ghost use Rattle.sk_nodes.specs.Sound.{IsTop, Lands, Sound};
ghost use Rattle.sk_nodes.specs.Begun.{Yields};
ghost use Rattle.sk_nodes.specs.RangeNode.{unweighed, range_entries, range_unread, IsRangeOn};
ghost use Rattle.sk_nodes.specs.RangeSkips.{RangeSkips, NodeSkips};

use crate::node::Node;
use crate::top::{END, Top};
use sk_base::{Bytes, SortKey};
use sk_decay::Head;
use sk_index::Index;
use sk_steps::Steps;
use sk_values::RangeCursor;
use std::sync::ledger::Ledger;

/// The list of a slot, and a place in it.
#[derive(Drop)]
pub struct RangeNode {
    slot: u32,
    cursor: RangeCursor,
}

impl RangeNode {
    /// A node on the first value in its range, with its top.
    pub fn open<L: Ledger>(
        top: &mut Top,
        index: &Index,
        slot: u32,
        lo: Option<Bytes>,
        hi: Option<Bytes>,
        spent: &mut u128,
        steps: &mut Steps<L>,
    ) -> RangeNode
        requires documents { AreSorted index.now.live.documents }
        requires room { spent.old + length (slot_values slot index.now.live.documents) < 2 ^ 128 }
        ensures yields { Yields index.now top.new (Shapes.range result) (weighed 0 Scheme.Bool (unweighed (in_range lo hi (slot_values slot index.now.live.documents)))) 0 }
        ensures spends { Spends (length (slot_values slot index.now.live.documents)) (range_unread index.now result) spent.old spent.new steps.old steps.new }
    {
        let list = index.values(slot);
        let range = RangeNode {
            slot,
            cursor: RangeCursor::open(list, lo, hi, steps),
        };
        *spent += u128::from(range.cursor.readings());
        range.show(top);
        range
    }

    /// Moves on to the first value in the range from the target on.
    pub(crate) fn seek<L: Ledger>(
        &mut self,
        top: &mut Top,
        index: &Index,
        target: Head,
        spent: &mut u128,
        steps: &mut Steps<L>,
    )
        requires sound { IsRangeOn index.now self.old }
        requires target { target < 2 ^ 32 }
        requires room { spent.old + range_unread index.now self.old < 2 ^ 128 }
        ensures lands { (need : ℕ) → Lands index.now target need (Shapes.range self.old) (Shapes.range self.new) top.new }
        ensures spends { Spends (range_unread index.now self.old) (range_unread index.now self.new) spent.old spent.new steps.old steps.new }
    {
        let list = index.values(self.slot);
        let read = self.cursor.seek(list, target as u32, steps);
        *spent += u128::from(read);
        self.show(top);
    }

    /// Moves past its first value, and past those behind it that are numbers and come behind another one in the order of the
    /// key. Answers how many, the first not counted; `None` where it has ended, is by another slot, or the other is no number,
    /// and then it stays.
    fn skip_behind<L: Ledger>(
        &mut self,
        top: &mut Top,
        index: &Index,
        key: SortKey,
        last: &[u8],
        spent: &mut u128,
        steps: &mut Steps<L>,
    ) -> Option<u32>
        requires sound { IsRangeOn index.now self.old }
        requires room { spent.old + range_unread index.now self.old < 2 ^ 128 }
        ensures none { IfNone result ((self.new ≡ self.old) × (top.new ≡ top.old)) }
        ensures some { IfSome result (λ count. RangeSkips index.now key last.now count self.old self.new top.new) }
        ensures spends { Spends (range_unread index.now self.old) (range_unread index.now self.new) spent.old spent.new steps.old steps.new }
    {
        if self.slot != key.slot {
            return None;
        }
        let list = index.values(self.slot);
        let before = self.cursor.readings();
        let count = self.cursor.skip_behind(list, last, key.reverse, steps)?;
        *spent += u128::from(self.cursor.readings() - before);
        self.show(top);
        Some(count)
    }

    /// Writes where it stands.
    fn show(&self, top: &mut Top)
        ensures top { (i : Indexed) → IsRangeOn i self.now → IsTop i top.new (Shapes.range self.now) }
        ensures at { (i : Indexed) → IsRangeOn i self.now → top.new.head ≡ head_of (range_entries i self.now) }
        ensures ceiling { top.new.greatest ≡ 0 }
    {
        let head = match self.cursor.head() {
            Some(id) => Head::from(id),
            None => END,
        };
        *top = Top {
            head,
            weight: 0,
            greatest: 0,
        };
    }
}

/// Moves a node that is a range by the key's slot past its first value, and past those behind it that are numbers and come behind
/// another one in the order of the key. Answers how many, the first not counted; `None` where it is no such range or has ended,
/// or the other is no number, and then it stays.
pub fn skip_behind<L: Ledger>(
    top: &mut Top,
    node: &mut Node,
    index: &Index,
    key: SortKey,
    last: &[u8],
    spent: &mut u128,
    steps: &mut Steps<L>,
) -> Option<u32>
    requires sound { Sound index.now (shape_of node.old) }
    requires room { spent.old + unread_of index.now (shape_of node.old) < 2 ^ 128 }
    ensures none { IfNone result ((node.new ≡ node.old) × (top.new ≡ top.old)) }
    ensures some { IfSome result (λ count. NodeSkips index.now key last.now count (shape_of node.old) (shape_of node.new) top.new) }
    ensures spends { Spends (unread_of index.now (shape_of node.old)) (unread_of index.now (shape_of node.new)) spent.old spent.new steps.old steps.new }
{
    match node {
        Node::Range(range) => range.skip_behind(top, index, key, last, spent, steps),
        _ => None,
    }
}
