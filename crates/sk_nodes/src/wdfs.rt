//! The entries of one of many lists, each of which weighs its wdf.
ghost use Rattle.std.specs.Prelude.{◌≡◌, ◌≤◌, ◌<◌, ◌+◌, ◌^◌, ℕ};
ghost use Rattle.sk_lists.specs.Seeks.{count_to};
ghost use Rattle.sk_index.specs.Indexed.{Indexed};
ghost use Rattle.sk_nodes.specs.Accounts.{Spends};
ghost use Rattle.sk_nodes.specs.Leaves.{leaf_unread, entries_of, head_of, IsLeafOn};
ghost use Rattle.sk_nodes.specs.Sound.{IsTop, Lands};
ghost use Rattle.sk_nodes.specs.Shapes.{leaf, leaf_at, top_at};
ghost use Rattle.sk_nodes.specs.Led.{Walks};

use crate::leaf::Leaf;
use sk_buckets::{END, Mark};
use sk_decay::Head;
use sk_index::Index;
use sk_lists::Cursor;
use sk_steps::Steps;
use std::sync::ledger::Ledger;

/// The entries of a term's list from one on, each of which weighs its wdf. Its mark, which is kept beside it, tells where it
/// stands and what it can weigh: of many lists that are moved in turn, each is as small as it can be.
#[derive(Drop)]
pub struct Wdfs {
    number: usize,
    cursor: Cursor,
}

impl Wdfs {
    /// The entries of this leaf, of the term with this number.
    pub fn of(leaf: Leaf, number: usize) -> Wdfs
        ensures { result ≡ record { number = number; cursor = leaf.cursor } }
    {
        Wdfs {
            number,
            cursor: leaf.into_cursor(),
        }
    }

    /// Moves on from its head, which lies below the target, to the first entry from the target on.
    #[inline(always)]
    pub(crate) fn step<L: Ledger>(
        &mut self,
        mark: &mut Mark,
        index: &Index,
        target: Head,
        spent: &mut u128,
        steps: &mut Steps<L>,
    )
        requires sound { IsLeafOn index.now (leaf_at mark.old self.old) }
        requires top { IsTop index.now (top_at mark.old) (leaf (leaf_at mark.old self.old)) }
        requires below { mark.old.head < target }
        requires target { target < 2 ^ 32 }
        requires room { spent.old + leaf_unread index.now (leaf_at mark.old self.old) < 2 ^ 128 }
        ensures lands { Lands index.now target 0 (leaf (leaf_at mark.old self.old)) (leaf (leaf_at mark.new self.new)) (top_at mark.new) }
        ensures walks { Walks index.now target spent.old spent.new (leaf_at mark.old self.old) (leaf_at mark.new self.new) }
        ensures falls { mark.new.greatest ≤ mark.old.greatest }
        ensures moves { (point : ℕ) → target ≤ point + 1 → spent.new + count_to point (entries_of index.now (leaf_at mark.new self.new)) ≤ spent.old + count_to point (entries_of index.now (leaf_at mark.old self.old)) }
        ensures spends { Spends (leaf_unread index.now (leaf_at mark.old self.old)) (leaf_unread index.now (leaf_at mark.new self.new)) spent.old spent.new steps.old steps.new }
    {
        let list = index.list(self.number);
        let read = self.cursor.advance(list, target as u32, 0, steps);
        *spent += u128::from(read);
        self.point(mark);
    }

    /// Writes the head and its wdf. What it can weigh is nothing at the end, and stays before that.
    #[inline(always)]
    fn point(&self, mark: &mut Mark)
        ensures top { (i : Indexed) → IsLeafOn i (leaf_at mark.old self.now) → IsTop i (top_at mark.new) (leaf (leaf_at mark.new self.now)) }
        ensures sound { (i : Indexed) → IsLeafOn i (leaf_at mark.old self.now) → IsLeafOn i (leaf_at mark.new self.now) }
        ensures at { (i : Indexed) → IsLeafOn i (leaf_at mark.old self.now) → mark.new.head ≡ head_of (entries_of i (leaf_at mark.old self.now)) }
        ensures falls { mark.new.greatest ≤ mark.old.greatest }
    {
        let wdf = self.cursor.wdf();
        match self.cursor.head() {
            Some(id) => {
                mark.head = Head::from(id);
                mark.weight = wdf;
            }
            None => {
                mark.head = END;
                mark.weight = 0;
                mark.greatest = 0;
            }
        }
    }
}
