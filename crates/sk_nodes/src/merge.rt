//! Many lists that are added up. One stands apart and is read only where it may matter; the others are moved one at a time, the
//! first one first.
ghost use Rattle.std.specs.Prelude.{◌≡◌, ◌≤◌, ◌<◌, ◌+◌, ◌^◌, ◌==◌, ℕ, IfOk, List, Option, length, min, slice_index_or, unwrap_or};
ghost use Rattle.sk_index.specs.Indexed.{Indexed};
ghost use Rattle.sk_model.specs.Combining.{either};
ghost use Rattle.sk_decay.specs.Heads.{IsHead};
ghost use Rattle.sk_buckets.specs.declared.mark.Mark.{Mark};
ghost use Rattle.sk_buckets.specs.Marks.{greatest_of};
ghost use Rattle.sk_nodes.specs.declared.leaf.Leaf.{Leaf};
ghost use Rattle.sk_nodes.specs.declared.wdfs.Wdfs.{Wdfs};
ghost use Rattle.sk_nodes.specs.Accounts.{Spends};
ghost use Rattle.sk_nodes.specs.Leaves.{IsLeafOn, leaf_rest, leaf_unread};
ghost use Rattle.sk_nodes.specs.Shapes.{Sides, leaf, side, or_many, shape_of, top_at, merged, gathered};
ghost use Rattle.sk_nodes.specs.Left.{rests, unread_in, greatest_sum};
ghost use Rattle.sk_nodes.specs.Sound.{IsTop, IsMany, AreSound};
ghost use Rattle.sk_nodes.specs.Skips.{WeighsBelow};
ghost use Rattle.sk_nodes.specs.Moved.{WasSought, Accounts};
ghost use Rattle.sk_nodes.specs.OrMany.{AreMoved};
ghost use Rattle.sk_nodes.specs.Merge.{ids_left, IsWithin};

use crate::leaf::{Block, Leaf};
use crate::node::Node;
use crate::top::{END, Top};
use crate::wdfs::Wdfs;
use sk_base::Weight;
use sk_buckets::{Buckets, Mark};
use sk_decay::Head;
use sk_index::Index;
use sk_steps::Steps;
use std::alloc::{AllocError, Global};
use std::sync::ledger::Ledger;

/// Many lists. The longest stands apart: where what the others weigh is known, a bound on it tells whether it has to be read.
#[derive(Drop)]
pub struct Merge {
    longest_top: Top,
    longest: Leaf,
    queue: Buckets,
    leaves: Vec<Wdfs>,
}

/// A top as a mark.
pub fn mark_of(top: &Top) -> Mark
    requires light { top.now.weight ≤ top.now.greatest }
    requires small { top.now.greatest < 2 ^ 32 }
    ensures { top_at result ≡ top.now }
{
    Mark {
        head: top.head,
        weight: top.weight as u32,
        greatest: top.greatest as u32,
    }
}

/// Where one of the lists stands.
#[inline(always)]
fn mark_at(queue: &Buckets, which: usize) -> Mark
    requires { which < length queue.now }
    ensures { (d : Mark) → result ≡ slice_index_or queue.now which d }
{
    queue.marks()[which]
}

/// Where the first of the lists in the queue stand, as a top, and one of them.
fn first_top(queue: &mut Buckets) -> (Top, usize)
    ensures same { queue.new ≡ queue.old }
    ensures top { (i : Indexed) (ls : List Wdfs) → AreSound i (merged queue.old ls) → IsTop i result.0 (or_many (merged queue.old ls)) }
    ensures bound { result.0.greatest ≤ greatest_of queue.old }
    ensures there { result.0.head < 2 ^ 32 → result.1 < length queue.old }
    ensures which { result.0.head < 2 ^ 32 → (d : Mark) → (slice_index_or queue.old result.1 d).head ≡ result.0.head }
{
    let first = queue.first();
    if first.head >= END {
        return (Top::ended(), first.which);
    }
    let top = Top {
        head: first.head,
        weight: Weight::from(first.weight),
        greatest: Weight::from(queue.greatest()),
    };
    (top, first.which)
}

/// Where one list and others begin together.
#[inline(always)]
fn meet(one: &Top, others: &Top) -> Top
    requires weight { one.now.weight + others.now.weight < 2 ^ 128 }
    requires greatest { one.now.greatest + others.now.greatest < 2 ^ 127 }
    ensures top { (i : Indexed) (l : Leaf) (ss : Sides) → AreSound i (side one.now (leaf l) ss) → IsTop i others.now (or_many ss) → IsTop i result (or_many (side one.now (leaf l) ss)) }
    ensures head { result.head ≡ min one.now.head others.now.head }
    ensures bound { result.greatest ≤ one.now.greatest + others.now.greatest }
{
    if one.head < others.head {
        return Top {
            head: one.head,
            weight: one.weight,
            greatest: one.greatest + others.greatest,
        };
    }
    let weight = if one.head == others.head {
        one.weight
    } else {
        0
    };
    Top {
        head: others.head,
        weight: weight + others.weight,
        greatest: one.greatest + others.greatest,
    }
}

/// The first id from this one on where the lists may weigh what is needed, as far as the block tells of the longest, and the
/// head of the others of them.
#[inline(always)]
fn first_enough(from: Head, others: &Top, block: Block, need: Weight) -> Head
    requires from { from < 2 ^ 32 }
    requires others { from ≤ others.now.head }
    requires block { from ≤ block.last }
    requires last { block.last < 2 ^ 32 }
    requires fits { others.now.weight + block.greatest < 2 ^ 128 }
    ensures later { from ≤ result }
    ensures within { result < 2 ^ 32 }
    ensures unneeded { need ≡ 0 → result ≡ from }
    ensures light { (f g : ℕ → Option ℕ) → ((id : ℕ) → from ≤ id → id ≤ block.last → unwrap_or (f id) 0 ≤ block.greatest) → IsHead others.now.head others.now.weight g
        → (id : ℕ) → from ≤ id → id < result → WeighsBelow need (either (f id) (g id)) }
{
    if need <= block.greatest {
        return from;
    }
    if block.last < others.head {
        return (block.last + 1).min(END - 1);
    }
    if need <= others.weight + block.greatest {
        return others.head;
    }
    (others.head + 1).min(END - 1)
}

/// A bound on what the longest can weigh from an id on: the one that is known, as far as it tells of that.
#[inline(always)]
fn block_from(longest: &Leaf, index: &Index, from: Head, known: Block) -> Block
    requires sound { IsLeafOn index.now longest.now }
    requires from { from < 2 ^ 32 }
    requires small { known.last < 2 ^ 32 }
    requires fits { known.greatest < 2 ^ 126 }
    ensures reached { from ≤ result.last }
    ensures small { result.last < 2 ^ 32 }
    ensures fits { result.greatest < 2 ^ 126 }
    ensures bound { IsWithin index.now longest.now from known → IsWithin index.now longest.now from result }
{
    if from <= known.last {
        return known;
    }
    longest.block_max(index, from)
}

/// Moves the longest on where it stands before an id.
#[inline(always)]
fn reach_longest<L: Ledger>(
    longest_top: &mut Top,
    longest: &mut Leaf,
    index: &Index,
    from: Head,
    spent: &mut u128,
    steps: &mut Steps<L>,
)
    requires top { IsTop index.now longest_top.old (leaf longest.old) }
    requires sound { IsLeafOn index.now longest.old }
    requires from { from < 2 ^ 32 }
    requires room { spent.old + leaf_unread index.now longest.old < 2 ^ 128 }
    ensures reached { from ≤ longest_top.new.head }
    ensures same { (id : ℕ) → from ≤ id → leaf_rest index.now longest.new id ≡ leaf_rest index.now longest.old id }
    ensures moved { (ss : Sides) → AreSound index.now ss → AreMoved index.now from spent.old spent.new (side longest_top.old (leaf longest.old) ss) (side longest_top.new (leaf longest.new) ss) }
    ensures spends { Spends (leaf_unread index.now longest.old) (leaf_unread index.now longest.new) spent.old spent.new steps.old steps.new }
{
    if longest_top.head < from {
        longest.step(longest_top, index, from, spent, steps);
    }
}

/// A node of many lists, each opened, with its top: one of them apart, the others with their marks beside them. Nothing is
/// read.
pub fn merge_of(
    alloc: Global,
    index: &Index,
    longest_top: Top,
    longest: Leaf,
    marks: Vec<Mark>,
    leaves: Vec<Wdfs>,
) -> Result<(Top, Node), AllocError>
    requires sound { AreSound index.now (side longest_top (leaf longest) (merged marks.items leaves.items)) }
    requires few { length marks.items < 2 ^ 32 }
    requires fits { greatest_sum (side longest_top (leaf longest) (merged marks.items leaves.items)) < 2 ^ 63 }
    ensures shape { IfOk result (λ p. shape_of p.1 ≡ or_many (side longest_top (leaf longest) (merged marks.items leaves.items))) }
    ensures top { IfOk result (λ p. IsTop index.now p.0 (or_many (side longest_top (leaf longest) (merged marks.items leaves.items)))) }
    ensures bound { IfOk result (λ p. p.0.greatest ≤ greatest_sum (side longest_top (leaf longest) (merged marks.items leaves.items))) }
{
    let mut queue = Buckets::new(alloc, marks)?;
    let first = first_top(&mut queue);
    let top = meet(&longest_top, &first.0);
    let merge = Box::new(
        alloc,
        Merge {
            longest_top,
            longest,
            queue,
            leaves,
        },
    )?;
    Ok((top, Node::Merge(merge)))
}

/// Moves many lists on to the first id from the target on where what they weigh together is enough. Those in the queue move one
/// at a time, the first one first, each read no further than its head; the longest moves where they may be enough with it.
pub(crate) fn seek_merge<L: Ledger>(
    top: &mut Top,
    merge: &mut Merge,
    index: &Index,
    target: Head,
    need: Weight,
    spent: &mut u128,
    steps: &mut Steps<L>,
)
    requires sides { IsMany (gathered merge.old) (AreSound index.now (gathered merge.old)) }
    requires target { target < 2 ^ 32 }
    requires room { spent.old + unread_in index.now (gathered merge.old) < 2 ^ 128 }
    ensures sought { WasSought index.now target need (greatest_sum (gathered merge.old)) spent.old spent.new steps.old steps.new (or_many (gathered merge.old)) (or_many (gathered merge.new)) top.new }
    ensures accounts { Accounts index.now target need spent.old spent.new (or_many (gathered merge.old)) (or_many (gathered merge.new)) }
{
    let mut from = target;
    let mut block = merge.longest.block_max(index, from);
    'lists: loop {
        let (first, which) = first_top(&mut merge.queue);
        if first.head < from {
            move_on(
                &mut merge.queue,
                &mut merge.leaves,
                which,
                index,
                from,
                spent,
                steps,
            );
            continue;
        }
        block = block_from(&merge.longest, index, from, block);
        let enough = first_enough(from, &first, block, need);
        if from < enough {
            from = enough;
            continue;
        }
        reach_longest(
            &mut merge.longest_top,
            &mut merge.longest,
            index,
            from,
            spent,
            steps,
        );
        let met = meet(&merge.longest_top, &first);
        if need <= met.weight || END - 1 <= met.head {
            *top = met;
            return;
        }
        // What stands there weighs too little.
        from = met.head + 1;
    }
}

/// Moves one list on that stands before the target.
#[inline(always)]
fn move_on<L: Ledger>(
    queue: &mut Buckets,
    leaves: &mut [Wdfs],
    which: usize,
    index: &Index,
    target: Head,
    spent: &mut u128,
    steps: &mut Steps<L>,
)
    requires sides { IsMany (merged queue.old leaves.old) (AreSound index.now (merged queue.old leaves.old)) }
    requires which { which < length queue.old }
    requires leaf { which < length leaves.old }
    requires below { (d : Mark) → (slice_index_or queue.old which d).head < target }
    requires target { target < 2 ^ 32 }
    requires room { spent.old + unread_in index.now (merged queue.old leaves.old) < 2 ^ 128 }
    ensures moved { AreMoved index.now target spent.old spent.new (merged queue.old leaves.old) (merged queue.new leaves.new) }
    ensures same { (id : ℕ) → target ≤ id → rests index.now (merged queue.new leaves.new) id ≡ rests index.now (merged queue.old leaves.old) id }
    ensures spends { Spends (unread_in index.now (merged queue.old leaves.old)) (unread_in index.now (merged queue.new leaves.new)) spent.old spent.new steps.old steps.new }
    ensures later { ids_left queue.new < ids_left queue.old }
{
    let mut mark = mark_at(queue, which);
    leaves[which].step(&mut mark, index, target, spent, steps);
    queue.set(which, mark);
}
