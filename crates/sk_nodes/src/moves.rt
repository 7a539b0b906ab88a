//! How nodes move on.
ghost use Rattle.std.specs.Prelude.{◌≡◌, ◌≤◌, ◌<◌, ◌+◌, ◌^◌, ℕ};
ghost use Rattle.sk_model.specs.Weights.{weigh_by};
ghost use Rattle.sk_decay.specs.Sides.{greatest_under};
ghost use Rattle.sk_nodes.specs.Accounts.{Spends};
ghost use Rattle.sk_nodes.specs.Shapes.{pair, xor_many, or_many, positional, synonym, shape_of, sides_on, sizes_in};
ghost use Rattle.sk_nodes.specs.Left.{unread_of, unread_in, greatest_sum, greatest_held};
ghost use Rattle.sk_nodes.specs.Sound.{IsTop, IsPair, IsMany, IsPositional, IsSynonym, Sound, AreSound};
ghost use Rattle.sk_nodes.specs.Moved.{WasSought, Accounts, SeekAccounts, ReachAccounts};
ghost use Rattle.sk_nodes.specs.Many.{AreSought, AreFrom};
ghost use Rattle.sk_nodes.specs.OrMany.{AreMoved, HaveLed, AreWeighed, AreEnded};
ghost use Rattle.sk_nodes.specs.Proximity.{entries_unread};

use crate::many::{FEW, sides_greatest, sum_of};
use crate::merge::seek_merge;
use crate::node::{Node, put, settle};
use crate::or_many::{first_of, weight_at};
use crate::proximity::Proximity;
use crate::skip::skip;
use crate::top::{END, Top};
use crate::xor_many::xor_meeting;
use sk_base::{Scheme, Weight};
use sk_decay::{Head, Meeting, first_need, greatest_under, meeting_of, second_need, second_target};
use sk_index::Index;
use sk_query::Form;
use sk_steps::Steps;
use sk_weight::need_wdf;
use std::sync::ledger::Ledger;

/// Moves a node on that stands before the target. A leaf, as most nodes are, moves on with no call.
#[cycle(seek)]
#[inline(always)]
pub fn reach<L: Ledger>(
    top: &mut Top,
    node: &mut Node,
    index: &Index,
    target: Head,
    need: Weight,
    spent: &mut u128,
    steps: &mut Steps<L>,
)
    requires top { IsTop index.now top.old (shape_of node.old) }
    requires sound { Sound index.now (shape_of node.old) }
    requires target { target < 2 ^ 32 }
    requires room { spent.old + unread_of index.now (shape_of node.old) < 2 ^ 128 }
    ensures sought { WasSought index.now target need top.old.greatest spent.old spent.new steps.old steps.new (shape_of node.old) (shape_of node.new) top.new }
    ensures accounts { ReachAccounts index.now target need spent.old spent.new (shape_of node.old) (shape_of node.new) top.old top.new }
{
    if target <= top.head {
        return;
    }
    if top.greatest < need {
        give_up(top, node);
        return;
    }
    match node {
        Node::Leaf(leaf) => leaf.advance(top, index, target, need, spent, steps),
        _ => reach_inner(top, node, index, target, need, spent, steps),
    }
}

/// Leaves nothing of a node.
#[inline(never)]
fn give_up(top: &mut Top, node: &mut Node)
    ensures node { node.new ≡ Node.Nothing }
    ensures top { top.new ≡ record { head = 2 ^ 32; weight = 0; greatest = 0 } }
{
    put(node, Node::Nothing);
    *top = Top::ended();
}

/// The same by a call, of a node that can weigh what is needed.
#[cycle(seek)]
#[inline(never)]
fn reach_inner<L: Ledger>(
    top: &mut Top,
    node: &mut Node,
    index: &Index,
    target: Head,
    need: Weight,
    spent: &mut u128,
    steps: &mut Steps<L>,
)
    requires below { top.old.head < target }
    requires enough { need ≤ top.old.greatest }
    requires top { IsTop index.now top.old (shape_of node.old) }
    requires sound { Sound index.now (shape_of node.old) }
    requires target { target < 2 ^ 32 }
    requires room { spent.old + unread_of index.now (shape_of node.old) < 2 ^ 128 }
    ensures sought { WasSought index.now target need top.old.greatest spent.old spent.new steps.old steps.new (shape_of node.old) (shape_of node.new) top.new }
    ensures accounts { ReachAccounts index.now target need spent.old spent.new (shape_of node.old) (shape_of node.new) top.old top.new }
{
    let before = top.greatest;
    settle(node, need);
    seek(top, node, index, target, need, spent, steps);
    top.greatest = top.greatest.min(before);
}

/// Moves a node on to its first match from the target on.
#[cycle(seek)]
#[inline(always)]
fn seek<L: Ledger>(
    top: &mut Top,
    node: &mut Node,
    index: &Index,
    target: Head,
    need: Weight,
    spent: &mut u128,
    steps: &mut Steps<L>,
)
    requires sound { Sound index.now (shape_of node.old) }
    requires target { target < 2 ^ 32 }
    requires room { spent.old + unread_of index.now (shape_of node.old) < 2 ^ 128 }
    ensures sought { WasSought index.now target need (greatest_held (shape_of node.old)) spent.old spent.new steps.old steps.new (shape_of node.old) (shape_of node.new) top.new }
    ensures accounts { SeekAccounts index.now target need spent.old spent.new (shape_of node.old) (shape_of node.new) top.new }
{
    match node {
        Node::Nothing => *top = Top::ended(),
        Node::Leaf(leaf) => leaf.seek(top, index, target, need, spent, steps),
        Node::Range(range) => range.seek(top, index, target, spent, steps),
        Node::Pair(form, ta, a, tb, b) => seek_sides(
            top, *form, ta, a, tb, b, index, target, need, spent, steps,
        ),
        Node::XorMany(tops, nodes) => seek_xor_many(top, tops, nodes, index, target, spent, steps),
        Node::OrMany(tops, nodes) => seek_or_many(
            top, tops, nodes, index, target, need, spent, steps,
        ),
        Node::Merge(merge) => seek_merge(top, merge, index, target, need, spent, steps),
        Node::Positional(test, below, node) => seek_positional(
            top, test, below, node, index, target, need, spent, steps,
        ),
        Node::Synonym(scheme, factor, below, node) => seek_synonym(
            top, *scheme, *factor, below, node, index, target, need, spent, steps,
        ),
    }
}

/// Moves two sides on to their first match from the target on.
#[cycle(seek)]
#[inline(always)]
pub(crate) fn seek_pair<L: Ledger>(
    top: &mut Top,
    form: Form,
    ta: &mut Top,
    a: &mut Node,
    tb: &mut Top,
    b: &mut Node,
    index: &Index,
    target: Head,
    need: Weight,
    spent: &mut u128,
    steps: &mut Steps<L>,
)
    requires pair { IsPair index.now ta.old (shape_of a.old) tb.old (shape_of b.old) (Sound index.now (shape_of a.old)) (Sound index.now (shape_of b.old)) }
    requires target { target < 2 ^ 32 }
    requires room { spent.old + (unread_of index.now (shape_of a.old) + unread_of index.now (shape_of b.old)) < 2 ^ 128 }
    ensures sought { WasSought index.now target need (greatest_under form ta.old.greatest tb.old.greatest) spent.old spent.new steps.old steps.new (pair form ta.old (shape_of a.old) tb.old (shape_of b.old)) (pair form ta.new (shape_of a.new) tb.new (shape_of b.new)) top.new }
    ensures accounts { SeekAccounts index.now target need spent.old spent.new (pair form ta.old (shape_of a.old) tb.old (shape_of b.old)) (pair form ta.new (shape_of a.new) tb.new (shape_of b.new)) top.new }
{
    let mut from = skip(form, a, b, index, target, need);
    'sides: loop {
        reach(
            ta,
            a,
            index,
            from,
            first_need(form, need, tb.greatest),
            spent,
            steps,
        );
        let next = second_target(form, from, ta.head);
        if next >= END {
            *top = Top::ended();
            return;
        }
        reach(
            tb,
            b,
            index,
            next,
            second_need(form, need, ta.greatest),
            spent,
            steps,
        );
        match meeting_of(form, ta.head, ta.weight, tb.head, tb.weight) {
            Meeting::At(head, weight) => {
                top.head = head;
                top.weight = weight;
                top.greatest = greatest_at(form, head, ta.greatest, tb.greatest);
                return;
            }
            Meeting::Behind(further) => from = skip(form, a, b, index, further, need),
        }
    }
}

/// The same by the form, so that a copy of the loop is made for each of the commonest.
#[cycle(seek)]
#[inline(always)]
fn seek_sides<L: Ledger>(
    top: &mut Top,
    form: Form,
    ta: &mut Top,
    a: &mut Node,
    tb: &mut Top,
    b: &mut Node,
    index: &Index,
    target: Head,
    need: Weight,
    spent: &mut u128,
    steps: &mut Steps<L>,
)
    requires pair { IsPair index.now ta.old (shape_of a.old) tb.old (shape_of b.old) (Sound index.now (shape_of a.old)) (Sound index.now (shape_of b.old)) }
    requires target { target < 2 ^ 32 }
    requires room { spent.old + (unread_of index.now (shape_of a.old) + unread_of index.now (shape_of b.old)) < 2 ^ 128 }
    ensures sought { WasSought index.now target need (greatest_under form ta.old.greatest tb.old.greatest) spent.old spent.new steps.old steps.new (pair form ta.old (shape_of a.old) tb.old (shape_of b.old)) (pair form ta.new (shape_of a.new) tb.new (shape_of b.new)) top.new }
    ensures accounts { SeekAccounts index.now target need spent.old spent.new (pair form ta.old (shape_of a.old) tb.old (shape_of b.old)) (pair form ta.new (shape_of a.new) tb.new (shape_of b.new)) top.new }
{
    match form {
        Form::Or => seek_pair(
            top,
            Form::Or,
            ta,
            a,
            tb,
            b,
            index,
            target,
            need,
            spent,
            steps,
        ),
        Form::And => seek_pair(
            top,
            Form::And,
            ta,
            a,
            tb,
            b,
            index,
            target,
            need,
            spent,
            steps,
        ),
        _ => seek_pair(top, form, ta, a, tb, b, index, target, need, spent, steps),
    }
}

/// What a node of two sides can weigh: nothing at the end.
fn greatest_at(form: Form, head: Head, a: Weight, b: Weight) -> Weight
    requires { a + b < 2 ^ 127 }
    ensures there { head < 2 ^ 32 → result ≡ greatest_under form a b }
    ensures ended { head ≡ 2 ^ 32 → result ≡ 0 }
    ensures bound { result ≤ greatest_under form a b }
{
    if head >= END {
        return 0;
    }
    greatest_under(form, a, b)
}

/// Moves the sides of an xor on to its first match from the target on. It may be lighter than is needed.
#[cycle(seek)]
pub(crate) fn seek_xor_many<L: Ledger>(
    top: &mut Top,
    tops: &mut [Top],
    nodes: &mut [Node],
    index: &Index,
    target: Head,
    spent: &mut u128,
    steps: &mut Steps<L>,
)
    requires sides { IsMany (sides_on tops.old nodes.old) (AreSound index.now (sides_on tops.old nodes.old)) }
    requires target { target < 2 ^ 32 }
    requires room { spent.old + unread_in index.now (sides_on tops.old nodes.old) < 2 ^ 128 }
    ensures { (need : ℕ) → WasSought index.now target need (greatest_sum (sides_on tops.old nodes.old)) spent.old spent.new steps.old steps.new (xor_many (sides_on tops.old nodes.old)) (xor_many (sides_on tops.new nodes.new)) top.new }
{
    let mut from = target;
    'all: loop {
        reach_all(tops, nodes, index, from, spent, steps);
        match xor_meeting(tops, nodes) {
            Meeting::At(head, weight) => {
                top.head = head;
                top.weight = weight;
                top.greatest = sides_greatest(head, tops, nodes);
                return;
            }
            Meeting::Behind(further) => from = further,
        }
    }
}

/// Moves the sides of an or of many sides on to its first match from the target on.
#[cycle(seek)]
pub(crate) fn seek_or_many<L: Ledger>(
    top: &mut Top,
    tops: &mut [Top],
    nodes: &mut [Node],
    index: &Index,
    target: Head,
    need: Weight,
    spent: &mut u128,
    steps: &mut Steps<L>,
)
    requires sides { IsMany (sides_on tops.old nodes.old) (AreSound index.now (sides_on tops.old nodes.old)) }
    requires target { target < 2 ^ 32 }
    requires room { spent.old + unread_in index.now (sides_on tops.old nodes.old) < 2 ^ 128 }
    ensures sought { WasSought index.now target need (greatest_sum (sides_on tops.old nodes.old)) spent.old spent.new steps.old steps.new (or_many (sides_on tops.old nodes.old)) (or_many (sides_on tops.new nodes.new)) top.new }
    ensures accounts { Accounts index.now target need spent.old spent.new (or_many (sides_on tops.old nodes.old)) (or_many (sides_on tops.new nodes.new)) }
{
    if need == 0 {
        seek_all(top, tops, nodes, index, target, spent, steps);
        return;
    }
    seek_some(top, tops, nodes, index, target, need, spent, steps);
}

/// The same where all sides are sought: what they begin with together is the first match, whatever it weighs.
#[cycle(seek)]
fn seek_all<L: Ledger>(
    top: &mut Top,
    tops: &mut [Top],
    nodes: &mut [Node],
    index: &Index,
    target: Head,
    spent: &mut u128,
    steps: &mut Steps<L>,
)
    requires sides { IsMany (sides_on tops.old nodes.old) (AreSound index.now (sides_on tops.old nodes.old)) }
    requires target { target < 2 ^ 32 }
    requires room { spent.old + unread_in index.now (sides_on tops.old nodes.old) < 2 ^ 128 }
    ensures sought { (need : ℕ) → WasSought index.now target need (greatest_sum (sides_on tops.old nodes.old)) spent.old spent.new steps.old steps.new (or_many (sides_on tops.old nodes.old)) (or_many (sides_on tops.new nodes.new)) top.new }
    ensures accounts { (need : ℕ) → Accounts index.now target need spent.old spent.new (or_many (sides_on tops.old nodes.old)) (or_many (sides_on tops.new nodes.new)) }
{
    reach_all(tops, nodes, index, target, spent, steps);
    let first = first_of(tops, nodes, END, 0);
    top.head = first.head;
    top.weight = first.weight;
    top.greatest = sides_greatest(first.head, tops, nodes);
}

/// The same where something is needed. The sides that lead are sought, and where the first of them begins all others
/// are, as long as what is known of that document may be enough.
#[cycle(seek)]
fn seek_some<L: Ledger>(
    top: &mut Top,
    tops: &mut [Top],
    nodes: &mut [Node],
    index: &Index,
    target: Head,
    need: Weight,
    spent: &mut u128,
    steps: &mut Steps<L>,
)
    requires needed { 0 < need }
    requires sides { IsMany (sides_on tops.old nodes.old) (AreSound index.now (sides_on tops.old nodes.old)) }
    requires target { target < 2 ^ 32 }
    requires room { spent.old + unread_in index.now (sides_on tops.old nodes.old) < 2 ^ 128 }
    ensures sought { WasSought index.now target need (greatest_sum (sides_on tops.old nodes.old)) spent.old spent.new steps.old steps.new (or_many (sides_on tops.old nodes.old)) (or_many (sides_on tops.new nodes.new)) top.new }
    ensures accounts { Accounts index.now target need spent.old spent.new (or_many (sides_on tops.old nodes.old)) (or_many (sides_on tops.new nodes.new)) }
{
    let most = sum_of(tops, nodes);
    let mut from = target;
    'matches: loop {
        let head = lead(tops, nodes, index, from, need, most, END, spent, steps);
        if head >= END {
            end_sides(top, tops, nodes);
            return;
        }
        let weight = weigh(tops, nodes, index, head, need, most, 0, spent, steps);
        if weight >= need {
            top.head = head;
            top.weight = weight;
            top.greatest = sides_greatest(head, tops, nodes);
            return;
        }
        from = head + 1;
        if from >= END {
            end_sides(top, tops, nodes);
            return;
        }
    }
}

/// Moves the sides on that lead: those that with all behind them may weigh what is needed. It answers where the first of
/// them begins, or the last id that was known before. All together weigh no more than `most`.
#[cycle(seek)]
fn lead<L: Ledger>(
    tops: &mut [Top],
    nodes: &mut [Node],
    index: &Index,
    from: Head,
    need: Weight,
    most: Weight,
    last: Head,
    spent: &mut u128,
    steps: &mut Steps<L>,
) -> Head
    requires sound { AreSound index.now (sides_on tops.old nodes.old) }
    requires from { from < 2 ^ 32 }
    requires room { spent.old + unread_in index.now (sides_on tops.old nodes.old) < 2 ^ 128 }
    requires most { greatest_sum (sides_on tops.old nodes.old) ≤ most }
    requires last { from ≤ last }
    ensures moved { AreMoved index.now from spent.old spent.new (sides_on tops.old nodes.old) (sides_on tops.new nodes.new) }
    ensures led { HaveLed index.now need from last result (sides_on tops.old nodes.old) (sides_on tops.new nodes.new) }
    ensures spends { Spends (unread_in index.now (sides_on tops.old nodes.old)) (unread_in index.now (sides_on tops.new nodes.new)) spent.old spent.new steps.old steps.new }
{
    if most < need {
        return last;
    }
    if let Some((top, tops)) = tops.split_first_mut() {
        if let Some((node, nodes)) = nodes.split_first_mut() {
            let behind = most - top.greatest;
            reach(top, node, index, from, 0, spent, steps);
            return lead(
                tops,
                nodes,
                index,
                from,
                need,
                behind,
                last.min(top.head),
                spent,
                steps,
            );
        }
    }
    last
}

/// Moves all sides to an id, and answers what they and the others weigh there; or a part of it, once the whole is known to
/// be less than is needed.
#[cycle(seek)]
fn weigh<L: Ledger>(
    tops: &mut [Top],
    nodes: &mut [Node],
    index: &Index,
    id: Head,
    need: Weight,
    most: Weight,
    others: Weight,
    spent: &mut u128,
    steps: &mut Steps<L>,
) -> Weight
    requires sound { AreSound index.now (sides_on tops.old nodes.old) }
    requires id { id < 2 ^ 32 }
    requires room { spent.old + unread_in index.now (sides_on tops.old nodes.old) < 2 ^ 128 }
    requires most { greatest_sum (sides_on tops.old nodes.old) ≤ most }
    requires fits { others + most < 2 ^ 127 }
    ensures moved { AreMoved index.now id spent.old spent.new (sides_on tops.old nodes.old) (sides_on tops.new nodes.new) }
    ensures weighed { AreWeighed index.now need id others result (sides_on tops.old nodes.old) (sides_on tops.new nodes.new) }
    ensures spends { Spends (unread_in index.now (sides_on tops.old nodes.old)) (unread_in index.now (sides_on tops.new nodes.new)) spent.old spent.new steps.old steps.new }
{
    if others + most < need {
        return others;
    }
    if let Some((top, tops)) = tops.split_first_mut() {
        if let Some((node, nodes)) = nodes.split_first_mut() {
            let behind = most - top.greatest;
            reach(top, node, index, id, 0, spent, steps);
            return weigh(
                tops,
                nodes,
                index,
                id,
                need,
                behind,
                others + weight_at(top, id),
                spent,
                steps,
            );
        }
    }
    others
}

/// Leaves nothing of all sides.
fn end_sides(top: &mut Top, tops: &mut [Top], nodes: &mut [Node])
    ensures top { top.new ≡ record { head = 2 ^ 32; weight = 0; greatest = 0 } }
    ensures over { AreEnded (sides_on tops.new nodes.new) }
    ensures smaller { sizes_in (sides_on tops.new nodes.new) ≤ sizes_in (sides_on tops.old nodes.old) }
{
    end_all(tops, nodes);
    *top = Top::ended();
}

fn end_all(tops: &mut [Top], nodes: &mut [Node])
    ensures over { AreEnded (sides_on tops.new nodes.new) }
    ensures smaller { sizes_in (sides_on tops.new nodes.new) ≤ sizes_in (sides_on tops.old nodes.old) }
{
    if let Some((top, tops)) = tops.split_first_mut() {
        if let Some((node, nodes)) = nodes.split_first_mut() {
            give_up(top, node);
            end_all(tops, nodes);
        }
    }
}

/// Moves all sides on that stand before the target.
#[cycle(seek)]
fn reach_all<L: Ledger>(
    tops: &mut [Top],
    nodes: &mut [Node],
    index: &Index,
    target: Head,
    spent: &mut u128,
    steps: &mut Steps<L>,
)
    requires sound { AreSound index.now (sides_on tops.old nodes.old) }
    requires target { target < 2 ^ 32 }
    requires room { spent.old + unread_in index.now (sides_on tops.old nodes.old) < 2 ^ 128 }
    ensures moved { AreMoved index.now target spent.old spent.new (sides_on tops.old nodes.old) (sides_on tops.new nodes.new) }
    ensures sought { AreSought index.now target (sides_on tops.old nodes.old) (sides_on tops.new nodes.new) }
    ensures reached { AreFrom target (sides_on tops.new nodes.new) }
    ensures spends { Spends (unread_in index.now (sides_on tops.old nodes.old)) (unread_in index.now (sides_on tops.new nodes.new)) spent.old spent.new steps.old steps.new }
{
    let count = tops.len().min(nodes.len());
    if count <= FEW {
        reach_few(tops, nodes, index, target, spent, steps);
        return;
    }
    let (front_tops, back_tops) = tops.split_at_mut(count / 2);
    let (front_nodes, back_nodes) = nodes.split_at_mut(count / 2);
    reach_all(front_tops, front_nodes, index, target, spent, steps);
    reach_all(back_tops, back_nodes, index, target, spent, steps);
}

/// Moves few sides on, one by one.
#[cycle(seek)]
fn reach_few<L: Ledger>(
    tops: &mut [Top],
    nodes: &mut [Node],
    index: &Index,
    target: Head,
    spent: &mut u128,
    steps: &mut Steps<L>,
)
    requires sound { AreSound index.now (sides_on tops.old nodes.old) }
    requires target { target < 2 ^ 32 }
    requires room { spent.old + unread_in index.now (sides_on tops.old nodes.old) < 2 ^ 128 }
    ensures moved { AreMoved index.now target spent.old spent.new (sides_on tops.old nodes.old) (sides_on tops.new nodes.new) }
    ensures sought { AreSought index.now target (sides_on tops.old nodes.old) (sides_on tops.new nodes.new) }
    ensures reached { AreFrom target (sides_on tops.new nodes.new) }
    ensures spends { Spends (unread_in index.now (sides_on tops.old nodes.old)) (unread_in index.now (sides_on tops.new nodes.new)) spent.old spent.new steps.old steps.new }
{
    if let Some((top, tops)) = tops.split_first_mut() {
        if let Some((node, nodes)) = nodes.split_first_mut() {
            reach(top, node, index, target, 0, spent, steps);
            reach_few(tops, nodes, index, target, spent, steps);
        }
    }
}

/// Moves a node on to the first of what it gives from the target on that passes the test.
#[cycle(seek)]
pub(crate) fn seek_positional<L: Ledger>(
    top: &mut Top,
    test: &mut Proximity,
    below: &mut Top,
    node: &mut Node,
    index: &Index,
    target: Head,
    need: Weight,
    spent: &mut u128,
    steps: &mut Steps<L>,
)
    requires positional { IsPositional index.now test.old below.old (shape_of node.old) (Sound index.now (shape_of node.old)) }
    requires target { target < 2 ^ 32 }
    requires room { spent.old + (unread_of index.now (shape_of node.old) + entries_unread index.now test.old.next test.old.numbers.items) < 2 ^ 128 }
    ensures { WasSought index.now target need below.old.greatest spent.old spent.new steps.old steps.new (positional test.old below.old (shape_of node.old)) (positional test.new below.new (shape_of node.new)) top.new }
{
    let mut from = target;
    'tests: loop {
        reach(below, node, index, from, need, spent, steps);
        if below.head >= END {
            *top = Top::ended();
            return;
        }
        if test.passes(index, below, need, spent, steps) {
            *top = *below;
            return;
        }
        from = below.head + 1;
        if from >= END {
            give_up(below, node);
            *top = Top::ended();
            return;
        }
    }
}

/// Moves a node on to the first of its sums of wdfs from the target on, and weighs it. It is asked for the least wdf that
/// weighs what is needed; where no wdf does, nothing is left.
#[cycle(seek)]
fn seek_synonym<L: Ledger>(
    top: &mut Top,
    scheme: Scheme,
    factor: u64,
    below: &mut Top,
    node: &mut Node,
    index: &Index,
    target: Head,
    need: Weight,
    spent: &mut u128,
    steps: &mut Steps<L>,
)
    requires synonym { IsSynonym index.now factor below.old (shape_of node.old) (Sound index.now (shape_of node.old)) }
    requires target { target < 2 ^ 32 }
    requires room { spent.old + unread_of index.now (shape_of node.old) < 2 ^ 128 }
    ensures sought { WasSought index.now target need (weigh_by factor scheme below.old.greatest) spent.old spent.new steps.old steps.new (synonym scheme factor below.old (shape_of node.old)) (synonym scheme factor below.new (shape_of node.new)) top.new }
    ensures accounts { Accounts index.now target need spent.old spent.new (synonym scheme factor below.old (shape_of node.old)) (synonym scheme factor below.new (shape_of node.new)) }
{
    match need_wdf(scheme, factor, need) {
        Some(wdf) => {
            reach(below, node, index, target, Weight::from(wdf), spent, steps);
            below.weigh(scheme, factor, top);
        }
        None => {
            give_up(below, node);
            *top = Top::ended();
        }
    }
}
