//! Where the sides of an xor of many sides begin together.
ghost use Rattle.std.specs.Prelude.{◌≡◌, ◌≤◌, ◌<◌, ◌+◌, ◌^◌, ℕ, List, [], ◌∷◌, ◌++◌, Option};
ghost use Rattle.sk_index.specs.Indexed.{Indexed};
ghost use Rattle.sk_nodes.specs.Shapes.{Shape, sides_on};
ghost use Rattle.sk_nodes.specs.Left.{rest, rests};
ghost use Rattle.sk_nodes.specs.Sound.{IsTop, AreSound};
ghost use Rattle.sk_nodes.specs.Many.{AreFrom, weight_sum};
ghost use Rattle.sk_nodes.specs.XorMany.{IsTally, XorMeets};

use crate::many::FEW;
use crate::node::Node;
use crate::top::{END, Top};
use sk_base::Weight;
use sk_decay::{Head, Meeting};

/// The first head of all, whether an odd number of sides has it, and what these weigh there.
#[derive(Clone, Copy, Debug)]
pub(crate) struct Tally {
    head: Head,
    odd: bool,
    weight: Weight,
}

/// Where an odd number of sides begins, with their weight, or from where on the sides have to be sought.
pub(crate) fn xor_meeting(tops: &[Top], nodes: &[Node]) -> Meeting
    requires { weight_sum (sides_on tops.now nodes.now) < 2 ^ 127 }
    ensures { (i : Indexed) (from : ℕ) → from < 2 ^ 32 → AreSound i (sides_on tops.now nodes.now) → AreFrom from (sides_on tops.now nodes.now) → XorMeets i from (sides_on tops.now nodes.now) result }
{
    let tally = tally_of(tops, nodes);
    if tally.head >= END {
        return Meeting::At(END, 0);
    }
    if tally.odd {
        return Meeting::At(tally.head, tally.weight);
    }
    let next = tally.head + 1;
    if next >= END {
        return Meeting::At(END, 0);
    }
    Meeting::Behind(next)
}

fn tally_of(tops: &[Top], nodes: &[Node]) -> Tally
    requires { weight_sum (sides_on tops.now nodes.now) < 2 ^ 127 }
    ensures tallied { (i : Indexed) → AreSound i (sides_on tops.now nodes.now) → IsTally (rests i (sides_on tops.now nodes.now)) result }
    ensures reached { (from : ℕ) → from < 2 ^ 32 → AreFrom from (sides_on tops.now nodes.now) → from ≤ result.head }
    ensures within { result.weight ≤ weight_sum (sides_on tops.now nodes.now) }
{
    let count = tops.len().min(nodes.len());
    if count <= FEW {
        return tally_of_few(tops, nodes);
    }
    let (front_tops, back_tops) = tops.split_at(count / 2);
    let (front_nodes, back_nodes) = nodes.split_at(count / 2);
    joined(
        tally_of(front_tops, front_nodes),
        tally_of(back_tops, back_nodes),
    )
}

/// Of few sides, one by one.
fn tally_of_few(tops: &[Top], nodes: &[Node]) -> Tally
    requires { weight_sum (sides_on tops.now nodes.now) < 2 ^ 127 }
    ensures tallied { (i : Indexed) → AreSound i (sides_on tops.now nodes.now) → IsTally (rests i (sides_on tops.now nodes.now)) result }
    ensures reached { (from : ℕ) → from < 2 ^ 32 → AreFrom from (sides_on tops.now nodes.now) → from ≤ result.head }
    ensures within { result.weight ≤ weight_sum (sides_on tops.now nodes.now) }
{
    if let Some((top, tops)) = tops.split_first() {
        if let Some((_, nodes)) = nodes.split_first() {
            return joined(tally_of_one(top), tally_of_few(tops, nodes));
        }
    }
    Tally {
        head: END,
        odd: false,
        weight: 0,
    }
}

/// Of one side.
fn tally_of_one(top: &Top) -> Tally
    ensures tallied { (i : Indexed) (s : Shape) → IsTop i top.now s → IsTally (λ id. rest i s id ∷ []) result }
    ensures head { result.head ≡ top.now.head }
    ensures weight { result.weight ≡ top.now.weight }
{
    Tally {
        head: top.head,
        odd: true,
        weight: top.weight,
    }
}

/// Of all, from what it is of some and of the others.
fn joined(some: Tally, others: Tally) -> Tally
    requires fits { some.weight + others.weight < 2 ^ 127 }
    ensures tallied { (f g : ℕ → List (Option ℕ)) → IsTally f some → IsTally g others → IsTally (λ id. f id ++ g id) result }
    ensures reached { (from : ℕ) → from ≤ some.head → from ≤ others.head → from ≤ result.head }
    ensures within { result.weight ≤ some.weight + others.weight }
{
    if others.head < some.head {
        return others;
    }
    if some.head < others.head {
        return some;
    }
    Tally {
        head: some.head,
        odd: some.odd != others.odd,
        weight: some.weight + others.weight,
    }
}
