//! Where the sides of an or of many sides begin together, and what they weigh at an id.
ghost use Rattle.std.specs.Prelude.{◌≡◌, ◌≤◌, ◌<◌, ◌+◌, ◌^◌, ℕ, Option, unwrap_or};
ghost use Rattle.sk_index.specs.Indexed.{Indexed};
ghost use Rattle.sk_model.specs.Combining.{either, sum_of_any};
ghost use Rattle.sk_decay.specs.Heads.{IsHead};
ghost use Rattle.sk_nodes.specs.Shapes.{sides_on};
ghost use Rattle.sk_nodes.specs.Left.{rests};
ghost use Rattle.sk_nodes.specs.Sound.{AreSound};
ghost use Rattle.sk_nodes.specs.Many.{AreFrom, weight_sum};

use crate::node::Node;
use crate::top::Top;
use sk_base::Weight;
use sk_decay::Head;

/// The first id that sides give, and what they weigh there together.
#[derive(Clone, Copy, Debug)]
pub(crate) struct First {
    pub head: Head,
    pub weight: Weight,
}

/// Where sides begin together with others, of which the first id and the weight there are given.
pub(crate) fn first_of(tops: &[Top], nodes: &[Node], head: Head, weight: Weight) -> First
    requires { weight + weight_sum (sides_on tops.now nodes.now) < 2 ^ 127 }
    ensures first { (i : Indexed) (others : ℕ → Option ℕ) → AreSound i (sides_on tops.now nodes.now) → IsHead head weight others → IsHead result.head result.weight (λ id. either (others id) (sum_of_any (rests i (sides_on tops.now nodes.now) id))) }
    ensures reached { (from : ℕ) → from ≤ head → AreFrom from (sides_on tops.now nodes.now) → from ≤ result.head }
{
    if let Some((top, tops)) = tops.split_first() {
        if let Some((_, nodes)) = nodes.split_first() {
            if top.head < head {
                return first_of(tops, nodes, top.head, top.weight);
            }
            if head < top.head {
                return first_of(tops, nodes, head, weight);
            }
            return first_of(tops, nodes, head, weight + top.weight);
        }
    }
    First { head, weight }
}

/// What a side weighs at an id that it does not stand before.
#[tactic(auto, using(crate::proofs::OrManyLaws::weight_there, crate::proofs::OrManyLaws::weight_none))]
#[inline(always)]
pub(crate) fn weight_at(top: &Top, id: Head) -> Weight
    ensures there { (f : ℕ → Option ℕ) → IsHead top.now.head top.now.weight f → id ≤ top.now.head → id < 2 ^ 32 → unwrap_or (f id) 0 ≡ result }
    ensures within { result ≤ top.now.weight }
{
    if top.head == id {
        return top.weight;
    }
    0
}
