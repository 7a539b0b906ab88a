//! What the sides of a node of many sides can weigh together.
ghost use Rattle.std.specs.Prelude.{◌≡◌, ◌≤◌, ◌<◌, ◌^◌};
ghost use Rattle.sk_nodes.specs.Shapes.{sides_on};
ghost use Rattle.sk_nodes.specs.Left.{greatest_sum};

use crate::node::Node;
use crate::top::{END, Top};
use sk_base::Weight;
use sk_decay::Head;

/// So many sides are gone over one by one; more are halved first, so that the stack stays small.
pub(crate) const FEW: usize = 64;

/// What a node of these sides can weigh: nothing at the end.
pub(crate) fn sides_greatest(head: Head, tops: &[Top], nodes: &[Node]) -> Weight
    requires { greatest_sum (sides_on tops.now nodes.now) < 2 ^ 127 }
    ensures there { head < 2 ^ 32 → result ≡ greatest_sum (sides_on tops.now nodes.now) }
    ensures ended { head ≡ 2 ^ 32 → result ≡ 0 }
    ensures bound { result ≤ greatest_sum (sides_on tops.now nodes.now) }
{
    if head >= END {
        return 0;
    }
    sum_of(tops, nodes)
}

/// What all sides can weigh together.
pub(crate) fn sum_of(tops: &[Top], nodes: &[Node]) -> Weight
    requires { greatest_sum (sides_on tops.now nodes.now) < 2 ^ 127 }
    ensures { result ≡ greatest_sum (sides_on tops.now nodes.now) }
{
    let count = tops.len().min(nodes.len());
    if count <= FEW {
        return sum_of_few(tops, nodes);
    }
    let (front_tops, back_tops) = tops.split_at(count / 2);
    let (front_nodes, back_nodes) = nodes.split_at(count / 2);
    sum_of(front_tops, front_nodes) + sum_of(back_tops, back_nodes)
}

/// Of few sides, one by one.
fn sum_of_few(tops: &[Top], nodes: &[Node]) -> Weight
    requires { greatest_sum (sides_on tops.now nodes.now) < 2 ^ 127 }
    ensures { result ≡ greatest_sum (sides_on tops.now nodes.now) }
{
    if let Some((top, tops)) = tops.split_first() {
        if let Some((_, nodes)) = nodes.split_first() {
            return top.greatest + sum_of_few(tops, nodes);
        }
    }
    0
}
