//! Sides that have to meet: what they can weigh together, as far as the heads of chunks tell.
ghost use Rattle.std.specs.Prelude.{◌≡◌, ◌≤◌, ◌<◌, ◌^◌, ℕ};
ghost use Rattle.sk_model.specs.Combining.{both};
ghost use Rattle.sk_nodes.specs.Shapes.{shape_of};
ghost use Rattle.sk_nodes.specs.Leaves.{leaf_rest, IsLeafOn};
ghost use Rattle.sk_nodes.specs.Sound.{Sound};
ghost use Rattle.sk_nodes.specs.Skips.{WeighsBelow, SidesSkip};

use crate::leaf::Leaf;
use crate::node::Node;
use crate::top::END;
use sk_base::Weight;
use sk_decay::Head;
use sk_index::Index;
use sk_query::Form;

/// From where on two sides may give what is needed. It looks at two leaves under an and alone, and reads nothing.
#[inline(always)]
pub(crate) fn skip(form: Form, a: &Node, b: &Node, index: &Index, from: Head, need: Weight) -> Head
    requires first { Sound index.now (shape_of a.now) }
    requires second { Sound index.now (shape_of b.now) }
    requires from { from < 2 ^ 32 }
    ensures { SidesSkip index.now form from need (shape_of a.now) (shape_of b.now) result }
{
    if need == 0 {
        return from;
    }
    match form {
        Form::And => skip_nodes(a, b, index, from, need),
        _ => from,
    }
}

#[inline(always)]
fn skip_nodes(a: &Node, b: &Node, index: &Index, from: Head, need: Weight) -> Head
    requires first { Sound index.now (shape_of a.now) }
    requires second { Sound index.now (shape_of b.now) }
    requires from { from < 2 ^ 32 }
    requires needed { need ≡ 0 → ⊥ }
    ensures { SidesSkip index.now Form.And from need (shape_of a.now) (shape_of b.now) result }
{
    match a {
        Node::Leaf(a) => match b {
            Node::Leaf(b) => skip_leaves(a, b, index, from, need),
            _ => from,
        },
        _ => from,
    }
}

/// Block by block, as long as what stands there in both lists is too light.
fn skip_leaves(a: &Leaf, b: &Leaf, index: &Index, mut from: Head, need: Weight) -> Head
    requires first { IsLeafOn index.now a.now }
    requires second { IsLeafOn index.now b.now }
    requires from { from < 2 ^ 32 }
    ensures later { from ≤ result }
    ensures within { result < 2 ^ 32 }
    ensures light { (id : ℕ) → from ≤ id → id < result → WeighsBelow need (both (leaf_rest index.now a.now id) (leaf_rest index.now b.now id)) }
{
    'heads: loop {
        let first = a.block_max(index, from);
        let second = b.block_max(index, from);
        if need <= first.greatest + second.greatest {
            return from;
        }
        let next = first.last.min(second.last) + 1;
        if next >= END {
            return END - 1;
        }
        from = next;
    }
}
