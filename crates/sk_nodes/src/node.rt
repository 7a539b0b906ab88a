//! The nodes of a tree, and what may stand for one under a need.
ghost use Rattle.std.specs.Prelude.{◌≡◌, true, false};
ghost use Rattle.sk_index.specs.Indexed.{Indexed};
ghost use Rattle.sk_decay.specs.declared.change.Change.TheVariants as Change;
ghost use Rattle.sk_decay.specs.Changes.{change_of};
ghost use Rattle.sk_nodes.specs.Shapes.{shape_of};
ghost use Rattle.sk_nodes.specs.Decayed.{decayed, SidesFit, IsDecayed};
ghost use Rattle.sk_nodes.specs.Sound.{Sound, Replaces};

use crate::leaf::Leaf;
use crate::merge::Merge;
use crate::proximity::Proximity;
use crate::range_node::RangeNode;
use crate::top::{END, Top};
use sk_base::{Scheme, Weight};
use sk_decay::{Change, rule};
use sk_query::Form;
use std::mem;

/// A node: a leaf, a range of values, two sides under a form, an xor or an or of many sides, an or of many lists, a node
/// whose documents are tested for the positions of terms, or one that gives sums of wdfs, which are weighed by a scheme and
/// a factor. The tops of sides are kept beside them, so that their heads are read without following a box.
#[derive(Drop)]
pub enum Node {
    Nothing,
    Leaf(Leaf),
    Range(RangeNode),
    Pair(Form, Top, Box<Node>, Top, Box<Node>),
    XorMany(Vec<Top>, Vec<Node>),
    OrMany(Vec<Top>, Vec<Node>),
    Merge(Box<Merge>),
    Positional(Proximity, Top, Box<Node>),
    Synonym(Scheme, u64, Top, Box<Node>),
}

/// Puts what is enough under the need in the node's place. The rule is asked only where it may say anything.
#[inline(always)]
pub(crate) fn settle(node: &mut Node, need: Weight)
    requires { SidesFit (shape_of node.old) }
    ensures decays { (i : Indexed) → Sound i (shape_of node.old) → Replaces i need (shape_of node.old) (shape_of node.new) }
    ensures stands { shape_of node.new ≡ decayed need (shape_of node.old) }
{
    if is_settled(node, need) {
        return;
    }
    decay(node, need);
}

/// Neither side has ended, or weighs too little for the form.
#[inline(always)]
fn is_settled(node: &Node, need: Weight) -> bool
    ensures { result ≡ true → decayed need (shape_of node.now) ≡ shape_of node.now }
{
    match node {
        Node::Nothing => true,
        Node::Leaf(_) => true,
        Node::Range(_) => true,
        Node::Pair(form, ta, _, tb, _) => {
            ta.head < END && tb.head < END && stands(*form, ta.greatest, tb.greatest, need)
        }
        Node::XorMany(_, _) => true,
        Node::OrMany(_, _) => true,
        Node::Merge(_) => true,
        Node::Positional(_, _, _) => true,
        Node::Synonym(_, _, _, _) => true,
    }
}

/// Whether two sides stay under their form, of which neither has ended, and that can weigh so much.
#[inline(always)]
fn stands(form: Form, a: Weight, b: Weight, need: Weight) -> bool
    ensures { result ≡ true → change_of form a b false false need ≡ Change.Keep }
{
    match form {
        Form::And => need.saturating_sub(a) <= b,
        Form::AndMaybe => need <= a,
        Form::AndNot => need <= a,
        Form::Filter => need <= a,
        _ => need <= a && need <= b,
    }
}

#[inline(never)]
fn decay(node: &mut Node, need: Weight)
    requires { SidesFit (shape_of node.old) }
    ensures { IsDecayed need (shape_of node.old) (shape_of node.new) }
{
    let Node::Pair(form, ta, a, tb, b) = node else {
        return;
    };
    let change = rule(
        *form,
        ta.greatest,
        tb.greatest,
        ta.head == END,
        tb.head == END,
        need,
    );
    match change {
        Change::Keep => {}
        Change::Nothing => put(node, Node::Nothing),
        Change::First => {
            let side = mem::replace(&mut **a, Node::Nothing);
            put(node, side);
        }
        Change::Second => {
            let side = mem::replace(&mut **b, Node::Nothing);
            put(node, side);
        }
        Change::Maybe => *form = Form::AndMaybe,
        Change::MaybeSwap => {
            *form = Form::AndMaybe;
            mem::swap(ta, tb);
            mem::swap(a, b);
        }
        Change::Both => *form = Form::And,
        Change::Not => *form = Form::AndNot,
        Change::NotSwap => {
            *form = Form::AndNot;
            mem::swap(tb, ta);
            mem::swap(b, a);
        }
    }
}

/// Puts another node in a node's place.
pub(crate) fn put(node: &mut Node, other: Node)
    ensures { node.new ≡ other }
{
    *node = other;
}
