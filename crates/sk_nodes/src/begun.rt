//! Nodes that are put together, each moved on to its first match.
ghost use Rattle.std.specs.Prelude.{◌≡◌, ◌≤◌, ◌<◌, ◌+◌, ◌^◌, ℕ, IfOk, length};
ghost use Rattle.sk_query.specs.declared.form.Form.TheVariants as Form;
ghost use Rattle.sk_model.specs.Combining.{where_so};
ghost use Rattle.sk_model.specs.Weights.{weigh_by};
ghost use Rattle.sk_index.specs.Indexed.{Indexed};
ghost use Rattle.sk_decay.specs.Sides.{paired, greatest_under};
ghost use Rattle.sk_nodes.specs.Accounts.{Spends};
ghost use Rattle.sk_nodes.specs.Shapes.{Shape, pair, xor_many, or_many, synonym, no_sides, side, shape_of, sides_on};
ghost use Rattle.sk_nodes.specs.Left.{rest, unread_of, unread_in, greatest_sum};
ghost use Rattle.sk_nodes.specs.Sound.{IsTop, IsPair, IsPositional, Sound, AreSound};
ghost use Rattle.sk_nodes.specs.Begun.{Yields, Gathers};
ghost use Rattle.sk_nodes.specs.Moved.{Accounts, SeekAccounts};
ghost use Rattle.sk_nodes.specs.Many.{followed_by};
ghost use Rattle.sk_nodes.specs.Proximity.{holds_in, entries_unread};

use crate::moves::{seek_or_many, seek_pair, seek_positional, seek_xor_many};
use crate::node::Node;
use crate::order::put_in_order;
use crate::proximity::Proximity;
use crate::top::Top;
use sk_base::Scheme;
use sk_index::Index;
use sk_query::Form;
use sk_steps::Steps;
use std::alloc::{AllocError, Global};
use std::sync::ledger::Ledger;

/// A node of two sides, moved on to where they first meet, and its top.
pub fn pair_of<L: Ledger>(
    alloc: Global,
    index: &Index,
    form: Form,
    mut ta: Top,
    mut a: Node,
    mut tb: Top,
    mut b: Node,
    spent: &mut u128,
    steps: &mut Steps<L>,
) -> Result<(Top, Node), AllocError>
    requires pair { IsPair index.now ta (shape_of a) tb (shape_of b) (Sound index.now (shape_of a)) (Sound index.now (shape_of b)) }
    requires room { spent.old + (unread_of index.now (shape_of a) + unread_of index.now (shape_of b)) < 2 ^ 128 }
    ensures yields { IfOk result (λ p. Yields index.now p.0 (shape_of p.1) (λ id. paired form (rest index.now (shape_of a) id) (rest index.now (shape_of b) id)) (greatest_under form ta.greatest tb.greatest)) }
    ensures paid { IfOk result (λ p. spent.new + unread_of index.now (shape_of p.1) ≤ spent.old + (unread_of index.now (shape_of a) + unread_of index.now (shape_of b))) }
    ensures counted { steps.new + spent.old ≡ steps.old + spent.new }
    ensures later { spent.old ≤ spent.new }
    ensures accounts { IfOk result (λ p. SeekAccounts index.now 0 0 spent.old spent.new (pair form ta (shape_of a) tb (shape_of b)) (shape_of p.1) p.0) }
{
    let mut top = Top::ended();
    seek_pair(
        &mut top, form, &mut ta, &mut a, &mut tb, &mut b, index, 0, 0, spent, steps,
    );
    let a = Box::new(alloc, a)?;
    let b = Box::new(alloc, b)?;
    Ok((top, Node::Pair(form, ta, a, tb, b)))
}

/// One side alone.
pub fn one_side(alloc: Global, top: Top, node: Node) -> Result<(Vec<Top>, Vec<Node>), AllocError>
    ensures sides { IfOk result (λ p. sides_on p.0.items p.1.items ≡ side top (shape_of node) no_sides) }
    ensures even { IfOk result (λ p. length p.0.items ≡ length p.1.items) }
{
    let mut nodes = Vec::new(alloc);
    nodes.push(node)?;
    let mut tops = Vec::new(alloc);
    tops.push(top)?;
    Ok((tops, nodes))
}

/// Sides, and more behind them.
pub fn with_more(
    mut tops: Vec<Top>,
    mut nodes: Vec<Node>,
    mut more_tops: Vec<Top>,
    mut more_nodes: Vec<Node>,
) -> Result<(Vec<Top>, Vec<Node>), AllocError>
    requires even { length tops.items ≡ length nodes.items }
    requires more_even { length more_tops.items ≡ length more_nodes.items }
    ensures sides { IfOk result (λ p. sides_on p.0.items p.1.items ≡ followed_by (sides_on tops.items nodes.items) (sides_on more_tops.items more_nodes.items)) }
    ensures even { IfOk result (λ p. length p.0.items ≡ length p.1.items) }
{
    tops.append(&mut more_tops)?;
    nodes.append(&mut more_nodes)?;
    Ok((tops, nodes))
}

/// A node of the sides of an xor, moved on to its first match, and its top.
pub fn xor_many_of<L: Ledger>(
    index: &Index,
    mut tops: Vec<Top>,
    mut nodes: Vec<Node>,
    spent: &mut u128,
    steps: &mut Steps<L>,
) -> (Top, Node)
    requires sound { AreSound index.now (sides_on tops.items nodes.items) }
    requires fits { greatest_sum (sides_on tops.items nodes.items) < 2 ^ 127 }
    requires room { spent.old + unread_in index.now (sides_on tops.items nodes.items) < 2 ^ 128 }
    ensures gathers { Gathers index.now Form.Xor (sides_on tops.items nodes.items) result.0 (shape_of result.1) }
    ensures spends { Spends (unread_in index.now (sides_on tops.items nodes.items)) (unread_of index.now (shape_of result.1)) spent.old spent.new steps.old steps.new }
{
    let mut top = Top::ended();
    begin_xor_many(&mut top, &mut tops, &mut nodes, index, spent, steps);
    (top, Node::XorMany(tops, nodes))
}

/// Moves the sides of an xor on to its first match.
fn begin_xor_many<L: Ledger>(
    top: &mut Top,
    tops: &mut [Top],
    nodes: &mut [Node],
    index: &Index,
    spent: &mut u128,
    steps: &mut Steps<L>,
)
    requires sound { AreSound index.now (sides_on tops.old nodes.old) }
    requires fits { greatest_sum (sides_on tops.old nodes.old) < 2 ^ 127 }
    requires room { spent.old + unread_in index.now (sides_on tops.old nodes.old) < 2 ^ 128 }
    ensures gathers { Gathers index.now Form.Xor (sides_on tops.old nodes.old) top.new (xor_many (sides_on tops.new nodes.new)) }
    ensures spends { Spends (unread_in index.now (sides_on tops.old nodes.old)) (unread_in index.now (sides_on tops.new nodes.new)) spent.old spent.new steps.old steps.new }
{
    seek_xor_many(top, tops, nodes, index, 0, spent, steps);
}

/// A node of the sides of an or, moved on to its first match, and its top.
pub fn or_many_of<L: Ledger>(
    index: &Index,
    mut tops: Vec<Top>,
    mut nodes: Vec<Node>,
    spent: &mut u128,
    steps: &mut Steps<L>,
) -> (Top, Node)
    requires sound { AreSound index.now (sides_on tops.items nodes.items) }
    requires fits { greatest_sum (sides_on tops.items nodes.items) < 2 ^ 127 }
    requires room { spent.old + unread_in index.now (sides_on tops.items nodes.items) < 2 ^ 128 }
    ensures gathers { Gathers index.now Form.Or (sides_on tops.items nodes.items) result.0 (shape_of result.1) }
    ensures spends { Spends (unread_in index.now (sides_on tops.items nodes.items)) (unread_of index.now (shape_of result.1)) spent.old spent.new steps.old steps.new }
    ensures accounts { Accounts index.now 0 0 spent.old spent.new (or_many (sides_on tops.items nodes.items)) (shape_of result.1) }
{
    let mut top = Top::ended();
    begin_or_many(&mut top, &mut tops, &mut nodes, index, spent, steps);
    (top, Node::OrMany(tops, nodes))
}

/// Puts the sides of an or in order, and moves them on to its first match.
fn begin_or_many<L: Ledger>(
    top: &mut Top,
    tops: &mut [Top],
    nodes: &mut [Node],
    index: &Index,
    spent: &mut u128,
    steps: &mut Steps<L>,
)
    requires sound { AreSound index.now (sides_on tops.old nodes.old) }
    requires fits { greatest_sum (sides_on tops.old nodes.old) < 2 ^ 127 }
    requires room { spent.old + unread_in index.now (sides_on tops.old nodes.old) < 2 ^ 128 }
    ensures gathers { Gathers index.now Form.Or (sides_on tops.old nodes.old) top.new (or_many (sides_on tops.new nodes.new)) }
    ensures spends { Spends (unread_in index.now (sides_on tops.old nodes.old)) (unread_in index.now (sides_on tops.new nodes.new)) spent.old spent.new steps.old steps.new }
    ensures accounts { Accounts index.now 0 0 spent.old spent.new (or_many (sides_on tops.old nodes.old)) (or_many (sides_on tops.new nodes.new)) }
{
    put_in_order(tops, nodes);
    seek_or_many(top, tops, nodes, index, 0, 0, spent, steps);
}

/// A test of what a node gives, moved on to the first that passes, and its top.
pub fn positional_of<L: Ledger>(
    alloc: Global,
    index: &Index,
    mut test: Proximity,
    mut below: Top,
    mut node: Node,
    spent: &mut u128,
    steps: &mut Steps<L>,
) -> Result<(Top, Node), AllocError>
    requires positional { IsPositional index.now test below (shape_of node) (Sound index.now (shape_of node)) }
    requires room { spent.old + (unread_of index.now (shape_of node) + entries_unread index.now test.next test.numbers.items) < 2 ^ 128 }
    ensures yields { IfOk result (λ p. Yields index.now p.0 (shape_of p.1) (λ id. where_so (holds_in index.now test id) (rest index.now (shape_of node) id)) below.greatest) }
    ensures paid { IfOk result (λ p. spent.new + unread_of index.now (shape_of p.1) ≤ spent.old + (unread_of index.now (shape_of node) + entries_unread index.now test.next test.numbers.items)) }
    ensures counted { steps.new + spent.old ≡ steps.old + spent.new }
    ensures later { spent.old ≤ spent.new }
{
    let mut top = Top::ended();
    seek_positional(
        &mut top, &mut test, &mut below, &mut node, index, 0, 0, spent, steps,
    );
    let node = Box::new(alloc, node)?;
    Ok((top, Node::Positional(test, below, node)))
}

/// The weights of a node's sums of wdfs, which stands at its first, and their top.
pub fn synonym_over(
    alloc: Global,
    scheme: Scheme,
    factor: u64,
    below: Top,
    node: Node,
) -> Result<(Top, Node), AllocError>
    requires factor { factor ≤ 65536 }
    requires within { below.weight ≤ below.greatest }
    requires small { below.greatest < 2 ^ 29 }
    ensures shape { IfOk result (λ p. shape_of p.1 ≡ synonym scheme factor below (shape_of node)) }
    ensures top { IfOk result (λ p. (i : Indexed) (s : Shape) → IsTop i below s → IsTop i p.0 (synonym scheme factor below s)) }
    ensures bound { IfOk result (λ p. p.0.greatest ≤ weigh_by factor scheme below.greatest) }
{
    let mut top = Top::ended();
    below.weigh(scheme, factor, &mut top);
    let node = Box::new(alloc, node)?;
    Ok((top, Node::Synonym(scheme, factor, below, node)))
}
