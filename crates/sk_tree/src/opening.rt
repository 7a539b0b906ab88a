//! How the node of a query is opened.
ghost use Rattle.std.specs.Prelude.{◌≡◌, ◌≤◌, ◌<◌, ◌+◌, ◌&&◌, ℕ, true, List, IfOk, length, Some};
ghost use Rattle.sk_base.specs.Numbers.{length_of};
ghost use Rattle.sk_dict.specs.Terms.{term_at};
ghost use Rattle.sk_query.specs.declared.form.Form.TheVariants as Form;
ghost use Rattle.sk_query.specs.Trees as QueryTree;
ghost use Rattle.sk_query.specs.Trees.{query_view, queries_view};
ghost use Rattle.sk_query.specs.Fits.{is_window, are_given};
ghost use Rattle.sk_model.specs.Bounds.{sum_in, ceil, ceils, ceil_of, term_ceil, terms_ceil, lengths_of};
ghost use Rattle.sk_model.specs.Allowance.{leaf_readings, leaves_readings};
ghost use Rattle.sk_model.specs.Sharp.{terms_in};
ghost use Rattle.sk_tree.specs.Readings.{Pays, CountsReadings};
ghost use Rattle.sk_nodes.specs.Leaves.{IsThere, IsFresh, list_in, weighed, leaf_greatest, leaf_unread};
ghost use Rattle.sk_nodes.specs.Shapes.{leaf, shape_of, sides_on};
ghost use Rattle.sk_nodes.specs.Left.{unread_of, unread_in};
ghost use Rattle.sk_tree.specs.Nests.{OpensTerms};
ghost use Rattle.sk_tree.specs.OpenedAccounts.{OpensList, OpensTerm, OpensQuery, OpensParts};
ghost use Rattle.sk_tree.specs.Opened.{proximity_query, CanRead, CanOpen, IsPart, score_of, part_scores, OpensSides, joint_score_of, AreParts, Opens};
ghost use Rattle.sk_nodes.specs.Begun.{Yields};

use crate::parts::{
    as_one, is_many, is_nest, only_part, others_of, parts_of, side_halves, split_parts,
};
use crate::ranges::open_range;
use crate::synonym::{open_synonym, open_wildcard};
use crate::words::{add_lengths, numbers_of, raise, terms_of};
use sk_base::{Scheme, Term, Text};
use sk_index::Index;
use sk_nodes::{
    Leaf, ListOf, Node, Proximity, ProximityKind, Top, list_length, one_side, or_many_of, pair_of,
    positional_of, with_more, xor_many_of,
};
use sk_query::{Form, Query};
use sk_steps::Steps;
use std::alloc::{AllocError, Global};
use std::sync::ledger::Ledger;

/// The node of a query, and its top. `most` is how long the lists of all leaves are that were opened.
#[cycle(open_node)]
pub(crate) fn open_node<L: Ledger>(
    alloc: Global,
    index: &Index,
    query: &Query,
    scheme: Scheme,
    factor: u64,
    most: &mut u128,
    spent: &mut u128,
    steps: &mut Steps<L>,
) -> Result<(Top, Node), AllocError>
    requires can { CanOpen index.now factor spent.old most.old }
    requires part { IsPart factor (query_view query.now) }
    ensures opens { IfOk result (λ p. Opens index.now p.0 (shape_of p.1) (score_of (query_view query.now) scheme factor) (ceil (query_view query.now) scheme factor index.now.live.documents)) }
    ensures pays { IfOk result (λ p. Pays spent.old spent.new most.old most.new (unread_of index.now (shape_of p.1)) (leaf_readings (query_view query.now) index.now.live.documents)) }
    ensures counts { CountsReadings spent.old spent.new steps.old steps.new most.new }
    ensures accounts { IfOk result (λ p. OpensQuery index.now (query_view query.now) scheme factor p.0 (shape_of p.1) spent.old spent.new) }
{
    if let Some((form, parts)) = parts_of(query) {
        return open_parts(
            alloc, index, form, parts, scheme, factor, most, spent, steps,
        );
    }
    match query {
        Query::Nothing => Ok((Top::ended(), Node::Nothing)),
        Query::All => open_all(index, scheme, most, spent, steps),
        Query::Term(word) => open_term(index, word, scheme, factor, most, spent, steps),
        Query::Scale(more, part) => open_node(
            alloc,
            index,
            part,
            scheme,
            factor * u64::from(*more),
            most,
            spent,
            steps,
        ),
        Query::Synonym(words) => {
            open_synonym(
                alloc,
                index,
                query,
                words.as_slice(),
                scheme,
                factor,
                most,
                spent,
                steps,
            )
        }
        Query::Near(window, words) => {
            open_proximity(
                alloc,
                index,
                ProximityKind::Near,
                *window,
                words.as_slice(),
                scheme,
                factor,
                most,
                spent,
                steps,
            )
        }
        Query::Phrase(window, words) => {
            open_proximity(
                alloc,
                index,
                ProximityKind::Phrase,
                *window,
                words.as_slice(),
                scheme,
                factor,
                most,
                spent,
                steps,
            )
        }
        Query::Wildcard(prefix) => {
            open_wildcard(
                alloc, index, query, prefix, scheme, factor, most, spent, steps,
            )
        }
        Query::Range(slot, lo, hi) => open_range(alloc, index, *slot, lo, hi, most, spent, steps),
        // Those of several parts went by `parts_of`.
        _ => unreachable!(),
    }
}

/// The node of terms that stand near or as a phrase: an and of them, and a test of its documents.
#[cycle(open_node)]
#[inline(never)]
fn open_proximity<L: Ledger>(
    alloc: Global,
    index: &Index,
    kind: ProximityKind,
    window: u32,
    words: &[Text],
    scheme: Scheme,
    factor: u64,
    most: &mut u128,
    spent: &mut u128,
    steps: &mut Steps<L>,
) -> Result<(Top, Node), AllocError>
    requires can { CanOpen index.now factor spent.old most.old }
    requires sound { (is_window window && are_given words.now) ≡ true }
    requires leaves { length words.now ≤ 1024 }
    ensures opens { IfOk result (λ p. Opens index.now p.0 (shape_of p.1) (score_of (proximity_query kind window words.now) scheme factor) (terms_ceil scheme factor words.now index.now.live.documents)) }
    ensures pays { IfOk result (λ p. Pays spent.old spent.new most.old most.new (unread_of index.now (shape_of p.1)) (lengths_of words.now index.now.live.documents + lengths_of words.now index.now.live.documents)) }
    ensures counts { CountsReadings spent.old spent.new steps.old steps.new most.new }
{
    let numbers = numbers_of(alloc, index, words)?;
    if numbers.len() < words.len() {
        return Ok((Top::ended(), Node::Nothing));
    }
    let terms = terms_of(alloc, words)?;
    let (below, node) = open_parts(
        alloc,
        index,
        Form::And,
        terms.as_slice(),
        scheme,
        factor,
        most,
        spent,
        steps,
    )?;
    let Ok(()) = add_lengths(index, numbers.as_slice(), most) else {
        drop(node);
        return Err(AllocError);
    };
    let Ok(test) = Proximity::new(alloc, index, kind, window, numbers) else {
        drop(node);
        return Err(AllocError);
    };
    let (top, node) = positional_of(alloc, index, test, below, node, spent, steps)?;
    Ok((top, node))
}

/// The node of a form of several parts: one node of all sides, or two, of the first parts and of the others.
#[cycle(open_node)]
fn open_parts<L: Ledger>(
    alloc: Global,
    index: &Index,
    form: Form,
    parts: &[Query],
    scheme: Scheme,
    factor: u64,
    most: &mut u128,
    spent: &mut u128,
    steps: &mut Steps<L>,
) -> Result<(Top, Node), AllocError>
    requires can { CanOpen index.now factor spent.old most.old }
    requires parts { AreParts form factor (queries_view parts.now) }
    ensures opens { IfOk result (λ p. Opens index.now p.0 (shape_of p.1) (joint_score_of form (queries_view parts.now) scheme factor) (ceil_of form (ceils (queries_view parts.now) scheme factor index.now.live.documents))) }
    ensures pays { IfOk result (λ p. Pays spent.old spent.new most.old most.new (unread_of index.now (shape_of p.1)) (leaves_readings (queries_view parts.now) index.now.live.documents)) }
    ensures counts { CountsReadings spent.old spent.new steps.old steps.new most.new }
    ensures accounts { IfOk result (λ p. OpensParts index.now form (queries_view parts.now) scheme factor p.0 (shape_of p.1) spent.old spent.new) }
{
    if let Some(part) = only_part(parts) {
        return open_node(alloc, index, part, scheme, factor, most, spent, steps);
    }
    if let Some((part, all)) = as_one(form, parts, factor) {
        return open_node(alloc, index, part, scheme, all, most, spent, steps);
    }
    if !is_nest(form, parts) {
        let (tops, nodes) = open_sides(alloc, index, parts, scheme, factor, most, spent, steps)?;
        let (top, node) = xor_many_of(index, tops, nodes, spent, steps);
        return Ok((top, node));
    }
    if is_many(form, parts) {
        let (all_tops, all_nodes) = open_sides(
            alloc, index, parts, scheme, factor, most, spent, steps,
        )?;
        let (top, node) = or_many_of(index, all_tops, all_nodes, spent, steps);
        return Ok((top, node));
    }
    let (front, back) = split_parts(index, form, parts);
    let (ta, a) = open_parts(
        alloc, index, form, front, scheme, factor, most, spent, steps,
    )?;
    let others = others_of(form);
    let Ok((tb, b)) = open_parts(
        alloc, index, others, back, scheme, factor, most, spent, steps,
    ) else {
        drop(a);
        return Err(AllocError);
    };
    pair_of(alloc, index, form, ta, a, tb, b, spent, steps)
}

/// The nodes of the parts of an xor, or of an or of many sides, in order, with their tops.
#[cycle(open_node)]
fn open_sides<L: Ledger>(
    alloc: Global,
    index: &Index,
    parts: &[Query],
    scheme: Scheme,
    factor: u64,
    most: &mut u128,
    spent: &mut u128,
    steps: &mut Steps<L>,
) -> Result<(Vec<Top>, Vec<Node>), AllocError>
    requires can { CanOpen index.now factor spent.old most.old }
    requires parts { AreParts Form.Xor factor (queries_view parts.now) }
    ensures opens { IfOk result (λ p. OpensSides index.now (sides_on p.0.items p.1.items) (part_scores (queries_view parts.now) scheme factor) (sum_in (ceils (queries_view parts.now) scheme factor index.now.live.documents))) }
    ensures even { IfOk result (λ p. length p.0.items ≡ length p.1.items) }
    ensures pays { IfOk result (λ p. Pays spent.old spent.new most.old most.new (unread_in index.now (sides_on p.0.items p.1.items)) (leaves_readings (queries_view parts.now) index.now.live.documents)) }
    ensures counts { CountsReadings spent.old spent.new steps.old steps.new most.new }
    ensures terms { IfOk result (λ p. (lists : List (List ℕ)) → terms_in (queries_view parts.now) ≡ Some lists → OpensTerms index.now (sides_on p.0.items p.1.items) lists spent.old spent.new) }
{
    if let Some(part) = only_part(parts) {
        let (top, node) = open_node(alloc, index, part, scheme, factor, most, spent, steps)?;
        let (tops, nodes) = one_side(alloc, top, node)?;
        return Ok((tops, nodes));
    }
    let (front, back) = side_halves(parts);
    let (some_tops, some_nodes) = open_sides(
        alloc, index, front, scheme, factor, most, spent, steps,
    )?;
    let (more_tops, more_nodes) = open_sides(
        alloc, index, back, scheme, factor, most, spent, steps,
    )?;
    let (tops, nodes) = with_more(some_tops, some_nodes, more_tops, more_nodes)?;
    Ok((tops, nodes))
}

/// The leaf of all documents.
#[inline(never)]
fn open_all<L: Ledger>(
    index: &Index,
    scheme: Scheme,
    most: &mut u128,
    spent: &mut u128,
    steps: &mut Steps<L>,
) -> Result<(Top, Node), AllocError>
    requires can { CanRead index.now spent.old most.old }
    ensures opens { IfOk result (λ p. (factor : ℕ) → Opens index.now p.0 (shape_of p.1) (score_of QueryTree.all scheme factor) 0) }
    ensures pays { IfOk result (λ p. Pays spent.old spent.new most.old most.new (unread_of index.now (shape_of p.1)) (leaf_readings QueryTree.all index.now.live.documents)) }
    ensures counts { CountsReadings spent.old spent.new steps.old steps.new most.new }
{
    let (top, node) = open_leaf(index, ListOf::All, scheme, 0, most, spent, steps)?;
    Ok((top, node))
}

/// The leaf of a term, and nothing where no document has the term.
#[inline(never)]
fn open_term<L: Ledger>(
    index: &Index,
    word: &Term,
    scheme: Scheme,
    factor: u64,
    most: &mut u128,
    spent: &mut u128,
    steps: &mut Steps<L>,
) -> Result<(Top, Node), AllocError>
    requires factor { factor ≤ 65536 }
    requires can { CanRead index.now spent.old most.old }
    ensures opens { IfOk result (λ p. Opens index.now p.0 (shape_of p.1) (score_of (QueryTree.term word.now) scheme factor) (term_ceil scheme factor word.now index.now.live.documents)) }
    ensures pays { IfOk result (λ p. Pays spent.old spent.new most.old most.new (unread_of index.now (shape_of p.1)) (length_of word.now index.now.live.documents)) }
    ensures counts { CountsReadings spent.old spent.new steps.old steps.new most.new }
    ensures term { IfOk result (λ p. OpensTerm index.now p.0 (shape_of p.1) word.now (term_ceil scheme factor word.now index.now.live.documents) spent.old spent.new) }
{
    match index.number_of(word.as_str().as_bytes()) {
        None => Ok((Top::ended(), Node::Nothing)),
        Some(number) => {
            let (top, node) = open_numbered(index, number, scheme, factor, most, spent, steps)?;
            Ok((top, node))
        }
    }
}

/// The leaf of the term with this number.
pub(crate) fn open_numbered<L: Ledger>(
    index: &Index,
    number: usize,
    scheme: Scheme,
    factor: u64,
    most: &mut u128,
    spent: &mut u128,
    steps: &mut Steps<L>,
) -> Result<(Top, Node), AllocError>
    requires there { number < length index.now.terms }
    requires factor { factor ≤ 65536 }
    requires can { CanRead index.now spent.old most.old }
    ensures opens { IfOk result (λ p. Opens index.now p.0 (shape_of p.1) (score_of (QueryTree.term (term_at index.now.terms number)) scheme factor) (term_ceil scheme factor (term_at index.now.terms number) index.now.live.documents)) }
    ensures pays { IfOk result (λ p. Pays spent.old spent.new most.old most.new (unread_of index.now (shape_of p.1)) (length_of (term_at index.now.terms number) index.now.live.documents)) }
    ensures exact { IfOk result (λ p. most.new ≡ most.old + length_of (term_at index.now.terms number) index.now.live.documents) }
    ensures counts { CountsReadings spent.old spent.new steps.old steps.new most.new }
    ensures term { IfOk result (λ p. OpensTerm index.now p.0 (shape_of p.1) (term_at index.now.terms number) (term_ceil scheme factor (term_at index.now.terms number) index.now.live.documents) spent.old spent.new) }
{
    let (top, node) = open_leaf(
        index,
        ListOf::Term(number),
        scheme,
        factor,
        most,
        spent,
        steps,
    )?;
    Ok((top, node))
}

/// A leaf, and its top.
fn open_leaf<L: Ledger>(
    index: &Index,
    source: ListOf,
    scheme: Scheme,
    factor: u64,
    most: &mut u128,
    spent: &mut u128,
    steps: &mut Steps<L>,
) -> Result<(Top, Node), AllocError>
    requires there { IsThere source index.now.terms }
    requires factor { factor ≤ 65536 }
    requires can { CanRead index.now spent.old most.old }
    ensures yields { IfOk result (λ p. Yields index.now p.0 (shape_of p.1) (weighed factor scheme (list_in index.now source)) (leaf_greatest factor scheme (list_in index.now source))) }
    ensures pays { IfOk result (λ p. Pays spent.old spent.new most.old most.new (unread_of index.now (shape_of p.1)) (length (list_in index.now source))) }
    ensures exact { IfOk result (λ p. most.new ≡ most.old + length (list_in index.now source)) }
    ensures counts { CountsReadings spent.old spent.new steps.old steps.new most.new }
    ensures list { IfOk result (λ p. OpensList index.now p.0 (shape_of p.1) (list_in index.now source) (leaf_greatest factor scheme (list_in index.now source)) spent.old spent.new) }
{
    let (top, leaf) = open_entries(index, source, scheme, factor, most, spent, steps)?;
    Ok((top, Node::Leaf(leaf)))
}

/// The entries of a list, not yet as a node, and their top.
pub(crate) fn open_entries<L: Ledger>(
    index: &Index,
    source: ListOf,
    scheme: Scheme,
    factor: u64,
    most: &mut u128,
    spent: &mut u128,
    steps: &mut Steps<L>,
) -> Result<(Top, Leaf), AllocError>
    requires there { IsThere source index.now.terms }
    requires factor { factor ≤ 65536 }
    requires can { CanRead index.now spent.old most.old }
    ensures fresh { IfOk result (λ p. IsFresh source scheme factor p.1) }
    ensures yields { IfOk result (λ p. Yields index.now p.0 (leaf p.1) (weighed factor scheme (list_in index.now source)) (leaf_greatest factor scheme (list_in index.now source))) }
    ensures pays { IfOk result (λ p. Pays spent.old spent.new most.old most.new (leaf_unread index.now p.1) (length (list_in index.now source))) }
    ensures exact { IfOk result (λ p. most.new ≡ most.old + length (list_in index.now source)) }
    ensures counts { CountsReadings spent.old spent.new steps.old steps.new most.new }
    ensures list { IfOk result (λ p. OpensList index.now p.0 (leaf p.1) (list_in index.now source) (leaf_greatest factor scheme (list_in index.now source)) spent.old spent.new) }
{
    let length = list_length(index, source);
    raise(most, length)?;
    let mut top = Top::ended();
    let leaf = Leaf::open(&mut top, index, source, scheme, factor, spent, steps);
    Ok((top, leaf))
}
