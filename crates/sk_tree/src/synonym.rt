//! How the node of terms that count as one is opened: those of a synonym, and those that begin with a prefix.
ghost use Rattle.std.specs.Prelude.{◌≡◌, ◌≤◌, ◌<◌, ◌+◌, ◌-◌, ◌^◌, ℕ, true, [], ◌∷◌, map, ◌++◌, min, All, IfOk, length, slice_index_or, Option};
ghost use Rattle.std.specs.List.{remove};
ghost use Rattle.sk_base.specs.declared.find.Scheme.{Scheme};
ghost use Rattle.sk_base.specs.Numbers.{terms_with};
ghost use Rattle.sk_dict.specs.Terms.{term_at};
ghost use Rattle.sk_query.specs.declared.form.Form.TheVariants as Form;
ghost use Rattle.sk_query.specs.Trees as QueryTree;
ghost use Rattle.sk_query.specs.Trees.{query_view};
ghost use Rattle.sk_query.specs.Fits.{are_different};
ghost use Rattle.sk_model.specs.Weights.{weigh_by};
ghost use Rattle.sk_model.specs.Bounds.{ceil, lengths_of};
ghost use Rattle.sk_model.specs.Allowance.{leaf_readings};
ghost use Rattle.sk_index.specs.Indexed.{Indexed};
ghost use Rattle.sk_tree.specs.Readings.{Pays, CountsReadings};
ghost use Rattle.sk_nodes.specs.declared.leaf.ListOf.TheVariants as ListOf;
ghost use Rattle.sk_nodes.specs.Leaves.{IsFresh, list_in};
ghost use Rattle.sk_nodes.specs.Shapes.{leaf, no_sides, side, shape_of, merged};
ghost use Rattle.sk_nodes.specs.Left.{unread_of, unread_in, greatest_sum};
ghost use Rattle.sk_tree.specs.Nests.{OpensAsOne, OpensNest, OpensFlat};
ghost use Rattle.sk_tree.specs.Sums.{OpensSums};
ghost use Rattle.sk_nodes.specs.Proximity.{AreThere};
ghost use Rattle.sk_tree.specs.Parts.{NumberHalves};
ghost use Rattle.sk_tree.specs.Opened.{CanOpen, IsPart, score_of, synonym_of, wdfs_of, Opens};

use crate::opening::{open_entries, open_numbered};
use crate::words::numbers_of;
use sk_base::{MOST_WDF, Scheme, Text, Weight};
use sk_index::Index;
use sk_nodes::{
    Leaf, ListOf, MOST_LISTS, Mark, Node, Top, Wdfs, list_length, mark_of, merge_of, pair_of,
    synonym_over,
};
use sk_query::{Form, Query};
use sk_steps::Steps;
use sk_weight::ceil;
use std::alloc::{AllocError, Global};
use std::sync::ledger::Ledger;

/// So few terms are put together two by two: a node of two sides may leave one out under a need.
const FEW_TERMS: usize = 3;

/// The node of a synonym, which weighs no more than a synonym can.
#[inline(never)]
pub(crate) fn open_synonym<L: Ledger>(
    alloc: Global,
    index: &Index,
    query: &Query,
    words: &[Text],
    scheme: Scheme,
    factor: u64,
    most: &mut u128,
    spent: &mut u128,
    steps: &mut Steps<L>,
) -> Result<(Top, Node), AllocError>
    requires is { query_view query.now ≡ QueryTree.synonym words.now }
    requires can { CanOpen index.now factor spent.old most.old }
    requires part { IsPart factor (query_view query.now) }
    ensures opens { IfOk result (λ p. Opens index.now p.0 (shape_of p.1) (score_of (query_view query.now) scheme factor) (ceil (query_view query.now) scheme factor index.now.live.documents)) }
    ensures pays { IfOk result (λ p. Pays spent.old spent.new most.old most.new (unread_of index.now (shape_of p.1)) (lengths_of words.now index.now.live.documents)) }
    ensures counts { CountsReadings spent.old spent.new steps.old steps.new most.new }
    ensures flat { IfOk result (λ p. OpensFlat index.now (shape_of p.1) words.now spent.old spent.new) }
{
    let numbers = numbers_of(alloc, index, words)?;
    let (top, node) = open_joint(
        alloc,
        index,
        numbers.as_slice(),
        scheme,
        factor,
        most,
        spent,
        steps,
    )?;
    let bound = ceil(index, query, scheme, factor);
    Ok((capped(top, bound), node))
}

/// The node of all terms that begin with a prefix, which weighs no more than a wildcard can.
#[inline(never)]
pub(crate) fn open_wildcard<L: Ledger>(
    alloc: Global,
    index: &Index,
    query: &Query,
    prefix: &Text,
    scheme: Scheme,
    factor: u64,
    most: &mut u128,
    spent: &mut u128,
    steps: &mut Steps<L>,
) -> Result<(Top, Node), AllocError>
    requires is { query_view query.now ≡ QueryTree.wildcard prefix.now }
    requires can { CanOpen index.now factor spent.old most.old }
    requires part { IsPart factor (query_view query.now) }
    ensures opens { IfOk result (λ p. Opens index.now p.0 (shape_of p.1) (score_of (query_view query.now) scheme factor) (ceil (query_view query.now) scheme factor index.now.live.documents)) }
    ensures pays { IfOk result (λ p. Pays spent.old spent.new most.old most.new (unread_of index.now (shape_of p.1)) (leaf_readings (QueryTree.wildcard prefix.now) index.now.live.documents)) }
    ensures counts { CountsReadings spent.old spent.new steps.old steps.new most.new }
    ensures flat { IfOk result (λ p. OpensFlat index.now (shape_of p.1) (terms_with prefix.now index.now.live.documents) spent.old spent.new) }
{
    let numbers = index.with_prefix(prefix.as_str().as_bytes())?;
    let (top, node) = open_joint(
        alloc,
        index,
        numbers.as_slice(),
        scheme,
        factor,
        most,
        spent,
        steps,
    )?;
    let bound = ceil(index, query, scheme, factor);
    Ok((capped(top, bound), node))
}

/// The node of terms that count as one, by their numbers: the leaf of one alone; of more their sums of wdfs, weighed.
fn open_joint<L: Ledger>(
    alloc: Global,
    index: &Index,
    numbers: &[usize],
    scheme: Scheme,
    factor: u64,
    most: &mut u128,
    spent: &mut u128,
    steps: &mut Steps<L>,
) -> Result<(Top, Node), AllocError>
    requires there { AreThere index.now numbers.now }
    requires apart { are_different (map (term_at index.now.terms) numbers.now) ≡ true }
    requires can { CanOpen index.now factor spent.old most.old }
    ensures opens { IfOk result (λ p. Opens index.now p.0 (shape_of p.1) (score_of (synonym_of index.now numbers.now) scheme factor) (weigh_by factor scheme (2 ^ 29 - 1))) }
    ensures pays { IfOk result (λ p. Pays spent.old spent.new most.old most.new (unread_of index.now (shape_of p.1)) (lengths_of (map (term_at index.now.terms) numbers.now) index.now.live.documents)) }
    ensures counts { CountsReadings spent.old spent.new steps.old steps.new most.new }
    ensures flat { IfOk result (λ p. OpensAsOne index.now (shape_of p.1) (map (term_at index.now.terms) numbers.now) spent.old spent.new) }
{
    if numbers.len() == 1 {
        return open_one(index, numbers, scheme, factor, most, spent, steps);
    }
    let (below, node) = open_sums(alloc, index, numbers, most, spent, steps)?;
    let (top, node) = synonym_over(alloc, scheme, factor, below, node)?;
    Ok((top, node))
}

/// The node that gives the sums of wdfs of terms, by their numbers: of few it is one of two halves, and of more one of all
/// their lists.
#[cycle(open_sums)]
fn open_sums<L: Ledger>(
    alloc: Global,
    index: &Index,
    numbers: &[usize],
    most: &mut u128,
    spent: &mut u128,
    steps: &mut Steps<L>,
) -> Result<(Top, Node), AllocError>
    requires there { AreThere index.now numbers.now }
    requires apart { are_different (map (term_at index.now.terms) numbers.now) ≡ true }
    requires can { CanOpen index.now 1 spent.old most.old }
    ensures opens { IfOk result (λ p. Opens index.now p.0 (shape_of p.1) (wdfs_of index.now numbers.now) (2 ^ 29 - 1)) }
    ensures pays { IfOk result (λ p. Pays spent.old spent.new most.old most.new (unread_of index.now (shape_of p.1)) (lengths_of (map (term_at index.now.terms) numbers.now) index.now.live.documents)) }
    ensures counts { CountsReadings spent.old spent.new steps.old steps.new most.new }
    ensures nest { IfOk result (λ p. OpensNest index.now Form.Or (shape_of p.1) (map (term_at index.now.terms) numbers.now) spent.old spent.new) }
{
    if numbers.is_empty() {
        return Ok((Top::ended(), Node::Nothing));
    }
    if numbers.len() == 1 {
        return open_one(index, numbers, Scheme::Nnn, 1, most, spent, steps);
    }
    if FEW_TERMS < numbers.len() {
        return open_many(alloc, index, numbers, most, spent, steps);
    }
    let (front, back) = number_halves(numbers);
    let (ta, a) = open_sums(alloc, index, front, most, spent, steps)?;
    let Ok((tb, b)) = open_sums(alloc, index, back, most, spent, steps) else {
        drop(a);
        return Err(AllocError);
    };
    let (top, node) = pair_of(alloc, index, Form::Or, ta, a, tb, b, spent, steps)?;
    Ok((capped(top, Weight::from(MOST_WDF)), node))
}

/// The same of many terms: one node of all lists, the longest apart from the others. Of more than can be kept together it
/// says that memory ran out.
fn open_many<L: Ledger>(
    alloc: Global,
    index: &Index,
    numbers: &[usize],
    most: &mut u128,
    spent: &mut u128,
    steps: &mut Steps<L>,
) -> Result<(Top, Node), AllocError>
    requires some { 0 < length numbers.now }
    requires there { AreThere index.now numbers.now }
    requires apart { are_different (map (term_at index.now.terms) numbers.now) ≡ true }
    requires can { CanOpen index.now 1 spent.old most.old }
    ensures opens { IfOk result (λ p. Opens index.now p.0 (shape_of p.1) (wdfs_of index.now numbers.now) (2 ^ 29 - 1)) }
    ensures pays { IfOk result (λ p. Pays spent.old spent.new most.old most.new (unread_of index.now (shape_of p.1)) (lengths_of (map (term_at index.now.terms) numbers.now) index.now.live.documents)) }
    ensures counts { CountsReadings spent.old spent.new steps.old steps.new most.new }
    ensures nest { IfOk result (λ p. OpensNest index.now Form.Or (shape_of p.1) (map (term_at index.now.terms) numbers.now) spent.old spent.new) }
{
    if MOST_LISTS < numbers.len() {
        return Err(AllocError);
    }
    let which = longest(index, numbers);
    let (longest_top, leaf) = open_list(index, numbers[which], most, spent, steps)?;
    let (marks, leaves) = open_others(alloc, index, numbers, which, most, spent, steps)?;
    let (top, node) = merge_of(alloc, index, longest_top, leaf, marks, leaves)?;
    Ok((capped(top, Weight::from(MOST_WDF)), node))
}

/// The place of the term whose list is the longest.
fn longest(index: &Index, numbers: &[usize]) -> usize
    requires some { 0 < length numbers.now }
    requires there { AreThere index.now numbers.now }
    ensures within { result < length numbers.now }
    ensures longest { All (λ n. length (list_in index.now (ListOf.Term n)) ≤ length (list_in index.now (ListOf.Term (slice_index_or numbers.now result 0)))) numbers.now }
{
    let mut longest = 0;
    let mut most = 0;
    'numbers: for which in 0..numbers.len() {
        let length = list_length(index, ListOf::Term(numbers[which]));
        if most < length {
            most = length;
            longest = which;
        }
    }
    longest
}

/// The lists of all terms but the one at this place, by their numbers, each with where it stands.
fn open_others<L: Ledger>(
    alloc: Global,
    index: &Index,
    numbers: &[usize],
    apart: usize,
    most: &mut u128,
    spent: &mut u128,
    steps: &mut Steps<L>,
) -> Result<(Vec<Mark>, Vec<Wdfs>), AllocError>
    requires few { length numbers.now < 2 ^ 32 }
    requires there { AreThere index.now numbers.now }
    requires can { CanOpen index.now 1 spent.old most.old }
    ensures opens { IfOk result (λ p. OpensSums index.now (merged p.0.items p.1.items) (map (term_at index.now.terms) (remove numbers.now apart)) spent.old spent.new) }
    ensures few { IfOk result (λ p. length p.0.items ≤ length numbers.now) }
    ensures fits { IfOk result (λ p. greatest_sum (merged p.0.items p.1.items) < 2 ^ 62) }
    ensures pays { IfOk result (λ p. Pays spent.old spent.new most.old most.new (unread_in index.now (merged p.0.items p.1.items)) (lengths_of (map (term_at index.now.terms) (remove numbers.now apart)) index.now.live.documents)) }
    ensures counts { CountsReadings spent.old spent.new steps.old steps.new most.new }
{
    let mut marks = Vec::with_capacity(alloc, numbers.len())?;
    let mut leaves = Vec::with_capacity(alloc, numbers.len())?;
    'numbers: for which in 0..numbers.len() {
        if which == apart {
            continue;
        }
        let (mark, wdfs) = open_wdfs(index, numbers[which], most, spent, steps)?;
        marks.push(mark)?;
        leaves.push(wdfs)?;
    }
    Ok((marks, leaves))
}

/// The list of one of many terms, with where it stands.
fn open_wdfs<L: Ledger>(
    index: &Index,
    number: usize,
    most: &mut u128,
    spent: &mut u128,
    steps: &mut Steps<L>,
) -> Result<(Mark, Wdfs), AllocError>
    requires there { number < length index.now.terms }
    requires can { CanOpen index.now 1 spent.old most.old }
    ensures opens { IfOk result (λ p. OpensSums index.now (merged (p.0 ∷ []) (p.1 ∷ [])) (term_at index.now.terms number ∷ []) spent.old spent.new) }
    ensures pays { IfOk result (λ p. Pays spent.old spent.new most.old most.new (unread_in index.now (merged (p.0 ∷ []) (p.1 ∷ []))) (lengths_of (term_at index.now.terms number ∷ []) index.now.live.documents)) }
    ensures counts { CountsReadings spent.old spent.new steps.old steps.new most.new }
{
    let (top, leaf) = open_list(index, number, most, spent, steps)?;
    Ok((mark_of(&top), Wdfs::of(leaf, number)))
}

/// The list of one term, with where it stands.
fn open_list<L: Ledger>(
    index: &Index,
    number: usize,
    most: &mut u128,
    spent: &mut u128,
    steps: &mut Steps<L>,
) -> Result<(Top, Leaf), AllocError>
    requires there { number < length index.now.terms }
    requires can { CanOpen index.now 1 spent.old most.old }
    ensures fresh { IfOk result (λ p. IsFresh (ListOf.Term number) Scheme.Nnn 1 p.1) }
    ensures opens { IfOk result (λ p. OpensSums index.now (side p.0 (leaf p.1) no_sides) (term_at index.now.terms number ∷ []) spent.old spent.new) }
    ensures pays { IfOk result (λ p. Pays spent.old spent.new most.old most.new (unread_in index.now (side p.0 (leaf p.1) no_sides)) (lengths_of (term_at index.now.terms number ∷ []) index.now.live.documents)) }
    ensures counts { CountsReadings spent.old spent.new steps.old steps.new most.new }
{
    let list = ListOf::Term(number);
    let (top, leaf) = open_entries(index, list, Scheme::Nnn, 1, most, spent, steps)?;
    Ok((top, leaf))
}

/// The leaf of the one term.
fn open_one<L: Ledger>(
    index: &Index,
    numbers: &[usize],
    scheme: Scheme,
    factor: u64,
    most: &mut u128,
    spent: &mut u128,
    steps: &mut Steps<L>,
) -> Result<(Top, Node), AllocError>
    requires one { length numbers.now ≡ 1 }
    requires there { AreThere index.now numbers.now }
    requires can { CanOpen index.now factor spent.old most.old }
    ensures opens { IfOk result (λ p. Opens index.now p.0 (shape_of p.1) (score_of (synonym_of index.now numbers.now) scheme factor) (weigh_by factor scheme (2 ^ 29 - 1))) }
    ensures pays { IfOk result (λ p. Pays spent.old spent.new most.old most.new (unread_of index.now (shape_of p.1)) (lengths_of (map (term_at index.now.terms) numbers.now) index.now.live.documents)) }
    ensures counts { CountsReadings spent.old spent.new steps.old steps.new most.new }
    ensures nest { IfOk result (λ p. OpensNest index.now Form.Or (shape_of p.1) (map (term_at index.now.terms) numbers.now) spent.old spent.new) }
{
    let number = numbers[0];
    let (top, node) = open_numbered(index, number, scheme, factor, most, spent, steps)?;
    Ok((top, node))
}

/// The two halves.
fn number_halves(numbers: &[usize]) -> (&[usize], &[usize])
    requires { 2 ≤ length numbers.now }
    ensures { (i : Indexed) → AreThere i numbers.now → are_different (map (term_at i.terms) numbers.now) ≡ true → NumberHalves i numbers.now result.0.now result.1.now }
{
    let count = numbers.len();
    numbers.split_at(count / 2)
}

/// A top that can weigh no more than this.
fn capped(top: Top, bound: Weight) -> Top
    ensures head { result.head ≡ top.head }
    ensures weight { result.weight ≡ top.weight }
    ensures greatest { result.greatest ≡ min top.greatest bound }
{
    Top {
        head: top.head,
        weight: top.weight,
        greatest: top.greatest.min(bound),
    }
}
