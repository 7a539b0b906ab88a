//! The query of parts.
ghost use Rattle.std.specs.Prelude.{◌≡◌, [], ◌∷◌, ◌++◌, IfOk, OnOk, map};
ghost use Rattle.sk_query.specs.Trees.{query_view};
ghost use Rattle.sk_grammar.specs.Meaning.{Run as RunMeant, is_positive, run_trees, runs_tree, and_tree, xor_tree, parts_tree, closed_part};
ghost use Rattle.sk_parser.specs.Views.{part_view, parts_view, parts_behind, run_view};

use crate::base::{all_of, run_tree};
use crate::group::{joined, without};
use crate::part::Part;
use crate::split::{Border, Run, has_operator, runs_in, split};
use sk_base::Join;
use sk_query::{Form, Queries, Query};
use std::alloc::{AllocError, Global};

/// Puts the query of a run to the positive or the negative ones.
fn place(
    alloc: Global,
    join: Join,
    run: Run,
    positive: &mut Queries,
    negative: &mut Queries,
) -> Result<(), AllocError>
    ensures positive { OnOk result (map query_view positive.new.items ≡ map query_view positive.old.items ++ run_trees join is_positive (run_view run ∷ [])) }
    ensures negative { OnOk result (map query_view negative.new.items ≡ map query_view negative.old.items ++ run_trees join RunMeant.negative (run_view run ∷ [])) }
{
    let query = run_tree(alloc, join, run.inside)?;
    if run.negative {
        negative.push(query)?;
    } else {
        positive.push(query)?;
    }
    Ok(())
}

/// The query of runs.
fn runs_tree(alloc: Global, join: Join, runs: Vec<Run>) -> Result<Query, AllocError>
    ensures { IfOk result (λ q. query_view q ≡ runs_tree join (map run_view runs.items)) }
{
    let mut positive = Vec::new(alloc);
    let mut negative = Vec::new(alloc);
    'runs: for one in runs {
        place(alloc, join, one, &mut positive, &mut negative)?;
    }
    without(all_of(positive), negative)
}

/// The query of what stands between two XOR.
fn and_tree(alloc: Global, join: Join, parts: Vec<Part>) -> Result<Query, AllocError>
    ensures { IfOk result (λ q. query_view q ≡ and_tree join (parts_view parts.items)) }
{
    let runs = runs_in(alloc, parts)?;
    runs_tree(alloc, join, runs)
}

/// The query of what stands between two OR.
fn xor_tree(alloc: Global, join: Join, parts: Vec<Part>) -> Result<Query, AllocError>
    ensures { IfOk result (λ q. query_view q ≡ xor_tree join (parts_view parts.items)) }
{
    let segments = split(alloc, Border::Xor, parts)?;
    let mut queries = Vec::new(alloc);
    'segments: for segment in segments {
        queries.push(and_tree(alloc, join, segment)?)?;
    }
    Ok(joined(Form::Xor, queries))
}

/// The query of parts.
pub(crate) fn parts_tree(alloc: Global, join: Join, parts: Vec<Part>) -> Result<Query, AllocError>
    ensures { IfOk result (λ q. query_view q ≡ parts_tree join (parts_view parts.items)) }
{
    if has_operator(parts.as_slice()) {
        split_tree(alloc, join, parts)
    } else {
        run_tree(alloc, join, parts)
    }
}

/// The same, by splitting.
fn split_tree(alloc: Global, join: Join, parts: Vec<Part>) -> Result<Query, AllocError>
    ensures { IfOk result (λ q. query_view q ≡ parts_tree join (parts_view parts.items)) }
{
    let segments = split(alloc, Border::Or, parts)?;
    let mut queries = Vec::new(alloc);
    'segments: for segment in segments {
        queries.push(xor_tree(alloc, join, segment)?)?;
    }
    Ok(joined(Form::Or, queries))
}

/// The part that a bracket is, by the parts inside.
pub(crate) fn closed_part(alloc: Global, join: Join, parts: Vec<Part>) -> Result<Part, AllocError>
    ensures { IfOk result (λ p. part_view p ≡ closed_part join (parts_behind parts.items)) }
{
    if parts.is_empty() {
        return Ok(Part::Empty);
    }
    let query = parts_tree(alloc, join, parts)?;
    Ok(Part::Unit(query))
}
