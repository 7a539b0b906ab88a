//! The units of a run.
ghost use Rattle.std.specs.Prelude.{◌≡◌, [], ◌∷◌, ◌++◌, IfOk, OnOk, map};
ghost use Rattle.sk_query.specs.Trees.{query_view};
ghost use Rattle.sk_grammar.specs.declared.token.Mark.TheVariants as Mark;
ghost use Rattle.sk_grammar.specs.Runs.{unit_of, mark_set, mark_behind, units};
ghost use Rattle.sk_parser.specs.Views.{part_view, parts_view, unit_view};

use crate::part::{Part, chain_tree};
use sk_grammar::{Kind, Mark};
use sk_query::Query;
use std::alloc::{AllocError, Global};

/// A unit of a run: its mark, its field where it is a filter or a range, and its query.
#[derive(Drop)]
pub(crate) struct Unit {
    pub mark: Mark,
    pub field: Option<usize>,
    pub query: Query,
}

fn mark_set(kind: &Kind) -> Mark
    ensures { result ≡ mark_set kind.now }
{
    match kind {
        Kind::Plus => Mark::Loved,
        Kind::Minus => Mark::Hated,
        _ => Mark::Plain,
    }
}

/// The mark that a part sets for what stands right behind it.
fn mark_behind(part: &Part) -> Mark
    ensures { result ≡ mark_behind (part_view part.now) }
{
    match part {
        Part::Operator(kind) => mark_set(kind),
        _ => Mark::Plain,
    }
}

/// Adds a unit.
fn put(
    made: &mut Vec<Unit>,
    mark: Mark,
    field: Option<usize>,
    query: Query,
) -> Result<(), AllocError>
    ensures { OnOk result (map unit_view made.new.items ≡ map unit_view made.old.items ++ record { mark = mark; field = field; query = query_view query } ∷ []) }
{
    made.push(Unit { mark, field, query })?;
    Ok(())
}

/// Adds the unit that a part is behind this mark, if it is one.
fn add(made: &mut Vec<Unit>, mark: Mark, part: Part) -> Result<(), AllocError>
    ensures { OnOk result (map unit_view made.new.items ≡ map unit_view made.old.items ++ unit_of mark (part_view part)) }
{
    match part {
        Part::Chain(ordered, distance, stem, words) => {
            let query = chain_tree(ordered, distance, stem, words)?;
            put(made, mark, None, query)
        }
        Part::Unit(query) => put(made, mark, None, query),
        Part::Chosen(field, query) => put(made, mark, Some(field), query),
        Part::Empty | Part::Link(_, _) | Part::Operator(_) => Ok(()),
    }
}

/// The units of a run.
pub(crate) fn units(alloc: Global, parts: Vec<Part>) -> Result<Vec<Unit>, AllocError>
    ensures { IfOk result (λ us. map unit_view us.items ≡ units Mark.Plain (parts_view parts.items)) }
{
    let mut made = Vec::new(alloc);
    let mut mark = Mark::Plain;
    'parts: for part in parts {
        let next = mark_behind(&part);
        add(&mut made, mark, part)?;
        mark = next;
    }
    Ok(made)
}
