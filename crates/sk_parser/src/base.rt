//! The query of a run's units.
ghost use Rattle.std.specs.Prelude.{◌≡◌, [], ◌∷◌, ◌++◌, IfOk, OnOk, map, Option};
ghost use Rattle.sk_query.specs.Trees.{query_view};
ghost use Rattle.sk_grammar.specs.Runs.{hates, is_hated, queries_of, all_of, with_plain, loved_and_plain, groups_after, units_tree, run_tree};
ghost use Rattle.sk_parser.specs.Views.{parts_view, unit_view, group_view};
ghost use Rattle.sk_parser.specs.Base.{leads, leads_mark, follows, base_from};

use crate::group::{Group, added, filtered, joined, without};
use crate::part::Part;
use crate::unit::{Unit, units};
use sk_base::Join;
use sk_grammar::Mark;
use sk_query::{Form, Queries, Query};
use std::alloc::{AllocError, Global};
use std::mem;

/// All of these, or all documents where there are none.
pub(crate) fn all_of(queries: Queries) -> Query
    ensures { query_view result ≡ all_of (map query_view queries.items) }
{
    if queries.is_empty() {
        Query::All
    } else {
        joined(Form::And, queries)
    }
}

/// A query, and others that may match.
fn with_plain(alloc: Global, base: Query, plain: Queries) -> Result<Query, AllocError>
    ensures { IfOk result (λ q. query_view q ≡ with_plain (query_view base) (map query_view plain.items)) }
{
    if plain.is_empty() {
        return Ok(base);
    }
    let mut queries = Vec::new(alloc);
    queries.push(base)?;
    queries.push(joined(Form::Or, plain))?;
    Ok(Query::joined(Form::AndMaybe, queries))
}

fn loved_and_plain(alloc: Global, loved: Queries, plain: Queries) -> Result<Query, AllocError>
    ensures { IfOk result (λ q. query_view q ≡ loved_and_plain (map query_view loved.items) (map query_view plain.items)) }
{
    if loved.is_empty() {
        return Ok(if plain.is_empty() {
            Query::All
        } else {
            joined(Form::Or, plain)
        });
    }
    with_plain(alloc, joined(Form::And, loved), plain)
}

/// What is loved and what is plain, by how a run is joined.
fn base_from(alloc: Global, join: Join, loved: Queries, plain: Queries) -> Result<Query, AllocError>
    ensures { IfOk result (λ q. query_view q ≡ base_from join (map query_view loved.items) (map query_view plain.items)) }
{
    match join {
        Join::Or => loved_and_plain(alloc, loved, plain),
        Join::And => Ok(all_of(plain)),
    }
}

fn hates(mark: Mark) -> bool
    ensures { result ≡ hates mark }
{
    matches!(mark, Mark::Hated)
}

/// Whether a unit with this mark leads the others.
fn leads_mark(join: Join, mark: Mark) -> bool
    ensures { result ≡ leads_mark join mark }
{
    match join {
        Join::Or => matches!(mark, Mark::Loved),
        Join::And => false,
    }
}

/// Puts a unit to those of its kind.
fn place(
    alloc: Global,
    join: Join,
    unit: Unit,
    loved: &mut Queries,
    plain: &mut Queries,
    hated: &mut Queries,
    groups: &mut Vec<Group>,
) -> Result<(), AllocError>
    ensures loved { OnOk result (map query_view loved.new.items ≡ map query_view loved.old.items ++ queries_of (leads join) (unit_view unit ∷ [])) }
    ensures plain { OnOk result (map query_view plain.new.items ≡ map query_view plain.old.items ++ queries_of (follows join) (unit_view unit ∷ [])) }
    ensures hated { OnOk result (map query_view hated.new.items ≡ map query_view hated.old.items ++ queries_of is_hated (unit_view unit ∷ [])) }
    ensures groups { OnOk result (map group_view groups.new.items ≡ groups_after (map group_view groups.old.items) (unit_view unit ∷ [])) }
{
    if hates(unit.mark) {
        hated.push(unit.query)?;
        return Ok(());
    }
    match unit.field {
        Some(field) => {
            let before = mem::replace(groups, Vec::new(alloc));
            *groups = added(alloc, before, field, unit.query)?;
            Ok(())
        }
        None => {
            if leads_mark(join, unit.mark) {
                loved.push(unit.query)?;
            } else {
                plain.push(unit.query)?;
            }
            Ok(())
        }
    }
}

/// The query of units.
fn units_tree(alloc: Global, join: Join, units: Vec<Unit>) -> Result<Query, AllocError>
    ensures { IfOk result (λ q. query_view q ≡ units_tree join (map unit_view units.items)) }
{
    if units.is_empty() {
        return Ok(Query::Nothing);
    }
    let mut loved = Vec::new(alloc);
    let mut plain = Vec::new(alloc);
    let mut hated = Vec::new(alloc);
    let mut groups = Vec::new(alloc);
    'units: for unit in units {
        place(
            alloc,
            join,
            unit,
            &mut loved,
            &mut plain,
            &mut hated,
            &mut groups,
        )?;
    }
    let base = base_from(alloc, join, loved, plain)?;
    without(filtered(alloc, base, groups)?, hated)
}

/// The query of a run.
pub(crate) fn run_tree(alloc: Global, join: Join, parts: Vec<Part>) -> Result<Query, AllocError>
    ensures { IfOk result (λ q. query_view q ≡ run_tree join (parts_view parts.items)) }
{
    let found = units(alloc, parts)?;
    units_tree(alloc, join, found)
}
