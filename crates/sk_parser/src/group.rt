//! Filters, by their fields.
ghost use Rattle.std.specs.Prelude.{◌≡◌, ◌∷◌, List, IfOk, map, option_map};
ghost use Rattle.sk_query.specs.Trees.{query_view};
ghost use Rattle.sk_query.specs.declared.form.Form.TheVariants as Form;
ghost use Rattle.sk_grammar.specs.Runs.{joined, excluding, added, filtered, group_tree};
ghost use Rattle.sk_parser.specs.Views.{group_view, added_or};
ghost use Rattle.sk_grammar.specs.Runs.{FilterGroup as GroupMeant};

use sk_query::{Form, Queries, Query};
use std::alloc::{AllocError, Global};

/// The filters of one field.
#[derive(Drop)]
pub(crate) struct Group {
    pub field: usize,
    pub queries: Queries,
}

/// A node over several queries, or the one that there is.
pub(crate) fn joined(form: Form, queries: Queries) -> Query
    ensures { query_view result ≡ joined form (map query_view queries.items) }
{
    let mut queries = queries;
    if queries.len() == 1 {
        if let Some(query) = queries.pop() {
            return query;
        }
    }
    Query::joined(form, queries)
}

/// A query with others taken away, if there are any.
pub(crate) fn without(base: Query, others: Queries) -> Result<Query, AllocError>
    ensures { IfOk result (λ q. query_view q ≡ excluding (query_view base) (map query_view others.items)) }
{
    if others.is_empty() {
        return Ok(base);
    }
    let mut queries = others;
    queries.insert(0, base)?;
    Ok(Query::joined(Form::AndNot, queries))
}

/// Puts a filter to a group, if it is still left and the group is of its field.
fn take(
    group: Group,
    field: usize,
    left: Option<Query>,
) -> Result<(Group, Option<Query>), AllocError>
    ensures { IfOk result (λ p. (rest : List GroupMeant) → group_view p.0 ∷ added_or field (option_map query_view p.1) rest
        ≡ added_or field (option_map query_view left) (group_view group ∷ rest)) }
{
    if group.field != field {
        return Ok((group, left));
    }
    match left {
        Some(query) => {
            let mut queries = group.queries;
            queries.push(query)?;
            Ok((Group { field, queries }, None))
        }
        None => Ok((group, None)),
    }
}

/// The groups with a filter more.
pub(crate) fn added(
    alloc: Global,
    groups: Vec<Group>,
    field: usize,
    query: Query,
) -> Result<Vec<Group>, AllocError>
    ensures { IfOk result (λ v. map group_view v.items ≡ added field (query_view query) (map group_view groups.items)) }
{
    let mut made = Vec::new(alloc);
    let mut left = Some(query);
    'groups: for group in groups {
        let (group, rest) = take(group, field, left)?;
        made.push(group)?;
        left = rest;
    }
    if let Some(query) = left {
        let mut queries = Vec::new(alloc);
        queries.push(query)?;
        made.push(Group { field, queries })?;
    }
    Ok(made)
}

/// A query under filters, if there are any.
pub(crate) fn filtered(alloc: Global, base: Query, groups: Vec<Group>) -> Result<Query, AllocError>
    ensures { IfOk result (λ q. query_view q ≡ filtered (query_view base) (map group_view groups.items)) }
{
    if groups.is_empty() {
        return Ok(base);
    }
    let mut queries = Vec::new(alloc);
    queries.push(base)?;
    'groups: for group in groups {
        queries.push(joined(Form::Or, group.queries))?;
    }
    Ok(Query::joined(Form::Filter, queries))
}
