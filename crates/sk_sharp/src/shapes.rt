//! The queries to which the sharper numbers of steps apply.
ghost use Rattle.std.specs.Prelude.{◌≡◌, IfOk};
ghost use Rattle.sk_query.specs.Trees.{query_view};
ghost use Rattle.sk_model.specs.Sharp.{flat_lists, led_by_first, of_two, rare_lists};

use crate::lists::{copies, least_length, terms_in, terms_with};
use sk_base::{Doc, DocId, Text, Texts};
use sk_plain::length_of;
use sk_query::Query;
use std::alloc::{AllocError, Global};
use std::collections::BTreeMap;

/// The lists of a flat query: a term, a synonym, a wildcard, or an or or a max of terms alone.
pub fn flat_lists(
    alloc: Global,
    query: &Query,
    docs: &BTreeMap<DocId, Doc>,
) -> Result<Option<Texts>, AllocError>
    ensures { IfOk result (λ lists. lists ≡ flat_lists (query_view query.now) docs.now.entries) }
{
    match query {
        Query::Term(term) => {
            let mut lists = Texts::new(alloc);
            let term = Text::new(alloc, term.as_str())?;
            lists.push(term)?;
            Ok(Some(lists))
        }
        Query::Synonym(words) => {
            let lists = copies(alloc, words.as_slice())?;
            Ok(Some(lists))
        }
        Query::Wildcard(prefix) => {
            let lists = terms_with(alloc, prefix.as_str().as_bytes(), docs)?;
            Ok(Some(lists))
        }
        Query::Or(parts) | Query::Max(parts) => terms_in(alloc, parts),
        _ => Ok(None),
    }
}

/// The lists of a query with a rare side, and the length of the one that leads: the shortest of an and of terms, the
/// first of an and_not or a filter of terms or of an and_maybe of two.
pub fn rare_lists(
    alloc: Global,
    query: &Query,
    docs: &BTreeMap<DocId, Doc>,
) -> Result<Option<(Texts, usize)>, AllocError>
    ensures { IfOk result (λ rare. rare ≡ rare_lists (query_view query.now) docs.now.entries) }
{
    match query {
        Query::And(parts) => {
            let Some(lists) = terms_in(alloc, parts)? else {
                return Ok(None);
            };
            let least = least_length(lists.as_slice(), docs);
            Ok(Some((lists, least)))
        }
        Query::AndNot(parts) | Query::Filter(parts) => {
            let lists = terms_in(alloc, parts)?;
            Ok(led_by_first(lists, docs))
        }
        Query::AndMaybe(parts) => {
            let lists = terms_in(alloc, parts)?;
            Ok(led_by_first(of_two(lists), docs))
        }
        _ => Ok(None),
    }
}

/// The terms, and the length of the first one's list.
fn led_by_first(lists: Option<Texts>, docs: &BTreeMap<DocId, Doc>) -> Option<(Texts, usize)>
    ensures { result ≡ led_by_first lists docs.now.entries }
{
    let lists = lists?;
    let [first, ..] = lists.as_slice() else {
        return None;
    };
    let leading = length_of(first.as_str().as_bytes(), docs);
    Some((lists, leading))
}

/// The terms, where there are two.
pub fn of_two(lists: Option<Texts>) -> Option<Texts>
    ensures { result ≡ of_two lists }
{
    let lists = lists?;
    let are_two = lists.as_slice().len() == 2;
    if are_two { Some(lists) } else { None }
}
