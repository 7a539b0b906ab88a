//! The most steps that the rules allow a find.
ghost use Rattle.std.specs.Prelude.{◌≡◌, ◌≤◌, ◌<◌, ◌+◌, ◌^◌, true, All, length, IfOk};
ghost use Rattle.sk_base.specs.Loads.{IsLight};
ghost use Rattle.sk_query.specs.Trees.{query_view};
ghost use Rattle.sk_query.specs.Fits.{is_sound, leaves_of};
ghost use Rattle.sk_model.specs.Matches.{found_by};
ghost use Rattle.sk_model.specs.Sharp.{is_plain, stop_number, rare_number, decay_of, decay_number, at_most, sharp};

use crate::allowance::{allowance, extra};
use crate::lists::terms_in;
use crate::readings::{decay_readings, rare_readings, ups};
use crate::settled::{decay_point, stop_point};
use crate::shapes::{flat_lists, of_two, rare_lists};
use sk_base::{Doc, DocId, OrderBy, Paging, Rank, Texts};
use sk_plain::found_by;
use sk_query::Query;
use std::alloc::{AllocError, Global};
use std::collections::BTreeMap;

/// The most steps that a find of so many hits may take: the least of what each list and each match take, and of the
/// numbers that apply. It is an error where 128 bits do not hold what the lists take.
pub fn sharp_of(
    alloc: Global,
    docs: &BTreeMap<DocId, Doc>,
    query: &Query,
    paging: &Paging,
    hits: usize,
) -> Result<u128, AllocError>
    requires sound { is_sound 1 (query_view query.now) ≡ true }
    requires leaves { leaves_of (query_view query.now) ≤ 1024 }
    requires light { All IsLight docs.now.entries }
    requires few { length docs.now.entries < 2 ^ 32 }
    ensures { IfOk result (λ n. n ≡ sharp (query_view query.now) paging.now docs.now.entries hits) }
{
    let ranks = found_by(alloc, docs, query, paging)?;
    let ranks = ranks.as_slice();
    let all = allowance(alloc, query, paging, docs, ranks.len(), hits)?;
    let stop = stop_number(alloc, query, paging, docs, ranks, hits)?;
    let rare = rare_number(alloc, query, paging, docs, ranks.len(), hits)?;
    let decay = decay_number(alloc, query, paging, docs, ranks, hits)?;
    Ok(at_most(at_most(at_most(all, stop), rare), decay))
}

/// Each list up to the stop point and one more, and the hits. It applies to flat queries, by relevance and without
/// collapsing.
fn stop_number(
    alloc: Global,
    query: &Query,
    paging: &Paging,
    docs: &BTreeMap<DocId, Doc>,
    ranks: &[Rank],
    hits: usize,
) -> Result<Option<u128>, AllocError>
    requires sound { is_sound 1 (query_view query.now) ≡ true }
    requires leaves { leaves_of (query_view query.now) ≤ 1024 }
    requires light { All IsLight docs.now.entries }
    requires few { length docs.now.entries < 2 ^ 32 }
    requires found { ranks.now ≡ found_by (query_view query.now) paging.now docs.now.entries }
    ensures { IfOk result (λ n. n ≡ stop_number (query_view query.now) paging.now docs.now.entries hits) }
{
    if !is_plain(paging) {
        return Ok(None);
    }
    let Some(lists) = flat_lists(alloc, query, docs)? else {
        return Ok(None);
    };
    let point = stop_point(query, paging, docs, ranks);
    Ok(Some(ups(lists.as_slice(), point, docs) + hits as u128))
}

/// Of each list no more than 128 readings for each posting of the one that leads, and what keys, values and hits take.
/// It applies to a query with a rare side.
fn rare_number(
    alloc: Global,
    query: &Query,
    paging: &Paging,
    docs: &BTreeMap<DocId, Doc>,
    matching: usize,
    hits: usize,
) -> Result<Option<u128>, AllocError>
    ensures { IfOk result (λ n. n ≡ rare_number (query_view query.now) paging.now docs.now.entries matching hits) }
{
    let Some((lists, leading)) = rare_lists(alloc, query, docs)? else {
        return Ok(None);
    };
    let readings = rare_readings(lists.as_slice(), leading, docs);
    Ok(Some(readings + extra(paging, matching, hits)))
}

/// It applies to an or of exactly two terms, by relevance and without collapsing.
fn decay_number(
    alloc: Global,
    query: &Query,
    paging: &Paging,
    docs: &BTreeMap<DocId, Doc>,
    ranks: &[Rank],
    hits: usize,
) -> Result<Option<u128>, AllocError>
    requires light { All IsLight docs.now.entries }
    requires found { ranks.now ≡ found_by (query_view query.now) paging.now docs.now.entries }
    ensures { IfOk result (λ n. n ≡ decay_number (query_view query.now) paging.now docs.now.entries hits) }
{
    match query {
        Query::Or(parts) => {
            if !is_plain(paging) {
                return Ok(None);
            }
            let lists = of_two(terms_in(alloc, parts)?);
            Ok(decay_of(query, paging, docs, ranks, lists, hits))
        }
        _ => Ok(None),
    }
}

/// One of the two lists is read out, whichever takes less, and the other up to the point from which on its term cannot
/// matter by itself.
fn decay_of(
    query: &Query,
    paging: &Paging,
    docs: &BTreeMap<DocId, Doc>,
    ranks: &[Rank],
    lists: Option<Texts>,
    hits: usize,
) -> Option<u128>
    requires light { All IsLight docs.now.entries }
    requires found { ranks.now ≡ found_by (query_view query.now) paging.now docs.now.entries }
    ensures { result ≡ decay_of (query_view query.now) paging.now docs.now.entries hits lists }
{
    let lists = lists?;
    let [a, b] = lists.as_slice() else {
        return None;
    };
    let behind_b = decay_point(query, b, paging, docs, ranks);
    let behind_a = decay_point(query, a, paging, docs, ranks);
    let first = decay_readings(a, b, behind_b, docs, hits);
    let second = decay_readings(b, a, behind_a, docs, hits);
    Some(first.min(second))
}

/// The heavier first, and nothing collapsed.
pub fn is_plain(paging: &Paging) -> bool
    ensures { result ≡ is_plain paging.now }
{
    matches!(paging.order.by, OrderBy::Relevance) && paging.collapse.is_none()
}

/// The lesser of a number and one that may apply.
pub fn at_most(n: u128, other: Option<u128>) -> u128
    ensures { result ≡ at_most n other }
{
    match other {
        None => n,
        Some(m) => n.min(m),
    }
}
