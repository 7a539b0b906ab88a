//! The steps that a find may take: each list once, and what its matches and hits take.
ghost use Rattle.std.specs.Prelude.{◌≡◌, ◌≤◌, ◌+◌, ◌*◌, IfOk};
ghost use Rattle.sk_query.specs.Trees.{wildcard, query_view, queries_view};
ghost use Rattle.sk_model.specs.Allowance.{leaf_readings, leaves_readings, key_readings, value_readings, extra, allowance};

use crate::lists::{lengths_of, terms_with};
use sk_base::{Collapse, Doc, DocId, OrderBy, Paging};
use sk_plain::{length_of, live_of, slot_length_of};
use sk_query::Query;
use std::alloc::{AllocError, Global};
use std::collections::BTreeMap;

/// The lengths of the lists of all leaves, and the readings beside them. It is an error where 128 bits do not hold it.
pub fn allowance(
    alloc: Global,
    query: &Query,
    paging: &Paging,
    docs: &BTreeMap<DocId, Doc>,
    matching: usize,
    hits: usize,
) -> Result<u128, AllocError>
    ensures { IfOk result (λ n. n ≡ allowance (query_view query.now) paging.now docs.now.entries matching hits) }
{
    let lists = leaf_readings(alloc, query, docs)?;
    sum_of(lists, extra(paging, matching, hits))
}

/// The lengths of the lists of all leaves, and so many readings more. It is an error where 128 bits do not hold it.
pub fn list_readings(
    alloc: Global,
    query: &Query,
    docs: &BTreeMap<DocId, Doc>,
    more: usize,
) -> Result<u128, AllocError>
    ensures { IfOk result (λ n. n ≡ leaf_readings (query_view query.now) docs.now.entries + more) }
{
    let lists = leaf_readings(alloc, query, docs)?;
    sum_of(lists, more as u128)
}

/// The lengths of the lists of all leaves. Those of near and phrase count twice, for their positions.
#[cycle(leaf_readings)]
fn leaf_readings(
    alloc: Global,
    query: &Query,
    docs: &BTreeMap<DocId, Doc>,
) -> Result<u128, AllocError>
    ensures { IfOk result (λ n. n ≡ leaf_readings (query_view query.now) docs.now.entries) }
{
    match query {
        Query::Nothing => Ok(0),
        Query::All => Ok(live_of(docs) as u128),
        Query::Term(term) => Ok(length_of(term.as_str().as_bytes(), docs) as u128),
        Query::Wildcard(prefix) => wild_readings(alloc, prefix.as_str().as_bytes(), docs),
        Query::And(parts)
        | Query::Or(parts)
        | Query::Xor(parts)
        | Query::Max(parts)
        | Query::AndNot(parts)
        | Query::AndMaybe(parts)
        | Query::Filter(parts) => leaves_readings(alloc, parts, docs),
        Query::Near(_, words) | Query::Phrase(_, words) => {
            let once = lengths_of(words.as_slice(), docs);
            sum_of(once, once)
        }
        Query::Synonym(words) => Ok(lengths_of(words.as_slice(), docs)),
        Query::Scale(_, part) => leaf_readings(alloc, part, docs),
        Query::Range(slot, _, _) => Ok(slot_length_of(*slot, docs) as u128),
    }
}

/// Those of the parts, added.
#[cycle(leaf_readings)]
fn leaves_readings(
    alloc: Global,
    parts: &[Query],
    docs: &BTreeMap<DocId, Doc>,
) -> Result<u128, AllocError>
    ensures { IfOk result (λ n. n ≡ leaves_readings (queries_view parts.now) docs.now.entries) }
{
    let mut sum = 0u128;
    'parts: for part in parts {
        let more = leaf_readings(alloc, part, docs)?;
        sum = sum_of(sum, more)?;
    }
    Ok(sum)
}

/// One list for each term that begins with the prefix.
fn wild_readings(
    alloc: Global,
    prefix: &[u8],
    docs: &BTreeMap<DocId, Doc>,
) -> Result<u128, AllocError>
    ensures { IfOk result (λ n. n ≡ leaf_readings (wildcard prefix.now) docs.now.entries) }
{
    let terms = terms_with(alloc, prefix, docs)?;
    Ok(lengths_of(terms.as_slice(), docs))
}

/// The sum. As many readings as 128 bits cannot count are of lists that no memory holds.
fn sum_of(a: u128, b: u128) -> Result<u128, AllocError>
    ensures { IfOk result (λ n. n ≡ a + b) }
{
    a.checked_add(b).ok_or(AllocError)
}

/// Beside the lists: the keys and the values of matches, and the payloads of hits.
pub fn extra(paging: &Paging, matching: usize, hits: usize) -> u128
    ensures value { result ≡ extra paging.now matching hits }
    ensures bound { result ≤ 2 * matching + hits }
{
    let keys = key_readings(paging.collapse, matching);
    let values = value_readings(paging.order.by, matching);
    keys as u128 + values as u128 + hits as u128
}

/// One reading for each match where a find collapses.
fn key_readings(collapse: Option<Collapse>, matching: usize) -> usize
    ensures value { result ≡ key_readings collapse matching }
    ensures bound { result ≤ matching }
{
    match collapse {
        None => 0,
        Some(_) => matching,
    }
}

/// One reading for each match where the order uses a value.
fn value_readings(by: OrderBy, matching: usize) -> usize
    ensures value { result ≡ value_readings by matching }
    ensures bound { result ≤ matching }
{
    match by {
        OrderBy::Relevance => 0,
        OrderBy::Value(_) | OrderBy::ValueThenRelevance(_) | OrderBy::RelevanceThenValue(_) => {
            matching
        }
    }
}
