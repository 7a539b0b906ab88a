//! The live documents that a query matches, and their order.
ghost use Rattle.std.specs.Prelude.{◌≡◌, ◌≢◌, ◌≤◌, ◌<◌, true, All, AllPairs, IfOk};
ghost use Rattle.sk_query.specs.Trees.{query_view};
ghost use Rattle.sk_query.specs.Fits.{is_sound, leaves_of};
ghost use Rattle.sk_model.specs.Matches.{value_for, rank_of, matches, found_by};
ghost use Rattle.sk_base.specs.Loads.{IsLight};

use crate::scores::score;
use crate::terms::value_in;
use sk_base::{Bytes, Doc, DocId, Order, OrderBy, Paging, Rank, Scheme};
use sk_query::Query;
use std::alloc::{AllocError, Global};
use std::collections::BTreeMap;

/// All that a find matches, by rising id: what weighs less than its cutoff is no match.
pub fn found_by(
    alloc: Global,
    docs: &BTreeMap<DocId, Doc>,
    query: &Query,
    paging: &Paging,
) -> Result<Vec<Rank>, AllocError>
    requires sound { is_sound 1 (query_view query.now) ≡ true }
    requires leaves { leaves_of (query_view query.now) ≤ 1024 }
    requires light { All IsLight docs.now.entries }
    ensures all { IfOk result (λ ranks. ranks.items ≡ found_by (query_view query.now) paging.now docs.now.entries) }
    ensures differ { IfOk result (λ ranks. AllPairs (λ x y. x.id ≢ y.id) ranks.items) }
{
    let mut ranks = matches(alloc, docs, query, paging.options.scheme, paging.order)?;
    ranks.retain(|rank| rank.weight >= paging.options.cutoff);
    Ok(ranks)
}

/// All live documents that the query matches, each scored by itself, by rising id.
fn matches(
    alloc: Global,
    docs: &BTreeMap<DocId, Doc>,
    query: &Query,
    scheme: Scheme,
    order: Order,
) -> Result<Vec<Rank>, AllocError>
    requires sound { is_sound 1 (query_view query.now) ≡ true }
    requires leaves { leaves_of (query_view query.now) ≤ 1024 }
    requires light { All IsLight docs.now.entries }
    ensures all { IfOk result (λ ranks. ranks.items ≡ matches (query_view query.now) scheme order docs.now.entries) }
    ensures differ { IfOk result (λ ranks. AllPairs (λ x y. x.id ≢ y.id) ranks.items) }
{
    let mut ranks = Vec::new(alloc);
    'docs: for (id, doc) in docs.iter() {
        if let Some(rank) = rank_of(alloc, query, scheme, order, *id, doc)? {
            ranks.push(rank)?;
        }
    }
    Ok(ranks)
}

/// A document's rank, where the query matches it.
fn rank_of(
    alloc: Global,
    query: &Query,
    scheme: Scheme,
    order: Order,
    id: DocId,
    doc: &Doc,
) -> Result<Option<Rank>, AllocError>
    requires sound { is_sound 1 (query_view query.now) ≡ true }
    requires leaves { leaves_of (query_view query.now) ≤ 1024 }
    requires light { IsLight (id, doc.now) }
    ensures { IfOk result (λ rank. rank ≡ rank_of (query_view query.now) scheme order (id, doc.now)) }
{
    let Some(weight) = score(query, scheme, 1, doc) else {
        return Ok(None);
    };
    let value = Bytes::new(alloc, value_for(order, doc))?;
    Ok(Some(Rank { weight, value, id }))
}

/// The value that an order reads of a document, and the empty one where it has none.
fn value_for(order: Order, doc: &Doc) -> &[u8]
    ensures { result.now ≡ value_for order doc.now }
{
    let values = doc.values.as_slice();
    match order.by {
        OrderBy::Relevance => &[],
        OrderBy::Value(key) => value_in(key.slot, values),
        OrderBy::ValueThenRelevance(key) => value_in(key.slot, values),
        OrderBy::RelevanceThenValue(key) => value_in(key.slot, values),
    }
}
