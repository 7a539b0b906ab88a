//! Of the matches those that are kept, and how many are not.
ghost use Rattle.std.specs.Prelude.{◌≡◌, ◌≢◌, ◌≤◌, AllPairs, IfOk, [], Some, length};
ghost use Rattle.sk_model.specs.Matches.{key_of};
ghost use Rattle.sk_model.specs.Page.{best_first, is_kept, kept_behind, kept_of, count_key};
ghost use Rattle.sk_model.specs.Counts.{kept_by, dropped_by};

use crate::terms::value_in;
use sk_base::{Bytes, Collapse, Doc, DocId, Order, Paging, Rank};
use sk_model::sort_best_first;
use std::alloc::{AllocError, Global};
use std::collections::BTreeMap;

/// The matches that a find keeps, the best first.
pub fn kept_by(
    alloc: Global,
    docs: &BTreeMap<DocId, Doc>,
    paging: &Paging,
    ranks: &[Rank],
) -> Result<Vec<Rank>, AllocError>
    requires { AllPairs (λ x y. x.id ≢ y.id) ranks.now }
    ensures { IfOk result (λ kept. kept.items ≡ kept_by paging.now docs.now.entries ranks.now) }
{
    let ordered = best_first(alloc, ranks, paging.order)?;
    kept_of(alloc, docs, paging.collapse, ordered)
}

/// How many matches of this key are not kept, and none of the empty key.
pub fn dropped_by(
    docs: &BTreeMap<DocId, Doc>,
    paging: &Paging,
    key: &[u8],
    ranks: &[Rank],
    kept: &[Rank],
) -> usize
    requires { kept.now ≡ kept_by paging.now docs.now.entries ranks.now }
    ensures value { result ≡ dropped_by paging.now docs.now.entries key.now ranks.now }
    ensures bound { result ≤ length ranks.now }
{
    if key.is_empty() {
        return 0;
    }
    let all = count_key(docs, paging.collapse, key, ranks);
    all.saturating_sub(count_key(docs, paging.collapse, key, kept))
}

/// The key of a match: its document's value in the slot that is collapsed on.
pub fn key_of<'a>(
    docs: &'a BTreeMap<DocId, Doc>,
    collapse: Option<Collapse>,
    rank: &Rank,
) -> &'a [u8]
    ensures { result.now ≡ key_of collapse docs.now.entries rank.now }
{
    let Some(collapse) = collapse else {
        return &[];
    };
    match docs.get(&rank.id) {
        Some(doc) => value_in(collapse.slot, doc.values.as_slice()),
        None => &[],
    }
}

fn best_first(alloc: Global, ranks: &[Rank], order: Order) -> Result<Vec<Rank>, AllocError>
    requires { AllPairs (λ x y. x.id ≢ y.id) ranks.now }
    ensures { IfOk result (λ ordered. ordered.items ≡ best_first order ranks.now) }
{
    let mut ordered = copy_of(alloc, ranks)?;
    sort_best_first(&mut ordered, &order);
    Ok(ordered)
}

fn copy_of(alloc: Global, ranks: &[Rank]) -> Result<Vec<Rank>, AllocError>
    ensures { IfOk result (λ copy. copy.items ≡ ranks.now) }
{
    let mut copy = Vec::new(alloc);
    'ranks: for rank in ranks {
        let rank = same_rank(alloc, rank)?;
        copy.push(rank)?;
    }
    Ok(copy)
}

fn same_rank(alloc: Global, rank: &Rank) -> Result<Rank, AllocError>
    ensures { IfOk result (λ same. same ≡ rank.now) }
{
    let value = Bytes::new(alloc, rank.value.as_slice())?;
    Ok(Rank {
        weight: rank.weight,
        value,
        id: rank.id,
    })
}

/// Of the ordered matches those that are kept. Without collapsing all are.
fn kept_of(
    alloc: Global,
    docs: &BTreeMap<DocId, Doc>,
    collapse: Option<Collapse>,
    ranks: Vec<Rank>,
) -> Result<Vec<Rank>, AllocError>
    ensures { IfOk result (λ kept. kept.items ≡ kept_of collapse (key_of collapse docs.now.entries) ranks.items) }
{
    match collapse {
        None => Ok(ranks),
        Some(by) => collapsed(alloc, docs, by, ranks.as_slice()),
    }
}

/// They are walked from the best, with the keys that were kept so far.
fn collapsed(
    alloc: Global,
    docs: &BTreeMap<DocId, Doc>,
    by: Collapse,
    ranks: &[Rank],
) -> Result<Vec<Rank>, AllocError>
    ensures { IfOk result (λ kept. kept.items ≡ kept_behind by.max (key_of (Some by) docs.now.entries) [] ranks.now) }
{
    let mut kept = Vec::new(alloc);
    let mut before = Vec::new(alloc);
    'ranks: for rank in ranks {
        let key = key_of(docs, Some(by), rank);
        if !is_kept(by.max, key, before.as_slice()) {
            continue;
        }
        let key = Bytes::new(alloc, key)?;
        let rank = same_rank(alloc, rank)?;
        before.insert(0, key)?;
        kept.push(rank)?;
    }
    Ok(kept)
}

/// A match is kept where its key is empty, or where fewer than the most of its key were kept before it.
fn is_kept(most: u32, key: &[u8], before: &[Bytes]) -> bool
    ensures { result ≡ is_kept most key.now before.now }
{
    key.is_empty() || before.iter().filter(|one| key == one.as_slice()).count() < most as usize
}

/// How many of these matches have the key.
fn count_key(
    docs: &BTreeMap<DocId, Doc>,
    collapse: Option<Collapse>,
    key: &[u8],
    ranks: &[Rank],
) -> usize
    ensures value { result ≡ count_key (key_of collapse docs.now.entries) key.now ranks.now }
    ensures bound { result ≤ length ranks.now }
{
    ranks
        .iter()
        .filter(|rank| key_of(docs, collapse, rank) == key)
        .count()
}
