//! The hits of a page, exactly.
ghost use Rattle.std.specs.Prelude.{◌≡◌, ◌<◌, ◌^◌, IfOk, map, length};
ghost use Rattle.sk_model.specs.Edits.{document_at};
ghost use Rattle.sk_model.specs.Counts.{kept_by};
ghost use Rattle.sk_model.specs.Reports.{payload_of};
ghost use Rattle.sk_plain.specs.Pages.{hit_of};

use crate::kept::{dropped_by, key_of};
use sk_base::{Doc, DocId, Paging, Rank, Ranked, Text};
use std::alloc::{AllocError, Global};
use std::collections::BTreeMap;

/// These matches as hits, where those that are kept are known.
pub fn hits_of(
    alloc: Global,
    docs: &BTreeMap<DocId, Doc>,
    paging: &Paging,
    ranks: &[Rank],
    kept: &[Rank],
    asked: &[Rank],
) -> Result<Vec<Ranked>, AllocError>
    requires kept { kept.now ≡ kept_by paging.now docs.now.entries ranks.now }
    requires few { length ranks.now < 2 ^ 32 }
    ensures { IfOk result (λ hits. hits.items ≡ map (hit_of paging.now docs.now.entries ranks.now) asked.now) }
{
    let mut hits = Vec::new(alloc);
    'asked: for rank in asked {
        let hit = hit_of(alloc, docs, paging, ranks, kept, rank)?;
        hits.push(hit)?;
    }
    Ok(hits)
}

/// A match as a hit.
fn hit_of(
    alloc: Global,
    docs: &BTreeMap<DocId, Doc>,
    paging: &Paging,
    ranks: &[Rank],
    kept: &[Rank],
    rank: &Rank,
) -> Result<Ranked, AllocError>
    requires kept { kept.now ≡ kept_by paging.now docs.now.entries ranks.now }
    requires few { length ranks.now < 2 ^ 32 }
    ensures { IfOk result (λ hit. hit ≡ hit_of paging.now docs.now.entries ranks.now rank.now) }
{
    let payload = payload_of(alloc, docs, rank.id)?;
    let key = key_of(docs, paging.collapse, rank);
    Ok(Ranked {
        id: rank.id,
        weight: rank.weight,
        collapsed: dropped_by(docs, paging, key, ranks, kept) as u32,
        payload,
    })
}

/// The payload of a document, if it is there.
fn payload_of(alloc: Global, docs: &BTreeMap<DocId, Doc>, id: DocId) -> Result<Text, AllocError>
    ensures { IfOk result (λ payload. payload ≡ payload_of (document_at id docs.now.entries)) }
{
    match docs.get(&id) {
        Some(doc) => Text::new(alloc, doc.payload.as_str()),
        None => Ok(Text::empty(alloc)),
    }
}
