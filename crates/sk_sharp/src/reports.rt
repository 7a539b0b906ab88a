//! What a find reports, exactly.
ghost use Rattle.std.specs.Prelude.{◌≡◌, ◌≤◌, ◌<◌, ◌^◌, true, All, IfOk, length};
ghost use Rattle.sk_query.specs.Trees.{query_view};
ghost use Rattle.sk_query.specs.Fits.{is_sound, leaves_of};
ghost use Rattle.sk_base.specs.Loads.{IsLight};
ghost use Rattle.sk_plain.specs.Pages.{report_for};

use crate::sharp::sharp_of;
use sk_base::{Doc, DocId, Hits, Paging, Report};
use sk_model::slice;
use sk_plain::{Counted, found_by, hits_of, kept_by};
use sk_query::Query;
use sk_weight::ceil;
use std::alloc::{AllocError, Global};
use std::collections::BTreeMap;

/// The report of a find, whose query is given as it was read: both bounds are the true count, and the steps the most
/// that the rules allow.
pub fn report_of(
    alloc: Global,
    docs: &BTreeMap<DocId, Doc>,
    query: &Query,
    paging: &Paging,
) -> Result<Report, AllocError>
    requires sound { is_sound 1 (query_view query.now) ≡ true }
    requires leaves { leaves_of (query_view query.now) ≤ 1024 }
    requires light { All IsLight docs.now.entries }
    requires few { length docs.now.entries < 2 ^ 32 }
    ensures { IfOk result (λ report. report ≡ report_for (query_view query.now) paging.now docs.now.entries) }
{
    let ranks = found_by(alloc, docs, query, paging)?;
    let kept = kept_by(alloc, docs, paging, ranks.as_slice())?;
    let asked = slice(kept.as_slice(), paging.options.first, paging.options.size);
    let hits = hits_of(
        alloc,
        docs,
        paging,
        ranks.as_slice(),
        kept.as_slice(),
        asked,
    )?;
    let count = kept.len() as u32;
    let steps = sharp_of(alloc, docs, query, paging, hits.len())?;
    Ok(Report {
        hits: Hits::from_vec(hits),
        lower: count,
        estimate: count,
        upper: count,
        greatest: ceil(&Counted::new(docs), query, paging.options.scheme, 1),
        steps,
    })
}
