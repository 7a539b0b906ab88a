//! What a find reports over documents in several parts, exactly.
ghost use Rattle.std.specs.Prelude.{◌≡◌, ◌≤◌, ◌<◌, ◌*◌, ◌^◌, true, All, IfOk, length};
ghost use Rattle.sk_sorted.specs.Entries.{RiseAbove};
ghost use Rattle.sk_base.specs.Commands.{FitsParts};
ghost use Rattle.sk_base.specs.Loads.{IsLight};
ghost use Rattle.sk_query.specs.Trees.{query_view};
ghost use Rattle.sk_query.specs.Fits.{is_sound, leaves_of};
ghost use Rattle.sk_model.specs.Joined.{joined_ceil, joined_ups, joined_stop, joined_most, term_lists};
ghost use Rattle.sk_model.specs.Matches.{found_by};
ghost use Rattle.sk_plain.specs.Pages.{report_in_parts};

use crate::allowance::allowance;
use crate::lists::terms_in;
use crate::readings::up;
use crate::reports::report_of;
use crate::settled::settled;
use crate::sharp::{at_most, is_plain};
use sk_base::{Doc, DocId, Paging, Rank, Report, Text, Texts, Weight};
use sk_plain::{Counted, found_by, part_docs};
use sk_query::Query;
use sk_weight::ceil;
use std::alloc::{AllocError, Global};
use std::collections::BTreeMap;

/// The report of a find over documents that stand in so many parts: that of all documents, with the bound on weights
/// and the steps that the parts allow.
pub fn report_in_parts(
    alloc: Global,
    docs: &BTreeMap<DocId, Doc>,
    parts: u32,
    query: &Query,
    paging: &Paging,
) -> Result<Report, AllocError>
    requires parts { FitsParts parts }
    requires sound { is_sound 1 (query_view query.now) ≡ true }
    requires leaves { leaves_of (query_view query.now) ≤ 1024 }
    requires rising { RiseAbove 0 docs.now.entries }
    requires light { All IsLight docs.now.entries }
    requires few { length docs.now.entries < 2 ^ 32 }
    ensures { IfOk result (λ report. report ≡ report_in_parts parts (query_view query.now) paging.now docs.now.entries) }
{
    let report = report_of(alloc, docs, query, paging)?;
    let greatest = joined_ceil(alloc, docs, parts, query, paging)?;
    let hits = report.hits.as_slice().len();
    let steps = joined_most(alloc, docs, parts, query, paging, greatest, hits)?;
    Ok(Report {
        hits: report.hits,
        lower: report.lower,
        estimate: report.estimate,
        upper: report.upper,
        greatest,
        steps,
    })
}

/// The greatest of what no document of a part can weigh more than.
fn joined_ceil(
    alloc: Global,
    docs: &BTreeMap<DocId, Doc>,
    parts: u32,
    query: &Query,
    paging: &Paging,
) -> Result<Weight, AllocError>
    requires parts { FitsParts parts }
    requires sound { is_sound 1 (query_view query.now) ≡ true }
    requires leaves { leaves_of (query_view query.now) ≤ 1024 }
    requires rising { RiseAbove 0 docs.now.entries }
    requires light { All IsLight docs.now.entries }
    requires few { length docs.now.entries < 2 ^ 32 }
    ensures value { IfOk result (λ weight. weight ≡ joined_ceil parts (query_view query.now) paging.now.options.scheme docs.now.entries) }
    ensures bound { IfOk result (λ weight. weight < 2 ^ 127) }
{
    let mut greatest = 0;
    'parts: for part in 0..parts {
        let own = part_docs(alloc, docs, parts, part)?;
        greatest = ceil(&Counted::new(&own), query, paging.options.scheme, 1).max(greatest);
    }
    Ok(greatest)
}

/// The most steps: what each list and each match take, and where it applies what the lists of terms take up to the
/// stop point, with one entry more in each part.
fn joined_most(
    alloc: Global,
    docs: &BTreeMap<DocId, Doc>,
    parts: u32,
    query: &Query,
    paging: &Paging,
    greatest: Weight,
    hits: usize,
) -> Result<u128, AllocError>
    requires parts { FitsParts parts }
    requires sound { is_sound 1 (query_view query.now) ≡ true }
    requires leaves { leaves_of (query_view query.now) ≤ 1024 }
    requires light { All IsLight docs.now.entries }
    requires few { length docs.now.entries < 2 ^ 32 }
    requires greatest { greatest ≡ joined_ceil parts (query_view query.now) paging.now.options.scheme docs.now.entries }
    requires weight { greatest < 2 ^ 127 }
    ensures { IfOk result (λ n. n ≡ joined_most parts (query_view query.now) paging.now docs.now.entries hits) }
{
    let ranks = found_by(alloc, docs, query, paging)?;
    let ranks = ranks.as_slice();
    let all = allowance(alloc, query, paging, docs, ranks.len(), hits)?;
    let stop = joined_stop(alloc, docs, parts, query, paging, greatest, ranks, hits)?;
    Ok(at_most(all, stop))
}

/// Of each list its postings up to the stop point, one more in each part, and the hits. It applies to a term and to an
/// or of terms, by relevance and without collapsing.
fn joined_stop(
    alloc: Global,
    docs: &BTreeMap<DocId, Doc>,
    parts: u32,
    query: &Query,
    paging: &Paging,
    greatest: Weight,
    ranks: &[Rank],
    hits: usize,
) -> Result<Option<u128>, AllocError>
    requires parts { FitsParts parts }
    requires found { ranks.now ≡ found_by (query_view query.now) paging.now docs.now.entries }
    requires greatest { greatest ≡ joined_ceil parts (query_view query.now) paging.now.options.scheme docs.now.entries }
    requires weight { greatest < 2 ^ 127 }
    ensures { IfOk result (λ n. n ≡ joined_stop parts (query_view query.now) paging.now docs.now.entries hits) }
{
    if !is_plain(paging) {
        return Ok(None);
    }
    let Some(lists) = term_lists(alloc, query)? else {
        return Ok(None);
    };
    let point = settled(paging, ranks, greatest);
    Ok(Some(joined_ups(lists.as_slice(), parts, point, docs) + hits as u128))
}

/// The lists of a term, or of an or of terms.
fn term_lists(alloc: Global, query: &Query) -> Result<Option<Texts>, AllocError>
    ensures { IfOk result (λ lists. lists ≡ term_lists (query_view query.now)) }
{
    match query {
        Query::Term(term) => {
            let mut lists = Texts::new(alloc);
            let term = Text::new(alloc, term.as_str())?;
            lists.push(term)?;
            Ok(Some(lists))
        }
        Query::Or(parts) => terms_in(alloc, parts),
        _ => Ok(None),
    }
}

/// Of each list its postings up to the id and one more in each part.
fn joined_ups(terms: &[Text], parts: u32, id: DocId, docs: &BTreeMap<DocId, Doc>) -> u128
    requires { parts ≤ 16 }
    ensures value { result ≡ joined_ups parts terms.now id docs.now.entries }
    ensures bound { result ≤ length terms.now * 2 ^ 65 }
{
    let mut sum = 0u128;
    'terms: for term in terms {
        sum += up(term.as_str().as_bytes(), id, docs) as u128 + u128::from(parts);
    }
    sum
}
