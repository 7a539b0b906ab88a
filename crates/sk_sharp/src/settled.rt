//! The ids at which a page is settled.
ghost use Rattle.std.specs.Prelude.{◌≡◌, ◌≤◌, ◌<◌, ◌^◌, true, All, length};
ghost use Rattle.sk_base.specs.Loads.{IsLight};
ghost use Rattle.sk_query.specs.Trees.{term, query_view};
ghost use Rattle.sk_query.specs.Fits.{is_sound, leaves_of};
ghost use Rattle.sk_model.specs.Bounds.{term_ceil};
ghost use Rattle.sk_model.specs.Counts.{wanted};
ghost use Rattle.sk_model.specs.Matches.{found_by};
ghost use Rattle.sk_model.specs.Settled.{less_heavy, settled_from, settling_weight, settled, stop_point, decay_point};

use sk_base::{Doc, DocId, Paging, Rank, Scheme, Text, Weight};
use sk_plain::{Counted, greatest_of, length_of};
use sk_query::Query;
use sk_weight::{ceil, weigh_by};
use std::collections::BTreeMap;

/// The stop point: behind it no document can enter the page, since none weighs more.
pub fn stop_point(
    query: &Query,
    paging: &Paging,
    docs: &BTreeMap<DocId, Doc>,
    ranks: &[Rank],
) -> DocId
    requires sound { is_sound 1 (query_view query.now) ≡ true }
    requires leaves { leaves_of (query_view query.now) ≤ 1024 }
    requires light { All IsLight docs.now.entries }
    requires few { length docs.now.entries < 2 ^ 32 }
    requires found { ranks.now ≡ found_by (query_view query.now) paging.now docs.now.entries }
    ensures { result ≡ stop_point (query_view query.now) paging.now docs.now.entries }
{
    settled(
        paging,
        ranks,
        ceil(&Counted::new(docs), query, paging.options.scheme, 1),
    )
}

/// The point from which on the term cannot bring a document into the page by itself.
pub fn decay_point(
    query: &Query,
    part: &Text,
    paging: &Paging,
    docs: &BTreeMap<DocId, Doc>,
    ranks: &[Rank],
) -> DocId
    requires light { All IsLight docs.now.entries }
    requires found { ranks.now ≡ found_by (query_view query.now) paging.now docs.now.entries }
    ensures { result ≡ decay_point (query_view query.now) (term part.now) paging.now docs.now.entries }
{
    settled(
        paging,
        ranks,
        term_ceil(paging.options.scheme, part.as_str().as_bytes(), docs),
    )
}

/// The weight of a term's greatest wdf, and 0 where no document has it.
fn term_ceil(scheme: Scheme, term: &[u8], docs: &BTreeMap<DocId, Doc>) -> Weight
    requires { All IsLight docs.now.entries }
    ensures value { result ≡ term_ceil scheme 1 term.now docs.now.entries }
    ensures bound { result < 2 ^ 96 }
{
    if length_of(term, docs) > 0 {
        weigh_by(1, scheme, u64::from(greatest_of(term, docs)))
    } else {
        0
    }
}

/// The least id up to which there are as many matches as a find wants to see, and as many as its page needs that no
/// later match of this weight comes before.
pub fn settled(paging: &Paging, ranks: &[Rank], weight: Weight) -> DocId
    requires { weight < 2 ^ 127 }
    ensures { result ≡ settled paging.now ranks.now weight }
{
    let wanted = wanted(paging);
    if wanted == 0 || weight < paging.options.cutoff {
        return 0;
    }
    let needed = u64::from(paging.options.first) + u64::from(paging.options.size);
    settled_from(wanted, needed, settling_weight(paging, weight), ranks)
}

/// How many matches a find wants to see.
fn wanted(paging: &Paging) -> u64
    ensures { result ≡ wanted paging.now }
{
    let page = u64::from(paging.options.first) + u64::from(paging.options.size);
    page.max(u64::from(paging.options.check))
}

/// The least weight whose matches come before any later one of this weight.
fn settling_weight(paging: &Paging, weight: Weight) -> Weight
    requires { weight < 2 ^ 127 }
    ensures { result ≡ settling_weight paging.now weight }
{
    if paging.order.falling {
        weight + 1
    } else {
        weight
    }
}

/// The id of the match by which so many are seen, so many of them at least so heavy, and the last id where there are
/// not so many.
fn settled_from(wanted: u64, needed: u64, weight: Weight, ranks: &[Rank]) -> DocId
    ensures { result ≡ settled_from wanted needed weight ranks.now }
{
    let mut wanted = wanted;
    let mut needed = needed;
    'ranks: for rank in ranks {
        wanted = wanted.saturating_sub(1);
        needed = less_heavy(weight, needed, rank);
        if wanted == 0 && needed == 0 {
            return rank.id;
        }
    }
    DocId::MAX
}

/// One less, where the match is at least so heavy.
fn less_heavy(weight: Weight, needed: u64, rank: &Rank) -> u64
    ensures { result ≡ less_heavy weight needed rank.now }
{
    if rank.weight >= weight {
        needed.saturating_sub(1)
    } else {
        needed
    }
}
