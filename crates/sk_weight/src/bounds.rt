//! How much a document can weigh under a query, and how many can match it.
ghost use Rattle.std.specs.Prelude.{◌≡◌, ◌≤◌, true, All};
ghost use Rattle.sk_base.specs.Loads.{IsLight};
ghost use Rattle.sk_query.specs.Trees.{query_view, queries_view};
ghost use Rattle.sk_query.specs.Fits.{is_sound, are_sound, leaves_of, leaves_in};
ghost use Rattle.sk_model.specs.Bounds.{ceil, ceils, static_count, statics};
ghost use Rattle.sk_weight.specs.Together.{IsTogether};

use crate::range::is_crossed;
use crate::together::Together;
use crate::words::{joint_ceil, wild_ceil, word_ceil, word_ceils, word_greatests, word_lengths};
use sk_base::{Scheme, Stats, Weight};
use sk_query::Query;

/// No document weighs more under the query, times the factor.
#[cycle(ceil)]
pub fn ceil<S: Stats>(stats: &S, query: &Query, scheme: Scheme, factor: u64) -> Weight
    requires factor { factor ≤ 65536 }
    requires sound { is_sound factor (query_view query.now) ≡ true }
    requires leaves { leaves_of (query_view query.now) ≤ 1024 }
    requires light { All IsLight (S.documents stats.now) }
    ensures { result ≡ ceil (query_view query.now) scheme factor (S.documents stats.now) }
{
    match query {
        Query::Nothing | Query::All | Query::Range(_, _, _) => 0,
        Query::Term(word) => word_ceil(stats, scheme, factor, word),
        Query::Wildcard(prefix) => wild_ceil(stats, scheme, factor, prefix),
        Query::And(parts) | Query::Or(parts) | Query::Xor(parts) | Query::AndMaybe(parts) => {
            ceils(stats, parts, scheme, factor).sum
        }
        Query::Max(parts) => ceils(stats, parts, scheme, factor).greatest,
        Query::AndNot(parts) | Query::Filter(parts) => {
            ceils(stats, parts, scheme, factor).first.unwrap_or(0)
        }
        Query::Near(_, words) | Query::Phrase(_, words) => {
            word_ceils(stats, scheme, factor, words.as_slice()).sum
        }
        Query::Synonym(words) => {
            let words = words.as_slice();
            let long = word_lengths(stats, words).sum;
            joint_ceil(scheme, factor, long, word_greatests(stats, words).sum)
        }
        Query::Scale(more, part) => ceil(stats, part, scheme, factor * u64::from(*more)),
    }
}

/// That of each part.
#[cycle(ceil)]
fn ceils<S: Stats>(stats: &S, parts: &[Query], scheme: Scheme, factor: u64) -> Together
    requires factor { factor ≤ 65536 }
    requires sound { are_sound factor (queries_view parts.now) ≡ true }
    requires leaves { leaves_in (queries_view parts.now) ≤ 1024 }
    requires light { All IsLight (S.documents stats.now) }
    ensures { IsTogether result (ceils (queries_view parts.now) scheme factor (S.documents stats.now)) }
{
    let mut bounds = Together::new();
    'parts: for part in parts {
        bounds.add(ceil(stats, part, scheme, factor));
    }
    bounds
}

/// No more documents match the query.
#[cycle(static_count)]
pub fn static_count<S: Stats>(stats: &S, query: &Query) -> u128
    ensures { result ≡ static_count (query_view query.now) (S.documents stats.now) }
{
    let live = u128::from(stats.live());
    match query {
        Query::Nothing => 0,
        Query::All => live,
        Query::Term(word) => u128::from(stats.length(word.as_str().as_bytes())),
        Query::Wildcard(prefix) => u128::from(stats.wild_length(prefix.as_str().as_bytes())),
        Query::And(parts) | Query::Filter(parts) => statics(stats, parts).least.unwrap_or(0),
        Query::Or(parts) | Query::Xor(parts) | Query::Max(parts) => {
            statics(stats, parts).sum.min(live)
        }
        Query::AndNot(parts) | Query::AndMaybe(parts) => {
            statics(stats, parts).first.unwrap_or(0)
        }
        Query::Near(_, words) | Query::Phrase(_, words) => {
            word_lengths(stats, words.as_slice()).least.unwrap_or(0)
        }
        Query::Synonym(words) => word_lengths(stats, words.as_slice()).sum.min(live),
        Query::Scale(_, part) => static_count(stats, part),
        Query::Range(slot, lo, hi) => {
            if is_crossed(lo, hi) {
                0
            } else {
                u128::from(stats.slot_length(*slot))
            }
        }
    }
}

/// That of each part.
#[cycle(static_count)]
fn statics<S: Stats>(stats: &S, parts: &[Query]) -> Together
    ensures { IsTogether result (statics (queries_view parts.now) (S.documents stats.now)) }
{
    let mut counts = Together::new();
    'parts: for part in parts {
        counts.add(static_count(stats, part));
    }
    counts
}
