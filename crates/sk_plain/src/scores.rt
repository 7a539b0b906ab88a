//! What one document scores for a query.
ghost use Rattle.std.specs.Prelude.{◌≡◌, ◌≤◌, ◌<◌, true};
ghost use Rattle.sk_base.specs.Loads.{AreLight};
ghost use Rattle.sk_query.specs.Trees.{query_view, queries_view};
ghost use Rattle.sk_query.specs.Fits.{is_sound, are_sound, leaves_of, leaves_in};
ghost use Rattle.sk_model.specs.Combining.{combined};
ghost use Rattle.sk_model.specs.Scores.{score, scores};

use crate::leaves::{near_score, phrase_score, synonym_score, term_score, wild_score};
use crate::sums::{Sums, where_so};
use crate::terms::value_in;
use sk_base::{Doc, Scheme, Weight};
use sk_query::{Form, Query};
use sk_weight::is_within;

/// The weight of a document under a query, times the factor, and none where the query does not match it.
#[cycle(score)]
pub fn score(query: &Query, scheme: Scheme, factor: u64, doc: &Doc) -> Option<Weight>
    requires factor { factor ≤ 65536 }
    requires sound { is_sound factor (query_view query.now) ≡ true }
    requires leaves { leaves_of (query_view query.now) ≤ 1024 }
    requires light { AreLight doc.now.terms }
    ensures { result ≡ score (query_view query.now) scheme factor doc.now }
{
    match query {
        Query::Nothing => None,
        Query::All => Some(0),
        Query::Term(term) => term_score(scheme, factor, term.as_str().as_bytes(), doc),
        Query::Wildcard(prefix) => wild_score(scheme, factor, prefix.as_str().as_bytes(), doc),
        Query::And(parts) => combined(Form::And, parts, scheme, factor, doc),
        Query::Or(parts) => combined(Form::Or, parts, scheme, factor, doc),
        Query::Xor(parts) => combined(Form::Xor, parts, scheme, factor, doc),
        Query::Max(parts) => combined(Form::Max, parts, scheme, factor, doc),
        Query::AndNot(parts) => combined(Form::AndNot, parts, scheme, factor, doc),
        Query::AndMaybe(parts) => combined(Form::AndMaybe, parts, scheme, factor, doc),
        Query::Filter(parts) => combined(Form::Filter, parts, scheme, factor, doc),
        Query::Near(window, words) => near_score(scheme, factor, *window, words.as_slice(), doc),
        Query::Phrase(window, words) => {
            phrase_score(scheme, factor, *window, words.as_slice(), doc)
        }
        Query::Synonym(words) => synonym_score(scheme, factor, words.as_slice(), doc),
        Query::Scale(more, part) => score(part, scheme, factor * u64::from(*more), doc),
        Query::Range(slot, lo, hi) => {
            where_so(
                is_within(lo, hi, value_in(*slot, doc.values.as_slice())),
                Some(0),
            )
        }
    }
}

/// What the form makes of the scores of the parts.
#[cycle(score)]
fn combined(form: Form, parts: &[Query], scheme: Scheme, factor: u64, doc: &Doc) -> Option<Weight>
    requires factor { factor ≤ 65536 }
    requires sound { are_sound factor (queries_view parts.now) ≡ true }
    requires leaves { leaves_in (queries_view parts.now) ≤ 1024 }
    requires light { AreLight doc.now.terms }
    ensures { result ≡ combined form (scores (queries_view parts.now) scheme factor doc.now) }
{
    let mut sums = Sums::new();
    'parts: for part in parts {
        sums.add(score(part, scheme, factor, doc));
    }
    sums.made_by(form)
}
