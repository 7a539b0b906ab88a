//! What the leaves of a query weigh.
ghost use Rattle.std.specs.Prelude.{◌≡◌, ◌≤◌, ◌<◌, ◌-◌, ◌*◌, ◌^◌, length, IfSome};
ghost use Rattle.std.specs.List.{list_any};
ghost use Rattle.sk_base.specs.Documents.{has_term};
ghost use Rattle.sk_query.specs.Trees.{term, wildcard, near, phrase, synonym};
ghost use Rattle.sk_model.specs.Scores.{score, terms_weight, wdf_sum};
ghost use Rattle.sk_base.specs.Loads.{AreLight};

use crate::positions::{is_near, is_phrase};
use crate::terms::{has_prefix, has_term, wdf_of, wild_wdf};
use sk_base::{Doc, DocTerm, Scheme, Text, Weight};
use sk_weight::weigh_by;

/// A term weighs its wdf where the document has it.
#[tactic(auto, using(sk_model::proofs::WeightLaws::weigh_fits))]
pub fn term_score(scheme: Scheme, factor: u64, word: &[u8], doc: &Doc) -> Option<Weight>
    requires factor { factor ≤ 65536 }
    requires light { AreLight doc.now.terms }
    ensures value { result ≡ score (term word.now) scheme factor doc.now }
    ensures bound { IfSome result (λ w. w ≤ 2 ^ 74) }
{
    let terms = doc.terms.as_slice();
    if has_term(word, terms) {
        Some(weigh_by(factor, scheme, u64::from(wdf_of(word, terms))))
    } else {
        None
    }
}

/// All terms of the document that begin so, as one.
#[tactic(auto, using(sk_model::proofs::WeightLaws::weigh_fits))]
pub fn wild_score(scheme: Scheme, factor: u64, prefix: &[u8], doc: &Doc) -> Option<Weight>
    requires factor { factor ≤ 65536 }
    requires light { AreLight doc.now.terms }
    ensures value { result ≡ score (wildcard prefix.now) scheme factor doc.now }
    ensures bound { IfSome result (λ w. w ≤ 2 ^ 74) }
{
    let terms = doc.terms.as_slice();
    if has_prefix(prefix, terms) {
        Some(weigh_by(factor, scheme, wild_wdf(prefix, terms)))
    } else {
        None
    }
}

/// The words stand near: the sum over them as terms.
pub fn near_score(
    scheme: Scheme,
    factor: u64,
    window: u32,
    words: &[Text],
    doc: &Doc,
) -> Option<Weight>
    requires factor { factor ≤ 65536 }
    requires few { length words.now ≤ 1024 }
    requires light { AreLight doc.now.terms }
    ensures value { result ≡ score (near window words.now) scheme factor doc.now }
    ensures bound { IfSome result (λ w. w ≤ length words.now * 2 ^ 74) }
{
    let terms = doc.terms.as_slice();
    if is_near(window, words, terms) {
        Some(terms_weight(scheme, factor, words, terms))
    } else {
        None
    }
}

/// The words stand as a phrase: the sum over them as terms.
pub fn phrase_score(
    scheme: Scheme,
    factor: u64,
    window: u32,
    words: &[Text],
    doc: &Doc,
) -> Option<Weight>
    requires factor { factor ≤ 65536 }
    requires few { length words.now ≤ 1024 }
    requires light { AreLight doc.now.terms }
    ensures value { result ≡ score (phrase window words.now) scheme factor doc.now }
    ensures bound { IfSome result (λ w. w ≤ length words.now * 2 ^ 74) }
{
    let terms = doc.terms.as_slice();
    if is_phrase(window, words, terms) {
        Some(terms_weight(scheme, factor, words, terms))
    } else {
        None
    }
}

/// One of the words is there: their wdfs as one.
pub fn synonym_score(scheme: Scheme, factor: u64, words: &[Text], doc: &Doc) -> Option<Weight>
    requires factor { factor ≤ 65536 }
    requires some { 0 < length words.now }
    requires few { length words.now ≤ 1024 }
    requires light { AreLight doc.now.terms }
    ensures value { result ≡ score (synonym words.now) scheme factor doc.now }
    ensures bound { IfSome result (λ w. w < 2 ^ 96) }
{
    let terms = doc.terms.as_slice();
    if has_any(words, terms) {
        Some(weigh_by(factor, scheme, wdf_sum(words, terms)))
    } else {
        None
    }
}

/// Whether one of these words is there.
fn has_any(words: &[Text], terms: &[DocTerm]) -> bool
    ensures { result ≡ list_any (λ t. has_term t terms.now) words.now }
{
    words
        .iter()
        .any(|word| has_term(word.as_str().as_bytes(), terms))
}

/// The weights of these words, added.
#[tactic(auto, using(sk_model::proofs::WeightLaws::weigh_fits))]
fn terms_weight(scheme: Scheme, factor: u64, words: &[Text], terms: &[DocTerm]) -> Weight
    requires factor { factor ≤ 65536 }
    requires few { length words.now ≤ 1024 }
    requires light { AreLight terms.now }
    ensures value { result ≡ terms_weight scheme factor words.now terms.now }
    ensures bound { result ≤ length words.now * 2 ^ 74 }
{
    let mut sum = 0;
    'words: for word in words {
        sum += weigh_by(
            factor,
            scheme,
            u64::from(wdf_of(word.as_str().as_bytes(), terms)),
        );
    }
    sum
}

/// The wdfs of these words, added.
fn wdf_sum(words: &[Text], terms: &[DocTerm]) -> u64
    requires few { length words.now ≤ 1024 }
    requires light { AreLight terms.now }
    ensures value { result ≡ wdf_sum words.now terms.now }
    ensures bound { result ≤ length words.now * (2 ^ 29 - 1) }
{
    let mut sum = 0;
    'words: for word in words {
        sum += u64::from(wdf_of(word.as_str().as_bytes(), terms));
    }
    sum
}
