//! The bounds of words.
ghost use Rattle.std.specs.Prelude.{◌≡◌, ◌≤◌, ◌<◌, ◌^◌, map, min, All};
ghost use Rattle.sk_base.specs.Loads.{IsLight};
ghost use Rattle.sk_base.specs.Numbers.{length_of, greatest_of, wild_length_of, wild_greatest_of};
ghost use Rattle.sk_model.specs.Bounds.{term_ceil, joint_ceil};
ghost use Rattle.sk_weight.specs.Together.{IsTogether};

use crate::together::Together;
use crate::weight::weigh_by;
use sk_base::{MOST_WDF, Scheme, Stats, Text, Weight};

/// A word's: the weight of its greatest wdf, and 0 where no document has it.
pub fn word_ceil<S: Stats>(stats: &S, scheme: Scheme, factor: u64, word: &Text) -> Weight
    requires { factor ≤ 65536 }
    ensures { result ≡ term_ceil scheme factor word.now (S.documents stats.now) }
{
    let word = word.as_str().as_bytes();
    if stats.length(word) > 0 {
        weigh_by(factor, scheme, u64::from(stats.greatest(word)))
    } else {
        0
    }
}

/// That of all words that begin with a prefix as one. Where one has a wdf above 0, a list is not empty.
pub fn wild_ceil<S: Stats>(stats: &S, scheme: Scheme, factor: u64, prefix: &Text) -> Weight
    requires { factor ≤ 65536 }
    ensures { result ≡ joint_ceil scheme factor (wild_length_of prefix.now (S.documents stats.now)) (wild_greatest_of prefix.now (S.documents stats.now)) }
{
    let prefix = prefix.as_str().as_bytes();
    let greatest = stats.wild_greatest(prefix);
    if greatest > 0 {
        return weigh_by(factor, scheme, u64::from(greatest));
    }
    joint_ceil(scheme, factor, u128::from(stats.wild_length(prefix)), 0)
}

/// That of several words as one, by how long their lists are together and what their greatest wdfs make together.
pub fn joint_ceil(scheme: Scheme, factor: u64, long: u128, greatest: u128) -> Weight
    requires { factor ≤ 65536 }
    ensures { result ≡ joint_ceil scheme factor long greatest }
{
    if long > 0 {
        weigh_by(factor, scheme, greatest.min(u128::from(MOST_WDF)) as u64)
    } else {
        0
    }
}

/// The bounds of words, each by itself.
pub fn word_ceils<S: Stats>(stats: &S, scheme: Scheme, factor: u64, words: &[Text]) -> Together
    requires { factor ≤ 65536 }
    ensures { IsTogether result (map (λ t. term_ceil scheme factor t (S.documents stats.now)) words.now) }
{
    let mut bounds = Together::new();
    'words: for word in words {
        bounds.add(word_ceil(stats, scheme, factor, word));
    }
    bounds
}

/// How many documents have each of the words.
pub fn word_lengths<S: Stats>(stats: &S, words: &[Text]) -> Together
    ensures { IsTogether result (map (λ t. length_of t (S.documents stats.now)) words.now) }
{
    let mut lengths = Together::new();
    'words: for word in words {
        lengths.add(u128::from(stats.length(word.as_str().as_bytes())));
    }
    lengths
}

/// The greatest wdf of each of the words.
pub fn word_greatests<S: Stats>(stats: &S, words: &[Text]) -> Together
    ensures { IsTogether result (map (λ t. greatest_of t (S.documents stats.now)) words.now) }
{
    let mut greatests = Together::new();
    'words: for word in words {
        greatests.add(u128::from(stats.greatest(word.as_str().as_bytes())));
    }
    greatests
}
