//! When words stand near to each other, and when they stand as a phrase: each choice of places is tried.
ghost use Rattle.std.specs.Prelude.{◌≡◌, ◌≤◌};
ghost use Rattle.sk_model.specs.Scores.{places_of};
ghost use Rattle.sk_model.specs.Positions.{near_from, is_near, phrase_from, is_phrase};

use crate::terms::positions_of;
use sk_base::{DocTerm, Text};

/// Whether there is a place for each word, the greatest less the least below the window.
pub fn is_near(window: u32, words: &[Text], terms: &[DocTerm]) -> bool
    ensures { result ≡ is_near window (places_of words.now terms.now) }
{
    let [first, rest @ ..] = words else {
        return false;
    };
    'places: for place in positions_of(first.as_str().as_bytes(), terms) {
        if near_from(window, *place, *place, rest, terms) {
            return true;
        }
    }
    false
}

/// The same for further words, where the places so far lie between these two.
#[cycle(near_from)]
fn near_from(window: u32, least: u32, most: u32, words: &[Text], terms: &[DocTerm]) -> bool
    requires { least ≤ most }
    ensures { result ≡ near_from window least most (places_of words.now terms.now) }
{
    let [first, rest @ ..] = words else {
        return most - least < window;
    };
    'places: for place in positions_of(first.as_str().as_bytes(), terms) {
        if near_from(window, least.min(*place), most.max(*place), rest, terms) {
            return true;
        }
    }
    false
}

/// Whether there is a place for each word, each behind the one before, the last less the first below the window.
pub fn is_phrase(window: u32, words: &[Text], terms: &[DocTerm]) -> bool
    ensures { result ≡ is_phrase window (places_of words.now terms.now) }
{
    let [first, rest @ ..] = words else {
        return false;
    };
    'places: for place in positions_of(first.as_str().as_bytes(), terms) {
        if phrase_from(window, *place, *place, rest, terms) {
            return true;
        }
    }
    false
}

/// The same for further words, where the places so far begin and end at these two.
#[cycle(phrase_from)]
fn phrase_from(window: u32, start: u32, last: u32, words: &[Text], terms: &[DocTerm]) -> bool
    requires { start ≤ last }
    ensures { result ≡ phrase_from window start last (places_of words.now terms.now) }
{
    let [first, rest @ ..] = words else {
        return last - start < window;
    };
    'places: for place in positions_of(first.as_str().as_bytes(), terms) {
        if last < *place && phrase_from(window, start, *place, rest, terms) {
            return true;
        }
    }
    false
}
