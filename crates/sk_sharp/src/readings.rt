//! How much of their lists the sharper numbers of steps read.
ghost use Rattle.std.specs.Prelude.{◌≡◌, ◌≤◌, ◌<◌, ◌*◌, ◌^◌, length};
ghost use Rattle.sk_model.specs.Sharp.{up, past, ups, rare_readings, decay_readings};

use sk_base::{Doc, DocId, Text};
use sk_plain::{has_term, length_of};
use std::collections::BTreeMap;

/// How many documents up to the id have the term.
pub fn up(term: &[u8], id: DocId, docs: &BTreeMap<DocId, Doc>) -> usize
    ensures value { result ≡ up term.now id docs.now.entries }
    ensures bound { result ≤ length docs.now.entries }
{
    let mut count = 0usize;
    'docs: for (one, doc) in docs.iter() {
        if has_term(term, doc.terms.as_slice()) && *one <= id {
            count += 1;
        }
    }
    count
}

/// How many documents behind the id have the term.
fn past(term: &[u8], id: DocId, docs: &BTreeMap<DocId, Doc>) -> usize
    ensures value { result ≡ past term.now id docs.now.entries }
    ensures bound { result ≤ length docs.now.entries }
{
    let mut count = 0usize;
    'docs: for (one, doc) in docs.iter() {
        if has_term(term, doc.terms.as_slice()) && id < *one {
            count += 1;
        }
    }
    count
}

/// Of each list its postings up to the id and one more.
pub fn ups(terms: &[Text], id: DocId, docs: &BTreeMap<DocId, Doc>) -> u128
    ensures value { result ≡ ups terms.now id docs.now.entries }
    ensures bound { result ≤ length terms.now * 2 ^ 64 }
{
    let mut sum = 0u128;
    'terms: for term in terms {
        sum += up(term.as_str().as_bytes(), id, docs) as u128 + 1;
    }
    sum
}

/// Of each list its length, or 128 readings for each posting of the leading one and 128 more, where that is less.
pub fn rare_readings(terms: &[Text], leading: usize, docs: &BTreeMap<DocId, Doc>) -> u128
    ensures value { result ≡ rare_readings terms.now leading docs.now.entries }
    ensures bound { result ≤ length terms.now * 2 ^ 64 }
{
    let mut sum = 0u128;
    let most = 128 * (leading as u128 + 1);
    'terms: for term in terms {
        sum += (length_of(term.as_str().as_bytes(), docs) as u128).min(most);
    }
    sum
}

/// The first list is read out; the second is read up to the point, and behind it sought at most twice for each posting
/// of the first.
pub fn decay_readings(
    a: &Text,
    b: &Text,
    point: DocId,
    docs: &BTreeMap<DocId, Doc>,
    hits: usize,
) -> u128
    ensures { result ≡ decay_readings a.now b.now point docs.now.entries hits }
{
    let a = a.as_str().as_bytes();
    let b = b.as_str().as_bytes();
    length_of(a, docs) as u128
        + up(b, point, docs) as u128
        + 256 * (1 + past(a, point, docs) as u128)
        + hits as u128
}
