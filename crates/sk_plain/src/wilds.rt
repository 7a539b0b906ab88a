//! The numbers of prefixes, counted over the documents: each term counts at the last document that has it.
ghost use Rattle.std.specs.Prelude.{◌≡◌, ◌≤◌, ◌+◌, ◌-◌, ◌^◌, ◌&&◌, min, not, length, if◌then◌else◌};
ghost use Rattle.sk_base.specs.Documents.{begins_with};
ghost use Rattle.sk_base.specs.Numbers.{length_of, greatest_of, some_has, wild_length_of, wild_greatest_of};
ghost use Rattle.sk_plain.specs.Wilds.{new_sum};

use crate::numbers::{greatest_of, length_of, live_of};
use crate::terms::{begins_with, has_term};
use sk_base::{Doc, DocId, DocTerm, MOST_WDF};
use std::collections::BTreeMap;
use std::collections::btree_map::Iter;

/// The lengths of the terms that begin with the prefix, added, and no more than there are documents.
pub fn wild_length_of(prefix: &[u8], docs: &BTreeMap<DocId, Doc>) -> usize
    ensures value { result ≡ wild_length_of prefix.now docs.now.entries }
    ensures bound { result ≤ length docs.now.entries }
{
    let mut sum = 0usize;
    let mut left = docs.iter();
    'docs: while let Some((_, doc)) = left.next() {
        sum = add_lengths(prefix, doc.terms.as_slice(), &left, docs, sum);
    }
    sum
}

/// The greatest wdfs of the terms that begin with the prefix, added, and no more than any wdf.
pub fn wild_greatest_of(prefix: &[u8], docs: &BTreeMap<DocId, Doc>) -> u64
    ensures value { result ≡ wild_greatest_of prefix.now docs.now.entries }
    ensures bound { result ≤ 2 ^ 29 - 1 }
{
    let mut sum = 0u64;
    let mut left = docs.iter();
    'docs: while let Some((_, doc)) = left.next() {
        sum = add_greatests(prefix, doc.terms.as_slice(), &left, docs, sum);
    }
    sum
}

/// The sum with the lengths of those of these terms that no document behind has.
fn add_lengths(
    prefix: &[u8],
    terms: &[DocTerm],
    behind: &Iter<'_, DocId, Doc>,
    docs: &BTreeMap<DocId, Doc>,
    sum: usize,
) -> usize
    requires { sum ≤ length docs.now.entries }
    ensures { result ≡ min (length docs.now.entries) (sum + new_sum (λ t. length_of t docs.now.entries) prefix.now behind.now terms.now) }
{
    let live = live_of(docs);
    let mut sum = sum;
    'terms: for one in terms {
        sum = (sum + last_length(prefix, one, behind, docs)).min(live);
    }
    sum
}

/// The length of a term that begins with the prefix and that no document behind has.
fn last_length(
    prefix: &[u8],
    one: &DocTerm,
    behind: &Iter<'_, DocId, Doc>,
    docs: &BTreeMap<DocId, Doc>,
) -> usize
    ensures value { result ≡ (if begins_with one.now.term prefix.now && not (some_has one.now.term behind.now) then length_of one.now.term docs.now.entries else 0) }
    ensures bound { result ≤ length docs.now.entries }
{
    if begins_with(one, prefix) && is_last(one.term.as_str().as_bytes(), behind) {
        length_of(one.term.as_str().as_bytes(), docs)
    } else {
        0
    }
}

/// The same of their greatest wdfs.
fn add_greatests(
    prefix: &[u8],
    terms: &[DocTerm],
    behind: &Iter<'_, DocId, Doc>,
    docs: &BTreeMap<DocId, Doc>,
    sum: u64,
) -> u64
    requires { sum ≤ 2 ^ 29 - 1 }
    ensures { result ≡ min (2 ^ 29 - 1) (sum + new_sum (λ t. greatest_of t docs.now.entries) prefix.now behind.now terms.now) }
{
    let mut sum = sum;
    'terms: for one in terms {
        if begins_with(one, prefix) && is_last(one.term.as_str().as_bytes(), behind) {
            sum = (sum + u64::from(greatest_of(one.term.as_str().as_bytes(), docs))).min(u64::from(
                MOST_WDF,
            ));
        }
    }
    sum
}

/// Whether none of the documents has the term.
pub fn is_last(term: &[u8], behind: &Iter<'_, DocId, Doc>) -> bool
    ensures { result ≡ not (some_has term.now behind.now) }
{
    let Ok(behind) = behind.clone() else {
        unreachable!()
    };
    'docs: for (_, doc) in behind {
        if has_term(term, doc.terms.as_slice()) {
            return false;
        }
    }
    true
}
