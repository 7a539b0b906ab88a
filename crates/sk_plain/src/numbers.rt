//! The numbers of terms, prefixes and slots, counted over the documents.
ghost use Rattle.std.specs.Prelude.{◌≡◌, ◌≤◌, ◌<◌, ◌^◌, length};
ghost use Rattle.sk_base.specs.Numbers.{live_of, length_of, greatest_of, slot_length_of};
ghost use Rattle.sk_base.specs.Documents.{has_value};

use crate::terms::{has_term, wdf_of};
use sk_base::{Doc, DocId, SlotValue};
use std::collections::BTreeMap;

/// How many documents there are.
pub fn live_of(docs: &BTreeMap<DocId, Doc>) -> usize
    ensures value { result ≡ live_of docs.now.entries }
    ensures fits { result < 2 ^ 63 }
{
    docs.len()
}

/// How many documents have the term.
pub fn length_of(term: &[u8], docs: &BTreeMap<DocId, Doc>) -> usize
    ensures value { result ≡ length_of term.now docs.now.entries }
    ensures bound { result ≤ length docs.now.entries }
{
    let mut count = 0usize;
    'docs: for (_, doc) in docs.iter() {
        if has_term(term, doc.terms.as_slice()) {
            count += 1;
        }
    }
    count
}

/// The greatest wdf of the term in any document, and 0 where none has it.
pub fn greatest_of(term: &[u8], docs: &BTreeMap<DocId, Doc>) -> u32
    ensures { result ≡ greatest_of term.now docs.now.entries }
{
    let mut most = 0u32;
    'docs: for (_, doc) in docs.iter() {
        most = most.max(wdf_of(term, doc.terms.as_slice()));
    }
    most
}

/// How many documents have a value in the slot.
pub fn slot_length_of(slot: u32, docs: &BTreeMap<DocId, Doc>) -> usize
    ensures value { result ≡ slot_length_of slot docs.now.entries }
    ensures bound { result ≤ length docs.now.entries }
{
    let mut count = 0usize;
    'docs: for (_, doc) in docs.iter() {
        if has_value(slot, doc.values.as_slice()) {
            count += 1;
        }
    }
    count
}

fn has_value(slot: u32, values: &[SlotValue]) -> bool
    ensures { result ≡ has_value slot values.now }
{
    values.iter().any(|one| one.slot == slot)
}
