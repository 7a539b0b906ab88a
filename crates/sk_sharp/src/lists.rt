//! The lists of a query's terms, and how long they are.
ghost use Rattle.std.specs.Prelude.{◌≡◌, ◌≤◌, ◌<◌, ◌*◌, ◌^◌, ◌&&◌, ◌++◌, not, map, filter, length, IfOk, OnOk};
ghost use Rattle.sk_base.specs.Documents.{begins_with};
ghost use Rattle.sk_base.specs.Numbers.{some_has, term_in, terms_with};
ghost use Rattle.sk_query.specs.Trees.{query_view, queries_view};
ghost use Rattle.sk_model.specs.Bounds.{lengths_of, least_length};
ghost use Rattle.sk_model.specs.Sharp.{terms_in};
ghost use Rattle.sk_sharp.specs.Words.{word_of};

use sk_base::{Doc, DocId, DocTerm, Text, Texts};
use sk_plain::{begins_with, is_last, length_of};
use sk_query::Query;
use std::alloc::{AllocError, Global};
use std::collections::BTreeMap;
use std::collections::btree_map::Iter;

/// All terms that begin with the prefix, each once: at the last document that has it.
pub fn terms_with(
    alloc: Global,
    prefix: &[u8],
    docs: &BTreeMap<DocId, Doc>,
) -> Result<Texts, AllocError>
    ensures { IfOk result (λ terms. terms ≡ terms_with prefix.now docs.now.entries) }
{
    let mut terms = Texts::new(alloc);
    let mut left = docs.iter();
    'docs: while let Some((_, doc)) = left.next() {
        push_last(alloc, prefix, doc.terms.as_slice(), &left, &mut terms)?;
    }
    Ok(terms)
}

/// Puts those of a document's terms last that begin with the prefix and that no document behind has.
fn push_last(
    alloc: Global,
    prefix: &[u8],
    ones: &[DocTerm],
    behind: &Iter<'_, DocId, Doc>,
    terms: &mut Texts,
) -> Result<(), AllocError>
    ensures { OnOk result (terms.new ≡ terms.old ++ filter (λ t. begins_with t prefix.now && not (some_has t behind.now)) (map term_in ones.now)) }
{
    'ones: for one in ones {
        let is_new = begins_with(one, prefix) && is_last(one.term.as_str().as_bytes(), behind);
        if !is_new {
            continue;
        }
        let term = Text::new(alloc, one.term.as_str())?;
        terms.push(term)?;
    }
    Ok(())
}

/// The terms, where all parts are terms.
pub fn terms_in(alloc: Global, parts: &[Query]) -> Result<Option<Texts>, AllocError>
    ensures { IfOk result (λ terms. terms ≡ terms_in (queries_view parts.now)) }
{
    let mut terms = Texts::new(alloc);
    'parts: for part in parts {
        let Some(word) = word_of(alloc, part)? else {
            return Ok(None);
        };
        terms.push(word)?;
    }
    Ok(Some(terms))
}

/// The term of a query that is one.
fn word_of(alloc: Global, query: &Query) -> Result<Option<Text>, AllocError>
    ensures { IfOk result (λ word. word ≡ word_of (query_view query.now)) }
{
    match query {
        Query::Term(term) => {
            let word = Text::new(alloc, term.as_str())?;
            Ok(Some(word))
        }
        _ => Ok(None),
    }
}

/// The same words, kept anew.
pub fn copies(alloc: Global, words: &[Text]) -> Result<Texts, AllocError>
    ensures { IfOk result (λ copies. copies ≡ words.now) }
{
    let mut copies = Texts::new(alloc);
    'words: for word in words {
        let copy = Text::new(alloc, word.as_str())?;
        copies.push(copy)?;
    }
    Ok(copies)
}

/// How long the lists of the terms are in all.
pub fn lengths_of(terms: &[Text], docs: &BTreeMap<DocId, Doc>) -> u128
    ensures value { result ≡ lengths_of terms.now docs.now.entries }
    ensures bound { result ≤ length terms.now * 2 ^ 64 }
{
    let mut sum = 0u128;
    'terms: for term in terms {
        sum += length_of(term.as_str().as_bytes(), docs) as u128;
    }
    sum
}

/// The least length of the lists of the terms, and 0 where there is no term.
pub fn least_length(terms: &[Text], docs: &BTreeMap<DocId, Doc>) -> usize
    ensures { result ≡ least_length terms.now docs.now.entries }
{
    let [first, rest @ ..] = terms else {
        return 0;
    };
    let mut least = length_of(first.as_str().as_bytes(), docs);
    'rest: for term in rest {
        least = least.min(length_of(term.as_str().as_bytes(), docs));
    }
    least
}
