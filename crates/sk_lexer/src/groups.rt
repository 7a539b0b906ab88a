//! Words, and the groups that joiners make of them.
ghost use Rattle.std.specs.Prelude.{◌≡◌, ◌≤◌, IfOk, true, length, take, drop, encode_utf8_all, string_bytes};
ghost use Rattle.sk_grammar.specs.Characters.{run_terms};
ghost use Rattle.sk_grammar.specs.Cutting.{byte_len};
ghost use Rattle.sk_grammar.specs.Pieces.{is_starred, is_one, first_term, words_kind, group_kind, group_of_len, group_piece, quote_piece};
ghost use Rattle.sk_lexer.specs.Shown.{shown};

use crate::operators::operator_of;
use crate::piece::Cut;
use crate::quotes::{inner, quote_len};
use crate::runs::{begins_capital, begins_word, group_len};
use sk_base::{Items, Text};
use sk_grammar::Kind;
use sk_text::words;
use std::alloc::{AllocError, Global};

/// The characters as a string.
pub(crate) fn string_of(alloc: Global, cs: &[char]) -> Result<String, AllocError>
    ensures { IfOk result (λ s. string_bytes s ≡ encode_utf8_all cs.now) }
{
    let mut text = String::with_capacity(alloc, cs.len())?;
    'cs: for c in cs {
        text.push(*c)?;
    }
    Ok(text)
}

/// The terms of the words of a run of characters, which is written so.
fn terms_in(alloc: Global, cs: &[char], text: &str) -> Result<Vec<Text>, AllocError>
    requires text { text.now ≡ encode_utf8_all cs.now }
    requires size { byte_len cs.now ≤ 1048576 }
    ensures { IfOk result (λ terms. terms.items ≡ run_terms cs.now) }
{
    let found = words(alloc, text)?;
    let mut terms = Vec::new(alloc);
    'found: for word in found.as_slice() {
        terms.push(Text::new(alloc, word.term.as_str())?)?;
    }
    Ok(terms)
}

/// The first of these terms, the only one.
fn only(alloc: Global, terms: Vec<Text>) -> Text
    ensures { is_one terms.items ≡ true → result ≡ first_term terms.items }
{
    let mut terms = terms;
    match terms.pop() {
        Some(term) => term,
        None => Text::empty(alloc),
    }
}

fn is_one(terms: &[Text]) -> bool
    ensures { result ≡ is_one terms.now }
{
    matches!(terms, [_])
}

fn words_kind(alloc: Global, field: Option<usize>, capital: bool, terms: Vec<Text>) -> Kind
    ensures { result ≡ words_kind field capital terms.items }
{
    if is_one(terms.as_slice()) {
        Kind::Word(field, only(alloc, terms), capital)
    } else {
        Kind::Joined(field, Items::from_vec(terms))
    }
}

/// The token of a group that is written so, where a capital letter begins it or none does, and has these terms.
fn group_kind(
    alloc: Global,
    field: Option<usize>,
    text: &str,
    capital: bool,
    terms: Vec<Text>,
) -> Kind
    ensures { result ≡ group_kind field text.now capital terms.items }
{
    if field.is_some() {
        return words_kind(alloc, field, capital, terms);
    }
    match operator_of(text) {
        Some(kind) => kind,
        None => words_kind(alloc, field, capital, terms),
    }
}

/// Whether a star stands here, and no word character behind it.
fn is_starred(cs: &[char]) -> bool
    ensures { result ≡ is_starred cs.now }
{
    match cs {
        [c, behind @ ..] => *c == '*' && !begins_word(behind),
        [] => false,
    }
}

/// The piece of a group of so many characters.
fn group_of_len(
    alloc: Global,
    field: Option<usize>,
    n: usize,
    cs: &[char],
) -> Result<Cut, AllocError>
    requires within { n ≤ length cs.now }
    requires size { byte_len cs.now ≤ 1048576 }
    ensures { IfOk result (λ p. shown p ≡ group_of_len field n cs.now) }
{
    let group = &cs[..n];
    let text = string_of(alloc, group)?;
    let terms = terms_in(alloc, group, text.as_str())?;
    if is_one(terms.as_slice()) && is_starred(&cs[n..]) {
        return Ok(Cut::token(Kind::Wild(field, only(alloc, terms)), n + 1));
    }
    let kind = group_kind(alloc, field, text.as_str(), begins_capital(cs), terms);
    Ok(Cut::token(kind, n))
}

/// The piece of the group at the front.
pub(crate) fn group_piece(
    alloc: Global,
    field: Option<usize>,
    cs: &[char],
) -> Result<Cut, AllocError>
    requires { byte_len cs.now ≤ 1048576 }
    ensures { IfOk result (λ p. shown p ≡ group_piece field cs.now) }
{
    group_of_len(alloc, field, group_len(cs), cs)
}

/// The piece of a quote.
pub(crate) fn quote_piece(
    alloc: Global,
    field: Option<usize>,
    cs: &[char],
) -> Result<Cut, AllocError>
    requires { byte_len cs.now ≤ 1048576 }
    ensures { IfOk result (λ p. shown p ≡ quote_piece field cs.now) }
{
    let inside = inner(cs);
    let text = string_of(alloc, inside)?;
    let terms = terms_in(alloc, inside, text.as_str())?;
    Ok(Cut::token(Kind::Quote(field, Items::from_vec(terms)), quote_len(cs)))
}
