//! The walk over a text.
ghost use Rattle.std.specs.Prelude.{◌≡◌, ◌≤◌, ◌<◌, ℕ, ◌++◌, IfOk, List, OnOk, length, take, chars, option_map};
ghost use Rattle.sk_grammar.specs.Cutting.{byte_len, last_of, token_at, IsCut, tokens_from, tokens_in, tokens_of};
ghost use Rattle.sk_grammar.specs.Pieces.{Piece, takes_mark, is_marked, mark_piece, last_piece};
ghost use Rattle.sk_lexer.specs.Shown.{shown, mark_in, last_in, other_in, piece_in};

use crate::fields::field_piece;
use crate::groups::{group_piece, quote_piece};
use crate::piece::Cut;
use crate::quotes::{is_good, quote_len};
use crate::runs::{begins_word, drop_front};
use sk_base::Schema;
use sk_grammar::{Kind, Token, Tokens};
use sk_text::is_word;
use std::alloc::{AllocError, Global};

/// Whether a mark may stand behind this.
fn takes_mark(previous: Option<char>) -> bool
    ensures { result ≡ takes_mark previous }
{
    match previous {
        None => true,
        Some(c) => c.is_whitespace() || c == '(',
    }
}

/// Whether a mark may stand before this.
fn is_marked(cs: &[char]) -> bool
    ensures { result ≡ is_marked cs.now }
{
    match cs {
        [c, behind @ ..] => is_word(*c) || *c == '(' || (*c == '"' && is_good(behind)),
        [] => false,
    }
}

fn mark_piece(previous: Option<char>, c: char, cs: &[char]) -> Option<Cut>
    ensures { option_map shown result ≡ mark_piece previous c cs.now }
{
    if !takes_mark(previous) || !is_marked(cs) {
        return None;
    }
    match c {
        '+' => Some(Cut::token(Kind::Plus, 1)),
        '-' => Some(Cut::token(Kind::Minus, 1)),
        _ => None,
    }
}

/// A mark at the front.
fn mark_in(previous: Option<char>, here: &[char]) -> Option<Cut>
    ensures { option_map shown result ≡ mark_in previous here.now }
{
    match here {
        [c, behind @ ..] => mark_piece(previous, *c, behind),
        [] => None,
    }
}

/// A group at the front, or any other character.
fn last_in(alloc: Global, here: &[char]) -> Result<Cut, AllocError>
    requires { byte_len here.now ≤ 1048576 }
    ensures { IfOk result (λ p. shown p ≡ last_in here.now) }
{
    if begins_word(here) {
        group_piece(alloc, None, here)
    } else {
        Ok(Cut::separator(1))
    }
}

/// What stands at the front, where it is no white space, quote or bracket.
fn other_in(
    alloc: Global,
    schema: &Schema,
    previous: Option<char>,
    here: &[char],
) -> Result<Cut, AllocError>
    requires { byte_len here.now ≤ 1048576 }
    ensures { IfOk result (λ p. shown p ≡ other_in schema.now previous here.now) }
{
    if let Some(piece) = mark_in(previous, here) {
        return Ok(piece);
    }
    match field_piece(alloc, schema, here)? {
        Some(piece) => Ok(piece),
        None => last_in(alloc, here),
    }
}

/// The piece at the front.
fn piece_in(
    alloc: Global,
    schema: &Schema,
    previous: Option<char>,
    here: &[char],
) -> Result<Cut, AllocError>
    requires { byte_len here.now ≤ 1048576 }
    ensures { IfOk result (λ p. shown p ≡ piece_in schema.now previous here.now) }
{
    let [c, behind @ ..] = here else {
        return Ok(Cut::separator(1));
    };
    if c.is_whitespace() {
        Ok(Cut::separator(1))
    } else if *c == '"' {
        if is_good(behind) {
            quote_piece(alloc, None, behind)
        } else {
            Ok(Cut::separator(quote_len(behind)))
        }
    } else if *c == '(' {
        Ok(Cut::token(Kind::Open(None), 1))
    } else if *c == ')' {
        Ok(Cut::token(Kind::Close, 1))
    } else {
        other_in(alloc, schema, previous, here)
    }
}

/// How many bytes the characters take.
fn byte_len(cs: &[char]) -> usize
    requires { byte_len cs.now ≤ 1048576 }
    ensures { result ≡ byte_len cs.now }
{
    cs.iter().map(|c| c.len_utf8()).sum()
}

/// The last of these characters, or what stood before them.
fn last_of(previous: Option<char>, cs: &[char]) -> Option<char>
    ensures { result ≡ last_of previous cs.now }
{
    let mut last = previous;
    'cs: for c in cs {
        last = Some(*c);
    }
    last
}

/// The first so many characters.
fn front(cs: &[char], n: usize) -> &[char]
    requires { n ≤ length cs.now }
    ensures { result.now ≡ take n cs.now }
{
    &cs[..n]
}

/// Adds the token of a piece that begins and ends at these bytes, if it is one.
fn add(made: &mut Tokens, kind: Option<Kind>, from: usize, to: usize) -> Result<(), AllocError>
    ensures { OnOk result (made.new ≡ made.old ++ token_at kind from to) }
{
    match kind {
        Some(kind) => made.push(Token { kind, from, to }),
        None => Ok(()),
    }
}

/// The tokens of the text with these characters.
fn tokens_in(alloc: Global, schema: &Schema, cs: &[char]) -> Result<Tokens, AllocError>
    requires { byte_len cs.now ≤ 1048576 }
    ensures { IfOk result (λ ts. ts ≡ tokens_in schema.now cs.now) }
{
    let mut made = Tokens::new(alloc);
    let mut previous = None;
    let mut from = 0usize;
    let mut rest = cs;
    'pieces: while !rest.is_empty() {
        let Cut { kind, size } = piece_in(alloc, schema, previous, rest)?;
        let here = front(rest, size);
        let to = from + byte_len(here);
        add(&mut made, kind, from, to)?;
        previous = last_of(previous, here);
        rest = drop_front(rest, size);
        from = to;
    }
    Ok(made)
}

/// The characters of a text.
fn chars_of(alloc: Global, text: &str) -> Result<Vec<char>, AllocError>
    ensures { IfOk result (λ cs. cs.items ≡ chars text.now) }
{
    let mut cs = Vec::with_capacity(alloc, text.len())?;
    'text: for c in text.chars() {
        cs.push(c)?;
    }
    Ok(cs)
}

/// The tokens of the one cutting of `text` under `schema`. The text is walked over once.
pub fn tokens(alloc: Global, text: &str, schema: &Schema) -> Result<Tokens, AllocError>
    requires { length text.now ≤ 1048576 }
    ensures value { IfOk result (λ ts. ts ≡ tokens_of schema.now text.now) }
    ensures cut { (pieces : List Piece) → IsCut schema.now (chars text.now) pieces → IfOk result (λ ts. ts ≡ tokens_from 0 (chars text.now) pieces) }
{
    let cs = chars_of(alloc, text)?;
    tokens_in(alloc, schema, cs.as_slice())
}
