//! Pieces that begin with a field's name.
ghost use Rattle.std.specs.Prelude.{◌≡◌, ℕ, ◌≤◌, ◌<◌, ◌+◌, ◌^◌, IfOk, IfSome, option_map, length, take, encode_utf8_all};
ghost use Rattle.sk_grammar.specs.Characters.{run_len};
ghost use Rattle.sk_grammar.specs.Cutting.{byte_len};
ghost use Rattle.sk_grammar.specs.Pieces.{text_piece, filter_piece, range_piece, value_piece, colon_piece, named_piece, field_piece, lengthened};
ghost use Rattle.sk_lexer.specs.Shown.{shown, begins_colon, field_value};

use crate::groups::{group_piece, quote_piece, string_of};
use crate::piece::Cut;
use crate::quotes::{inner, is_good, quote_len};
use crate::runs::{drop_front, name_len, run_len, runs_on};
use sk_base::{Field, FieldKind, Schema, Text};
use sk_grammar::Kind;
use sk_text::is_word;
use std::alloc::{AllocError, Global};

/// Behind the colon of a text field.
fn text_piece(alloc: Global, field: usize, cs: &[char]) -> Result<Option<Cut>, AllocError>
    requires { byte_len cs.now ≤ 1048576 }
    ensures { IfOk result (λ p. option_map shown p ≡ text_piece field cs.now) }
{
    let Some(c) = cs.first() else {
        return Ok(None);
    };
    let behind = &cs[1..];
    if is_word(*c) {
        Ok(Some(group_piece(alloc, Some(field), cs)?))
    } else if *c == '"' && is_good(behind) {
        Ok(Some(quote_piece(alloc, Some(field), behind)?))
    } else if *c == '(' {
        Ok(Some(Cut::token(Kind::Open(Some(field)), 1)))
    } else {
        Ok(None)
    }
}

/// The first so many characters as a text.
fn front_text(alloc: Global, cs: &[char], n: usize) -> Result<Text, AllocError>
    requires { n ≤ length cs.now }
    ensures { IfOk result (λ text. text ≡ encode_utf8_all (take n cs.now)) }
{
    Ok(Text::from_string(string_of(alloc, &cs[..n])?))
}

/// Behind the colon of a filter.
fn filter_piece(alloc: Global, field: usize, cs: &[char]) -> Result<Option<Cut>, AllocError>
    requires { byte_len cs.now ≤ 1048576 }
    ensures { IfOk result (λ p. option_map shown p ≡ filter_piece field cs.now) }
{
    let Some(c) = cs.first() else {
        return Ok(None);
    };
    let behind = &cs[1..];
    if *c == '"' {
        let text = Text::from_string(string_of(alloc, inner(behind))?);
        return Ok(Some(Cut::token(Kind::Filter(field, text), quote_len(behind))));
    }
    if !runs_on(*c) {
        return Ok(None);
    }
    let size = run_len(cs);
    let text = front_text(alloc, cs, size)?;
    Ok(Some(Cut::token(Kind::Filter(field, text), size)))
}

/// Behind the colon of a number or of a word.
fn range_piece(alloc: Global, field: usize, cs: &[char]) -> Result<Option<Cut>, AllocError>
    ensures { IfOk result (λ p. option_map shown p ≡ range_piece field cs.now) }
{
    let Some(c) = cs.first() else {
        return Ok(None);
    };
    if !runs_on(*c) {
        return Ok(None);
    }
    let size = run_len(cs);
    let text = front_text(alloc, cs, size)?;
    Ok(Some(Cut::token(Kind::Range(field, text), size)))
}

/// Behind the colon of a field of this kind.
fn value_piece(
    alloc: Global,
    field: usize,
    kind: &FieldKind,
    cs: &[char],
) -> Result<Option<Cut>, AllocError>
    requires { byte_len cs.now ≤ 1048576 }
    ensures { IfOk result (λ p. option_map shown p ≡ value_piece field kind.now cs.now) }
{
    match kind {
        FieldKind::Text(_, _) => text_piece(alloc, field, cs),
        FieldKind::Filter(_) => filter_piece(alloc, field, cs),
        FieldKind::Number(_) => range_piece(alloc, field, cs),
        FieldKind::Word(_) => range_piece(alloc, field, cs),
    }
}

/// Behind the colon of the field at this place of the schema.
fn field_value(
    alloc: Global,
    schema: &Schema,
    field: usize,
    cs: &[char],
) -> Result<Option<Cut>, AllocError>
    requires { byte_len cs.now ≤ 1048576 }
    ensures value { IfOk result (λ p. option_map shown p ≡ field_value schema.now field cs.now) }
    ensures short { IfOk result (λ p. IfSome p (λ cut. cut.size ≤ 1048576)) }
{
    match schema.fields().get(field) {
        Some(found) => value_piece(alloc, field, &found.kind, cs),
        None => Ok(None),
    }
}

/// A piece with so many characters more in front.
fn longer(n: usize, piece: Option<Cut>) -> Option<Cut>
    requires { IfSome piece (λ p. n + p.size < 2 ^ 64) }
    ensures value { option_map shown result ≡ option_map (lengthened n) (option_map shown piece) }
    ensures size { (m : ℕ) → IfSome piece (λ p. p.size ≤ m) → IfSome result (λ p. p.size ≤ n + m) }
{
    let cut = piece?;
    Some(Cut {
        kind: cut.kind,
        size: n + cut.size,
    })
}

/// Behind the name of the field at this place of the schema.
fn colon_piece(
    alloc: Global,
    schema: &Schema,
    field: usize,
    cs: &[char],
) -> Result<Option<Cut>, AllocError>
    requires { byte_len cs.now ≤ 1048576 }
    ensures value { IfOk result (λ p. option_map shown p ≡ colon_piece schema.now field cs.now) }
    ensures short { IfOk result (λ p. IfSome p (λ cut. cut.size ≤ 1048577)) }
{
    let [c, behind @ ..] = cs else {
        return Ok(None);
    };
    if *c != ':' {
        return Ok(None);
    }
    let value = field_value(alloc, schema, field, behind)?;
    Ok(longer(1, value))
}

fn begins_colon(cs: &[char]) -> bool
    ensures { result ≡ begins_colon cs.now }
{
    match cs {
        [c, ..] => *c == ':',
        [] => false,
    }
}

/// The piece behind the name of so many characters.
fn named_piece(
    alloc: Global,
    schema: &Schema,
    n: usize,
    cs: &[char],
) -> Result<Option<Cut>, AllocError>
    requires within { n ≤ length cs.now }
    requires size { byte_len cs.now ≤ 1048576 }
    ensures { IfOk result (λ p. option_map shown p ≡ named_piece schema.now n cs.now) }
{
    let behind = drop_front(cs, n);
    if !begins_colon(behind) {
        return Ok(None);
    }
    let name = string_of(alloc, &cs[..n])?;
    match schema.find(name.as_str()) {
        Some(field) => {
            let value = colon_piece(alloc, schema, field, behind)?;
            Ok(longer(n, value))
        }
        None => Ok(None),
    }
}

/// The piece of a field at the front, if its name stands there, a colon, and what its kind needs.
pub(crate) fn field_piece(
    alloc: Global,
    schema: &Schema,
    cs: &[char],
) -> Result<Option<Cut>, AllocError>
    requires { byte_len cs.now ≤ 1048576 }
    ensures { IfOk result (λ p. option_map shown p ≡ field_piece schema.now cs.now) }
{
    named_piece(alloc, schema, name_len(cs), cs)
}
