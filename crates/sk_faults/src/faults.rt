//! Finds the first fault of a list of tokens.
ghost use Rattle.std.specs.Prelude.{◌≡◌, ◌≤◌, ◌<◌, ◌+◌, ◌^◌, ◌&&◌, not, nat_le, ℕ, List, drop, length, None, Some, false, map};
ghost use Rattle.sk_grammar.specs.declared.token.Kind.{Kind};
ghost use Rattle.sk_grammar.specs.Faults.{is_stray, is_unclosed, lacks_operand, is_bad_near, is_distance, is_bad_range, is_too_deep, is_too_many, fault_at, fault_in, kinds_of, leaves_by, leaves_among, is_open, begins_unit, is_mark, is_not, first_is, lacks_side, lacks_excluded, lacks_marked};
ghost use Rattle.sk_faults.specs.Before.{Is, closers_with, unclosed_from, is_at};

use crate::before::Before;
use crate::bounds::{are_numbers, takes_numbers};
use crate::kinds::{
    is_close, is_item, is_joining, is_mark, is_mark_first, is_not, is_not_first, is_open,
    is_unit_first, is_word_first, leaves_by,
};
use sk_base::{MOST_LEAVES, Schema};
use sk_grammar::{FaultKind, Kind, Token};

/// How many brackets and marks stand one inside another at most.
const MOST_DEPTH: usize = 100;

/// A bracket that closes none.
fn is_stray(before: Before, kind: &Kind) -> bool
    ensures { (ks : List Kind) → Is before ks → result ≡ is_stray ks kind.now }
{
    is_close(kind) && before.depth == 0
}

/// AND, OR or XOR without something on each side.
fn lacks_side(before: Before, kind: &Kind, behind: &[Token]) -> bool
    ensures { (ks : List Kind) → Is before ks → result ≡ lacks_side ks kind.now (kinds_of behind.now) }
{
    is_joining(kind)
        && (!before.unit
            || !(is_unit_first(behind) || is_mark_first(behind) || is_not_first(behind)))
}

/// NOT without something behind it.
fn lacks_excluded(kind: &Kind, behind: &[Token]) -> bool
    ensures { result ≡ lacks_excluded kind.now (kinds_of behind.now) }
{
    is_not(kind) && !(is_unit_first(behind) || is_mark_first(behind))
}

/// A mark without a unit behind it.
fn lacks_marked(kind: &Kind, behind: &[Token]) -> bool
    ensures { result ≡ lacks_marked kind.now (kinds_of behind.now) }
{
    is_mark(kind) && !is_unit_first(behind)
}

fn lacks_operand(before: Before, kind: &Kind, behind: &[Token]) -> bool
    ensures { (ks : List Kind) → Is before ks → result ≡ lacks_operand ks kind.now (kinds_of behind.now) }
{
    lacks_side(before, kind, behind) || lacks_excluded(kind, behind) || lacks_marked(kind, behind)
}

fn is_distance(n: u32) -> bool
    ensures { result ≡ is_distance n }
{
    n >= 1 && n <= 10_000
}

fn is_bad_near(before: Before, kind: &Kind, behind: &[Token]) -> bool
    ensures { (ks : List Kind) → Is before ks → result ≡ is_bad_near ks kind.now (kinds_of behind.now) }
{
    match kind {
        Kind::Near(n) => {
            !(before.word && is_word_first(behind)) || !is_distance(*n) || before.second_adj
        }
        Kind::Adj(n) => {
            !(before.word && is_word_first(behind)) || !is_distance(*n) || before.second_near
        }
        _ => false,
    }
}

fn is_bad_range(schema: &Schema, kind: &Kind) -> bool
    ensures { result ≡ is_bad_range schema.now kind.now }
{
    match kind {
        Kind::Range(field, text) => {
            takes_numbers(schema.fields(), *field) && !are_numbers(text.as_str())
        }
        _ => false,
    }
}

fn is_too_deep(before: Before, kind: &Kind) -> bool
    ensures { (ks : List Kind) → Is before ks → result ≡ is_too_deep ks kind.now }
{
    is_open(kind) && before.depth >= MOST_DEPTH
}

fn is_too_many(before: Before, kind: &Kind) -> bool
    ensures few { result ≡ false → before.leaves ≤ 1024 → before.leaves + leaves_by kind.now ≤ 1024 }
    ensures value { (ks : List Kind) → Is before ks → result ≡ is_too_many ks kind.now }
{
    is_item(kind) && before.leaves <= MOST_LEAVES && leaves_by(kind) > MOST_LEAVES - before.leaves
}

/// The fault of a token, where it is known whether it opens a bracket that is never closed.
fn fault_at(
    schema: &Schema,
    before: Before,
    kind: &Kind,
    behind: &[Token],
    unclosed: bool,
) -> Option<FaultKind>
    ensures value { (ks : List Kind) → Is before ks → unclosed ≡ is_unclosed ks kind.now (kinds_of behind.now)
        → result ≡ fault_at schema.now ks kind.now (kinds_of behind.now) }
    ensures few { result ≡ None → before.leaves ≤ 1024 → before.leaves + leaves_by kind.now ≤ 1024 }
    ensures closed { result ≡ None → unclosed ≡ false }
{
    if is_stray(before, kind) {
        Some(FaultKind::StrayBracket)
    } else if unclosed {
        Some(FaultKind::UnclosedBracket)
    } else if lacks_operand(before, kind, behind) {
        Some(FaultKind::MissingOperand)
    } else if is_bad_near(before, kind, behind) {
        Some(FaultKind::BadNear)
    } else if is_bad_range(schema, kind) {
        Some(FaultKind::BadRange)
    } else if is_too_deep(before, kind) {
        Some(FaultKind::TooDeep)
    } else if is_too_many(before, kind) {
        Some(FaultKind::TooMany)
    } else {
        None
    }
}

/// How many brackets close one that stands further left, with one token more on the left.
fn closers_with(kind: &Kind, closers: usize) -> usize
    requires { closers + 1 < 2 ^ 64 }
    ensures { result ≡ closers_with kind.now closers }
{
    match kind {
        Kind::Open(_) => closers.saturating_sub(1),
        Kind::Close => closers + 1,
        _ => closers,
    }
}

/// The place of the first bracket that is never closed.
fn first_unclosed(tokens: &[Token]) -> Option<usize>
    ensures { result ≡ unclosed_from 0 (kinds_of tokens.now) }
{
    let mut first = None;
    let mut closers = 0usize;
    let mut i = tokens.len();
    'tokens: while i > 0 {
        i -= 1;
        let kind = &tokens[i].kind;
        if is_open(kind) && closers == 0 {
            first = Some(i);
        }
        closers = closers_with(kind, closers);
    }
    first
}

fn is_at(first: Option<usize>, i: usize) -> bool
    ensures { result ≡ is_at first i }
{
    match first {
        Some(place) => place == i,
        None => false,
    }
}

/// The tokens behind a place.
fn behind(tokens: &[Token], i: usize) -> &[Token]
    requires { i < length tokens.now }
    ensures { result.now ≡ drop (i + 1) tokens.now }
{
    &tokens[i + 1..]
}

/// The fault at the least place, with the byte at which its token begins, or none where the tokens are a query.
pub fn fault_in(schema: &Schema, tokens: &[Token]) -> Option<(FaultKind, usize)>
    ensures { result ≡ fault_in schema.now tokens.now }
{
    let unclosed = first_unclosed(tokens);
    let mut before = Before::nothing();
    'tokens: for i in 0..tokens.len() {
        let token = &tokens[i];
        let behind = behind(tokens, i);
        let fault = fault_at(schema, before, &token.kind, behind, is_at(unclosed, i));
        if let Some(kind) = fault {
            return Some((kind, token.from));
        }
        before = before.with(&token.kind);
    }
    None
}
