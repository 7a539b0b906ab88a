//! The brackets that are open while tokens are read.
ghost use Rattle.std.specs.Prelude.{◌≡◌, ◌≤◌, ◌+◌, List, length, IfOk, true, false};
ghost use Rattle.sk_base.specs.declared.schema.Schema.{Schema};
ghost use Rattle.sk_grammar.specs.declared.token.Kind.TheVariants as Kind;
ghost use Rattle.sk_grammar.specs.Brackets.{Levels, single, nest, opened, with_token};
ghost use Rattle.sk_grammar.specs.Faults.{is_bad_range};
ghost use Rattle.sk_grammar.specs.Parts.{with_part};
ghost use Rattle.sk_grammar.specs.Meaning.{closed_part};
ghost use Rattle.sk_parser.specs.Views.{part_view, parts_behind};
ghost use Rattle.sk_parser.specs.Stack.{ends_as, field_or};

use crate::chain::add;
use crate::part::{Part, part_of, prefix_in};
use crate::tree::closed_part;
use sk_base::{Join, Schema};
use sk_grammar::Kind;
use std::alloc::{AllocError, Global};

/// A bracket that is open: the field that holds there, and the parts so far.
#[derive(Drop)]
pub(crate) struct Level {
    pub field: Option<usize>,
    pub parts: Vec<Part>,
}

/// The innermost bracket, and those around it, the outermost first.
#[derive(Drop)]
pub(crate) struct Stack {
    pub below: Vec<Level>,
    pub top: Level,
}

fn field_or(field: Option<usize>, outer: Option<usize>) -> Option<usize>
    ensures { result ≡ field_or field outer }
{
    match field {
        Some(place) => Some(place),
        None => outer,
    }
}

/// Adds a part to a bracket.
fn add_to(level: Level, part: Part) -> Result<Level, AllocError>
    ensures parts { IfOk result (λ l. parts_behind (l.parts).items ≡ with_part (parts_behind (level.parts).items) (part_view part)) }
    ensures field { IfOk result (λ l. l.field ≡ level.field) }
{
    let Level { field, parts } = level;
    let mut parts = parts;
    add(&mut parts, part)?;
    Ok(Level { field, parts })
}

/// Closes a bracket: it becomes one part of the one around it.
fn closed(alloc: Global, join: Join, level: Level, outer: Level) -> Result<Level, AllocError>
    ensures parts { IfOk result (λ l. parts_behind (l.parts).items ≡ with_part (parts_behind (outer.parts).items) (closed_part join (parts_behind (level.parts).items))) }
    ensures field { IfOk result (λ l. l.field ≡ outer.field) }
{
    let part = closed_part(alloc, join, level.parts)?;
    add_to(outer, part)
}

/// Opens a bracket.
fn open(alloc: Global, stack: Stack, field: Option<usize>) -> Result<Stack, AllocError>
    ensures { IfOk result (λ s. (schema : Schema) (join : Join) (behind : Levels) → ends_as schema join s behind ≡ ends_as schema join stack (opened field behind.here behind.outside)) }
{
    let Stack { below, top } = stack;
    let mut below = below;
    let inner = Level {
        field: field_or(field, top.field),
        parts: Vec::new(alloc),
    };
    below.push(top)?;
    Ok(Stack { below, top: inner })
}

/// Closes the innermost bracket.
pub(crate) fn close(alloc: Global, join: Join, stack: Stack) -> Result<Stack, AllocError>
    requires { 1 ≤ length (stack.below).items }
    ensures ends { IfOk result (λ s. (schema : Schema) (behind : Levels) → ends_as schema join s behind ≡ ends_as schema join stack (with_token Kind.Close behind)) }
    ensures fewer { IfOk result (λ s. length (s.below).items + 1 ≡ length (stack.below).items) }
{
    let Stack { below, top } = stack;
    let mut below = below;
    match below.pop() {
        Some(outer) => {
            let top = closed(alloc, join, top, outer)?;
            Ok(Stack { below, top })
        }
        None => Ok(Stack { below, top }),
    }
}

/// Whether a token closes a bracket, and none is open.
pub(crate) fn is_stray(stack: &Stack, kind: &Kind) -> bool
    ensures stray { result ≡ true → (kind.now ≡ Kind.Close) × (length ((stack.now).below).items ≡ 0) }
    ensures other { result ≡ false → kind.now ≡ Kind.Close → 1 ≤ length ((stack.now).below).items }
{
    match kind {
        Kind::Close => stack.below.is_empty(),
        _ => false,
    }
}

/// Adds a token that is no bracket.
fn put(alloc: Global, schema: &Schema, stack: Stack, kind: &Kind) -> Result<Stack, AllocError>
    requires { is_bad_range schema.now kind.now ≡ false }
    ensures { IfOk result (λ s. (join : Join) (behind : Levels) → ends_as schema.now join s behind
        ≡ ends_as schema.now join stack (record { here = nest (single kind.now) behind.here; outside = behind.outside })) }
{
    let Stack { below, top } = stack;
    let part = part_of(alloc, schema, prefix_in(schema, "", top.field), kind)?;
    let top = add_to(top, part)?;
    Ok(Stack { below, top })
}

/// Adds a token.
pub(crate) fn step(
    alloc: Global,
    schema: &Schema,
    join: Join,
    stack: Stack,
    kind: &Kind,
) -> Result<Stack, AllocError>
    requires range { is_bad_range schema.now kind.now ≡ false }
    requires some { kind.now ≡ Kind.Close → 1 ≤ length (stack.below).items }
    ensures { IfOk result (λ s. (behind : Levels) → ends_as schema.now join s behind ≡ ends_as schema.now join stack (with_token kind.now behind)) }
{
    match kind {
        Kind::Open(field) => open(alloc, stack, *field),
        Kind::Close => close(alloc, join, stack),
        _ => put(alloc, schema, stack, kind),
    }
}
