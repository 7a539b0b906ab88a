//! From tokens to a query.
ghost use Rattle.std.specs.Prelude.{◌≡◌, ◌≤◌, ◌==◌, List, length, map, reverse, IfOk};
ghost use Rattle.sk_base.specs.declared.schema.Schema.{Schema};
ghost use Rattle.sk_query.specs.Trees.{query_view};
ghost use Rattle.sk_grammar.specs.Faults.{kinds_of};
ghost use Rattle.sk_grammar.specs.Meaning.{parts_tree, tree_in};
ghost use Rattle.sk_parser.specs.Sound.{HaveSoundRanges, nothing_behind};
ghost use Rattle.sk_parser.specs.Stack.{ends_as};

use crate::stack::{Level, Stack, close, is_stray, step};
use crate::tree::parts_tree;
use sk_base::{Join, Schema};
use sk_grammar::Token;
use sk_query::Query;
use std::alloc::{AllocError, Global};

/// Closes all brackets.
fn finish(alloc: Global, join: Join, stack: Stack) -> Result<Query, AllocError>
    ensures { IfOk result (λ q. (schema : Schema) → query_view q ≡ parts_tree join (reverse (ends_as schema join stack nothing_behind))) }
{
    let mut stack = stack;
    'levels: while !stack.below.is_empty() {
        stack = close(alloc, join, stack)?;
    }
    parts_tree(alloc, join, stack.top.parts)
}

/// The query of tokens that have no fault.
pub(crate) fn tree_in(
    alloc: Global,
    schema: &Schema,
    join: Join,
    tokens: &[Token],
) -> Result<Query, AllocError>
    requires { HaveSoundRanges schema.now tokens.now }
    ensures { IfOk result (λ q. query_view q ≡ tree_in schema.now join (kinds_of tokens.now)) }
{
    let mut stack = Stack {
        below: Vec::new(alloc),
        top: Level {
            field: None,
            parts: Vec::new(alloc),
        },
    };
    'tokens: for i in 0..tokens.len() {
        let kind = &tokens[i].kind;
        if is_stray(&stack, kind) {
            return parts_tree(alloc, join, stack.top.parts);
        }
        stack = step(alloc, schema, join, stack, kind)?;
    }
    finish(alloc, join, stack)
}
