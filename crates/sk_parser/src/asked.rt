//! From what a find asks for to its query.
ghost use Rattle.std.specs.Prelude.{◌≡◌, ◌≤◌, true, length, IfOk};
ghost use Rattle.std.specs.Option.{ok_or};
ghost use Rattle.serde_json.specs.View.{view};
ghost use Rattle.sk_base.specs.Finds.{FitsAsk, ask_over};
ghost use Rattle.sk_query.specs.Trees.{query_view};
ghost use Rattle.sk_query.specs.Fits.{fits_tree};
ghost use Rattle.sk_query_json.specs.Reading.{tree_of};
ghost use Rattle.sk_parser.specs.declared.asked.AskError.TheVariants.{BadTree};
ghost use Rattle.sk_parser.specs.Asked.{asked, text_asked, ReadsAs};

use crate::{ParseError, parse};
use serde_json::Value;
use sk_base::{Ask, Join, Schema};
use sk_grammar::FaultKind;
use sk_query::Query;
use sk_query_json::{TreeFault, from_json};
use std::alloc::Global;
use thiserror::Error;

/// Why a find has no query.
#[derive(Clone, Copy, Debug, PartialEq, Eq, Error)]
pub enum AskError {
    /// Its text has this first fault, at this byte.
    #[error("the text is no query")]
    BadQuery(FaultKind, usize),
    /// Its tree is no query.
    #[error("the tree is no query")]
    BadTree,
    /// Memory ran out.
    #[error("no memory")]
    NoMemory,
}

/// The query that a find asks for under the schema.
pub fn query_of(alloc: Global, schema: &Schema, ask: &Ask<Value>) -> Result<Query, AskError>
    requires { FitsAsk ask.now }
    ensures reads { ReadsAs (asked schema.now (ask_over view ask.now)) result }
    ensures fits { IfOk result (λ query. fits_tree (query_view query) ≡ true) }
{
    match ask {
        Ask::Text(text, join) => text_query(alloc, schema, *join, text.as_str()),
        Ask::Tree(value) => tree_query(alloc, value),
    }
}

/// The query of a text under the schema, where its words are joined so.
pub fn text_query(alloc: Global, schema: &Schema, join: Join, text: &str) -> Result<Query, AskError>
    requires { length text.now ≤ 1048576 }
    ensures reads { ReadsAs (text_asked schema.now join text.now) result }
    ensures fits { IfOk result (λ query. fits_tree (query_view query) ≡ true) }
{
    match parse(alloc, text, schema, join) {
        Ok(query) => Ok(query),
        Err(ParseError::Fault(kind, place)) => Err(AskError::BadQuery(kind, place)),
        Err(ParseError::NoMemory) => Err(AskError::NoMemory),
    }
}

/// The query of a tree.
fn tree_query(alloc: Global, value: &Value) -> Result<Query, AskError>
    ensures reads { ReadsAs (ok_or (tree_of (view value.now)) BadTree) result }
    ensures fits { IfOk result (λ query. fits_tree (query_view query) ≡ true) }
{
    match from_json(alloc, value) {
        Ok(query) => Ok(query),
        Err(TreeFault::Shape) => Err(AskError::BadTree),
        Err(TreeFault::NoMemory) => Err(AskError::NoMemory),
    }
}
