//! From a text to its query.
ghost use Rattle.std.specs.Prelude.{◌≡◌, ◌≤◌, ℕ, Ok, Err, IfOk, length, true};
ghost use Rattle.sk_query.specs.Fits.{fits_tree};
ghost use Rattle.sk_query.specs.Trees.{query_view};
ghost use Rattle.sk_grammar.specs.declared.fault.FaultKind.{FaultKind};
ghost use Rattle.sk_grammar.specs.Meaning.{query_meant};
ghost use Rattle.sk_parser.specs.declared.parsing.ParseError.TheVariants as ParseError;

use crate::reading::tree_in;
use sk_base::{Join, Schema};
use sk_faults::fault_in;
use sk_grammar::FaultKind;
use sk_lexer::tokens;
use sk_query::Query;
use std::alloc::{AllocError, Global};
use thiserror::Error;

/// Why a text gives no query.
#[derive(Clone, Copy, Debug, PartialEq, Eq, Error)]
pub enum ParseError {
    /// It has this fault at this byte.
    #[error("a fault in the text")]
    Fault(FaultKind, usize),
    /// Memory ran out.
    #[error("no memory")]
    NoMemory,
}

impl From<AllocError> for ParseError {
    ghost use Rattle.std.specs.Prelude.{◌≡◌};
    ghost use Rattle.sk_parser.specs.declared.parsing.ParseError.TheVariants.{NoMemory};

    ghost from_gives = { λ _ e. e ≡ NoMemory };

    fn from(_: AllocError) -> ParseError {
        ParseError::NoMemory
    }
}

/// The query of `text` under `schema`, where its words are joined so; or its first fault, with the byte at which that
/// stands.
pub fn parse(alloc: Global, text: &str, schema: &Schema, join: Join) -> Result<Query, ParseError>
    requires { length text.now ≤ 1048576 }
    ensures ok { IfOk result (λ q. query_meant schema.now join text.now ≡ Ok (query_view q)) }
    ensures fits { IfOk result (λ q. fits_tree (query_view q) ≡ true) }
    ensures fault { (kind : FaultKind) (place : ℕ) → result ≡ Err (ParseError.Fault kind place) → query_meant schema.now join text.now ≡ Err (kind, place) }
{
    let found = tokens(alloc, text, schema)?;
    // The fields keep their rules, so the query keeps its limits.
    let _fields = schema.fields();
    let list = found.as_slice();
    match fault_in(schema, list) {
        Some((kind, place)) => Err(ParseError::Fault(kind, place)),
        None => {
            let query = tree_in(alloc, schema, join, list)?;
            Ok(query)
        }
    }
}
