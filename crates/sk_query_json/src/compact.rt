//! The JSON text of a query.
ghost use Rattle.std.specs.Prelude.{◌≡◌, ◌≤◌, true, Some, IfOk, string_bytes, option_and_then};
ghost use Rattle.serde_json.specs.Data.{depth};
ghost use Rattle.serde_json.specs.Read.{read, max_depth};
ghost use Rattle.serde_json.specs.Written.{compact_text};
ghost use Rattle.sk_query.specs.Trees.{query_view};
ghost use Rattle.sk_query.specs.Fits.{fits_tree, depth_of};
ghost use Rattle.sk_query_json.specs.Reading.{tree_of};
ghost use Rattle.sk_query_json.specs.Writing.{json_of};

use crate::to_json;
use sk_query::Query;
use std::alloc::{AllocError, Global};

/// The compact text of a query's JSON value. A reader of JSON may refuse a text that nests deep, so it is read back
/// where its arrays and objects nest no deeper than the reader goes; each query makes at most two of these.
pub fn text(alloc: Global, query: &Query) -> Result<String, AllocError>
    ensures text { IfOk result (λ text. string_bytes text ≡ compact_text (json_of (query_view query.now))) }
    ensures reads_back { fits_tree (query_view query.now) ≡ true → depth (json_of (query_view query.now)) ≤ max_depth
        → IfOk result (λ text. option_and_then tree_of (read (string_bytes text)) ≡ Some (query_view query.now)) }
    ensures shallow { fits_tree (query_view query.now) ≡ true → depth_of (query_view query.now) ≤ 63
        → IfOk result (λ text. option_and_then tree_of (read (string_bytes text)) ≡ Some (query_view query.now)) }
{
    let value = to_json(alloc, query)?;
    value.to_string(alloc)
}
