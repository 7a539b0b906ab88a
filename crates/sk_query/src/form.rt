//! The forms of several queries.
ghost use Rattle.std.specs.Prelude.{◌≡◌};
ghost use Rattle.std.specs.Option.{option_map};
ghost use Rattle.sk_query.specs.Trees.{parts, form_of, name_of, query_view, queries_view};

use crate::{Queries, Query};

/// A form of several queries.
#[derive(Clone, Copy, Debug, PartialEq, Eq)]
pub enum Form {
    And,
    Or,
    Xor,
    Max,
    AndNot,
    AndMaybe,
    Filter,
}

impl Form {
    /// The name of the form.
    pub fn name(self) -> &'static str
        ensures { result.now ≡ name_of self }
    {
        match self {
            Form::And => "and",
            Form::Or => "or",
            Form::Xor => "xor",
            Form::Max => "max",
            Form::AndNot => "and_not",
            Form::AndMaybe => "and_maybe",
            Form::Filter => "filter",
        }
    }
}

impl Query {
    /// The query of this form with these parts.
    pub fn joined(form: Form, queries: Queries) -> Query
        ensures { query_view result ≡ parts form (queries_view queries.items) }
    {
        match form {
            Form::And => Query::And(queries),
            Form::Or => Query::Or(queries),
            Form::Xor => Query::Xor(queries),
            Form::Max => Query::Max(queries),
            Form::AndNot => Query::AndNot(queries),
            Form::AndMaybe => Query::AndMaybe(queries),
            Form::Filter => Query::Filter(queries),
        }
    }

    /// The form and the parts, where the query is of one of the forms of several.
    pub fn parts(&self) -> Option<(Form, &[Query])>
        ensures { option_map (λ p. (p.0, queries_view p.1.now)) result ≡ form_of (query_view self.entry.now) }
    {
        match self {
            Query::And(queries) => Some((Form::And, queries)),
            Query::Or(queries) => Some((Form::Or, queries)),
            Query::Xor(queries) => Some((Form::Xor, queries)),
            Query::Max(queries) => Some((Form::Max, queries)),
            Query::AndNot(queries) => Some((Form::AndNot, queries)),
            Query::AndMaybe(queries) => Some((Form::AndMaybe, queries)),
            Query::Filter(queries) => Some((Form::Filter, queries)),
            _ => None,
        }
    }
}
