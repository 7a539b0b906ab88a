//! What a find asks for, as a tree.
use sk_base::{Term, Text, Texts};

/// A query: which documents match, and how much each weighs.
#[derive(Debug, Drop)]
pub enum Query {
    /// No document.
    Nothing,
    /// All documents, without weight.
    All,
    /// The documents that have the term.
    Term(Term),
    /// The documents that have a term which begins so.
    Wildcard(Term),
    /// Those that all match; the weights are added.
    And(Queries),
    /// Those that at least one matches; the weights of those that match are added.
    Or(Queries),
    /// Those that an odd number matches; the weights of those that match are added.
    Xor(Queries),
    /// Those that at least one matches; the greatest weight.
    Max(Queries),
    /// Those that the first matches and no other; the first's weight.
    AndNot(Queries),
    /// Those that the first matches; its weight, and those of the others that match.
    AndMaybe(Queries),
    /// Those that all match; the first's weight.
    Filter(Queries),
    /// Those that have the terms within a window, in any order.
    Near(u32, Texts),
    /// Those that have the terms within a window, in this order.
    Phrase(u32, Texts),
    /// Those that have one of the terms, which count as one.
    Synonym(Texts),
    /// The query with its weights times a factor.
    Scale(u32, Box<Query>),
    /// Those whose value in the slot lies between two bounds, without weight.
    Range(u32, Bound, Bound),
}

/// Parts of a query, the first being the left side.
pub type Queries = Vec<Query>;

/// An end of a range.
#[derive(Debug, Drop)]
pub enum Bound {
    Unbounded,
    /// The eight bytes of a number.
    Number(u64),
    /// The bytes of a text.
    Text(Text),
}
