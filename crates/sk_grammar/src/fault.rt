//! Why a text is no query.

/// What is wrong with a token.
#[derive(Clone, Copy, Debug, PartialEq, Eq)]
pub enum FaultKind {
    /// It closes a bracket, and none is open.
    StrayBracket,
    /// It opens a bracket that is never closed.
    UnclosedBracket,
    /// It wants something to work on, before it or behind it.
    MissingOperand,
    /// NEAR or ADJ without a word on each side, with a number that is out of range, or both in one chain.
    BadNear,
    /// A bound of a number field is no number.
    BadRange,
    /// Too many brackets are open.
    TooDeep,
    /// Too many words, filters and ranges.
    TooMany,
}
