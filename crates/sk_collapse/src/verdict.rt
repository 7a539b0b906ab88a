//! What becomes of a match under collapsing.
use sk_base::DocId;

/// Whether a match is kept, of those that were seen so far.
#[derive(Clone, Copy, Debug, PartialEq, Eq)]
pub enum Verdict {
    /// It is kept beside all that were.
    Keep,
    /// It is kept, and the named one of its key no more.
    KeepFor(DocId),
    /// It is not kept.
    Drop,
}
