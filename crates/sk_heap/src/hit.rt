//! A match that may stand on a page.
use sk_base::{Bytes, Rank};

/// A match, and the key that it is collapsed on.
#[derive(Debug, Drop)]
pub struct Hit {
    pub rank: Rank,
    /// Empty where nothing is collapsed, or where the document has none.
    pub key: Bytes,
}
