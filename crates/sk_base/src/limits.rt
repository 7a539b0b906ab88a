//! The limits that several crates share.

/// How many bytes the texts of a record may have in all, and a query text.
pub const MOST_TEXT: usize = 1_048_576;

/// Before which rank a page ends at the latest, and how many documents of one key a collapse may keep.
pub const MOST_HITS: u32 = 100_000;

/// No wdf is greater.
pub const MOST_WDF: u32 = 536_870_911;

/// How many fields a schema has at most.
pub const MOST_FIELDS: usize = 64;

/// How many bytes the term of an indexed word has at most.
pub const MOST_TERM: usize = 64;

/// How many leaves a query has at most.
pub const MOST_LEAVES: usize = 1_024;

/// In how many parts the documents under a schema stand at most.
pub const MOST_PARTS: u32 = 16;
