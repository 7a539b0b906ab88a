//! What a find answers.
use crate::{DocId, Items, Text, Weight};

/// One hit of a page.
#[derive(Debug, Drop)]
pub struct Ranked {
    pub id: DocId,
    pub weight: Weight,
    /// How many documents were collapsed into this one.
    pub collapsed: u32,
    /// The text that the document was given to be handed back.
    pub payload: Text,
}

/// The hits of a page, best first.
pub type Hits = Items<Ranked>;

/// The asked page, and what is known of all matches.
#[derive(Debug, Drop)]
pub struct Report {
    pub hits: Hits,
    /// There are at least so many matches.
    pub lower: u32,
    /// Half way between lower and upper, rounded down.
    pub estimate: u32,
    /// There are at most so many matches.
    pub upper: u32,
    /// No document can weigh more.
    pub greatest: Weight,
    /// How many readings were made in the index.
    pub steps: u128,
}
