//! How often each value stands among all matches.
use crate::{Bytes, Items, Join, Text};

/// What the values of a field are.
#[derive(Clone, Copy, Debug, PartialEq, Eq)]
pub enum ValueKind {
    /// Numbers, of eight bytes each.
    Number,
    /// Texts.
    Word,
}

/// A query text, and of which slot the values of its matches are counted.
#[derive(Debug, Drop)]
pub struct FacetQuery {
    pub text: Text,
    pub join: Join,
    pub slot: u32,
    /// What the values in the slot are.
    pub kind: ValueKind,
    /// How many values are told at the most.
    pub size: u32,
}

/// A value, and how many matches have it.
#[derive(Debug, Drop)]
pub struct Facet {
    pub value: Bytes,
    pub count: u32,
}

/// Values with their counts.
pub type FacetList = Items<Facet>;

/// The first values of those that the matches have, and what is known of all.
#[derive(Debug, Drop)]
pub struct Facets {
    /// The counts fall; of equal counts the lesser value stands first, by its bytes.
    pub values: FacetList,
    /// How many different values the matches have.
    pub distinct: u32,
    /// How many matches have no value.
    pub without: u32,
    /// How many documents match.
    pub matches: u32,
    /// How many readings were made in the index.
    pub steps: u128,
}
