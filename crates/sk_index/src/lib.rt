//! The documents in memory, and what is read of them.
#![tactic(auto)]

mod all_places;
mod index;
mod lists;
mod places;
mod stats;

pub use all_places::AllPlaces;
pub use index::Index;
pub use places::{Places, TermPlace};
