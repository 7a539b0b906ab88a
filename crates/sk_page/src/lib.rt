//! The page of a search: what it keeps of the matches that it saw, and what it reports of them.
#![tactic(auto)]

mod hits;
mod offer;
mod page;
mod reader;

pub use page::{Bounds, Page};
pub use reader::Reader;
