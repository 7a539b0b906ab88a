//! One search over an index: from a query to its report.
#![tactic(auto)]

mod open_search;
mod reader;
mod whole_find;

pub use open_search::{Search, Turn};
pub use whole_find::search;
