//! Which matches are kept of those that have the same key.
#![tactic(auto)]

mod collapser;
mod group;
mod verdict;

pub use collapser::Collapser;
pub use verdict::Verdict;
