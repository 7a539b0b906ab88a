//! How often each value of a slot stands among the matches of a query.
#![tactic(auto)]

mod counting;
mod first;
mod tally;

pub use counting::count;
