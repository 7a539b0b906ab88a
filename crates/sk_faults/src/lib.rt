//! What is wrong with a query text: its first fault, by its tokens.
#![tactic(auto)]

mod before;
mod bounds;
mod faults;
mod kinds;

pub use bounds::{halves, number};
pub use faults::fault_in;
