//! The terms of an index in the order of their bytes, each with a number.
#![tactic(auto)]

mod block;
mod dict;
mod guesses;
mod order;
mod room;
mod terms;

pub use dict::Dict;
pub use order::Place;
pub use room::make_room;
