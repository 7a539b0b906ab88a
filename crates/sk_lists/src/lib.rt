//! The posting list of a term, and a cursor over it whose readings are counted.
#![tactic(auto)]

mod block_max;
mod cursor;
mod directory;
mod list;
mod spare;

pub use block_max::BlockMax;
pub use cursor::Cursor;
pub use list::List;
