//! Live documents under a schema, and their edits, whatever keeps them.
#![tactic(auto)]

mod documents;
mod edits;
mod gather;
mod keeper;
mod turns;

pub use documents::Documents;
pub use keeper::Keeper;
pub use turns::Turns;
