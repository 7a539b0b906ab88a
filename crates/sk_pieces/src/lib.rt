//! Entries in order of their ids, in pieces of at most 128.
#![tactic(auto)]

mod copier;
mod piece;
mod pieces;
mod place;

pub use copier::Copier;
pub use piece::Piece;
pub use pieces::Pieces;
