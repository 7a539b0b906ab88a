//! Cuts a query text into its tokens.
#![tactic(auto)]

mod fields;
mod groups;
mod operators;
mod piece;
mod quotes;
mod runs;
mod walk;

pub use walk::tokens;
