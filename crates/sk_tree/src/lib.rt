//! The tree of a query: how its nodes are opened, and what a search sees of it.
#![tactic(auto)]

mod opening;
mod parts;
mod ranges;
mod synonym;
mod tree;
mod words;

pub use tree::Tree;
