//! The posting lists of all terms, with their dictionary.
#![tactic(auto)]

mod term_lists;

pub use term_lists::{Figure, TermLists};
