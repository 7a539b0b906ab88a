//! The words of a text: where each stands, and the term that it is found by.

#![tactic(auto)]

mod characters;
mod cutting;
mod folding;
mod word;

pub use characters::{belongs, is_capital, is_word};
pub use cutting::words;
pub use folding::{Folded, fold};
pub use word::{Word, Words};
