//! The stem of a word: what is left of it without its endings, by Porter's algorithm for suffix stripping (1980).

#![tactic(auto)]

mod letters;
mod rules;
mod stem;
mod steps;
mod term;

pub use stem::{Stem, porter};
pub use term::stem_term;
