//! From a query text to its query, or its first fault; and from what a find asks for, a text or a tree, to its query.
#![tactic(auto)]

mod asked;
mod base;
mod chain;
mod group;
mod parsing;
mod part;
mod reading;
mod split;
mod stack;
mod tree;
mod unit;

pub use asked::{AskError, query_of, text_query};
pub use parsing::{ParseError, parse};
