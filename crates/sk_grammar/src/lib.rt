//! The query language: what its tokens are, which texts are queries, and which query a text is. Types, definitions and
//! laws, and no other code.
#![tactic(auto)]

mod cutting;
mod fault;
mod token;

pub use cutting::one_cutting;
pub use fault::FaultKind;
pub use token::{Kind, Mark, Token, Tokens};
