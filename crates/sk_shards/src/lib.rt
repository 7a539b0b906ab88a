//! Several indexes under one schema, changed and searched as one.
#![tactic(auto)]

mod forest;
mod parts;
mod reader;

pub use parts::Parts;
