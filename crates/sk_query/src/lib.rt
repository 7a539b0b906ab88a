//! Query trees, and which of them fit.
#![tactic(auto)]

mod form;
mod limits;
mod query;

pub use form::Form;
pub use limits::{is_factor, is_slot, is_window};
pub use query::{Bound, Queries, Query};
