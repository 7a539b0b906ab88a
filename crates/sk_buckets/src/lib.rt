//! Lists by the id at which each stands.
#![tactic(auto)]

mod bucket;
mod buckets;
mod deal;
mod mark;

pub use buckets::Buckets;
pub use mark::{END, First, MOST_LISTS, Mark};
