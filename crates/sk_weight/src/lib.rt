//! What a wdf weighs, how much a document can weigh under a query, and how many documents can match it, by the numbers
//! that are known without a reading.
#![tactic(auto)]

mod bounds;
mod range;
mod together;
mod weight;
mod words;

pub use bounds::{ceil, static_count};
pub use range::{is_crossed, is_within};
pub use weight::{need_wdf, weigh_by};
