//! Laws of what a query text means.
#![tactic(auto)]

mod fitting;

pub use fitting::meant_fits;
