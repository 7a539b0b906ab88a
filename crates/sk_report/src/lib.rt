//! When a report is one that a find may have, and facets those of a query.
#![tactic(auto)]

mod facets;
mod reports;

pub use facets::facets_are_there;
pub use reports::reports_are_there;
