//! The most steps that the rules allow a find, its exact report with them, and the facets of a query, as a plain program over whole documents.
#![tactic(auto)]

mod allowance;
mod facets;
mod joined;
mod lists;
mod readings;
mod reports;
mod settled;
mod shapes;
mod sharp;

pub use facets::facets_of;
pub use joined::report_in_parts;
pub use reports::report_of;
pub use sharp::sharp_of;
