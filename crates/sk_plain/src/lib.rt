//! What the definitions of the search model say, as a plain program over whole documents.
#![tactic(auto)]

mod counted;
mod facets;
mod found;
mod kept;
mod leaves;
mod numbers;
mod page;
mod parts;
mod positions;
mod reports;
mod scores;
mod sums;
mod terms;
mod wilds;

pub use counted::Counted;
pub use facets::{count_values, number_without, values_found};
pub use found::found_by;
pub use kept::{dropped_by, kept_by, key_of};
pub use numbers::{greatest_of, length_of, live_of, slot_length_of};
pub use page::hits_of;
pub use parts::part_docs;
pub use reports::{plain_reports, plain_steps};
pub use scores::score;
pub use terms::{begins_with, has_term};
pub use wilds::is_last;
