//! Lists of entries in order of their ids.
#![tactic(auto)]

mod joined;
mod place;
mod reach;
mod sorted;

pub use joined::{joined_id, own_id, part_of};
pub use place::place_of;
pub use reach::{Ends, first_reaching};
pub use sorted::Sorted;
