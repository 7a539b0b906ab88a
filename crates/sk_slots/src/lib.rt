//! The lists of the values in each slot.
#![tactic(auto)]

mod slot_lists;

pub use slot_lists::SlotLists;
