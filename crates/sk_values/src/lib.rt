//! The values of one slot, by document, and a cursor over those in a range; every reading of one is counted.
#![tactic(auto)]

mod bounds;
mod edge;
mod range;
mod range_cursor;
mod slot_list;
mod span;
mod value;
mod zones;

pub use range_cursor::RangeCursor;
pub use slot_list::SlotList;
pub use value::Value;
