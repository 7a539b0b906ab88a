//! Query trees as JSON: how they are read, and how they are written.
#![tactic(auto)]

mod compact;
mod fault;
mod reader;
mod writer;

pub use compact::text;
pub use fault::TreeFault;
pub use reader::from_json;
pub use writer::to_json;
