//! What a command line says: the command, or the first fault of the line.
#![tactic(auto)]

mod fault;
mod judge;
mod line;
mod options;
mod reader;
mod row;
mod rows;
mod schema;
mod taken;

pub use fault::LineFault;
pub use reader::command;
