//! The run by the words of a program, over any store of documents: lines of commands, lines of query texts, and the
//! commands of a demonstration. `specs/Ran.antt` has the main theorem.
#![tactic(auto)]

mod asking;
mod by_form;
mod conclusion;
mod demo;
mod facets;
mod form;
mod found;
mod laws;
mod line;
mod lines;
mod machine;
mod program;
mod refusal;
mod request;
mod response;
mod status;
mod store;
mod waiting;
mod words;

pub use asking::refused;
pub use by_form::run;
pub use conclusion::conclude;
pub use demo::demo_command;
pub use form::{Form, form_of};
pub use laws::{comes_to_its_end, counter_never_falls, readings_are_told};
pub use machine::{Machine, Reading};
pub use program::start;
pub use refusal::Refusal;
pub use response::{Printing, Response};
pub use status::Status;
pub use store::Store;
pub use words::{arguments, path_of, words_of};
