//! What stands in a JSON value: the members of an object, numbers, and strings. `specs/Values.antt` says what each call gives.
#![tactic(auto)]

mod members;
mod strings;

pub use members::{
    between, has, has_only, optional_flag, optional_number, optional_text, text_at, whole_number,
};
pub use strings::{is_within, texts_of, two_texts};
