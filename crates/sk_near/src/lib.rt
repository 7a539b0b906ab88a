//! When words stand near, and as a phrase, by the positions where each stands in a document.
#![tactic(auto)]

mod operands;
mod phrases;
mod places;
mod runs;
mod windows;

pub use phrases::phrase;
pub use runs::Runs;
pub use windows::near;
