//! Which document a record makes.
#![tactic(auto)]

mod building;
mod gathering;
mod mention;
mod mentions;
mod slots;
mod taking;

pub use building::build;
pub use sk_base::{Doc, DocTerm, DocTerms, Positions, SlotValue, SlotValues};
