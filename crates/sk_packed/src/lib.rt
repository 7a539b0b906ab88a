//! What is kept of documents beside the lists: their terms as numbers, and their payloads.
#![tactic(auto)]

mod apart;
mod packed_terms;
mod payloads;

pub use apart::are_apart;
pub use packed_terms::{PackedTerms, Packing, TermsCopier};
pub use payloads::Payloads;
