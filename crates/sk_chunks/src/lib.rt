//! Chunks of a posting list: at most 128 entries, as bytes.
#![tactic(auto)]

mod chunk;
mod entry;
mod place;

pub use chunk::{Chunk, ChunkHead};
pub use entry::entry_bytes;
