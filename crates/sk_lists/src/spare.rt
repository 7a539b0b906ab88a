//! Room for the chunks of a list, taken before they are needed.
ghost use Rattle.std.specs.Prelude.{◌≡◌, ◌≤◌, [], ◌∷◌, IfOk};

use crate::directory::FULL;
use sk_chunks::Chunk;
use std::alloc::{AllocError, Global};

/// Room is taken for an eighth of the chunks that a list has, and for this many at most.
const SHARE: usize = 8;

const MOST: usize = 64;

/// Chunks to come, the next one last. Memory that is taken together lies together, so that a walk along the list waits for
/// it less often.
#[derive(Drop)]
pub(crate) struct Spare {
    alloc: Global,
    chunks: Vec<Chunk>,
}

impl Spare {
    /// None. It takes no memory.
    pub fn new(alloc: Global) -> Spare {
        Spare {
            alloc,
            chunks: Vec::new(alloc),
        }
    }

    /// The next chunk of a list that has so many: of this entry, with room for a full one.
    pub fn begin(&mut self, count: usize, id: u32, wdf: u32) -> Result<Chunk, AllocError>
        requires { 1 ≤ id }
        ensures { IfOk result (λ chunk. chunk ≡ (id, wdf) ∷ []) }
    {
        let mut chunk = self.next(count)?;
        chunk.begin(id, wdf)?;
        Ok(chunk)
    }

    /// A chunk with room for a full one; where none is left, the first of those that are taken now.
    fn next(&mut self, count: usize) -> Result<Chunk, AllocError> {
        if let Some(chunk) = self.chunks.pop() {
            return Ok(chunk);
        }
        let chunk = Chunk::with_room(self.alloc, FULL)?;
        self.chunks = roomy(self.alloc, (count / SHARE).min(MOST))?;
        Ok(chunk)
    }
}

/// So many chunks with room for a full one, the first that was taken last.
fn roomy(alloc: Global, count: usize) -> Result<Vec<Chunk>, AllocError> {
    let mut chunks = Vec::with_capacity(alloc, count)?;
    'chunks: for _ in 0..count {
        chunks.push(Chunk::with_room(alloc, FULL)?)?;
    }
    chunks.reverse();
    Ok(chunks)
}
