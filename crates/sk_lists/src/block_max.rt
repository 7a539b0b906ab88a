//! How heavy entries can be up to an id.
ghost use Rattle.std.specs.Prelude.{◌≡◌, ◌^◌, ◌-◌};
ghost use Rattle.sk_sorted.specs.Entries.{top_id};
ghost use Rattle.sk_chunks.specs.Postings.{greatest_wdf};

use sk_chunks::Chunk;

/// No entry up to the last id, counted from some target on, has a greater wdf.
#[derive(Clone, Copy, Debug, PartialEq, Eq)]
pub struct BlockMax {
    pub last: u32,
    pub greatest: u32,
}

impl BlockMax {
    /// Of a chunk.
    pub(crate) fn of(chunk: &Chunk) -> BlockMax
        ensures last { result.last ≡ top_id 0 chunk.now }
        ensures greatest { result.greatest ≡ greatest_wdf chunk.now }
    {
        BlockMax {
            last: chunk.last(),
            greatest: chunk.greatest(),
        }
    }

    /// Where no entry is left.
    pub(crate) fn ended() -> BlockMax
        ensures last { result.last ≡ 2 ^ 32 - 1 }
        ensures greatest { result.greatest ≡ 0 }
    {
        BlockMax {
            last: u32::MAX,
            greatest: 0,
        }
    }
}
