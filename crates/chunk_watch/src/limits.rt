ghost use Rattle.std.specs.Prelude.{◌≡◌};

/// How much a watch keeps of a body.
#[derive(Clone, Copy, Debug, PartialEq, Eq)]
pub struct ChunkLimits {
    /// How many bytes of data a chunk has at most.
    pub chunk: u32,
    /// How many bytes are kept behind the line of the empty chunk, where trailers, their signature and an empty line stand.
    pub end: u32,
}

impl ChunkLimits {
    /// Chunks of up to 16 MiB, and an end of up to 16 KiB.
    pub fn new() -> ChunkLimits
        ensures chunk { result.chunk ≡ 16777216 }
        ensures end { result.end ≡ 16384 }
    {
        ChunkLimits {
            chunk: 16_777_216,
            end: 16_384,
        }
    }
}
