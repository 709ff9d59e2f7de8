//! Why a body in signed chunks isn't handed out further.
use std::alloc::AllocError;
use std::fmt;

/// Why a body isn't handed out further. A chunk is named by its place among the chunks, counted from 1; the last place that can be
/// named is that of all chunks behind it.
#[derive(Clone, Copy, Debug, PartialEq, Eq)]
pub enum ChunkFault {
    /// The line before a chunk isn't up to eight hexadecimal digits, `;chunk-signature=`, 64 bytes and the end of the line.
    BadLine(u64),
    /// A chunk is longer than the limit.
    LongChunk(u64),
    /// Behind a chunk's data the line doesn't end.
    BadEnd(u64),
    /// A chunk carries another signature than its own.
    Mismatch(u64),
    /// More bytes than the limit stand behind the empty chunk.
    LongEnd,
    /// The body ends before the empty chunk's line does.
    NoEmptyChunk,
    /// The data in all has another length than was declared.
    OtherLength,
    /// What stands behind the empty chunk isn't an empty line alone: there may be trailers, which weren't asked for.
    OtherEnd,
    /// What stands behind the empty chunk isn't the lines of trailers, the line of their signature, and an empty line.
    BadTrailers,
    /// The trailers haven't the announced names in their order.
    OtherTrailers,
    /// The trailers carry another signature than their own.
    TrailerMismatch,
    /// The moment lies outside the years 0 to 9999, in which nothing is signed.
    MomentOutOfRange,
    /// Memory ran out.
    NoMemory,
}

impl fmt::Display for ChunkFault {
    ghost use Rattle.std.specs.Prelude.{Some};
    ghost use Rattle.chunk_watch.specs.ChunkFault.{chunk_fault_text};

    ghost output = { λ fault. Some (chunk_fault_text fault) };

    fn fmt<W: fmt::Write>(&self, f: &mut fmt::Formatter<W>) -> fmt::Result {
        match self {
            ChunkFault::BadLine(place) => write!(f, "the line of chunk {place} isn't one"),
            ChunkFault::LongChunk(place) => write!(f, "chunk {place} is too long"),
            ChunkFault::BadEnd(place) => write!(f, "chunk {place} doesn't end where it has to"),
            ChunkFault::Mismatch(place) => write!(
                f,
                "chunk {place} has another signature than its own"
            ),
            ChunkFault::LongEnd => f.write_str("the end is too long"),
            ChunkFault::NoEmptyChunk => f.write_str("the empty chunk is missing"),
            ChunkFault::OtherLength => f.write_str("the data has another length than declared"),
            ChunkFault::OtherEnd => f.write_str("the end isn't an empty line"),
            ChunkFault::BadTrailers => f.write_str("the end isn't trailers and their signature"),
            ChunkFault::OtherTrailers => f.write_str("the trailers aren't the announced ones"),
            ChunkFault::TrailerMismatch => {
                f.write_str("the trailers have another signature than their own")
            }
            ChunkFault::MomentOutOfRange => f.write_str("the moment is out of range"),
            ChunkFault::NoMemory => f.write_str("no memory"),
        }
    }
}

impl std::error::Error for ChunkFault {}

impl From<AllocError> for ChunkFault {
    ghost use Rattle.std.specs.Prelude.{◌≡◌};
    ghost use Rattle.chunk_watch.specs.declared.fault.ChunkFault.TheVariants.{NoMemory};

    ghost from_gives = { λ _ fault. fault ≡ NoMemory };

    fn from(_e: AllocError) -> ChunkFault {
        ChunkFault::NoMemory
    }
}
