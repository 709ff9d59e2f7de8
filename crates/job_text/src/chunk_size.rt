ghost use Rattle.std.specs.Prelude.{◌≡◌};
ghost use Rattle.job_text.specs.ChunkSize.{IsSize, spelled_size};

use crate::numbers::parse_size;
use std::marker::Model;

/// How many bytes a chunk has: 1 to 67,108,864.
///
/// Contracts see the number.
#[derive(Drop)]
pub struct ChunkSize {
    bytes: usize,
}

impl Model for ChunkSize {
    ghost use Rattle.std.specs.Prelude.{ℕ};
    ghost use Rattle.job_text.specs.ChunkSize.{IsSize};

    ghost Value = { ℕ };

    ghost view = { λ size. size.bytes };

    ghost invariant = { λ size. IsSize size.bytes };
}

impl ChunkSize {
    /// The size where none is given.
    pub fn usual() -> ChunkSize
        ensures { result ≡ 65536 }
    {
        ChunkSize { bytes: 65_536 }
    }

    /// The size that a text spells.
    pub fn parse(text: &str) -> Option<ChunkSize>
        ensures { result ≡ spelled_size text.now }
    {
        let bytes = parse_size(text)?;
        Some(ChunkSize { bytes })
    }

    /// As a number.
    pub fn get(self) -> usize
        ensures value { result ≡ self }
        ensures range { IsSize result }
    {
        self.bytes
    }
}
