ghost use Rattle.smithy_core.specs.FrameSource.{AreShort, IsShort};

use bytes::Bytes;
use smithy_core::{FramePart, Headers, Mem};
use std::alloc::Global;
use std::marker::Model;

// The longest piece of data, in bytes.
const LONGEST: usize = 4_294_967_295;

/// The frames of a body, in which no piece is too long for a source.
#[derive(Drop)]
pub struct Frames {
    parts: Vec<FramePart>,
}

impl Model for Frames {
    ghost use Rattle.std.specs.Prelude.{List};
    ghost use Rattle.smithy_core.specs.FrameSource.{AreShort};
    ghost use Rattle.smithy_core.specs.declared.outside.frame_part.FramePart.{FramePart as Part};

    ghost Value = { List Part };

    ghost view = { λ frames. frames.parts.items };

    ghost invariant = { λ frames. AreShort frames.parts.items };
}

impl Frames {
    pub fn new(alloc: Global) -> Frames {
        Frames {
            parts: Vec::new(alloc),
        }
    }

    pub fn into_parts(self) -> Vec<FramePart>
        ensures { AreShort result.items }
    {
        self.parts
    }

    /// A piece of data, in whose place nothing comes where it would be too long.
    pub fn push_piece(&mut self, piece: Bytes) -> Mem<()> {
        if piece.len() > LONGEST {
            return Ok(());
        }
        self.push(FramePart::Data(piece))
    }

    /// Trailers.
    pub fn push_trailers(&mut self, trailers: Headers) -> Mem<()> {
        self.push(FramePart::Trailers(trailers))
    }

    fn push(&mut self, part: FramePart) -> Mem<()>
        requires { IsShort part }
    {
        self.parts.push(part)?;
        Ok(())
    }
}
