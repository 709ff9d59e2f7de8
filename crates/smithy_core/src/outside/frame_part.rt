ghost use Rattle.std.specs.Prelude.{◌≡◌, IfOk};

use crate::headers::Headers;
use crate::memory::Mem;
use bytes::Bytes;
use std::fmt;

/// A frame of a body: a piece of its data, or trailers. [`Debug`](std::fmt::Debug) prints how long the piece is, or the names
/// and lengths of the trailers, since a body may hold a secret.
#[derive(Drop)]
pub enum FramePart {
    /// Some bytes of the data, or none.
    Data(Bytes),
    /// Headers that come after the data.
    Trailers(Headers),
}

impl FramePart {
    /// An equal frame.
    pub fn try_clone(&self) -> Mem<FramePart>
        ensures { IfOk result (λ copy. copy ≡ self.now) }
    {
        Ok(match self {
            FramePart::Data(piece) => FramePart::Data(piece.clone()?),
            FramePart::Trailers(trailers) => FramePart::Trailers(trailers.try_clone()?),
        })
    }
}

/// The answer of a source of frames. [`Debug`](std::fmt::Debug) prints of a frame what it prints of a [`FramePart`].
#[derive(Drop)]
pub enum Polled {
    /// The next piece of the data.
    Data(Bytes),
    /// The next trailers.
    Trailers(Headers),
    /// Nothing has come yet.
    NotYet,
    /// There are no more frames.
    End,
    /// The source failed, and counted it.
    Failed,
    /// Memory ran out.
    NoMemory,
}

impl Polled {
    /// An equal answer.
    pub fn try_clone(&self) -> Mem<Polled>
        ensures { IfOk result (λ copy. copy ≡ self.now) }
    {
        Ok(match self {
            Polled::Data(piece) => Polled::Data(piece.clone()?),
            Polled::Trailers(trailers) => Polled::Trailers(trailers.try_clone()?),
            Polled::NotYet => Polled::NotYet,
            Polled::End => Polled::End,
            Polled::Failed => Polled::Failed,
            Polled::NoMemory => Polled::NoMemory,
        })
    }
}

impl From<FramePart> for Polled {
    ghost use Rattle.std.specs.Prelude.{◌≡◌};
    ghost use Rattle.smithy_core.specs.FrameSource.{answer_of};

    ghost from_gives = { λ frame answer. answer ≡ answer_of frame };

    fn from(frame: FramePart) -> Polled {
        match frame {
            FramePart::Data(piece) => Polled::Data(piece),
            FramePart::Trailers(trailers) => Polled::Trailers(trailers),
        }
    }
}

impl fmt::Debug for FramePart {
    ghost use Rattle.std.specs.Prelude.{Some};
    ghost use Rattle.smithy_core.specs.FramePart.{part_size};

    ghost debug_output = { λ part. Some (part_size part) };

    fn fmt<W: fmt::Write>(&self, f: &mut fmt::Formatter<W>) -> fmt::Result {
        match self {
            FramePart::Data(piece) => {
                let count = piece.len();
                write!(f, "Data({count} bytes)")
            }
            FramePart::Trailers(trailers) => write!(f, "Trailers({trailers:?})"),
        }
    }
}

impl fmt::Debug for Polled {
    ghost use Rattle.std.specs.Prelude.{Some};
    ghost use Rattle.smithy_core.specs.FramePart.{polled_size};

    ghost debug_output = { λ polled. Some (polled_size polled) };

    fn fmt<W: fmt::Write>(&self, f: &mut fmt::Formatter<W>) -> fmt::Result {
        match self {
            Polled::Data(piece) => {
                let count = piece.len();
                write!(f, "Data({count} bytes)")
            }
            Polled::Trailers(trailers) => write!(f, "Trailers({trailers:?})"),
            Polled::NotYet => f.write_str("NotYet"),
            Polled::End => f.write_str("End"),
            Polled::Failed => f.write_str("Failed"),
            Polled::NoMemory => f.write_str("NoMemory"),
        }
    }
}
