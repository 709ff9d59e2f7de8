//! Reads whole texts.
ghost use Rattle.aws_chunked.specs.Decoded.{Decodes, DecodesOnly};
ghost use Rattle.aws_chunked.specs.Rests.{ReadsWhole};

mod chunks;
mod expecting;
mod fault;
mod length;
mod signature;
mod trailer_lines;
mod trailers;

use crate::decode::chunks::{Chunks, read_chunks};
pub use crate::decode::expecting::begins_with;
use crate::decode::fault::PartFault;
use crate::decode::trailers::read_trailers;
use crate::text::shared;
use bytes::Bytes;
use smithy_core::{Headers, Mem};
use std::alloc::Global;
use std::fmt;

/// What a whole text says.
#[derive(Drop)]
pub struct Decoded {
    /// The data.
    pub body: Bytes,
    /// The signatures in order, of a signed text: one of each chunk, one of the empty chunk and, where there are trailers, one of
    /// the trailers.
    pub signatures: Vec<String>,
    /// The trailers in order, without their signature.
    pub trailers: Headers,
}

impl Decoded {
    ghost use Rattle.std.specs.Prelude.{IfOk};
    ghost use Rattle.aws_chunked.specs.Decoded.{IsSameDecoded};

    /// An equal value, which shares its data.
    #[tactic(auto, using(sigv4::proofs::CopyLemmas::texts_copied))]
    pub fn try_clone(&self) -> Mem<Decoded>
        ensures { IfOk result (IsSameDecoded self.now) }
    {
        Ok(Decoded {
            body: self.body.clone()?,
            signatures: self.signatures.clone()?,
            trailers: self.trailers.try_clone()?,
        })
    }
}

/// Why bytes aren't read.
#[derive(Clone, Copy, Debug, PartialEq, Eq)]
pub enum DecodeFault {
    /// No text begins with the bytes up to and with the one at this place, counted from 0, or the bytes end here and aren't a whole
    /// text. It is the least such place.
    BadChunk(usize),
    /// Memory ran out.
    NoMemory,
}

/// Reads a whole text in the encoding aws-chunked, in the form for HTTP 1.x: the data, the signatures and the trailers. The chunks
/// have one size from 1 to 4,294,967,295 bytes, of which the last may have less. A text is signed whole or not at all; trailers have
/// names in lower case.
///
/// So `3\r\nhel\r\n2\r\nlo\r\n0\r\n\r\n` says `hello`, with neither signatures nor trailers, and of `5\r\nhelloX` the byte at the place 8
/// is named: where the end of the chunk's line has to be.
///
/// It takes time and memory in proportion to the text: the data once, and for each trailer, whose line has 4 bytes at least, some 110
/// bytes beside its name and value. A text of nothing but the shortest trailers takes up to 30 times its length, so a text from a
/// stranger is bounded before it is read.
///
/// # Errors
///
/// [`DecodeFault::BadChunk`] exactly where the bytes aren't a whole text.
#[tactic(auto, using(crate::proofs::PlaceLemmas::left_low, crate::proofs::PlaceLemmas::place_told))]
pub fn decode_chunked(alloc: Global, bytes: &[u8]) -> Result<Decoded, DecodeFault>
    ensures reads { Decodes bytes.now result }
    ensures only { DecodesOnly bytes.now result }
{
    match decode(alloc, bytes) {
        Ok(decoded) => Ok(decoded),
        Err(PartFault::Bad { left }) => Err(DecodeFault::BadChunk(bytes.len() - left)),
        Err(PartFault::NoMemory) => Err(DecodeFault::NoMemory),
    }
}

// Reads a whole text, or says where it stops.
fn decode(alloc: Global, bytes: &[u8]) -> Result<Decoded, PartFault>
    ensures { ReadsWhole bytes.now result }
{
    let (chunks, rest) = read_chunks(alloc, bytes)?;
    let Chunks {
        is_signed,
        body,
        mut signatures,
    } = chunks;
    let trailers = read_trailers(alloc, rest, is_signed, &mut signatures)?;
    Ok(Decoded {
        body: shared(body)?,
        signatures,
        trailers,
    })
}

impl fmt::Display for DecodeFault {
    ghost use Rattle.std.specs.Prelude.{Some};
    ghost use Rattle.aws_chunked.specs.Decoded.{decode_fault_text};

    ghost output = { λ fault. Some (decode_fault_text fault) };

    fn fmt<W: fmt::Write>(&self, f: &mut fmt::Formatter<W>) -> fmt::Result {
        match self {
            DecodeFault::BadChunk(place) => write!(f, "no text in chunks goes on at byte {place}"),
            DecodeFault::NoMemory => f.write_str("no memory"),
        }
    }
}

impl std::error::Error for DecodeFault {}
