//! The work of receiving a stream, as it comes in pieces.
ghost use Rattle.std.specs.Prelude.{IfOk};
ghost use Rattle.smithy_core.specs.FrameSource.{AreShort};

use crate::digest::Digest;
use crate::frames::{FRAMES, pieces_of_stream, with_message};
use anyhow::bail;
use bytes::Bytes;
use event_io::{Received, Receiver};
use eventstream::IdentityUnmarshaller;
use smithy_core::{CalmFrames, FramePart};
use std::alloc::Global;

/// The longest piece that a source gives, in bytes.
const LONGEST: usize = 4_294_967_295;

/// Receives a stream of frames so many times, as it comes in pieces.
pub fn received(alloc: Global, count: u32) -> anyhow::Result<Digest> {
    let pieces = pieces_of_stream(alloc)?;
    let mut digest = Digest::new();
    for _ in 0..count {
        digest = with_stream(alloc, digest, CalmFrames::new(parts_of(alloc, &pieces)?))?;
    }
    Ok(digest)
}

// The digest of the messages more that a source gives, each of which is dropped before the next one is taken.
fn with_stream(alloc: Global, digest: Digest, source: CalmFrames) -> anyhow::Result<Digest> {
    let mut receiver = Receiver::new(alloc, IdentityUnmarshaller, source);
    let mut digest = digest;
    for _ in 0..FRAMES {
        match receiver.recv() {
            Ok(Received::Event(message)) => digest = with_message(digest, &message),
            _ => bail!("the stream could not be received"),
        }
    }
    Ok(digest)
}

/// The pieces as the frames of a source.
pub fn parts_of(alloc: Global, pieces: &[Bytes]) -> anyhow::Result<Vec<FramePart>>
    ensures { IfOk result (λ parts. AreShort parts.items) }
{
    let mut parts = Vec::new(alloc);
    for piece in pieces {
        push_piece(&mut parts, piece.clone()?)?;
    }
    Ok(parts)
}

fn push_piece(parts: &mut Vec<FramePart>, piece: Bytes) -> anyhow::Result<()>
    requires { AreShort parts.old.items }
    ensures { AreShort parts.new.items }
{
    if piece.len() > LONGEST {
        bail!("a piece is too long");
    }
    parts.push(FramePart::Data(piece))?;
    Ok(())
}
