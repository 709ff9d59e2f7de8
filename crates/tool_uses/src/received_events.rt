//! A receiver that is fed in pieces.
ghost use Rattle.std.specs.Prelude.{IfOk};
ghost use Rattle.smithy_core.specs.FrameSource.{AreShort};

use anyhow::bail;
use bytes::Bytes;
use event_io::{Received, Receiver};
use eventstream::IdentityUnmarshaller;
use smithy_core::{CalmFrames, FramePart};
use std::alloc::Global;

/// So many bytes make a piece.
const PIECE: usize = 100;

/// How many messages a stream has that comes in pieces.
pub fn count(alloc: Global, stream: &[u8]) -> anyhow::Result<u32> {
    let source = CalmFrames::new(pieces_of(alloc, stream)?);
    let mut receiver = Receiver::new(alloc, IdentityUnmarshaller, source);
    count_all(&mut receiver)
}

fn count_all(receiver: &mut Receiver<CalmFrames, IdentityUnmarshaller>) -> anyhow::Result<u32> {
    let mut count: u32 = 0;
    for _ in 0..u32::MAX {
        match receiver.recv()? {
            Received::Event(_) => count = count.saturating_add(1),
            Received::NotYet | Received::OutOfTurns => {}
            Received::End => return Ok(count),
        }
    }
    bail!("the stream has too many messages")
}

fn pieces_of(alloc: Global, stream: &[u8]) -> anyhow::Result<Vec<FramePart>>
    ensures { IfOk result (λ pieces. AreShort pieces.items) }
{
    let mut pieces = Vec::new(alloc);
    for piece in stream.chunks(PIECE) {
        push_piece(&mut pieces, Bytes::copy_from_slice(alloc, piece)?)?;
    }
    Ok(pieces)
}

// A source gives no piece of over 4,294,967,295 bytes.
fn push_piece(pieces: &mut Vec<FramePart>, piece: Bytes) -> anyhow::Result<()>
    requires { AreShort pieces.old.items }
    ensures { AreShort pieces.new.items }
{
    if piece.len() > 4_294_967_295 {
        bail!("a piece is too long");
    }
    pieces.push(FramePart::Data(piece))?;
    Ok(())
}
