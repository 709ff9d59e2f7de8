//! A body in memory, read to its end.
ghost use Rattle.std.specs.Prelude.{◌≡◌, ◌≤◌, ◌∷◌, [], length, IfOk, OnErr};
ghost use Rattle.smithy_core.specs.FrameSource.{AreShort};
ghost use Rattle.smithy_core.specs.declared.outside.frame_part.FramePart.TheVariants as frame;
ghost use Rattle.aws_chunked.specs.Body.{IsBodyClosed};
ghost use Rattle.aws_chunked.specs.SoundBody.{GivesNextText, IsSoundBody};

use crate::body::{AwsChunkedBody, ChunkNext};
use crate::error::AwsChunkedBodyError;
use bytes::Bytes;
use sigv4::SignChunk;
use smithy_core::{CalmFrames, FramePart, FrameSource, Headers, Mem};
use std::alloc::{AllocError, Global};

/// The frames of a body in memory: its content in one frame, and the trailers in another.
///
/// # Errors
///
/// Where memory ran out.
pub fn frames_in_memory(alloc: Global, content: Bytes, trailers: Headers) -> Mem<Vec<FramePart>>
    requires { length content ≤ 4294967295 }
    ensures frames { IfOk result (λ frames. frames.items ≡ frame.Data content ∷ frame.Trailers trailers ∷ []) }
    ensures short { IfOk result (λ frames. AreShort frames.items) }
{
    let mut frames = Vec::new(alloc);
    frames.push(FramePart::Data(content))?;
    frames.push(FramePart::Trailers(trailers))?;
    Ok(frames)
}

/// The next bytes of the text of a body in memory that isn't closed: it neither waits nor has a fault.
///
/// # Errors
///
/// Where memory ran out; the body is closed then.
pub fn next_in_memory<G: SignChunk>(body: &mut AwsChunkedBody<CalmFrames, G>) -> Mem<Bytes>
    requires sound { IsSoundBody ⟦<CalmFrames as FrameSource>⟧ G.SignChunk body.old }
    requires going { IsBodyClosed body.old → ⊥ }
    ensures text { IfOk result (GivesNextText ⟦<CalmFrames as FrameSource>⟧ G.SignChunk body.old body.new) }
    ensures closed { OnErr result (IsBodyClosed body.new) }
{
    match body.poll_frame() {
        Ok(ChunkNext::Frame(bytes)) => Ok(bytes),
        Err(AwsChunkedBodyError::NoMemory) => Err(AllocError),
        // An arm each: the prover's search doesn't get through them as one.
        Ok(ChunkNext::NotYet) => unreachable!(),
        Ok(ChunkNext::OutOfTurns) => unreachable!(),
        Ok(ChunkNext::End) => unreachable!(),
        Err(AwsChunkedBodyError::FailedToSign { .. }) => unreachable!(),
        Err(_) => unreachable!(),
    }
}
