//! The command `chunk`.
ghost use Rattle.std.specs.Prelude.{◌≡◌, ◌≤◌, None, length, IfOk, IsErrOf};
ghost use Rattle.smithy_core.specs.Outside.{CountsFault};
ghost use Rattle.aws_chunked.specs.Body.{lines_length};
ghost use Rattle.aws_chunked.specs.Options.{declared_length};
ghost use Rattle.aws_chunked.specs.SoundBody.{IsSoundBody, IsSoundBodyOf, text_left};
ghost use Rattle.signed_stream.specs.ChunkJob.{chunk_plan, shown_chunks};
ghost use Rattle.signed_stream.specs.ChunkWords.{chunk_wanted};
ghost use Rattle.signed_stream.specs.Sending.{Sends};
ghost use Rattle.signed_stream.specs.Plan.{GoesAsPlanned, most_input};
ghost use Rattle.signed_stream.specs.Running.{IsOfOutput};
ghost use Rattle.signed_stream.specs.Status.{ending_of, output_fault};

use crate::chain::write_text;
use crate::command::ChunkWords;
use crate::status::{Status, StreamFault, status_of};
use aws_auth::SigV4MessageSigner;
use aws_chunked::parts::{frames_in_memory, next_in_memory};
use aws_chunked::{AwsChunkedBody, AwsChunkedBodyOptions};
use bytes::Bytes;
use sigv4::{SignChunk, SigningSettings};
use smithy_core::{ByteSink, CalmFrames, FrameSource, Headers, Mem};
use std::alloc::Global;

// A body in memory, which isn't signed: its signer's type is any one.
type Chunks = AwsChunkedBody<CalmFrames, SigV4MessageSigner<SigningSettings>>;

/// Writes the bytes in chunks of the size that the words ask for, and the trailers behind it.
pub fn show_chunked<K: ByteSink>(
    alloc: Global,
    words: ChunkWords,
    bytes: Vec<u8>,
    out: &mut K,
) -> Status
    requires { length bytes.items ≤ most_input }
    ensures end { IsOfOutput (ending_of result) }
    ensures planned { GoesAsPlanned (chunk_plan (chunk_wanted words) bytes.items) (ending_of result) (K.held out.old) (K.held out.new) }
    ensures writes { CountsFault (ending_of result ≡ output_fault) (K.faults out.old) (K.faults out.new) }
{
    status_of(write_chunked(alloc, words, bytes, out))
}

// Writes the text of the bytes and the trailers.
#[tactic(auto, using(smithy_core::proofs::GainLemmas::prefix_at_start))]
fn write_chunked<K: ByteSink>(
    alloc: Global,
    words: ChunkWords,
    bytes: Vec<u8>,
    out: &mut K,
) -> Result<(), StreamFault>
    requires { length bytes.items ≤ most_input }
    ensures sends { Sends None (shown_chunks (chunk_wanted words) bytes.items) (K.held out.old) (K.held out.new) result }
    ensures counts { CountsFault (IsErrOf result StreamFault.SinkFault) (K.faults out.old) (K.faults out.new) }
{
    let body = body_of(alloc, words, bytes)?;
    send_body(body, out)
}

// Writes the text of a body.
fn send_body<K: ByteSink>(mut body: Chunks, out: &mut K) -> Result<(), StreamFault>
    requires { IsSoundBody ⟦<CalmFrames as FrameSource>⟧ ⟦<SigV4MessageSigner<SigningSettings> as SignChunk>⟧ body }
    ensures sends { Sends None (text_left ⟦<CalmFrames as FrameSource>⟧ ⟦<SigV4MessageSigner<SigningSettings> as SignChunk>⟧ body) (K.held out.old) (K.held out.new) result }
    ensures counts { CountsFault (IsErrOf result StreamFault.SinkFault) (K.faults out.old) (K.faults out.new) }
{
    'polls: while !body.is_end_stream() {
        let bytes = next_in_memory(&mut body)?;
        write_text(out, bytes.as_slice())?;
    }
    Ok(())
}

// The body of the bytes and the trailers, in chunks of the size that the words ask for.
fn body_of(alloc: Global, words: ChunkWords, bytes: Vec<u8>) -> Mem<Chunks>
    requires { length bytes.items ≤ most_input }
    ensures { IfOk result (IsSoundBodyOf ⟦<CalmFrames as FrameSource>⟧ ⟦<SigV4MessageSigner<SigningSettings> as SignChunk>⟧ (shown_chunks (chunk_wanted words) bytes.items)) }
{
    let lengths = lengths_of(alloc, &words.trailers)?;
    let options = AwsChunkedBodyOptions::new(bytes.len() as u64, lengths);
    let frames = frames_in_memory(alloc, Bytes::from_vec(bytes)?, words.trailers)?;
    Ok(AwsChunkedBody::new(
        alloc,
        CalmFrames::new(frames),
        options.with_chunk_size(words.size.get()),
    ))
}

// The lengths of the trailers, as `name:value`.
fn lengths_of(alloc: Global, trailers: &Headers) -> Mem<Vec<u64>>
    ensures { IfOk result (λ lengths. declared_length lengths.items ≡ lines_length trailers.now) }
{
    let mut lengths = Vec::new(alloc);
    for (name, value) in trailers.iter() {
        lengths.push((name.len() + 1 + value.len()) as u64)?;
    }
    Ok(lengths)
}
