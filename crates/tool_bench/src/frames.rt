use crate::digest::Digest;
use anyhow::bail;
use bytes::Bytes;
use eventstream::{MessageFrameDecoder, write_message_to};
use seg_buf::SegBuf;
use smithy_core::Message;
use std::alloc::Global;

/// Payloads of so many bytes make frames of 1,024 bytes.
const PAYLOAD: usize = 1_008;

/// So many frames of 1,024 bytes are 128 pieces of 1,400 bytes.
pub const FRAMES: u32 = 175;

const PIECE: usize = 1_400;

/// Writes so many frames with payloads of so many bytes.
pub fn written(alloc: Global, count: u32, size: usize) -> anyhow::Result<Digest> {
    let message = message_of(alloc, size)?;
    let mut frame = Vec::new(alloc);
    let mut digest = Digest::new();
    for _ in 0..count {
        digest = with_frame(alloc, digest, &message, &mut frame)?;
    }
    Ok(digest)
}

/// The digest of one frame more, by its closing checksum, which depends on each byte of it.
pub fn with_frame(
    alloc: Global,
    digest: Digest,
    message: &Message,
    frame: &mut Vec<u8>,
) -> anyhow::Result<Digest> {
    frame.clear();
    write_message_to(alloc, message, frame)?;
    Ok(match frame.as_slice().last_chunk::<4>() {
        Some(checksum) => digest.with(checksum.as_slice()),
        None => digest,
    })
}

/// Decodes a stream of frames so many times, as it comes in pieces.
pub fn decoded(alloc: Global, count: u32) -> anyhow::Result<Digest> {
    let pieces = pieces_of_stream(alloc)?;
    let mut decoder = MessageFrameDecoder::new();
    let mut buffer = SegBuf::new(alloc);
    let mut digest = Digest::new();
    for _ in 0..count {
        digest = with_pieces(alloc, digest, &pieces, &mut decoder, &mut buffer)?;
    }
    Ok(digest)
}

// The digest of the messages more that come in these pieces.
fn with_pieces(
    alloc: Global,
    digest: Digest,
    pieces: &[Bytes],
    decoder: &mut MessageFrameDecoder,
    buffer: &mut SegBuf,
) -> anyhow::Result<Digest> {
    let mut digest = digest;
    for piece in pieces {
        push(buffer, piece.clone()?)?;
        digest = with_messages(alloc, digest, decoder, buffer)?;
    }
    Ok(digest)
}

/// The pieces in which a stream of frames comes.
pub fn pieces_of_stream(alloc: Global) -> anyhow::Result<Vec<Bytes>> {
    let stream = stream_of_frames(alloc)?;
    let mut pieces = Vec::new(alloc);
    for piece in stream.as_slice().chunks(PIECE) {
        pieces.push(Bytes::copy_from_slice(alloc, piece)?)?;
    }
    Ok(pieces)
}

fn stream_of_frames(alloc: Global) -> anyhow::Result<Bytes> {
    let message = message_of(alloc, PAYLOAD)?;
    let mut stream = Vec::new(alloc);
    for _ in 0..FRAMES {
        write_message_to(alloc, &message, &mut stream)?;
    }
    Ok(Bytes::from_vec(stream)?)
}

fn push(buffer: &mut SegBuf, piece: Bytes) -> anyhow::Result<()> {
    if buffer.remaining().checked_add(piece.len()).is_none() {
        bail!("the buffer is full");
    }
    buffer.reserve_one()?;
    buffer.push(piece);
    Ok(())
}

// The digest of the messages more that are there, by the first byte of each.
fn with_messages(
    alloc: Global,
    digest: Digest,
    decoder: &mut MessageFrameDecoder,
    buffer: &mut SegBuf,
) -> anyhow::Result<Digest> {
    let mut messages = Vec::new(alloc);
    decoder.decode_all(alloc, buffer, &mut messages)?;
    Ok(messages.iter().fold(digest, with_message))
}

/// The digest of one message more, by its first byte.
pub fn with_message(digest: Digest, message: &Message) -> Digest {
    match message.payload().as_slice().first() {
        Some(byte) => digest.with(&[*byte]),
        None => digest,
    }
}

/// A message with a payload of so many bytes.
pub fn message_of(alloc: Global, size: usize) -> anyhow::Result<Message> {
    let payload = vec![in alloc; 7; size]?;
    Ok(Message::new(alloc, Bytes::from_vec(payload)?))
}
