//! An upload in chunks, with a trailer.
use anyhow::bail;
use aws_auth::ChunkDeferredSigner;
use aws_chunked::{AwsChunkedBody, AwsChunkedBodyOptions, ChunkNext};
use bytes::Bytes;
use sigv4::SignChunk;
use smithy_core::{CalmFrames, FramePart, Headers};
use std::alloc::Global;

type Body = AwsChunkedBody<CalmFrames, ChunkDeferredSigner>;

/// The text of a body that isn't signed, with the checksum of its data as a trailer.
pub fn body(alloc: Global) -> anyhow::Result<Vec<u8>> {
    let mut trailers = Headers::new(alloc);
    trailers.append("x-amz-checksum-crc32", "NhCmhg==")?;
    let options = AwsChunkedBodyOptions::for_body(alloc, 5, &trailers, false)?;
    let frames = vec![in alloc;
        FramePart::Data(Bytes::from_static(b"hello")),
        FramePart::Trailers(trailers),
    ]?;
    let mut body: Body = AwsChunkedBody::new(alloc, CalmFrames::new(frames), options);
    text_of(alloc, &mut body)
}

/// All that a body gives, one after another.
pub fn text_of<G: SignChunk>(
    alloc: Global,
    body: &mut AwsChunkedBody<CalmFrames, G>,
) -> anyhow::Result<Vec<u8>> {
    let mut text = Vec::new(alloc);
    for _ in 0..u32::MAX {
        match body.poll_frame()? {
            ChunkNext::Frame(bytes) => text.extend_from_slice(bytes.as_slice())?,
            ChunkNext::NotYet | ChunkNext::OutOfTurns => {}
            ChunkNext::End => return Ok(text),
        }
    }
    bail!("the body has too many frames")
}
