//! The work of encoding bodies in chunks, and of reading their texts.
use crate::digest::Digest;
use crate::receiving::parts_of;
use crate::signing::{example_identity, moment_of};
use anyhow::bail;
use aws_auth::{ChunkDeferredSigner, SigV4MessageSigner};
use aws_chunked::{AwsChunkedBody, AwsChunkedBodyOptions, ChunkNext, decode_chunked};
use bytes::Bytes;
use sigv4::{SignChunk, SigningSettings};
use smithy_core::{CalmFrames, Region, SigningName};
use std::alloc::{AllocError, Global};

/// So many bytes of a frame show the size and the signature of a chunk.
const FRONT: usize = 100;

/// So many pieces has the body whose text is read.
const PIECES: u32 = 16;

/// Encodes a body of so many pieces of so many bytes, whose chunks aren't signed.
pub fn unsigned(alloc: Global, count: u32, size: usize) -> anyhow::Result<Digest> {
    let source = source_of(alloc, count, size)?;
    let body: AwsChunkedBody<CalmFrames, ChunkDeferredSigner> = AwsChunkedBody::new(
        alloc,
        source,
        options_of(alloc, count, size),
    );
    encoded(body)
}

/// Encodes a body of so many pieces of so many bytes, whose chunks are signed.
pub fn signed(alloc: Global, count: u32, size: usize) -> anyhow::Result<Digest> {
    let source = source_of(alloc, count, size)?;
    let options = options_of(alloc, count, size).signed_chunked_encoding(true);
    encoded(AwsChunkedBody::new(alloc, source, options).with_signer(signer_of(alloc)?))
}

/// Reads so many times the text of a body of 16 pieces of so many bytes, whose chunks aren't signed.
pub fn read(alloc: Global, count: u32, size: usize) -> anyhow::Result<Digest> {
    let text = text_of(alloc, size)?;
    let mut digest = Digest::new();
    for _ in 0..count {
        digest = with_text(alloc, digest, text.as_slice())?;
    }
    Ok(digest)
}

fn with_text(alloc: Global, digest: Digest, text: &[u8]) -> anyhow::Result<Digest> {
    match decode_chunked(alloc, text) {
        Ok(decoded) => Ok(digest.with(front_of(&decoded.body))),
        Err(_) => bail!("the text could not be read"),
    }
}

fn text_of(alloc: Global, size: usize) -> anyhow::Result<Vec<u8>> {
    let source = source_of(alloc, PIECES, size)?;
    let mut body: AwsChunkedBody<CalmFrames, ChunkDeferredSigner> = AwsChunkedBody::new(
        alloc,
        source,
        options_of(alloc, PIECES, size),
    );
    joined(alloc, &mut body)
}

fn joined<G: SignChunk>(
    alloc: Global,
    body: &mut AwsChunkedBody<CalmFrames, G>,
) -> anyhow::Result<Vec<u8>> {
    let mut text = Vec::new(alloc);
    for _ in 0..u32::MAX {
        match body.poll_frame() {
            Ok(ChunkNext::Frame(bytes)) => text.extend_from_slice(bytes.as_slice())?,
            Ok(ChunkNext::End) => return Ok(text),
            _ => bail!("the body could not be encoded"),
        }
    }
    bail!("the body has too many frames")
}

fn encoded<G: SignChunk>(body: AwsChunkedBody<CalmFrames, G>) -> anyhow::Result<Digest> {
    let mut body = body;
    digest_of(&mut body)
}

// The digest of the frames of a body.
fn digest_of<G: SignChunk>(body: &mut AwsChunkedBody<CalmFrames, G>) -> anyhow::Result<Digest> {
    let mut digest = Digest::new();
    for _ in 0..u32::MAX {
        match body.poll_frame() {
            Ok(ChunkNext::Frame(bytes)) => digest = digest.with(front_of(&bytes)),
            Ok(ChunkNext::End) => return Ok(digest),
            _ => bail!("the body could not be encoded"),
        }
    }
    bail!("the body has too many frames")
}

fn front_of(bytes: &Bytes) -> &[u8] {
    bytes.as_slice().get(..FRONT).unwrap_or(bytes.as_slice())
}

fn source_of(alloc: Global, count: u32, size: usize) -> anyhow::Result<CalmFrames> {
    let piece = Bytes::from_vec(vec![in alloc; 7; size]?)?;
    let mut pieces = Vec::new(alloc);
    for _ in 0..count {
        pieces.push(piece.clone()?)?;
    }
    Ok(CalmFrames::new(parts_of(alloc, &pieces)?))
}

fn options_of(alloc: Global, count: u32, size: usize) -> AwsChunkedBodyOptions {
    let length = u64::from(count).wrapping_mul(size as u64);
    AwsChunkedBodyOptions::new(length, Vec::new(alloc))
}

fn signer_of(alloc: Global) -> Result<SigV4MessageSigner<SigningSettings>, AllocError> {
    let region = Region::new(String::from_str(alloc, "us-east-1")?);
    let name = SigningName::new(String::from_str(alloc, "s3")?);
    let settings = SigningSettings::new(alloc)?;
    let identity = example_identity(alloc)?;
    let at = moment_of(0);
    Ok(SigV4MessageSigner::new(String::new(alloc), identity, region, name, at, settings))
}
