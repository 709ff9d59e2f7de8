//! Polls bodies.
use crate::chunks::frames::GivenFrames;
use crate::chunks::lengths::options_of;
use crate::chunks::signing::published_signer;
use crate::parts::{debugged, push, push_text};
use aws_auth::{ChunkDeferredSigner, SigV4MessageSigner};
use aws_chunked::{AwsChunkedBody, AwsChunkedBodyError, ChunkNext};
use mac_core::sha256_hex;
use sigv4::{SignChunk, SigningSettings};
use smithy_core::Mem;
use std::alloc::Global;
use tool_case_lines::part;

// How often a body is polled at most.
const MOST_POLLS: u32 = 1000;

/// The whole `text`, or its length and its `digest`, and then each other answer up to the end, of the body of the frames and
/// the options that parts name, and of the signer: `unwired`, or one that goes on from a signature.
pub fn answer(alloc: Global, call: &str, parts: &[&str]) -> Mem<String> {
    match part(parts, "signer") {
        Some("unwired") => {
            let body = body_of(alloc, parts)?;
            polled(alloc, call, body.with_signer(ChunkDeferredSigner::new()))
        }
        Some(signature) => {
            let signer = published_signer(alloc, signature)?;
            polled(alloc, call, body_of(alloc, parts)?.with_signer(signer))
        }
        None => polled(alloc, call, unsigned(alloc, parts)?),
    }
}

fn body_of<G: SignChunk>(alloc: Global, parts: &[&str]) -> Mem<AwsChunkedBody<GivenFrames, G>> {
    let source = GivenFrames::of(alloc, parts)?;
    Ok(AwsChunkedBody::new(alloc, source, options_of(alloc, parts)?))
}

type Unsigned = AwsChunkedBody<GivenFrames, SigV4MessageSigner<SigningSettings>>;

/// A body without a signer, which names some type of one.
pub fn unsigned(alloc: Global, parts: &[&str]) -> Mem<Unsigned> {
    body_of(alloc, parts)
}

fn polled<G: SignChunk>(
    alloc: Global,
    call: &str,
    body: AwsChunkedBody<GivenFrames, G>,
) -> Mem<String> {
    let mut body = body;
    let mut text = Vec::new(alloc);
    let mut others = String::new(alloc);
    push_polled(alloc, &mut text, &mut others, &mut body)?;
    body_text(alloc, call, text.as_slice(), others.as_str())
}

fn push_polled<G: SignChunk>(
    alloc: Global,
    text: &mut Vec<u8>,
    others: &mut String,
    body: &mut AwsChunkedBody<GivenFrames, G>,
) -> Mem<()> {
    for _ in 0..MOST_POLLS {
        match body.poll_frame() {
            Ok(ChunkNext::Frame(bytes)) => text.extend_from_slice(bytes.as_slice())?,
            Ok(ChunkNext::End) => return push_text(others, ended(body.is_end_stream())),
            answer => push(others, shown(alloc, &answer))?,
        }
    }
    Ok(())
}

fn body_text(alloc: Global, call: &str, text: &[u8], others: &str) -> Mem<String> {
    match call {
        "digest" => {
            let digest = sha256_hex(alloc, text)?;
            format!(in alloc; "{} {digest} | {others}", text.len())
        }
        _ => {
            let mut found = escaped(alloc, text)?;
            push_text(&mut found, others)?;
            Ok(found)
        }
    }
}

/// Each answer of a body that passes its data on as it comes, up to the end.
pub fn pieces(alloc: Global, parts: &[&str]) -> Mem<String> {
    let mut body = unsigned(alloc, parts)?;
    let mut found = String::new(alloc);
    push_pieces(alloc, &mut found, &mut body)?;
    Ok(found)
}

fn push_pieces(alloc: Global, found: &mut String, body: &mut Unsigned) -> Mem<()> {
    for _ in 0..MOST_POLLS {
        match body.poll_data() {
            Ok(ChunkNext::End) => return push_text(found, ended(body.is_end_stream())),
            answer => push(found, shown(alloc, &answer))?,
        }
    }
    Ok(())
}

fn ended(is_closed: bool) -> &'static str {
    if is_closed {
        "End"
    } else {
        "End of an open body"
    }
}

// The text, with its line ends as `\r\n`.
fn escaped(alloc: Global, bytes: &[u8]) -> Mem<String> {
    let text = String::from_utf8_lossy(alloc, bytes)?;
    text.as_str().replace(alloc, "\r\n", "\\r\\n")
}

fn shown(alloc: Global, answer: &Result<ChunkNext, AwsChunkedBodyError>) -> Mem<String> {
    match answer {
        Ok(ChunkNext::Frame(bytes)) => escaped(alloc, bytes.as_slice()),
        Ok(ChunkNext::NotYet) => String::from_str(alloc, "NotYet"),
        Ok(ChunkNext::OutOfTurns) => String::from_str(alloc, "OutOfTurns"),
        Ok(ChunkNext::End) => String::from_str(alloc, "End"),
        Err(error) => debugged(alloc, error),
    }
}
