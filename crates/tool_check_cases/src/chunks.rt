//! Bodies in signed chunks.
ghost use Rattle.std.specs.Prelude.{◌<◌};

use chunk_watch::{ChunkFault, ChunkLimits, ChunkWatch};
use mac_core::sha256_hex;
use smithy_core::{Headers, Mem, Moment};
use std::alloc::Global;
use tool_case_lines::{has_part, number, part, with_repeats};

/// How many bytes of the body of the words are handed out, their digest, and how the body ends.
pub fn answer(alloc: Global, words: &[&str]) -> Mem<String> {
    let text = text_of(alloc, words)?;
    let mut out = Vec::new(alloc);
    let ending = fed(alloc, words, text.as_slice(), &mut out);
    told(alloc, out.as_slice(), ending)
}

// The bytes of the words `piece TEXT`, in order.
fn text_of(alloc: Global, words: &[&str]) -> Mem<Vec<u8>> {
    let mut text = Vec::new(alloc);
    for word in words {
        if let Some(("piece", piece)) = word.split_once(' ') {
            let piece = with_repeats(alloc, piece)?;
            text.extend_from_slice(piece.as_bytes())?;
        }
    }
    Ok(text)
}

// Feeds the text, cut every so many bytes, and ends it: its trailers.
fn fed(
    alloc: Global,
    words: &[&str],
    text: &[u8],
    out: &mut Vec<u8>,
) -> Result<Headers, ChunkFault> {
    let mut watch = watch_of(alloc, words)?;
    for piece in text.chunks(size_of_pieces(words)) {
        watch.feed(piece, out)?;
    }
    if has_part(words, "trailers") {
        return watch.finish_with_trailers(part(words, "announced"));
    }
    watch.finish()?;
    Ok(Headers::new(alloc))
}

// The watch that the words ask for.
fn watch_of(alloc: Global, words: &[&str]) -> Result<ChunkWatch, ChunkFault> {
    let seed = part(words, "seed").unwrap_or("");
    let secret = part(words, "secret").unwrap_or("wJalrXUtnFEMI/K7MDENG/bPxRfiCYEXAMPLEKEY");
    let at = Moment::new(number(part(words, "at").unwrap_or("1369353600")), 0);
    let limits = ChunkLimits::new();
    let watch = ChunkWatch::new(alloc, seed, secret, "us-east-1", "s3", at, limits)?;
    match part(words, "length") {
        Some(length) => Ok(watch.with_decoded_length(number(length).unsigned_abs())),
        None => Ok(watch),
    }
}

// How many bytes a piece has.
fn size_of_pieces(words: &[&str]) -> usize
    ensures { 0 < result }
{
    match usize::try_from(number(part(words, "by").unwrap_or("65536"))) {
        Ok(size) => size.max(1),
        Err(_) => 1,
    }
}

// How many bytes were handed out, their digest, and how the body ended.
fn told(alloc: Global, out: &[u8], ending: Result<Headers, ChunkFault>) -> Mem<String> {
    let (count, digest) = (out.len(), sha256_hex(alloc, out)?);
    match ending {
        Ok(trailers) => {
            let mut text = format!(in alloc; "{count} bytes {digest} | whole")?;
            for (name, value) in trailers.iter() {
                text.push_str(" | ")?;
                text.push_str(name)?;
                text.push_str(": ")?;
                text.push_str(value)?;
            }
            Ok(text)
        }
        Err(fault) => format!(in alloc; "{count} bytes {digest} | {fault:?} {fault}"),
    }
}
