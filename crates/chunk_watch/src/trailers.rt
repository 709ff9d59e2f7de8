//! The end of a body with trailers.
ghost use Rattle.std.specs.Prelude.{◌≡◌, ◌++◌, ◌∷◌, IfOk, OnOk, option_copied};
ghost use Rattle.chunk_watch.specs.EndRead.{ReadsEitherEnd, ReadsEnd, TakesEnd, empty_line};
ghost use Rattle.chunk_watch.specs.Trailers.{JudgesTrailers, are_announced, is_loose, plain_after, plain_lines};

use crate::fault::ChunkFault;
use crate::signing::ChunkSigner;
use aws_chunked::parts::{begins_with, joined_names};
use aws_chunked::{DecodeFault, Decoded, decode_chunked};
use mac_core::constant_time_eq;
use smithy_core::{Headers, Mem};
use std::alloc::Global;

// The line of an empty chunk. Its signature isn't looked at: that of the body's own was compared before.
const EMPTY_LINE: &[u8; 84] =
    b"0;chunk-signature=0000000000000000000000000000000000000000000000000000000000000000\r\n";

// The trailers that stand behind the empty chunk, once they turned out to be the announced ones and to carry their own signature,
// which is made over that of the empty chunk.
pub(crate) fn judged_trailers(
    alloc: Global,
    signer: &mut ChunkSigner,
    before: &str,
    bytes: &[u8],
    announced: Option<&str>,
) -> Result<Headers, ChunkFault>
    ensures { JudgesTrailers signer.old before.now (option_copied announced.entry) bytes.now result }
{
    let (trailers, signature) = read_either_end(alloc, bytes)?;
    if !are_announced(alloc, announced, &trailers)? {
        return Err(ChunkFault::OtherTrailers);
    }
    let own = signer.trailer_signature(&trailers, before)?;
    if constant_time_eq(own.as_bytes(), signature.as_bytes()) {
        Ok(trailers)
    } else {
        Err(ChunkFault::TrailerMismatch)
    }
}

// Reads the end of a body with trailers: the trailers, and their signature. Where it has none, line feeds before the ends of lines
// are left out, since minio's client writes one before that of a trailer's line.
#[tactic(auto, using(crate::proofs::EitherLemmas::read_first, crate::proofs::EitherLemmas::read_second))]
fn read_either_end(alloc: Global, bytes: &[u8]) -> Result<(Headers, String), ChunkFault>
    ensures { ReadsEitherEnd bytes.now result }
{
    match read_end(alloc, bytes) {
        Ok(read) => Ok(read),
        Err(ChunkFault::BadTrailers) => {
            let plain = plain_lines(alloc, bytes)?;
            read_end(alloc, plain.as_slice())
        }
        Err(_) => Err(ChunkFault::NoMemory),
    }
}

// The bytes without loose line feeds.
#[tactic(auto, using(crate::proofs::EitherLemmas::lines_plain))]
fn plain_lines(alloc: Global, bytes: &[u8]) -> Mem<Vec<u8>>
    ensures { IfOk result (λ plain. plain.items ≡ plain_lines bytes.now) }
{
    let mut plain = Vec::new(alloc);
    let mut before = 0;
    let mut rest = bytes;
    while let Some((byte, others)) = rest.split_first() {
        push_unless_loose(&mut plain, before, *byte, others)?;
        before = *byte;
        rest = others;
    }
    Ok(plain)
}

// Appends the byte, unless it is a loose line feed.
#[tactic(auto, using(crate::proofs::EitherLemmas::bytes_more))]
fn push_unless_loose(plain: &mut Vec<u8>, before: u8, byte: u8, others: &[u8]) -> Mem<()>
    ensures { OnOk result (plain.new.items ++ plain_after byte others.now ≡ plain.old.items ++ plain_after before (byte ∷ others.now)) }
{
    if is_loose(before, byte, others) {
        return Ok(());
    }
    plain.push(byte)?;
    Ok(())
}

// Whether the byte is a line feed that stands before the end of a line and isn't the end of one.
fn is_loose(before: u8, byte: u8, others: &[u8]) -> bool
    ensures { result ≡ is_loose before byte others.now }
{
    byte == b'\n' && before != b'\r' && begins_with(others, b'\r')
}

// Reads the end of a body with trailers as it is: the trailers, and their signature.
#[tactic(auto, using(crate::proofs::EndReadLemmas::reads_text))]
fn read_end(alloc: Global, bytes: &[u8]) -> Result<(Headers, String), ChunkFault>
    ensures { ReadsEnd bytes.now result }
{
    let text = behind_empty_line(alloc, bytes)?;
    match decode_chunked(alloc, text.as_slice()) {
        Ok(decoded) => trailers_of(decoded),
        Err(DecodeFault::BadChunk(_)) => Err(ChunkFault::BadTrailers),
        Err(DecodeFault::NoMemory) => Err(ChunkFault::NoMemory),
    }
}

// The bytes behind the line of an empty chunk.
fn behind_empty_line(alloc: Global, bytes: &[u8]) -> Mem<Vec<u8>>
    ensures { IfOk result (λ text. text.items ≡ empty_line ++ bytes.now) }
{
    let mut text = Vec::with_capacity(alloc, EMPTY_LINE.len() + bytes.len())?;
    text.extend_from_slice(EMPTY_LINE)?;
    text.extend_from_slice(bytes)?;
    Ok(text)
}

// The trailers of a text without data, and their signature, which stands behind that of the empty chunk.
fn trailers_of(decoded: Decoded) -> Result<(Headers, String), ChunkFault>
    ensures { TakesEnd decoded result }
{
    let Decoded {
        body,
        mut signatures,
        trailers,
    } = decoded;
    match signatures.pop() {
        Some(signature) if body.is_empty() && signatures.len() == 1 => Ok((trailers, signature)),
        _ => Err(ChunkFault::BadTrailers),
    }
}

// Whether the trailers have the announced names in their order.
fn are_announced(alloc: Global, announced: Option<&str>, trailers: &Headers) -> Mem<bool>
    ensures { IfOk result (λ are. are ≡ are_announced (option_copied announced.entry) trailers.now) }
{
    match announced {
        None => Ok(true),
        Some(names) => Ok(names == joined_names(alloc, trailers)?.as_str()),
    }
}
