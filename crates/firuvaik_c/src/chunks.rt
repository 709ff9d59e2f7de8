//! An upload in signed chunks.
ghost use Rattle.std.specs.Prelude.{Some, Result, length};
ghost use Rattle.aws_chunked.specs.Text.{head_text};
ghost use Rattle.sigv4.specs.Chunk.{chunk_signature, trailer_signature};
ghost use Rattle.chunk_watch.specs.Trailers.{trailers_text};
ghost use Rattle.firuvaik_c.specs.Answers.{LendsSigned};
ghost use Rattle.firuvaik_c.specs.Chunks.{GivesChunk, GivesTrailers, MakesText};
ghost use Rattle.firuvaik_c.specs.declared.answer.Made.{Made};
ghost use Rattle.firuvaik_c.specs.declared.fault.Fault.{Fault};

use crate::answer::{Answer, Made, lend_signed};
use crate::fault::Fault;
use crate::lent::{Field, Signer};
use crate::link::Link;
use crate::sign::code_of;
use crate::texts::headers_of;
use aws_chunked::parts::{head_text, last_lines};
use bytes::Bytes;
use sigv4::parts::test_headers;
use sigv4::{SigningError, v4};
use smithy_core::Headers;
use std::alloc::Global;

/// Writes the line before the next chunk of an upload, with the chunk's signature over the one before it. No data end the upload.
///
/// The signature is that of the request, or of the chunk before; the chunk's own takes its place where the line fits the room, and
/// else nothing is written.
#[unsafe(no_mangle)]
pub extern "C" fn firuvaik_next_chunk(
    alloc: Global,
    signer: &Signer<'_>,
    seconds: i64,
    chunk: &[u8],
    signature: &mut [u8; 64],
    out: &mut [u8],
) -> Answer
    ensures { (made : Result Made Fault) × GivesChunk signer.now seconds chunk.now signature.old made
        × LendsSigned made signature.old signature.new out.old out.new result }
{
    let made = next_chunk(alloc, signer, seconds, chunk, signature);
    lend_signed(made, signature, out)
}

// The line before the next chunk, and its signature.
fn next_chunk(
    alloc: Global,
    signer: &Signer<'_>,
    seconds: i64,
    chunk: &[u8],
    signature: &[u8; 64],
) -> Result<Made, Fault>
    ensures { GivesChunk signer.now seconds chunk.now signature.now result }
{
    let link = Link::new(alloc, signer, seconds, signature)?;
    match signed_chunk(alloc, chunk, &link) {
        Ok(made) => Ok(made),
        Err(error) => Err(Fault::from(error)),
    }
}

// The line before a chunk, with its signature over the one before it.
fn signed_chunk(alloc: Global, chunk: &[u8], link: &Link<'_>) -> Result<Made, SigningError>
    ensures { MakesText
        (head_text (length chunk.now) (Some (chunk_signature chunk.now link.now.signer link.now.at link.now.previous_signature)))
        (chunk_signature chunk.now link.now.signer link.now.at link.now.previous_signature) result }
{
    let bytes = Bytes::copy_from_slice(alloc, chunk)?;
    let signed = v4::sign_chunk(alloc, &bytes, link.previous_signature(), &link.params())?;
    let signature = code_of(&signed);
    let text = head_text(alloc, chunk.len(), Some(signed.signature()))?;
    Ok(Made { text, signature })
}

/// Writes the trailers of an upload behind its empty chunk, and the line of their signature, with the empty line that ends it.
///
/// The signature is that of the empty chunk; that of the trailers takes its place where the lines fit the room, and else nothing is
/// written.
#[unsafe(no_mangle)]
pub extern "C" fn firuvaik_trailers(
    alloc: Global,
    signer: &Signer<'_>,
    seconds: i64,
    trailers: &[Field<'_>],
    signature: &mut [u8; 64],
    out: &mut [u8],
) -> Answer
    ensures { (made : Result Made Fault) × GivesTrailers signer.now seconds trailers.now signature.old made
        × LendsSigned made signature.old signature.new out.old out.new result }
{
    let made = last_trailers(alloc, signer, seconds, trailers, signature);
    lend_signed(made, signature, out)
}

// The lines of the trailers, and their signature.
fn last_trailers(
    alloc: Global,
    signer: &Signer<'_>,
    seconds: i64,
    trailers: &[Field<'_>],
    signature: &[u8; 64],
) -> Result<Made, Fault>
    ensures { GivesTrailers signer.now seconds trailers.now signature.now result }
{
    let link = Link::new(alloc, signer, seconds, signature)?;
    let headers = headers_of(alloc, trailers)?;
    test_headers(&headers)?;
    match signed_trailers(alloc, &headers, &link) {
        Ok(made) => Ok(made),
        Err(error) => Err(Fault::from(error)),
    }
}

// The lines of trailers, and their signature over the one before it.
fn signed_trailers(alloc: Global, headers: &Headers, link: &Link<'_>) -> Result<Made, SigningError>
    ensures { MakesText
        (trailers_text headers.now (trailer_signature headers.now link.now.signer link.now.at link.now.previous_signature))
        (trailer_signature headers.now link.now.signer link.now.at link.now.previous_signature) result }
{
    let signed = v4::sign_trailer(alloc, headers, link.previous_signature(), &link.params())?;
    let signature = code_of(&signed);
    let text = last_lines(alloc, Some(headers), Some(signed.signature()))?;
    Ok(Made { text, signature })
}
