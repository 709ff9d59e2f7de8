//! The text of a body, chunk by chunk.
ghost use Rattle.std.specs.Prelude.{◌≡◌, ◌++◌, [], ℕ, List, Option, IfOk, IsTrue, option_map, string_bytes};
ghost use Rattle.smithy_core.specs.Civil.{is_in_years};
ghost use Rattle.smithy_core.specs.Moment.{Instant};
ghost use Rattle.eventstream.specs.Key.{Signer as Who};
ghost use Rattle.sigv4.specs.ChunkTold.{signs_over};
ghost use Rattle.aws_auth.specs.ChunkSigner.{chunk_told};
ghost use Rattle.aws_chunked.specs.Text.{chunk_text, tail_text};
ghost use Rattle.awsign_run.specs.Chosen.{signs_for_of, who_signs};
ghost use Rattle.awsign_chunk.specs.Sending.{behind, last_mark, mark_of, text_from};
ghost use Rattle.awsign_chunk.specs.Sent.{checksum_trailers};
ghost use Rattle.awsign_chunk.specs.Sum.{HoldsSum};
ghost use Rattle.awsign_words.specs.declared.words.Checksum.{Checksum as Asked};

use crate::sent::{BodyPlan, Running};
use crate::text::chunk_text;
use aws_auth::SigV4MessageSigner;
use aws_chunked::parts::tail_text;
use awsign_run::Chosen;
use bytes::Bytes;
use job_text::lent;
use sigv4::{SignChunk, SigningSettings};
use smithy_core::{Headers, Identity, Mem, Moment, Region, SigningName};
use std::alloc::{AllocError, Global};

/// Signs the chunks of a body, each over the signature before it.
pub type ChunkSigner = SigV4MessageSigner<SigningSettings>;

/// Signs chunks from a signature on, at a moment.
pub(crate) fn chunk_signer(
    alloc: Global,
    signer: Chosen,
    signature: String,
    at: Moment,
) -> Mem<ChunkSigner>
    ensures { IfOk result (λ made. chunk_told made ≡ signs_over (string_bytes signature) (who_signs (signs_for_of signer)) at) }
{
    Ok(SigV4MessageSigner::new(
        signature,
        Identity::Credentials(signer.credentials),
        Region::new(signer.region),
        SigningName::new(signer.service),
        at,
        SigningSettings::new(alloc)?,
    ))
}

/// The text of the next chunk, which is signed over the signature before it where chunks are signed.
pub(crate) fn next_text(
    alloc: Global,
    is_signed: bool,
    signer: &mut ChunkSigner,
    piece: Vec<u8>,
) -> Mem<Vec<u8>>
    ensures { (before : List ℕ) (who : Who) (t : Instant) → chunk_told signer.old ≡ signs_over before who t → IsTrue (is_in_years t)
        → IfOk result (λ text. (text.items ≡ chunk_text (mark_of is_signed piece.items who t before) piece.items)
        × (chunk_told signer.new ≡ signs_over (behind is_signed piece.items who t before) who t)) }
{
    let piece = Bytes::from_vec(piece)?;
    let signature = chunk_signature(is_signed, signer, &piece)?;
    chunk_text(alloc, lent(&signature), piece.as_slice())
}

/// The end of the text behind all data: the empty chunk, and the trailers with that of the checksum.
pub(crate) fn end_text(alloc: Global, plan: BodyPlan, running: Running) -> Mem<Vec<u8>>
    ensures { (before : List ℕ) (who : Who) (t : Instant) (checksum : Option Asked) (bytes : List ℕ) (size : ℕ)
        → chunk_told running.signer ≡ signs_over before who t → IsTrue (is_in_years t) → HoldsSum running.sum checksum bytes
        → IfOk result (λ text. text.items ≡ text_from plan.is_signed who t size before [] (plan.trailers ++ checksum_trailers checksum bytes)) }
{
    let BodyPlan {
        is_signed,
        mut trailers,
        ..
    } = plan;
    let Running { mut signer, sum } = running;
    sum.push_to(alloc, &mut trailers)?;
    signed_end(alloc, is_signed, &mut signer, &trailers)
}

// The end of the text with these trailers.
fn signed_end(
    alloc: Global,
    is_signed: bool,
    signer: &mut ChunkSigner,
    trailers: &Headers,
) -> Mem<Vec<u8>>
    ensures { (before : List ℕ) (who : Who) (t : Instant) → chunk_told signer.old ≡ signs_over before who t → IsTrue (is_in_years t)
        → IfOk result (λ text. text.items ≡ tail_text (mark_of is_signed [] who t before) trailers.now
        (last_mark is_signed who t (behind is_signed [] who t before) trailers.now)) }
{
    let signature = chunk_signature(is_signed, signer, &Bytes::new())?;
    let last = trailer_signature(is_signed, signer, trailers)?;
    tail_text(alloc, lent(&signature), Some(trailers), lent(&last))
}

// The signature of a chunk, where chunks are signed. Credentials sign at a moment in the years, so they refuse a chunk only where
// memory runs out.
fn chunk_signature(is_signed: bool, signer: &mut ChunkSigner, piece: &Bytes) -> Mem<Option<String>>
    ensures { (before : List ℕ) (who : Who) (t : Instant) → chunk_told signer.old ≡ signs_over before who t → IsTrue (is_in_years t)
        → IfOk result (λ signature. (option_map string_bytes signature ≡ mark_of is_signed piece.now who t before)
        × (chunk_told signer.new ≡ signs_over (behind is_signed piece.now who t before) who t)) }
{
    if !is_signed {
        return Ok(None);
    }
    match signer.chunk_signature(piece) {
        Ok(signature) => Ok(Some(signature)),
        Err(_) => Err(AllocError),
    }
}

// The signature of the trailers, where chunks are signed and there are some; likewise.
fn trailer_signature(
    is_signed: bool,
    signer: &mut ChunkSigner,
    trailers: &Headers,
) -> Mem<Option<String>>
    ensures { (before : List ℕ) (who : Who) (t : Instant) → chunk_told signer.old ≡ signs_over before who t → IsTrue (is_in_years t)
        → IfOk result (λ signature. option_map string_bytes signature ≡ last_mark is_signed who t before trailers.now) }
{
    if !is_signed || trailers.is_empty() {
        return Ok(None);
    }
    match signer.trailer_signature(trailers) {
        Ok(signature) => Ok(Some(signature)),
        Err(_) => Err(AllocError),
    }
}
