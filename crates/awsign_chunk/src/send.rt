//! Writes an upload: its body, whose data is read chunk by chunk, and then its head.
ghost use Rattle.std.specs.Prelude.{◌≡◌, ◌≤◌, ◌<◌, ◌+◌, ◌++◌, [], ℕ, List, Option, IfErr, IsErrOf, IsTrue, MatchResult, OnErr, OnOk, length};
ghost use Rattle.http_uri.specs.declared.uri.Uri.{Uri as Target};
ghost use Rattle.smithy_core.specs.Civil.{is_in_years};
ghost use Rattle.smithy_core.specs.Moment.{Instant};
ghost use Rattle.smithy_core.specs.Outside.{CountsFault, Gains, GainsProperPrefix};
ghost use Rattle.eventstream.specs.Key.{Signer as Who};
ghost use Rattle.sigv4.specs.ChunkTold.{signs_over};
ghost use Rattle.aws_auth.specs.ChunkSigner.{chunk_told};
ghost use Rattle.awsign_run.specs.Chosen.{SignsFor};
ghost use Rattle.awsign_run.specs.declared.status.Status.TheVariants.{DataFault};
ghost use Rattle.awsign_chunk.specs.ChunkRun.{SendsUpload};
ghost use Rattle.awsign_chunk.specs.Sending.{IsWriteStatus, SendsBody, SendsData, WritesPiece};
ghost use Rattle.awsign_chunk.specs.Sent.{IsUploadOf};
ghost use Rattle.awsign_chunk.specs.Sum.{HoldsSum};
ghost use Rattle.awsign_chunk.specs.declared.status.ChunkStatus.TheVariants.{DataChanged, Ended, FileFault};
ghost use Rattle.awsign_words.specs.Words.{SignWanted};
ghost use Rattle.awsign_words.specs.declared.words.Checksum.{Checksum as Asked};

use crate::chunks::{end_text, next_text};
use crate::front::read_front;
use crate::sent::{BodyPlan, ChunkedUpload, Running};
use crate::status::ChunkStatus;
use awsign_run::{Status, write_text};
use smithy_core::{ByteSink, ByteSource, write_all};
use std::alloc::Global;

/// Writes the body of an upload, whose data comes from a source, and then its head. No more than two chunks are held at a time.
///
/// A head that was written stands for a body that is whole. Where the data ends before or behind the length that was announced, the
/// answer is [`ChunkStatus::DataChanged`]; no more than a chunk is read behind it.
pub fn write_upload<S: ByteSource, B: ByteSink, K: ByteSink>(
    alloc: Global,
    upload: ChunkedUpload,
    content: &mut S,
    body: &mut B,
    out: &mut K,
) -> ChunkStatus
    // What was written of the body and the head of the upload that these words ask for.
    ensures headline { (wanted : SignWanted) (n : ℕ) (signer : SignsFor) (at : Instant) (uri : Target) → IsUploadOf wanted n signer at uri upload
        → SendsUpload wanted n signer at uri (S.left content.old) result (B.held body.old) (B.held body.new) (K.held out.old) (K.held out.new) }

    // It answers that the data, the file or the output failed exactly where that counted a fault.
    ensures data_failed { CountsFault (result ≡ Ended DataFault) (S.faults content.old) (S.faults content.new) }
    ensures file_failed { CountsFault (result ≡ FileFault) (B.faults body.old) (B.faults body.new) }
    ensures out_failed { CountsFault (result ≡ Ended Status.OutputFault) (K.faults out.old) (K.faults out.new) }
{
    let ChunkedUpload {
        head,
        plan,
        running,
    } = upload;
    match write_body(alloc, plan, running, content, body) {
        Ok(()) => ChunkStatus::Ended(write_text(head.as_slice(), out)),
        Err(status) => status,
    }
}

// Writes the body.
fn write_body<S: ByteSource, B: ByteSink>(
    alloc: Global,
    plan: BodyPlan,
    mut running: Running,
    content: &mut S,
    body: &mut B,
) -> Result<(), ChunkStatus>
    ensures sends { (first : List ℕ) (who : Who) (t : Instant) (checksum : Option Asked)
        → chunk_told running.signer ≡ signs_over first who t → IsTrue (is_in_years t) → HoldsSum running.sum checksum []
        → SendsBody plan.is_signed who t plan.options.chunk_size plan.length checksum first plan.trailers (S.left content.old) (B.held body.old) (B.held body.new) result }
    ensures data_failed { CountsFault (IsErrOf result (Ended DataFault)) (S.faults content.old) (S.faults content.new) }
    ensures file_failed { CountsFault (IsErrOf result FileFault) (B.faults body.old) (B.faults body.new) }
    ensures own { IsErrOf result (Ended Status.OutputFault) → ⊥ }
{
    write_data(alloc, &plan, &mut running, content, body)?;
    let text = end_text(alloc, plan, running)?;
    write_piece(text.as_slice(), body)
}

// Writes the data in chunks, to its end.
fn write_data<S: ByteSource, B: ByteSink>(
    alloc: Global,
    plan: &BodyPlan,
    running: &mut Running,
    content: &mut S,
    body: &mut B,
) -> Result<(), ChunkStatus>
    ensures sends { (first : List ℕ) (who : Who) (t : Instant) (checksum : Option Asked)
        → chunk_told running.old.signer ≡ signs_over first who t → IsTrue (is_in_years t) → HoldsSum running.old.sum checksum []
        → SendsData plan.now.is_signed who t plan.now.options.chunk_size plan.now.length checksum first (S.left content.old)
        (chunk_told running.new.signer) running.new.sum (B.held body.old) (B.held body.new) result }
    ensures data_failed { CountsFault (IsErrOf result (Ended DataFault)) (S.faults content.old) (S.faults content.new) }
    ensures file_failed { CountsFault (IsErrOf result FileFault) (B.faults body.old) (B.faults body.new) }
    ensures own { IsErrOf result (Ended Status.OutputFault) → ⊥ }
{
    let size = plan.options.chunk_size();
    let mut left = plan.length;
    let mut more = true;
    'chunks: while more {
        let piece = read_front(alloc, content, size)?;
        more = piece.len() == size;
        left = left_behind(left, piece.len())?;
        write_chunk(alloc, plan.is_signed, running, piece, body)?;
    }
    if left > 0 {
        return Err(ChunkStatus::DataChanged);
    }
    Ok(())
}

// How many of the announced bytes are left behind so many more.
fn left_behind(left: u64, count: usize) -> Result<u64, ChunkStatus>
    ensures { MatchResult result (λ rest. rest + count ≡ left) (λ status. (left < count) × (status ≡ DataChanged)) }
{
    match left.checked_sub(count as u64) {
        Some(rest) => Ok(rest),
        None => Err(ChunkStatus::DataChanged),
    }
}

// Writes a chunk, if there is some data for it.
fn write_chunk<B: ByteSink>(
    alloc: Global,
    is_signed: bool,
    running: &mut Running,
    piece: Vec<u8>,
    body: &mut B,
) -> Result<(), ChunkStatus>
    ensures writes { (before : List ℕ) (who : Who) (t : Instant) (size : ℕ) → chunk_told running.old.signer ≡ signs_over before who t → IsTrue (is_in_years t)
        → 0 < size → length piece.items ≤ size
        → WritesPiece is_signed who t size before piece.items (chunk_told running.new.signer) (B.held body.old) (B.held body.new) result }
    ensures sum { (checksum : Option Asked) (taken : List ℕ) → HoldsSum running.old.sum checksum taken
        → OnOk result (HoldsSum running.new.sum checksum (taken ++ piece.items)) }
    ensures why { IfErr result IsWriteStatus }
    ensures failed { CountsFault (IsErrOf result FileFault) (B.faults body.old) (B.faults body.new) }
{
    if piece.is_empty() {
        return Ok(());
    }
    running.sum.update(piece.as_slice());
    let text = next_text(alloc, is_signed, &mut running.signer, piece)?;
    write_piece(text.as_slice(), body)
}

// Writes a piece of the body.
fn write_piece<B: ByteSink>(text: &[u8], body: &mut B) -> Result<(), ChunkStatus>
    ensures ok { OnOk result (Gains (B.held body.old) (B.held body.new) text.now) }
    ensures err { OnErr result (GainsProperPrefix (B.held body.old) (B.held body.new) text.now) }
    ensures why { IfErr result IsWriteStatus }
    ensures failed { CountsFault (IsErrOf result FileFault) (B.faults body.old) (B.faults body.new) }
{
    Ok(write_all(body, text)?)
}
