ghost use Rattle.std.specs.Prelude.{ℕ, List, ◌≡◌, None, IfOk, IsTrue, string_bytes};
ghost use Rattle.smithy_core.specs.Civil.{is_in_years};
ghost use Rattle.smithy_core.specs.Moment.{Instant};
ghost use Rattle.eventstream.specs.Key.{Signer as Who};
ghost use Rattle.sigv4.specs.ChunkTold.{signs_over, unsigned_chunk_at};
ghost use Rattle.aws_chunked.specs.SoundBody.{IsSoundBody, IsSoundBodyOf, text_left};
ghost use Rattle.aws_chunked.specs.Made.{joined};
ghost use Rattle.aws_chunked.specs.Due.{signed_chunked_text};
ghost use Rattle.aws_auth.specs.ChunkSigner.{chunk_told};
ghost use Rattle.aws_signing.specs.SigningBy.{signer_kept};
ghost use Rattle.aws_signing.specs.Upload.{AnnouncesUpload, IsFitBody, IsFitUpload, SignsUpload, TestsUpload, Uploads, announced_case, unfit_sizes};

use crate::fault::AwsSigningError;
use crate::signer::Signer;
use aws_auth::SigV4MessageSigner;
use aws_chunked::parts::{frames_in_memory, next_in_memory};
use aws_chunked::{AwsChunkedBody, AwsChunkedBodyOptions};
use bytes::Bytes;
use sigv4::parts::test_headers;
use sigv4::{SignChunk, SigningError, SigningSettings};
use smithy_core::{CalmFrames, FrameSource, Headers, HttpRequest, Mem, Moment};
use std::alloc::Global;

/// How many bytes a chunk has at most, and the data.
const MOST_BYTES: usize = 4_294_967_295;

// Signs the chunks of an upload.
type ChunkSigner = SigV4MessageSigner<SigningSettings>;

// An upload in memory.
type Upload = AwsChunkedBody<CalmFrames, ChunkSigner>;

// A request that announces an upload, what it is signed over, and how the upload is encoded.
#[derive(Drop)]
struct Announced {
    request: HttpRequest,
    payload: String,
    options: AwsChunkedBodyOptions,
}

impl Signer {
    /// Announces an upload in a request's headers, signs the request at a moment, and answers the pieces to send behind it: the data
    /// in signed chunks of a size, and the trailers with their signature. `content-encoding` gets `aws-chunked`,
    /// `x-amz-decoded-content-length` and `content-length` are the lengths of the data and of what is sent, and `x-amz-trailer` has
    /// the names of the trailers, where there are some. Amazon S3 takes no chunk under 8,192 bytes but the last. All pieces are made
    /// at once: data that comes in pieces itself takes `aws_chunked`.
    ///
    /// ```rust
    /// let mut request = HttpRequest::new(alloc, "PUT", "https://bucket.s3.amazonaws.com/key")?;
    /// let mut trailers = Headers::new(alloc);
    /// trailers.append("x-amz-checksum-crc32", checksum.as_str())?;
    /// let pieces = signer.chunked(&mut request, content, 65_536, trailers, clock.now())?;
    /// ```
    ///
    /// # Errors
    ///
    /// The first of these, and the request stays as it is: [`AwsSigningError::InvalidChunkSize`] where the size isn't from 1 to
    /// 4,294,967,295, [`AwsSigningError::DataTooLong`] where the data has more bytes than that; [`AwsSigningError::Signing`] where a
    /// trailer is outside the grammar of headers; [`AwsSigningError::Unannounced`] where a length doesn't fit 64 bits; and
    /// [`AwsSigningError::Signing`] as [`Signer::sign`] has it.
    pub fn chunked(
        &mut self,
        request: &mut HttpRequest,
        content: Bytes,
        size: usize,
        trailers: Headers,
        at: Moment,
    ) -> Result<Vec<Bytes>, AwsSigningError>
        ensures { Uploads self.old request.old content size trailers at self.new request.new result }
    {
        let mut made = announce(self.holder.allocator(), request, &content, size, &trailers)?;
        let pieces = self.sign_upload(&mut made, content, trailers, at)?;
        *request = made.request;
        Ok(pieces)
    }

    // Signs an announced request, and makes the pieces behind it.
    fn sign_upload(
        &mut self,
        made: &mut Announced,
        content: Bytes,
        trailers: Headers,
        at: Moment,
    ) -> Result<Vec<Bytes>, SigningError>
        requires { IsFitUpload made.old content trailers }
        ensures signs { SignsUpload (announced_case self.old made.old at) at made.old self.old.holder.kept.signer content trailers made.new result }
        ensures kept { self.new ≡ signer_kept self.old at }
    {
        let payload = Some(made.payload.as_str());
        let signature = self.sign_case(&mut made.request, payload, None, at)?;
        let options = made.options.try_clone()?;
        Ok(self.pieces_after(signature, options, content, trailers, at)?)
    }

    // The pieces behind a request of this signature.
    fn pieces_after(
        &self,
        signature: String,
        options: AwsChunkedBodyOptions,
        content: Bytes,
        trailers: Headers,
        at: Moment,
    ) -> Mem<Vec<Bytes>>
        requires fit { IsFitBody options content trailers }
        requires years { unsigned_chunk_at at ≡ None }
        ensures { IfOk result (λ pieces. joined pieces.items
            ≡ signed_chunked_text self.now.holder.kept.signer at (string_bytes signature) options.chunk_size content trailers) }
    {
        let settings = self.settings.try_clone()?;
        let signer = self.holder.chunk_signer(signature, at, settings)?;
        let body = upload_of(self.holder.allocator(), content, trailers, options, signer)?;
        all_pieces(self.holder.allocator(), body)
    }
}

// A copy of a request that announces an upload, or why there is none.
fn announce(
    alloc: Global,
    request: &HttpRequest,
    content: &Bytes,
    size: usize,
    trailers: &Headers,
) -> Result<Announced, AwsSigningError>
    ensures { AnnouncesUpload request.now content.now size trailers.now result }
{
    test_sizes(content, size)?;
    test_headers(trailers)?;
    let options = AwsChunkedBodyOptions::for_body(alloc, content.len() as u64, trailers, true)?;
    let options = options.with_chunk_size(size);
    let mut request = request.try_clone()?;
    let payload = options.announce(alloc, &mut request.headers, trailers)?;
    Ok(Announced {
        request,
        payload,
        options,
    })
}

// Tests the size of the chunks and the length of the data.
fn test_sizes(content: &Bytes, size: usize) -> Result<(), AwsSigningError>
    ensures { TestsUpload (unfit_sizes content.now size) result }
{
    if size == 0 || size > MOST_BYTES {
        return Err(AwsSigningError::InvalidChunkSize(size));
    }
    if content.len() > MOST_BYTES {
        return Err(AwsSigningError::DataTooLong);
    }
    Ok(())
}

// The upload of data and trailers.
fn upload_of(
    alloc: Global,
    content: Bytes,
    trailers: Headers,
    options: AwsChunkedBodyOptions,
    signer: ChunkSigner,
) -> Mem<Upload>
    requires { IsFitBody options content trailers }
    ensures { (before : List ℕ) (who : Who) (t : Instant) → chunk_told signer ≡ signs_over before who t → IsTrue (is_in_years t)
        → IfOk result (IsSoundBodyOf ⟦<CalmFrames as FrameSource>⟧ ⟦<SigV4MessageSigner<SigningSettings> as SignChunk>⟧
        (signed_chunked_text who t before options.chunk_size content trailers)) }
{
    let source = CalmFrames::new(frames_in_memory(alloc, content, trailers)?);
    Ok(AwsChunkedBody::new(alloc, source, options).with_signer(signer))
}

// All pieces of an upload.
fn all_pieces(alloc: Global, mut body: Upload) -> Mem<Vec<Bytes>>
    requires { IsSoundBody ⟦<CalmFrames as FrameSource>⟧ ⟦<SigV4MessageSigner<SigningSettings> as SignChunk>⟧ body }
    ensures { IfOk result (λ pieces. joined pieces.items ≡ text_left ⟦<CalmFrames as FrameSource>⟧ ⟦<SigV4MessageSigner<SigningSettings> as SignChunk>⟧ body) }
{
    let mut pieces = Vec::new(alloc);
    'polls: while !body.is_end_stream() {
        pieces.push(next_in_memory(&mut body)?)?;
    }
    Ok(pieces)
}
