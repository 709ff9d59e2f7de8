//! Makes the text for HTTP 1.x: the data that comes, cut into chunks of one size, and the end.
ghost use Rattle.std.specs.Prelude.{◌≡◌, ◌<◌, [], ◌++◌, length, option_map, string_bytes, OnOk};
ghost use Rattle.aws_chunked.specs.Body.{MakesChunk, MakesTail, listed};
ghost use Rattle.aws_chunked.specs.Signing.{ChunkAnswers, SignsWhereSigned, TrailerAnswers, has_signature};
ghost use Rattle.aws_chunked.specs.Text.{chunk_text, tail_text};

use crate::arrivals::Arrivals;
use crate::error::AwsChunkedBodyError;
use crate::made_text::MadeText;
use crate::options::AwsChunkedBodyOptions;
use crate::signing::has_signature;
use crate::text::{CRLF, as_text, head_text, shared, tail_text};
use bytes::Bytes;
use seg_buf::SegBuf;
use sigv4::{SignChunk, SigningError};
use smithy_core::{Headers, Mem};
use std::alloc::Global;

/// Data that waits to be cut, text that waits to be answered, and who signs it.
pub(crate) struct ChunkEngine<G> {
    pub(crate) signer: Option<G>,
    // The data that was taken and isn't cut yet.
    pub(crate) held: SegBuf,
    // The text that was made and isn't answered yet.
    pub(crate) ready: MadeText,
}

// Written out: a derived drop would be taken apart in the proof of each function that drops one.
impl<G: Drop> Drop for ChunkEngine<G> {
    fn drop(self) {
        let ChunkEngine {
            signer,
            held,
            ready,
        } = self;
        drop(signer);
        drop(held);
        drop(ready);
    }
}

impl<G: SignChunk> ChunkEngine<G> {
    // Makes a chunk of the data that is held.
    pub(crate) fn make_chunk(
        &mut self,
        alloc: Global,
        options: &AwsChunkedBodyOptions,
    ) -> Result<(), AwsChunkedBodyError>
        requires { self.old.ready ≡ [] }
        ensures { MakesChunk G.SignChunk options.now self.old self.new result }
    {
        let count = self.held.remaining().min(options.chunk_size());
        let piece = self.held.copy_to_bytes(count)?;
        let signature = self.sign_chunk(options.is_signed(), &piece)?;
        Ok(self.push_chunk(alloc, piece, &signature)?)
    }

    // Makes the end of the text, once the lengths of the trailers were compared.
    pub(crate) fn make_tail(
        &mut self,
        alloc: Global,
        options: &AwsChunkedBodyOptions,
        came: &Arrivals,
    ) -> Result<(), AwsChunkedBodyError>
        requires { self.old.ready ≡ [] }
        ensures { MakesTail G.SignChunk options.now came.now self.old self.new result }
    {
        came.test_trailer_lengths_if_any(options)?;
        let signature = self.sign_chunk(options.is_signed(), &Bytes::new())?;
        let last = self.sign_trailers(options.is_signed(), &came.trailers)?;
        Ok(self.push_tail(alloc, &signature, &came.trailers, &last)?)
    }

    // The signature of a chunk, where chunks are signed.
    fn sign_chunk(
        &mut self,
        is_signed: bool,
        chunk: &Bytes,
    ) -> Result<Option<String>, AwsChunkedBodyError>
        ensures signs { SignsWhereSigned (ChunkAnswers G.SignChunk chunk.now) is_signed self.old.signer result self.new.signer }
        ensures others { self.new ≡ record self.old { signer = self.new.signer } }
    {
        if !is_signed {
            return Ok(None);
        }
        match &mut self.signer {
            Some(signer) => Ok(Some(signer.chunk_signature(chunk)?)),
            None => Err(AwsChunkedBodyError::from(SigningError::SignerNotWired)),
        }
    }

    // The signature of the trailers, where chunks are signed and there are some.
    fn sign_trailers(
        &mut self,
        is_signed: bool,
        trailers: &Option<Headers>,
    ) -> Result<Option<String>, AwsChunkedBodyError>
        ensures signs { SignsWhereSigned (TrailerAnswers G.SignChunk (listed trailers.now))
            (has_signature is_signed (listed trailers.now)) self.old.signer result self.new.signer }
        ensures others { self.new ≡ record self.old { signer = self.new.signer } }
    {
        let Some(trailers) = trailers else {
            return Ok(None);
        };
        if !has_signature(is_signed, trailers) {
            return Ok(None);
        }
        match &mut self.signer {
            Some(signer) => Ok(Some(signer.trailer_signature(trailers)?)),
            None => Err(AwsChunkedBodyError::from(SigningError::SignerNotWired)),
        }
    }
}

impl<G> ChunkEngine<G> {
    // Takes the first of the text that was made.
    pub(crate) fn take_ready(&mut self) -> Bytes
        requires { 0 < length self.old.ready }
        ensures front { self.old.ready ≡ result ++ self.new.ready }
        ensures some { 0 < length result }
        ensures others { self.new ≡ record self.old { ready = self.new.ready } }
    {
        match self.ready.pop() {
            Some(piece) => piece,
            None => unreachable!(),
        }
    }

    // Makes the text of a chunk.
    #[tactic(auto, unfolding(crate::specs::Text::chunk_text))]
    fn push_chunk(&mut self, alloc: Global, piece: Bytes, signature: &Option<String>) -> Mem<()>
        requires { self.old.ready ≡ [] }
        ensures text { OnOk result (self.new.ready ≡ chunk_text (option_map string_bytes signature.now) piece) }
        ensures others { self.new ≡ record self.old { ready = self.new.ready } }
    {
        let head = head_text(alloc, piece.len(), as_text(signature))?;
        self.ready.push(shared(head)?)?;
        self.ready.push(piece)?;
        self.ready.push(Bytes::from_static(CRLF))
    }

    // Makes the text of the end.
    fn push_tail(
        &mut self,
        alloc: Global,
        signature: &Option<String>,
        trailers: &Option<Headers>,
        last: &Option<String>,
    ) -> Mem<()>
        requires { self.old.ready ≡ [] }
        ensures text { OnOk result (self.new.ready
            ≡ tail_text (option_map string_bytes signature.now) (listed trailers.now) (option_map string_bytes last.now)) }
        ensures others { self.new ≡ record self.old { ready = self.new.ready } }
    {
        let text = tail_text(alloc, as_text(signature), trailers.as_ref(), as_text(last))?;
        self.ready.push(shared(text)?)
    }
}
