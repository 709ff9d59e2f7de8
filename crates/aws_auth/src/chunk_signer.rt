ghost use Rattle.std.specs.Prelude.{◌≡◌, IfOk, OnOk, OnErr, box_value, string_bytes};
ghost use Rattle.aws_auth.specs.MessageSigner.{signer_in};

use crate::message_signer::SigV4MessageSigner;
use bytes::Bytes;
use sigv4::parts::test_signing;
use sigv4::{KeptKey, SignChunk, SigningError, SigningSettings};
use smithy_core::{Headers, Mem};

impl SigV4MessageSigner<SigningSettings> {
    // The key of chunks and trailers, which is taken out, or else a new one.
    fn take_chunk_key(&mut self) -> Mem<Box<KeptKey>>
        ensures own { IfOk result (λ key. (box_value key).signer ≡ signer_in self.old) }
        ensures same { self.new ≡ self.old }
    {
        match self.chunk_key.take() {
            Some(key) => Ok(key),
            None => self.new_key(),
        }
    }

    // Puts a signature in place of the last one, and answers it too. Where memory ran out, nothing has changed.
    fn go_on(&mut self, signature: String) -> Mem<String>
        ensures answer { IfOk result (λ answer. string_bytes answer ≡ string_bytes signature) }
        ensures ok { OnOk result (self.new ≡ record self.old { running_signature = string_bytes signature }) }
        ensures err { OnErr result (self.new ≡ self.old) }
    {
        let answer = signature.clone()?;
        self.running_signature = signature;
        Ok(answer)
    }
}

/// Signs each chunk, and the trailers, at the moment of the request, over the last signature, in whose place the new one comes. The
/// signing key is derived once.
impl SignChunk for SigV4MessageSigner<SigningSettings> {
    ghost use Rattle.aws_auth.specs.ChunkSigner.{SignsChunkOver, SignsTrailersOver, chunk_told};

    ghost told = { chunk_told };

    ghost signs = { SignsChunkOver };

    ghost closes = { SignsTrailersOver };

    #[tactic(auto, using(crate::proofs::ChunkSignerLemmas::told_goes_on))]
    fn chunk_signature(&mut self, chunk: &Bytes) -> Result<String, SigningError> {
        let at = self.time;
        test_signing(&self.identity, at)?;
        let mut key = self.take_chunk_key()?;
        let signature = key.chunk_signature(chunk.as_slice(), self.running_signature(), at);
        self.chunk_key = Some(key);
        Ok(self.go_on(signature?)?)
    }

    #[tactic(auto, using(crate::proofs::ChunkSignerLemmas::told_goes_on))]
    fn trailer_signature(&mut self, trailing_headers: &Headers) -> Result<String, SigningError> {
        let at = self.time;
        test_signing(&self.identity, at)?;
        let mut key = self.take_chunk_key()?;
        let signature = key.trailer_signature(trailing_headers, self.running_signature(), at);
        self.chunk_key = Some(key);
        Ok(self.go_on(signature?)?)
    }
}
