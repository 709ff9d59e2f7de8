ghost use Rattle.std.specs.Prelude.{◌≡◌};
ghost use Rattle.sigv4.specs.ChunkTold.{SignsChunk, SignsTrailers, unwired};

use crate::chunk_signer::SignChunk;
use crate::error::SigningError;
use bytes::Bytes;
use smithy_core::Headers;

/// Signs chunks as the signer does that it was handed last; before that it refuses with [`SigningError::SignerNotWired`]. A deferred
/// signer isn't put into a box itself.
pub struct ChunkDeferredSigner {
    signer: Option<Box<dyn SignChunk>>,
}

// Written out: a derived drop would be taken apart in the proof of each function that drops one.
impl Drop for ChunkDeferredSigner {
    fn drop(self) {
        let ChunkDeferredSigner { signer } = self;
        drop(signer);
    }
}

impl ChunkDeferredSigner {
    /// A signer that waits for another one.
    pub fn new() -> ChunkDeferredSigner
        ensures { ⟦<ChunkDeferredSigner as SignChunk>⟧.told result ≡ unwired }
    {
        ChunkDeferredSigner { signer: None }
    }

    /// A signer that no other one is meant for.
    pub fn empty() -> ChunkDeferredSigner
        ensures { ⟦<ChunkDeferredSigner as SignChunk>⟧.told result ≡ unwired }
    {
        ChunkDeferredSigner::new()
    }

    /// Signs as this signer does from now on. The one before it is dropped.
    pub fn wire(&mut self, signer: Box<dyn SignChunk>)
        ensures { ⟦<ChunkDeferredSigner as SignChunk>⟧.told self.new ≡ told signer }
    {
        self.signer = Some(signer);
    }
}

impl SignChunk for ChunkDeferredSigner {
    ghost use Rattle.std.specs.Prelude.{Err, IfSome, IsNone, Some};
    ghost use Rattle.std.specs.Option.{option_map_or};
    ghost use Rattle.sigv4.specs.declared.error.SigningError.TheVariants.{SignerNotWired};

    ghost told = { λ deferred. option_map_or (λ b. (SignChunk-box b).told b.value) deferred.signer unwired };

    ghost signs = { λ old chunk result new.
        IfSome old.signer (λ b. (after : _) × (SignChunk-box b).signs b.value chunk result after × (new.signer ≡ Some (record b { value = after })))
        × (IsNone old.signer → (result ≡ Err SignerNotWired) × IsNone new.signer) };

    ghost closes = { λ old trailers result new.
        IfSome old.signer (λ b. (after : _) × (SignChunk-box b).closes b.value trailers result after × (new.signer ≡ Some (record b { value = after })))
        × (IsNone old.signer → (result ≡ Err SignerNotWired) × IsNone new.signer) };

    fn chunk_signature(&mut self, chunk: &Bytes) -> Result<String, SigningError> {
        match &mut self.signer {
            Some(signer) => sign_by(signer, chunk),
            None => Err(SigningError::SignerNotWired),
        }
    }

    fn trailer_signature(&mut self, trailing_headers: &Headers) -> Result<String, SigningError> {
        match &mut self.signer {
            Some(signer) => sign_trailers_by(signer, trailing_headers),
            None => Err(SigningError::SignerNotWired),
        }
    }
}

// The box's signer signs, and is in the box then.
fn sign_by(signer: &mut Box<dyn SignChunk>, chunk: &Bytes) -> Result<String, SigningError>
    ensures { (after : _) × SignsChunk ((SignChunk-box signer.old).told signer.old.value) chunk.now result ((SignChunk-box signer.old).told after)
        × (SignChunk-box signer.old).signs signer.old.value chunk.now result after × (signer.new ≡ record signer.old { value = after }) }
{
    signer.chunk_signature(chunk)
}

// The box's signer signs the trailers, and is in the box then.
fn sign_trailers_by(
    signer: &mut Box<dyn SignChunk>,
    trailing_headers: &Headers,
) -> Result<String, SigningError>
    ensures { (after : _) × SignsTrailers ((SignChunk-box signer.old).told signer.old.value) trailing_headers.now result ((SignChunk-box signer.old).told after)
        × (SignChunk-box signer.old).closes signer.old.value trailing_headers.now result after × (signer.new ≡ record signer.old { value = after }) }
{
    signer.trailer_signature(trailing_headers)
}
