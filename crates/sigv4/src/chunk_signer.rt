use crate::error::SigningError;
use bytes::Bytes;
use smithy_core::Headers;

/// Signs the chunks of an upload and its trailers, each over the signature before it. Contracts see of a signer what `told` says;
/// `signs` and `closes` relate a signer before a call, what it was handed, its answer, and the signer after it.
pub trait SignChunk: Drop {
    ghost use Rattle.std.specs.Prelude.{ℕ, List, Result, String};
    ghost use Rattle.std.specs.declared.alloc.Global.{Global};
    ghost use Rattle.sigv4.specs.ChunkTold.{ChunkTold, SignsChunk, SignsTrailers};
    ghost use Rattle.sigv4.specs.Query.{Pair};
    ghost use Rattle.sigv4.specs.declared.error.SigningError.{SigningError};

    // what contracts know of it
    ghost told: { Self → ChunkTold };

    // the signing of a chunk, if more is known of it than the clauses below say
    ghost signs: { Self → List ℕ → Result (String Global) SigningError → Self → Type 0 } = { λ _ _ _ _. Unit {0} };

    // the signing of trailers, likewise
    ghost closes: { Self → List Pair → Result (String Global) SigningError → Self → Type 0 } = { λ _ _ _ _. Unit {0} };

    /// The signature of a chunk.
    ///
    /// # Errors
    ///
    /// Of a signer that signs over a running signature, which a refusal leaves: [`SigningError::UnsupportedIdentityType`] where the
    /// identity has no secret and [`SigningError::MomentOutOfRange`] where the moment lies outside the years 0 to 9999, in this
    /// order. Of one that waits for another signer [`SigningError::SignerNotWired`].
    fn chunk_signature(&mut self, chunk: &Bytes) -> Result<String, SigningError>
        ensures told { SignsChunk (told self.old) chunk.now result (told self.new) }
        ensures signs { signs self.old chunk.now result self.new };

    /// The signature of trailers.
    ///
    /// # Errors
    ///
    /// As [`SignChunk::chunk_signature`] has them.
    fn trailer_signature(&mut self, trailing_headers: &Headers) -> Result<String, SigningError>
        ensures told { SignsTrailers (told self.old) trailing_headers.now result (told self.new) }
        ensures closes { closes self.old trailing_headers.now result self.new };
}
