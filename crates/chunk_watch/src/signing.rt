ghost use Rattle.std.specs.Prelude.{◌≡◌, IfOk, string_bytes};
ghost use Rattle.sigv4.specs.Chunk.{chunk_signature, trailer_signature};
ghost use Rattle.chunk_watch.specs.Signing.{MakesChunkSigner};

use crate::fault::ChunkFault;
use sigv4::KeptKey;
use smithy_core::{Headers, Mem, Moment, is_in_years};
use std::alloc::Global;
use std::marker::Model;

// The signing key of the chunks of a body, which is derived once, and the moment at which they are signed.
//
// Contracts see who signs, and the moment.
pub(crate) struct ChunkSigner {
    key: KeptKey,
    at: Moment,
}

// Written out: a derived drop would be taken apart in the proof of each function that drops one.
impl Drop for ChunkSigner {
    fn drop(self) {
        let ChunkSigner { key, at: _ } = self;
        drop(key);
    }
}

impl Model for ChunkSigner {
    ghost use Rattle.smithy_core.specs.Civil.{IsInYears};
    ghost use Rattle.chunk_watch.specs.Signing.{Signing};

    ghost Value = { Signing };

    ghost view = { λ signer. record { signer = signer.key.signer; at = signer.at } };

    ghost invariant = { λ signer. IsInYears signer.at };
}

impl ChunkSigner {
    // Who signs with this secret, for a region and a service's name, at a moment.
    pub(crate) fn new(
        alloc: Global,
        secret: &str,
        region: &str,
        name: &str,
        at: Moment,
    ) -> Result<ChunkSigner, ChunkFault>
        ensures { MakesChunkSigner (record { secret = secret.now; region = region.now; name = name.now }) at result }
    {
        if !is_in_years(at) {
            return Err(ChunkFault::MomentOutOfRange);
        }
        let secret = String::from_str(alloc, secret)?;
        let region = String::from_str(alloc, region)?;
        let name = String::from_str(alloc, name)?;
        Ok(ChunkSigner {
            key: KeptKey::new(secret, region, name),
            at,
        })
    }

    // The signature of a chunk's data over the signature before it.
    pub(crate) fn chunk_signature(&mut self, bytes: &[u8], before: &str) -> Mem<String>
        ensures own { IfOk result (λ own. string_bytes own ≡ chunk_signature bytes.now self.old.signer self.old.at before.now) }
        ensures same { self.new ≡ self.old }
    {
        self.key.chunk_signature(bytes, before, self.at)
    }

    // The signature of trailers over the signature before it.
    pub(crate) fn trailer_signature(&mut self, trailers: &Headers, before: &str) -> Mem<String>
        ensures own { IfOk result (λ own. string_bytes own ≡ trailer_signature trailers.now self.old.signer self.old.at before.now) }
        ensures same { self.new ≡ self.old }
    {
        self.key.trailer_signature(trailers, before, self.at)
    }
}
