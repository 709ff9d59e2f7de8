ghost use Rattle.std.specs.Prelude.{◌≡◌, IfOk};
ghost use Rattle.smithy_core.specs.Civil.{IsInYears};
ghost use Rattle.eventstream.specs.Link.{link_code};

use sigv4::KeptKey;
use smithy_core::{Mem, Moment};
use std::alloc::Global;
use std::marker::Model;

// Who signs a chain, and for which region and service, with the signing key of the day of the last frame.
//
// Contracts see who signs.
pub(crate) struct ChainSigner {
    kept: KeptKey,
}

// Written out: a derived drop would be taken apart in the proof of each function that drops one.
impl Drop for ChainSigner {
    fn drop(self) {
        let ChainSigner { kept } = self;
        drop(kept);
    }
}

impl Model for ChainSigner {
    ghost use Rattle.eventstream.specs.Key.{Signer};

    ghost Value = { Signer };

    ghost view = { λ signer. signer.kept.signer };
}

impl ChainSigner {
    // Who signs with this secret, for a region and a service's name.
    pub(crate) fn new(alloc: Global, secret: &str, region: &str, name: &str) -> Mem<ChainSigner>
        ensures { IfOk result (λ signer. signer ≡ record { secret = secret.now; region = region.now; name = name.now }) }
    {
        Ok(ChainSigner {
            kept: KeptKey::new(
                String::from_str(alloc, secret)?,
                String::from_str(alloc, region)?,
                String::from_str(alloc, name)?,
            ),
        })
    }

    // The HMAC of the link of a payload over the signature before it.
    #[tactic(auto, using(sigv4::proofs::KeptKeyLemmas::kept_signer))]
    pub(crate) fn link_code(
        &mut self,
        payload: &[u8],
        signature: &str,
        date: Moment,
    ) -> Mem<[u8; 32]>
        requires { IsInYears date }
        ensures code { IfOk result (λ code. code ≡ link_code self.old signature.now payload.now date) }
        ensures signer { self.new ≡ self.old }
    {
        self.kept.link_code(payload, signature, date)
    }
}
