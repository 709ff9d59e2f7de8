//! What a signing key is made of, and who signs a link of a chain.
ghost use Rattle.std.specs.Prelude.{◌≡◌, ◌⊎◌, true, false, None, Some, IfOk, MatchResult};
ghost use Rattle.smithy_core.specs.Identity.{IsCredentials, secret_of};
ghost use Rattle.sigv4.specs.EventStream.{unsignable};
ghost use Rattle.sigv4.specs.Params.{signer_of, v4_identity, v4_time};
ghost use Rattle.firuvaik_c.specs.Faults.{no_memory, not_text};
ghost use Rattle.firuvaik_c.specs.Links.{is_text_scope, link_over, linkless};

use crate::fault::Fault;
use crate::lent::Signer;
use crate::texts::{test_years, text_of};
use sigv4::v4;
use smithy_core::{Credentials, Identity, Moment};
use std::alloc::Global;
use std::marker::Model;

/// The texts that a signing key is made of.
#[derive(Clone, Copy)]
pub(crate) struct ScopeTexts<'a> {
    pub(crate) secret: &'a str,
    pub(crate) region: &'a str,
    pub(crate) service: &'a str,
}

/// The texts that a signing key is made of.
pub(crate) fn scope_texts<'a>(signer: &Signer<'a>) -> Result<ScopeTexts<'a>, Fault>
    ensures texts { MatchResult result (λ _. is_text_scope signer.now ≡ true) (λ fault. (is_text_scope signer.now ≡ false) × (fault ≡ not_text)) }
    ensures secret { IfOk result (λ texts. texts.secret.now ≡ signer.now.secret.now) }
    ensures region { IfOk result (λ texts. texts.region.now ≡ signer.now.region.now) }
    ensures service { IfOk result (λ texts. texts.service.now ≡ signer.now.service.now) }
{
    let secret = text_of(signer.secret)?;
    let region = text_of(signer.region)?;
    let service = text_of(signer.service)?;
    Ok(ScopeTexts {
        secret,
        region,
        service,
    })
}

// Credentials with a secret alone: a chain has no key id and no token.
fn nameless(alloc: Global, secret: &str) -> Result<Identity, Fault>
    ensures { MatchResult result (λ identity. IsCredentials identity × (secret_of identity ≡ secret.now)) (λ fault. fault ≡ no_memory) }
{
    let key_id = String::new(alloc);
    let secret = String::from_str(alloc, secret)?;
    Ok(Identity::Credentials(Credentials::new(key_id, secret, None, None)))
}

/// A link of a chain that can be signed: who signs it, when, and the signature before it.
///
/// Contracts see what its signature is made of.
#[derive(Drop)]
pub(crate) struct Link<'a> {
    identity: Identity,
    region: &'a str,
    service: &'a str,
    at: Moment,
    previous_signature: &'a str,
}

impl<'a> Model for Link<'a> {
    ghost use Rattle.std.specs.Prelude.{◌≡◌, true};
    ghost use Rattle.smithy_core.specs.Civil.{is_in_years};
    ghost use Rattle.smithy_core.specs.Identity.{IsCredentials, secret_of};
    ghost use Rattle.firuvaik_c.specs.Links.{LinkParts};

    ghost Value = { LinkParts };

    ghost view = { λ link. record {
      signer = record { secret = secret_of link.identity; region = link.region.now; name = link.service.now };
      at = link.at;
      previous_signature = link.previous_signature.now;
    } };

    ghost invariant = { λ link. IsCredentials link.identity × (is_in_years link.at ≡ true) };
}

impl<'a> Link<'a> {
    /// The link of a signer at a second, over the signature before it.
    pub(crate) fn new(
        alloc: Global,
        signer: &Signer<'a>,
        seconds: i64,
        previous_signature: &'a [u8; 64],
    ) -> Result<Link<'a>, Fault>
        ensures { MatchResult result
            (λ link. (linkless signer.now seconds previous_signature.now ≡ None) × (link ≡ link_over signer.now seconds previous_signature.now))
            (λ fault. (linkless signer.now seconds previous_signature.now ≡ Some fault) ⊎ (fault ≡ no_memory)) }
    {
        let texts = scope_texts(signer)?;
        let previous_signature = text_of(previous_signature.as_slice())?;
        let at = Moment::new(seconds, 0);
        test_years(at)?;
        let identity = nameless(alloc, texts.secret)?;
        Ok(Link {
            identity,
            region: texts.region,
            service: texts.service,
            at,
            previous_signature,
        })
    }

    /// The signature before it.
    pub(crate) fn previous_signature(&self) -> &str
        ensures { result.now ≡ self.now.previous_signature }
    {
        self.previous_signature
    }

    /// The parameters of its signature.
    #[tactic(auto, using(crate::proofs::SignLemmas::able))]
    pub(crate) fn params(&self) -> v4::SigningParams<'_, ()>
        ensures signer { signer_of result ≡ self.now.signer }
        ensures time { v4_time result ≡ self.now.at }
        ensures able { unsignable (v4_identity result) (v4_time result) ≡ None }
    {
        v4::SigningParams::new(&self.identity, self.region, self.service, self.at, ())
    }
}
