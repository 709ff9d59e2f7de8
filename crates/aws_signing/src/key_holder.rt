ghost use Rattle.std.specs.Prelude.{◌≡◌, None, Some, IfOk, MatchResult, string_bytes};
ghost use Rattle.smithy_core.specs.Identity.{IsCredentials};
ghost use Rattle.eventstream.specs.Key.{signing_key};
ghost use Rattle.sigv4.specs.ChunkTold.{signs_over, unsigned_chunk_at};
ghost use Rattle.aws_auth.specs.ChunkSigner.{chunk_told};
ghost use Rattle.sigv4.specs.Params.{signer_of, v4_identity, v4_settings, v4_time};
ghost use Rattle.sigv4.specs.Request.{key_id_of, token_of};
ghost use Rattle.chain_watch.specs.Watch.{new_watch};
ghost use Rattle.sigv4.specs.Settings.{settings_of};
ghost use Rattle.aws_signing.specs.KeyHolder.{held_key, key_kept};
ghost use Rattle.aws_signing.specs.Service.{own_service};

use crate::service::Service;
use aws_auth::SigV4MessageSigner;
use chain_watch::ChainWatch;
use request_door::KeyList;
use sigv4::{KeptKey, SigningError, SigningSettings, v4};
use smithy_core::{Credentials, Identity, Mem, Moment, Region, SigningName, is_in_years};
use std::alloc::Global;
use std::marker::Model;

/// Who signs, for which region and service, and the signing key that is kept for its day.
///
/// Contracts see a `HeldKey`: what goes out of the credentials, and the kept key, which knows who signs.
pub(crate) struct KeyHolder {
    identity: Identity,
    region: String,
    name: String,
    kept: KeptKey,
}

// Written out: a derived drop would be taken apart in the proof of each function that drops one.
impl Drop for KeyHolder {
    fn drop(self) {
        let KeyHolder {
            identity,
            region,
            name,
            kept,
        } = self;
        drop(identity);
        drop(region);
        drop(name);
        drop(kept);
    }
}

impl Model for KeyHolder {
    ghost use Rattle.std.specs.Prelude.{◌≡◌, string_bytes};
    ghost use Rattle.smithy_core.specs.Identity.{IsCredentials};
    ghost use Rattle.sigv4.specs.Request.{key_id_of, token_of};
    ghost use Rattle.aws_signing.specs.KeyHolder.{HeldKey, IsHeldBy};

    ghost Value = { HeldKey };

    ghost view = { λ holder. record { key_id = key_id_of holder.identity; token = token_of holder.identity; kept = holder.kept } };

    ghost invariant = { λ holder. IsHeldBy holder.identity (string_bytes holder.region) (string_bytes holder.name) holder.kept.signer };
}

impl KeyHolder {
    /// No key yet, of credentials for a region and a service's name.
    pub(crate) fn new(
        alloc: Global,
        credentials: &Credentials,
        region: &str,
        name: &str,
    ) -> Mem<KeyHolder>
        ensures { IfOk result (λ holder. holder ≡ held_key credentials.now region.now name.now) }
    {
        let identity = Identity::Credentials(credentials.try_clone()?);
        let secret = String::from_str(alloc, credentials.secret_access_key())?;
        let kept = KeptKey::new(
            secret,
            String::from_str(alloc, region)?,
            String::from_str(alloc, name)?,
        );
        Ok(KeyHolder {
            identity,
            region: String::from_str(alloc, region)?,
            name: String::from_str(alloc, name)?,
            kept,
        })
    }

    /// The allocator of what is held.
    pub(crate) fn allocator(&self) -> Global {
        *self.region.allocator()
    }

    /// The parameters of a signature at a moment.
    pub(crate) fn params<S>(&self, at: Moment, settings: S) -> v4::SigningParams<'_, S>
        ensures key_id { key_id_of (v4_identity result) ≡ self.now.key_id }
        ensures token { token_of (v4_identity result) ≡ self.now.token }
        ensures credentials { IsCredentials (v4_identity result) }
        ensures signer { signer_of result ≡ self.now.kept.signer }
        ensures time { v4_time result ≡ at }
        ensures settings { v4_settings result ≡ settings }
    {
        let (region, name) = (self.region.as_str(), self.name.as_str());
        v4::SigningParams::new(&self.identity, region, name, at, settings)
    }

    /// The signing key of a moment, which is kept for its day.
    ///
    /// # Errors
    ///
    /// [`SigningError::MomentOutOfRange`] where the moment lies outside the years 0 to 9999.
    pub(crate) fn key_at(&mut self, at: Moment) -> Result<[u8; 32], SigningError>
        ensures key { MatchResult result
            (λ key. (unsigned_chunk_at at ≡ None) × (key ≡ signing_key self.old.kept.signer at))
            (λ error. unsigned_chunk_at at ≡ Some error) }
        ensures kept { self.new ≡ key_kept self.old at }
    {
        if !is_in_years(at) {
            return Err(SigningError::MomentOutOfRange(at));
        }
        Ok(self.kept.key(at))
    }

    /// The service that knows this key alone, and takes requests which are signed by these settings.
    pub(crate) fn service(&self, settings: SigningSettings) -> Mem<Service<KeyList>>
        ensures { IfOk result (λ service. service ≡ own_service self.now (settings_of settings)) }
    {
        let alloc = self.allocator();
        let mut keys = KeyList::new(alloc);
        keys.push(self.key_id(), self.identity.secret())?;
        Service::of(
            alloc,
            self.region.as_str(),
            self.name.as_str(),
            settings,
            keys,
        )
    }

    // The key's id.
    fn key_id(&self) -> &str
        ensures { result.now ≡ self.now.key_id }
    {
        match &self.identity {
            Identity::Credentials(credentials) => credentials.access_key_id(),
            Identity::Token(_) => unreachable!(),
        }
    }

    /// What checks the chain of events from the signature of a request on.
    pub(crate) fn watch(&self, signature: &str) -> Mem<ChainWatch>
        ensures { IfOk result (λ watch. watch ≡ new_watch self.now.kept.signer signature.now) }
    {
        let (region, name) = (self.region.as_str(), self.name.as_str());
        ChainWatch::new(
            self.allocator(),
            signature,
            self.identity.secret(),
            region,
            name,
        )
    }

    /// What signs chunks and trailers over the signature of a request, at its moment.
    pub(crate) fn chunk_signer(
        &self,
        signature: String,
        at: Moment,
        settings: SigningSettings,
    ) -> Mem<SigV4MessageSigner<SigningSettings>>
        ensures { IfOk result (λ signer. chunk_told signer ≡ signs_over (string_bytes signature) self.now.kept.signer at) }
    {
        let alloc = self.allocator();
        Ok(SigV4MessageSigner::new(
            signature,
            self.identity.try_clone()?,
            Region::from_str(alloc, self.region.as_str())?,
            SigningName::from_str(alloc, self.name.as_str())?,
            at,
            settings,
        ))
    }

    /// The same, with the same key kept.
    pub(crate) fn try_clone(&self) -> Mem<KeyHolder>
        ensures { IfOk result (λ copy. copy ≡ self.now) }
    {
        Ok(KeyHolder {
            identity: self.identity.try_clone()?,
            region: self.region.clone()?,
            name: self.name.clone()?,
            kept: self.kept.try_clone()?,
        })
    }
}
