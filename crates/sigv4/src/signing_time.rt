ghost use Rattle.std.specs.Prelude.{◌≡◌, IfOk, MatchOption, string_bytes};
ghost use Rattle.smithy_core.specs.Civil.{IsInYears, stamp};
ghost use Rattle.eventstream.specs.Key.{scope, signing_key};

use mac_core::{HmacSha256, hmac_sha256};
use smithy_core::{Civil, Mem, Moment, civil};
use std::alloc::Global;
use std::marker::Model;

/// A moment in the years 0 to 9999 with its date and its time of day, which are computed once for all texts of a signature.
///
/// Contracts see the moment.
#[derive(Drop)]
pub(crate) struct SigningTime {
    time: Moment,
    civil: Civil,
}

impl Model for SigningTime {
    ghost use Rattle.std.specs.Prelude.{◌≡◌};
    ghost use Rattle.smithy_core.specs.Civil.{IsInYears, civil_of};
    ghost use Rattle.smithy_core.specs.Moment.{Instant};

    ghost Value = { Instant };

    ghost view = { λ at. at.time };

    ghost invariant = { λ at. IsInYears at.time × (at.civil ≡ civil_of at.time) };
}

impl SigningTime {
    /// The moment, where it lies in the years 0 to 9999.
    pub(crate) fn new(time: Moment) -> Option<SigningTime>
        ensures { MatchOption result (IsInYears time → ⊥) (λ at. IsInYears time × (at ≡ time)) }
    {
        let civil = civil(time)?;
        Some(SigningTime { time, civil })
    }

    /// `YYYYMMDDTHHMMSSZ`.
    #[tactic(auto, unfolding(smithy_core::specs::Civil::stamp))]
    pub(crate) fn stamp(&self) -> [u8; 16]
        ensures { result ≡ stamp self.now }
    {
        self.civil.stamp()
    }

    /// `YYYYMMDDTHHMMSSZ`, as a string.
    #[tactic(auto, unfolding(smithy_core::specs::Civil::stamp))]
    pub(crate) fn stamp_text(&self, alloc: Global) -> Mem<String>
        ensures { IfOk result (λ text. string_bytes text ≡ stamp self.now) }
    {
        self.civil.stamp_text(alloc)
    }

    /// The date, the region, the name and `aws4_request`, with slashes between them.
    pub(crate) fn scope(&self, alloc: Global, region: &str, name: &str) -> Mem<String>
        ensures { IfOk result (λ text. string_bytes text ≡ scope self.now region.now name.now) }
    {
        let scope = self.scope_bytes(alloc, region, name)?;
        Ok(String::from_utf8(scope).unwrap())
    }

    /// The date, the region, the name and `aws4_request`, with slashes between them, as bytes.
    #[tactic(auto, unfolding(smithy_core::specs::Civil::date, eventstream::specs::Key::scope))]
    pub(crate) fn scope_bytes(&self, alloc: Global, region: &str, name: &str) -> Mem<Vec<u8>>
        ensures { IfOk result (λ text. text.items ≡ scope self.now region.now name.now) }
    {
        let date = self.civil.date();
        let mut scope = Vec::with_capacity(alloc, 64)?;
        scope.extend_from_slice(date.as_slice())?;
        scope.extend_from_slice(b"/")?;
        scope.extend_from_slice(region.as_bytes())?;
        scope.extend_from_slice(b"/")?;
        scope.extend_from_slice(name.as_bytes())?;
        scope.extend_from_slice(b"/aws4_request")?;
        Ok(scope)
    }

    /// The signing key of a secret for the date, a region and a name.
    #[tactic(auto, unfolding(mac_core::specs::Mac::mac, smithy_core::specs::Civil::date, eventstream::specs::Key::signing_key))]
    pub(crate) fn signing_key(&self, secret: &str, region: &str, name: &str) -> [u8; 32]
        ensures { result ≡ signing_key (record { secret = secret.now; region = region.now; name = name.now }) self.now }
    {
        let date = self.civil.date();
        let mut hasher = HmacSha256::new_from_parts(b"AWS4", secret.as_bytes());
        hasher.update(date.as_slice());
        let date_key = hasher.finalize();
        let region_key = hmac_sha256(date_key.as_slice(), region.as_bytes());
        let service_key = hmac_sha256(region_key.as_slice(), name.as_bytes());
        hmac_sha256(service_key.as_slice(), b"aws4_request")
    }
}
