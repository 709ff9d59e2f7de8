ghost use Rattle.std.specs.Prelude.{◌≡◌, IfOk, MatchResult, Some};
ghost use Rattle.std.specs.String.{string_bytes};
ghost use Rattle.smithy_core.specs.Civil.{IsInYears};
ghost use Rattle.eventstream.specs.Key.{scope, signing_key};
ghost use Rattle.sigv4.specs.EventStream.{unsignable};
ghost use Rattle.sigv4.specs.Params.{signer_of, v4_identity, v4_time};

use crate::credentials::signer_at;
use crate::error::SigningError;
use crate::params::SigningParams;
use crate::signing_time::SigningTime;
use smithy_core::{Mem, Moment};
use std::alloc::Global;

/// The signing key of a secret for the date of a moment, a region and a service.
///
/// The moment has to lie in the years 0 to 9999.
pub fn generate_signing_key(secret: &str, time: Moment, region: &str, service: &str) -> [u8; 32]
    requires { IsInYears time }
    ensures { result ≡ signing_key (record { secret = secret.now; region = region.now; name = service.now }) time }
{
    let time = SigningTime::new(time).unwrap();
    time.signing_key(secret, region, service)
}

/// The signing key of parameters, which is that of all parameters with the same identity, region and name and a moment of the
/// same day. The SDK has no such public call.
///
/// # Errors
///
/// [`SigningError::UnsupportedIdentityType`] where the identity has no secret and
/// [`SigningError::MomentOutOfRange`] where the moment lies outside the years 0 to 9999, in this order.
pub fn signing_key_of<S>(params: &SigningParams<'_, S>) -> Result<[u8; 32], SigningError>
    ensures { MatchResult result
        (λ key. key ≡ signing_key (signer_of params.now) (v4_time params.now))
        (λ error. unsignable (v4_identity params.now) (v4_time params.now) ≡ Some error) }
{
    let (credentials, time) = signer_at(params.identity(), params.time())?;
    let secret = credentials.secret_access_key();
    Ok(time.signing_key(secret, params.region(), params.name()))
}

/// The scope of a signature: the date of a moment, the region, the name and `aws4_request`, with slashes between them.
///
/// The moment has to lie in the years 0 to 9999. The SDK has no such public call.
pub fn credential_scope(alloc: Global, time: Moment, region: &str, name: &str) -> Mem<String>
    requires { IsInYears time }
    ensures { IfOk result (λ text. string_bytes text ≡ scope time region.now name.now) }
{
    let time = SigningTime::new(time).unwrap();
    time.scope(alloc, region, name)
}
