ghost use Rattle.std.specs.Prelude.{◌≡◌, None, Some, MatchResult};
ghost use Rattle.smithy_core.specs.Civil.{IsInYears};
ghost use Rattle.sigv4.specs.EventStream.{unsignable};
ghost use Rattle.sigv4.specs.Request.{HasKeys};

use crate::error::SigningError;
use crate::signing_time::SigningTime;
use smithy_core::{Credentials, Identity, Moment};

/// Tests that an identity signs at a moment. The SDK has no such public call.
///
/// # Errors
///
/// [`SigningError::UnsupportedIdentityType`] where the identity has no secret and
/// [`SigningError::MomentOutOfRange`] where the moment lies outside the years 0 to 9999, in this order.
pub fn test_signing(identity: &Identity, at: Moment) -> Result<(), SigningError>
    ensures { MatchResult result
        (λ _. (unsignable identity.now at ≡ None) × IsInYears at)
        (λ error. unsignable identity.now at ≡ Some error) }
{
    signer_at(identity, at)?;
    Ok(())
}

/// The credentials of an identity and the moment with its date, where the identity signs then.
///
/// # Errors
///
/// Those of [`test_signing`].
pub(crate) fn signer_at(
    identity: &Identity,
    at: Moment,
) -> Result<(&Credentials, SigningTime), SigningError>
    ensures { MatchResult result
        (λ signer. (unsignable identity.now at ≡ None) × IsInYears at × HasKeys identity.now signer.0.now × (signer.1 ≡ at))
        (λ error. unsignable identity.now at ≡ Some error) }
{
    let Identity::Credentials(credentials) = identity else {
        return Err(SigningError::UnsupportedIdentityType);
    };
    let time = SigningTime::new(at).ok_or(SigningError::MomentOutOfRange(at))?;
    Ok((credentials, time))
}
