ghost use Rattle.std.specs.Prelude.{◌≡◌};
ghost use Rattle.eventstream.specs.Key.{signing_key};
ghost use Rattle.sigv4.specs.EventStream.{IsKeyOf};
ghost use Rattle.sigv4.specs.Params.{signer_of, v4_identity, v4_time};
ghost use Rattle.sigv4.specs.Refusal.{unfit};
ghost use Rattle.sigv4.specs.Request.{HasKeys, identity_of, request_case, v4_request_case};
ghost use Rattle.sigv4.specs.RequestSigning.{IsRequestKey, SignsUnlessRefused, SignsCase, GivesCanonical};

use crate::credentials::signer_at;
use crate::error::SigningError;
use crate::instructions::SigningInstructions;
use crate::key::signing_key_of;
use crate::output::SigningOutput;
use crate::request::SignableRequest;
use crate::settings::SigningSettings;
use crate::signed::instructions;
use crate::signing_params::SigningParams;
use crate::signing_texts::SigningTexts;
use crate::signing_time::SigningTime;
use crate::v4;
use smithy_core::Credentials;
use std::alloc::Global;

/// Signs a request: what the signature adds to it, and the signature.
///
/// ```rust
/// let settings = SigningSettings::new(alloc)?;
/// let params = v4::SigningParams::new(&identity, "us-east-1", "service", at, settings);
/// let signable = SignableRequest::from_http_request(alloc, &request)?;
/// let signed = sign(alloc, signable, &SigningParams::V4(params))?;
/// let (instructions, signature) = signed.into_parts();
/// instructions.apply_to_request(&mut request)?;
/// ```
///
/// Some of what no service accepts is signed all the same, since AWS's rules for a signature are defined for it: an empty key id,
/// secret, region or name, and an expiry of 0 or of more than 604,800 seconds. A target that is presigned already gets the
/// parameters of a signature a second time, which makes a bad URL: presign the target as it was before.
///
/// # Errors
///
/// The first of these: [`SigningError::UnsupportedIdentityType`] where the identity has no secret;
/// [`SigningError::MomentOutOfRange`] where the moment lies outside the years 0 to 9999; [`SigningError::InvalidUri`] where
/// the target is `*` and the signature goes into its query; for each header in order [`SigningError::InvalidHeaderName`] and
/// [`SigningError::InvalidHeaderValue`] with its place, counted from 1; [`SigningError::MissingHost`] where neither the
/// target nor a header has one, and [`SigningError::InvalidHeaderValue`] where its text is no header's value;
/// [`SigningError::InvalidTokenName`] where the settings give the token a name that it can't have; then, where the
/// signature goes into headers, [`SigningError::InvalidHeaderValue`] where the token, the payload's text that goes into a
/// header, or the authorization is no header's value, and else [`SigningError::MissingExpires`] where the settings give no
/// expiry.
pub fn sign(
    alloc: Global,
    request: SignableRequest<'_>,
    params: &SigningParams<'_>,
) -> Result<SigningOutput<SigningInstructions>, SigningError>
    ensures { SignsCase (identity_of params.now) (request_case request.entry params.now) result }
{
    sign_request(alloc, &request, params)
}

/// Signs a request as [`sign`] does, under a signing key that is at hand. The SDK has no such public call.
///
/// Where the identity is credentials and the moment lies in the years 0 to 9999, the key has to be the signing key of the
/// parameters; elsewhere it may be any. A key holds for the day, so a caller that signs thousands of requests for others, as a
/// proxy does, derives it once:
///
/// ```rust
/// let params = v4::SigningParams::new(&identity, "us-east-1", "service", at, settings);
/// let key = v4::signing_key_of(&params)?;
/// let params = SigningParams::V4(params);
/// for request in &mut requests {
///     let signable = SignableRequest::from_http_request(alloc, request)?;
///     let (instructions, _) = sign_with_key(alloc, signable, &params, &key)?.into_parts();
///     instructions.apply_to_request(request)?;
/// }
/// ```
///
/// # Errors
///
/// Those of [`sign`].
pub fn sign_with_key(
    alloc: Global,
    request: SignableRequest<'_>,
    params: &SigningParams<'_>,
    key: &[u8; 32],
) -> Result<SigningOutput<SigningInstructions>, SigningError>
    requires { IsRequestKey params.now key.now }
    ensures { SignsCase (identity_of params.now) (request_case request.entry params.now) result }
{
    sign_request_with_key(alloc, &request, params, key)
}

/// Signs a request as [`sign`] does, and leaves it to its caller. The SDK has no such public call.
///
/// With it a target is read once where the request itself is to be signed:
///
/// ```rust
/// let signable = SignableRequest::from_http_request(alloc, &request)?;
/// let signed = sign_request(alloc, &signable, &params)?;
/// let uri = signable.into_uri();
/// let (instructions, signature) = signed.into_parts();
/// instructions.apply_to_parsed(&mut request, &uri)?;
/// ```
///
/// # Errors
///
/// Those of [`sign`].
pub fn sign_request(
    alloc: Global,
    request: &SignableRequest<'_>,
    params: &SigningParams<'_>,
) -> Result<SigningOutput<SigningInstructions>, SigningError>
    ensures { SignsCase (identity_of params.now) (request_case request.now params.now) result }
{
    let SigningParams::V4(params) = params;
    let key = signing_key_of(params)?;
    sign_v4(alloc, request, params, &key)
}

/// Signs a request as [`sign_with_key`] does, and leaves it to its caller as [`sign_request`] does. The SDK has no such public call.
///
/// The condition on the key is that of [`sign_with_key`].
///
/// # Errors
///
/// Those of [`sign`].
pub fn sign_request_with_key(
    alloc: Global,
    request: &SignableRequest<'_>,
    params: &SigningParams<'_>,
    key: &[u8; 32],
) -> Result<SigningOutput<SigningInstructions>, SigningError>
    requires { IsRequestKey params.now key.now }
    ensures { SignsCase (identity_of params.now) (request_case request.now params.now) result }
{
    let SigningParams::V4(params) = params;
    sign_v4(alloc, request, params, key)
}

// The signed request under the signing key of the parameters.
fn sign_v4(
    alloc: Global,
    request: &SignableRequest<'_>,
    params: &v4::SigningParams<'_, SigningSettings>,
    key: &[u8; 32],
) -> Result<SigningOutput<SigningInstructions>, SigningError>
    requires { IsKeyOf params.now key.now }
    ensures { SignsCase (v4_identity params.now) (v4_request_case request.now params.now) result }
{
    let (credentials, time) = signer_at(params.identity(), params.time())?;
    sign_at(alloc, request, params, credentials, &time, key)
}

// The signed request of the credentials at the moment of the parameters.
fn sign_at(
    alloc: Global,
    request: &SignableRequest<'_>,
    params: &v4::SigningParams<'_, SigningSettings>,
    credentials: &Credentials,
    time: &SigningTime,
    key: &[u8; 32],
) -> Result<SigningOutput<SigningInstructions>, SigningError>
    requires time { time.now ≡ v4_time params.now }
    requires keys { HasKeys (v4_identity params.now) credentials.now }
    requires key { key.now ≡ signing_key (signer_of params.now) (v4_time params.now) }
    ensures { SignsUnlessRefused (unfit (v4_request_case request.now params.now)) (v4_request_case request.now params.now) result }
{
    let texts = SigningTexts::new(alloc, request, params, credentials, time)?;
    let signature = texts.signature(alloc, key.as_slice())?;
    let token = credentials.session_token();
    let instructions = instructions(alloc, params.settings(), token, texts, signature.as_str())?;
    Ok(SigningOutput::new(instructions, signature))
}

/// The canonical text of a request.
///
/// # Errors
///
/// Those of [`sign`].
pub fn canonical_text(
    alloc: Global,
    request: &SignableRequest<'_>,
    params: &SigningParams<'_>,
) -> Result<String, SigningError>
    ensures { GivesCanonical (identity_of params.now) (request_case request.now params.now) result }
{
    let SigningParams::V4(params) = params;
    let (credentials, time) = signer_at(params.identity(), params.time())?;
    let texts = SigningTexts::new(alloc, request, params, credentials, &time)?;
    Ok(texts.canonical)
}
