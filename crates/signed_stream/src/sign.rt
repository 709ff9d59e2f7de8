ghost use Rattle.std.specs.Prelude.{◌≡◌, option_map};
ghost use Rattle.std.specs.String.{string_bytes};
ghost use Rattle.smithy_core.specs.Identity.{IsCredentials};
ghost use Rattle.signed_stream.specs.Case.{request_moment};
ghost use Rattle.signed_stream.specs.Status.{refused, stream_ending};
ghost use Rattle.signed_stream.specs.Sign.{GivesName, IsRequestError, SignsJob, error_ending, run_fault_for, identity_case};
ghost use Rattle.signed_stream.specs.Streaming.{stream_wanted};

use crate::status::StreamFault;
use crate::streaming::StreamOptions;
use aws_auth::{
    OverrideError, SigV4MessageSigner, SigV4OperationSigningConfig, SigV4SessionTokenNameOverride,
    SigV4Signer, SigV4SigningError, SigningInputs,
};
use sigv4::{SigningError, SigningSettings};
use smithy_core::{HttpRequest, Identity, Moment, Region, SigningName, copied_text};
use std::alloc::Global;

/// The request, signed, and what signs the messages that follow it.
///
/// # Errors
///
/// The first test of the moment, the target, the headers, the host, the token's name and the signature's own texts
/// that fails, and [`StreamFault::NoMemory`] where memory runs out.
pub fn sign_request(
    alloc: Global,
    request: HttpRequest,
    identity: &Identity,
    region: &str,
    options: &StreamOptions,
    first: Moment,
) -> Result<(HttpRequest, SigV4MessageSigner<()>), StreamFault>
    requires { IsCredentials identity.now }
    ensures { (form : _) → let wanted = stream_wanted options.now form in
        SignsJob (request_moment wanted first) (identity_case request identity.now region.now wanted first) request result }
{
    let mut signed = request;
    let config = SigV4OperationSigningConfig {
        region: Some(Region::new(String::from_str(alloc, region)?)),
        name: Some(SigningName::new(options.name.clone()?)),
        signing_options: options.signing.try_clone()?,
    };
    let inputs = SigningInputs {
        config: Some(&config),
        endpoint: None,
        name: None,
        region: None,
        payload: None,
        skew_millis: options.skew_millis,
    };
    let asked = copied_text(&options.token_name)?;
    let name_override = SigV4SessionTokenNameOverride::new(
        move |_: &SigningSettings, _: &SigV4OperationSigningConfig| name_asked(&asked),
    );
    let signer = SigV4Signer::new();
    match signer.sign_http_request(&mut signed, identity, &inputs, first, Some(&name_override)) {
        Ok(signature) => Ok((signed, signature.message_signer)),
        Err(error) => Err(fault_of(&error)),
    }
}

// The name that is asked for the session token.
fn name_asked(name: &Option<String>) -> Result<Option<String>, OverrideError>
    ensures { GivesName (option_map string_bytes name.now) result }
{
    match name {
        Some(name) => Ok(Some(name.clone()?)),
        None => Ok(None),
    }
}

/// The fault for an error of signing a request.
pub fn fault_of(error: &SigV4SigningError) -> StreamFault
    requires { IsRequestError error.now }
    ensures { stream_ending result ≡ error_ending error.now }
{
    match error {
        SigV4SigningError::Signing(error) => refusal_for(error),
        SigV4SigningError::NoMemory => StreamFault::NoMemory,
        _ => unreachable!(),
    }
}

// The fault for why a request isn't signed.
fn refusal_for(error: &SigningError) -> StreamFault
    requires { IsRequestError (SigV4SigningError.Signing error.now) }
    ensures { stream_ending result ≡ refused (run_fault_for error.now) }
{
    match error {
        SigningError::InvalidUri => StreamFault::InvalidUri,
        SigningError::InvalidHeaderName(place) => StreamFault::InvalidHeaderName(*place),
        SigningError::InvalidHeaderValue(place) => StreamFault::InvalidHeaderValue(*place),
        SigningError::MissingHost => StreamFault::MissingHost,
        SigningError::InvalidTokenName => StreamFault::InvalidTokenName,
        SigningError::MissingExpires => StreamFault::MissingExpires,
        SigningError::MomentOutOfRange(moment) => StreamFault::MomentOutOfRange(*moment),
        _ => unreachable!(),
    }
}
