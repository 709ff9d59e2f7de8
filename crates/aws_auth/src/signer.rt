ghost use Rattle.std.specs.Prelude.{◌≡◌, None, IfOk, IfSome, OnErr, option_copied, string_bytes};
ghost use Rattle.sigv4.specs.EventStream.{unsignable};
ghost use Rattle.sigv4.specs.Params.{signer_of, v4_identity, v4_settings, v4_time};
ghost use Rattle.sigv4.specs.Request.{identity_of};
ghost use Rattle.sigv4.specs.SigningParams.{params_time};
ghost use Rattle.aws_auth.specs.MessageSigner.{GoesOn};
ghost use Rattle.aws_auth.specs.Signer.{AnswersAlone, IsSameSigned, SignsByInputs, SignsPlainly};
ghost use Rattle.aws_auth.specs.Steps.{IsSignedWith, PreparesSigning, SignsParts, SignsTarget, TestsParams, params_case};

use crate::error::SigV4SigningError;
use crate::inputs::{SigningInputs, choose, signable_body};
use crate::message_signer::SigV4MessageSigner;
use crate::name_override::{OverrideError, SigV4SessionTokenNameOverride};
use crate::options::SigV4OperationSigningConfig;
use crate::payload::PayloadSigningOverride;
use crate::settings::named_settings;
use http_uri::Uri;
use sigv4::{
    SignableRequest, SigningError, SigningInstructions, SigningOutput, SigningParams,
    SigningSettings, sign_request, v4,
};
use smithy_core::{HttpRequest, Identity, Mem, Moment, Region, SigningName, is_in_years};
use std::alloc::Global;
use std::fmt;

/// The signature of a request, and what signs what follows it.
#[derive(Drop)]
pub struct Signed {
    /// The signature.
    pub signature: String,
    /// What signs the messages that follow.
    pub message_signer: SigV4MessageSigner<()>,
    /// What signs the chunks that follow, at the moment of the request.
    pub chunk_signer: SigV4MessageSigner<SigningSettings>,
}

impl Signed {
    /// The same signature, and signers that go on from the same ones.
    pub fn try_clone(&self) -> Mem<Signed>
        ensures { IfOk result (IsSameSigned self.now) }
    {
        Ok(Signed {
            signature: self.signature.clone()?,
            message_signer: self.message_signer.try_clone()?,
            chunk_signer: self.chunk_signer.try_clone()?,
        })
    }
}

// Shows nothing of them: the signature is all that one needs of a presigned target.
impl fmt::Debug for Signed {
    ghost use Rattle.std.specs.Prelude.{Some, codes};

    ghost debug_output = { λ _. Some (codes "Signed") };

    fn fmt<W: fmt::Write>(&self, f: &mut fmt::Formatter<W>) -> fmt::Result {
        f.write_str("Signed")
    }
}

/// What signs a request.
#[derive(Clone, Copy, Debug)]
pub struct SigV4Signer;

impl SigV4Signer {
    /// A signer.
    pub fn new() -> SigV4Signer {
        SigV4Signer
    }

    /// Signs a request in place. The answer has the signature, and two signers that go on from it.
    ///
    /// The region is the endpoint's, or else that of the inputs, or else the config's, and so is the name of the service. What
    /// is signed of the payload is what the inputs say, or else the config, or else the body. The moment is `now`, shifted by
    /// the skew where the signature goes into headers. Whether signing is optional changes nothing. An override that is given has
    /// to be one that may be called on all settings and configs, which is the one condition on a caller; it is asked once at most,
    /// for the settings but for the token's name and the config.
    /// (That it is asked no second time is in no clause: those of an `Fn` relate what it is handed to what it answers, and count
    /// no calls.)
    ///
    /// The request's method is taken as it is: that it is a token isn't tested here, so that CR and LF in it pass into the
    /// canonical text. What [`sign`](sigv4::sign) takes of keys, regions, names, expiries and presigned targets is taken here too;
    /// a region or a name that is there and empty isn't missing.
    ///
    /// # Errors
    ///
    /// The first of these, and the request stays as it is:
    ///
    /// - [`SigV4SigningError::WrongIdentityType`] where the identity isn't credentials;
    /// - [`SigV4SigningError::MissingOperationSigningConfig`] where the inputs have no config;
    /// - [`SigV4SigningError::BadTypeInEndpointAuthSchemeConfig`] with the first field of the endpoint whose value is of
    ///   another type: `signingName` and `signingRegion` are texts, `disableDoubleEncoding` and `disableNormalizePath` truth
    ///   values;
    /// - [`SigV4SigningError::NameOverrideRefused`] where the override refuses;
    /// - [`SigV4SigningError::MissingSigningRegion`] and [`SigV4SigningError::MissingSigningName`];
    /// - [`SigV4SigningError::Signing`] where the moment lies outside the years 0 to 9999, then where the target isn't
    ///   accepted, then as [`sign`](sigv4::sign) and then as
    ///   [`apply_to_request`](sigv4::SigningInstructions::apply_to_request) refuse.
    pub fn sign_http_request<F>(
        &self,
        request: &mut HttpRequest,
        identity: &Identity,
        inputs: &SigningInputs<'_>,
        now: Moment,
        name_override: Option<&SigV4SessionTokenNameOverride<F>>,
    ) -> Result<Signed, SigV4SigningError>
    where
        F: Fn(
            &SigningSettings,
            &SigV4OperationSigningConfig,
        ) -> Result<Option<String>, OverrideError>,
        requires callable { IfSome (option_copied name_override) F.IsAlwaysCallable }
        ensures signs { SignsByInputs F.Fn (option_copied name_override.entry) identity.now inputs.now now request.old request.new result }
        ensures method { request.new.method ≡ request.old.method }
        ensures body { request.new.body ≡ request.old.body }
        ensures err { OnErr result (request.new ≡ request.old) }
    {
        let alloc = *request.method.allocator();
        let (params, payload) = prepared(alloc, identity, inputs, now, name_override)?;
        Ok(sign_by(alloc, request, payload, params)?)
    }

    /// As [`SigV4Signer::sign_http_request`] without an override of the session token's name: signs a request in place, and
    /// answers the signature and two signers that go on from it.
    ///
    /// # Errors
    ///
    /// Those of [`SigV4Signer::sign_http_request`] in its order, but for [`SigV4SigningError::NameOverrideRefused`]; the request
    /// stays as it is.
    #[tactic(auto, using(crate::proofs::PlainLemmas::plainly))]
    pub fn sign(
        &self,
        request: &mut HttpRequest,
        identity: &Identity,
        inputs: &SigningInputs<'_>,
        now: Moment,
    ) -> Result<Signed, SigV4SigningError>
        ensures signs { SignsPlainly identity.now inputs.now now request.old request.new result }
        ensures method { request.new.method ≡ request.old.method }
        ensures body { request.new.body ≡ request.old.body }
        ensures err { OnErr result (request.new ≡ request.old) }
    {
        let usual: Option<&SigV4SessionTokenNameOverride<NameOverride>> = None;
        self.sign_http_request(request, identity, inputs, now, usual)
    }

    /// As [`SigV4Signer::sign`], where nothing follows the request: signs it in place, and answers the signature alone, so that who
    /// signs isn't copied for signers that nobody asks for. The SDK has no such public call.
    ///
    /// # Errors
    ///
    /// Those of [`SigV4Signer::sign`]; the request stays as it is.
    pub fn sign_alone(
        &self,
        request: &mut HttpRequest,
        identity: &Identity,
        inputs: &SigningInputs<'_>,
        now: Moment,
    ) -> Result<String, SigV4SigningError>
        ensures signs { AnswersAlone (SignsPlainly identity.now inputs.now now request.old request.new) result }
        ensures method { request.new.method ≡ request.old.method }
        ensures body { request.new.body ≡ request.old.body }
        ensures err { OnErr result (request.new ≡ request.old) }
    {
        let alloc = *request.method.allocator();
        let usual: Option<&SigV4SessionTokenNameOverride<NameOverride>> = None;
        let (params, payload) = prepared(alloc, identity, inputs, now, usual)?;
        Ok(sign_alone_by(alloc, request, payload, &params)?)
    }
}

// An override that is a function.
type NameOverride = fn(
    &SigningSettings,
    &SigV4OperationSigningConfig,
) -> Result<Option<String>, OverrideError>;

// The parameters of a signature and what is signed in place of the body, as the endpoint, the inputs, the config and the override say,
// where no test before the target's fails.
fn prepared<'a, F>(
    alloc: Global,
    identity: &'a Identity,
    inputs: &SigningInputs<'a>,
    now: Moment,
    name_override: Option<&SigV4SessionTokenNameOverride<F>>,
) -> Result<(SigningParams<'a>, Option<&'a PayloadSigningOverride>), SigV4SigningError>
where
    F: Fn(&SigningSettings, &SigV4OperationSigningConfig) -> Result<Option<String>, OverrideError>,
    requires callable { IfSome (option_copied name_override) F.IsAlwaysCallable }
    ensures { PreparesSigning F.Fn (option_copied name_override.entry) identity.entry.now inputs.now now result }
{
    let (config, choice) = choose(alloc, identity, inputs, now)?;
    let settings = named_settings(choice.settings, config, name_override)?;
    let params = tested_params(identity, choice.region, choice.name, choice.at, settings)?;
    Ok((params, choice.payload))
}

// The parameters of a signature, where there are a region and a name, and the moment lies in the years 0 to 9999.
fn tested_params<'a>(
    identity: &'a Identity,
    region: Option<&'a str>,
    name: Option<&'a str>,
    at: Moment,
    settings: SigningSettings,
) -> Result<SigningParams<'a>, SigV4SigningError>
    ensures { TestsParams identity.entry.now (option_copied region.entry) (option_copied name.entry) at settings result }
{
    let region = match region {
        Some(region) => region,
        None => return Err(SigV4SigningError::MissingSigningRegion),
    };
    let name = match name {
        Some(name) => name,
        None => return Err(SigV4SigningError::MissingSigningName),
    };
    if !is_in_years(at) {
        return Err(SigV4SigningError::Signing(SigningError::MomentOutOfRange(at)));
    }
    let params = v4::SigningParams::new(identity, region, name, at, settings);
    Ok(SigningParams::V4(params))
}

// Signs a request by parameters, and makes what goes on from its signature. The request changes last, all or nothing.
fn sign_by(
    alloc: Global,
    request: &mut HttpRequest,
    payload: Option<&PayloadSigningOverride>,
    params: SigningParams<'_>,
) -> Result<Signed, SigningError>
    requires { unsignable (identity_of params) (params_time params) ≡ None }
    ensures signs { SignsTarget (identity_of params.entry) (params_case request.old (option_copied payload.entry) params.entry) request.old request.new result }
    ensures method { request.new.method ≡ request.old.method }
    ensures body { request.new.body ≡ request.old.body }
    ensures err { OnErr result (request.new ≡ request.old) }
{
    let (output, uri) = signed_parts(alloc, request, payload, &params)?;
    let (instructions, signature) = output.into_parts();
    let signed = signed_with(alloc, params, signature)?;
    instructions.apply_to_parsed(request, &uri)?;
    Ok(signed)
}

// Signs a request by parameters. It changes last, all or nothing.
fn sign_alone_by(
    alloc: Global,
    request: &mut HttpRequest,
    payload: Option<&PayloadSigningOverride>,
    params: &SigningParams<'_>,
) -> Result<String, SigningError>
    requires { unsignable (identity_of params.now) (params_time params.now) ≡ None }
    ensures signs { AnswersAlone (SignsTarget (identity_of params.now) (params_case request.old (option_copied payload.entry) params.now) request.old request.new) result }
    ensures method { request.new.method ≡ request.old.method }
    ensures body { request.new.body ≡ request.old.body }
    ensures err { OnErr result (request.new ≡ request.old) }
{
    let (output, uri) = signed_parts(alloc, request, payload, params)?;
    let (instructions, signature) = output.into_parts();
    instructions.apply_to_parsed(request, &uri)?;
    Ok(signature)
}

// What a signature adds to a request, and what was read of its target.
fn signed_parts(
    alloc: Global,
    request: &HttpRequest,
    payload: Option<&PayloadSigningOverride>,
    params: &SigningParams<'_>,
) -> Result<(SigningOutput<SigningInstructions>, Uri), SigningError>
    requires { unsignable (identity_of params.now) (params_time params.now) ≡ None }
    ensures { SignsParts (string_bytes request.now.target) (params_case request.now (option_copied payload.entry) params.now) result }
{
    let signable = SignableRequest::new(
        alloc,
        request.method.as_str(),
        request.target.as_str(),
        &request.headers,
        signable_body(payload, request.body.as_slice())?,
    )?;
    let output = sign_request(alloc, &signable, params)?;
    Ok((output, signable.into_uri()))
}

// The signature, and two signers that go on from it, the second of which takes the settings.
fn signed_with(alloc: Global, params: SigningParams<'_>, signature: String) -> Mem<Signed>
    ensures { IfOk result (IsSignedWith params.entry (string_bytes signature)) }
{
    let SigningParams::V4(params) = params;
    let (region, name) = (params.region(), params.name());
    let plain = v4::SigningParams::new(params.identity(), region, name, params.time(), ());
    Ok(Signed {
        message_signer: signer_from(alloc, plain, signature.clone()?)?,
        chunk_signer: signer_from(alloc, params, signature.clone()?)?,
        signature,
    })
}

// What signs by parameters and goes on from a signature.
fn signer_from<S: Drop>(
    alloc: Global,
    params: v4::SigningParams<'_, S>,
    signature: String,
) -> Mem<SigV4MessageSigner<S>>
    ensures from { IfOk result (GoesOn (v4_identity params.entry) (string_bytes signature) (signer_of params.entry) (v4_time params.entry)) }
    ensures settings { IfOk result (λ signer. signer.parts.settings ≡ v4_settings params.entry) }
{
    Ok(SigV4MessageSigner::new(
        signature,
        params.identity().try_clone()?,
        Region::new(String::from_str(alloc, params.region())?),
        SigningName::new(String::from_str(alloc, params.name())?),
        params.time(),
        params.into_settings(),
    ))
}
