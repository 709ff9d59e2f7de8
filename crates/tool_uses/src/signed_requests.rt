//! A request that is signed, how a service checks it, and a presigned URL.
use crate::presigned_door::are_signed;
use request_check::{Seal, check_request, seal_of};
use sigv4::{
    SignableBody, SignableRequest, SignatureLocation, SigningParams, SigningSettings, sign, v4,
};
use smithy_core::{HttpRequest, Identity, Moment};
use std::alloc::Global;

/// A request whose headers carry its signature.
pub fn signed(alloc: Global, identity: &Identity, at: Moment) -> anyhow::Result<HttpRequest> {
    let target = "https://iam.amazonaws.com/?Action=ListUsers&Version=2010-05-08";
    let mut request = HttpRequest::new(alloc, "GET", target)?;
    sign_form(alloc, &mut request, identity, at)?;
    Ok(request)
}

fn sign_form(
    alloc: Global,
    request: &mut HttpRequest,
    identity: &Identity,
    at: Moment,
) -> anyhow::Result<()> {
    let form = "application/x-www-form-urlencoded; charset=utf-8";
    request.headers.insert("content-type", form)?;
    sign_for(
        alloc,
        request,
        identity,
        "iam",
        at,
        SigningSettings::new(alloc)?,
    )
}

/// Signs a request for a service, in the place that the settings name.
pub fn sign_for(
    alloc: Global,
    request: &mut HttpRequest,
    identity: &Identity,
    service: &str,
    at: Moment,
    settings: SigningSettings,
) -> anyhow::Result<()> {
    let params = v4::SigningParams::new(identity, "us-east-1", service, at, settings);
    sign_by(alloc, request, &SigningParams::V4(params))
}

fn sign_by(
    alloc: Global,
    request: &mut HttpRequest,
    params: &SigningParams<'_>,
) -> anyhow::Result<()> {
    let signable = SignableRequest::from_http_request(alloc, request)?;
    let (instructions, _) = sign(alloc, signable, params)?.into_parts();
    instructions.apply_to_request(request)?;
    Ok(())
}

/// A request whose target carries its signature, which is good for a quarter of an hour.
pub fn presigned(alloc: Global, identity: &Identity, at: Moment) -> anyhow::Result<HttpRequest> {
    let mut request = HttpRequest::new(alloc, "GET", "https://example.amazonaws.com")?;
    sign_for(
        alloc,
        &mut request,
        identity,
        "service",
        at,
        in_query(alloc)?,
    )?;
    Ok(request)
}

// The settings of a presigned request.
fn in_query(alloc: Global) -> anyhow::Result<SigningSettings> {
    let mut settings = SigningSettings::new(alloc)?;
    settings.signature_location = SignatureLocation::QueryParams;
    settings.expires_in = Some(900);
    Ok(settings)
}

/// Whether a service may act on a request whose headers carry its signature: its names and its moment are what they have to be,
/// and its signature is the one that is computed again, with the digest of the body that came.
pub fn is_good(
    alloc: Global,
    request: &HttpRequest,
    secret: &str,
    now: Moment,
) -> anyhow::Result<bool> {
    let Some(seal) = seal_of(alloc, request, "us-east-1", "iam")? else {
        return Ok(false);
    };
    if !are_signed(seal.names(), &request.headers) || !is_recent(&seal, now) {
        return Ok(false);
    }
    is_signed(alloc, request, secret)
}

/// How many seconds the clocks may differ.
const MOST_APART: i64 = 900;

// Whether the headers carry the signature, from a moment that is near.
fn is_recent(seal: &Seal, now: Moment) -> bool {
    if seal.place() != SignatureLocation::Headers {
        return false;
    }
    match now.secs().checked_sub(seal.at().secs()) {
        Some(age) => -MOST_APART <= age && age <= MOST_APART,
        None => false,
    }
}

// Whether the signature is that of the request with its body; each of its digits is compared.
fn is_signed(alloc: Global, request: &HttpRequest, secret: &str) -> anyhow::Result<bool> {
    let settings = SigningSettings::new(alloc)?;
    let body = SignableBody::Bytes(request.body.as_slice());
    let checked = check_request(alloc, request, &settings, "us-east-1", "iam", &body, secret)?;
    Ok(checked.is_same())
}
