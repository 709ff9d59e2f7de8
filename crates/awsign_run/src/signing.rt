//! The signed request that words ask for, as it is printed.
ghost use Rattle.std.specs.Prelude.{◌≡◌, ◌||◌, Some, IfOk, map, option_copied, string_bytes, false};
ghost use Rattle.smithy_http.specs.QueryWriter.{SpellsTarget};
ghost use Rattle.env_config.specs.Source.{file_of};
ghost use Rattle.sigv4.specs.Settings.{settings_of};
ghost use Rattle.sigv4.specs.declared.error.SigningError.{SigningError};
ghost use Rattle.aws_signing.specs.SigningBy.{settings_case};
ghost use Rattle.aws_signing.specs.SigningFaults.{of_signing};
ghost use Rattle.awsign_run.specs.Chosen.{asked_profile, signs_for_of};
ghost use Rattle.awsign_run.specs.Faults.{signing_fault};
ghost use Rattle.awsign_run.specs.Guess.{url_host};
ghost use Rattle.awsign_run.specs.Signing.{IsAsked, IsPrinted, PrintsAnew, PrintsSigned, SignsAsked, SignsPrinted, SignsUrl, DecidesAgain, asked_case, asked_form, asked_payload, asked_settings, chosen_signer, expiry, is_long, is_s3, default_payload, usual_settings};
ghost use Rattle.awsign_words.specs.Words.{sign_wanted};

use crate::choosing::signer_for;
use crate::chosen::Chosen;
use crate::fault::Fault;
use crate::guess::url_host;
use aws_signing::{AwsSigningError, Signer, is_presigned};
use awsign_text::{Form, text_of};
use awsign_words::{Asked, expiry_named, form_named};
use env_config::Source;
use http_uri::Uri;
use mac_core::sha256_hex;
use sigv4::parts::host_text;
use sigv4::{SignatureLocation, SigningError, SigningSettings};
use smithy_core::{Env, HttpRequest, Mem, Moment};
use smithy_http::read_target;
use std::alloc::{AllocError, Global};

/// A signed request.
#[derive(Drop)]
pub struct SignedRequest {
    /// The request.
    pub request: HttpRequest,
    /// What its target spelled before.
    pub uri: Uri,
    /// The signature.
    pub signature: String,
}

/// The most seconds for which a service takes a presigned URL.
const MOST_EXPIRY: u64 = 604_800;

/// The signed request that words ask for, as it is printed: it is signed by options, variables and the source's profile, over the digest of
/// the data where there is some, at a moment.
///
/// # Errors
///
/// The first of these: [`Fault::AlreadyPresigned`]; [`Fault::LongExpiry`]; those of [`signer_for`](crate::signer_for); and those of
/// [`signed_request`](crate::signed_request).
pub fn signed_text(
    alloc: Global,
    asked: &Asked<'_>,
    env: &Env,
    source: &Source,
    digest: Option<&str>,
    at: Moment,
) -> Result<Vec<u8>, Fault>
    requires { string_bytes source.now.profile ≡ asked_profile asked.now.options env.now }
    ensures { PrintsSigned (sign_wanted asked.now) env.now (map file_of source.now.files.items) (option_copied digest.entry) at result }
{
    if presigns_again(alloc, asked)? {
        return Err(Fault::AlreadyPresigned);
    }
    signed_anew(alloc, asked, env, source, digest, at)
}

// Whether a URL is to be presigned that is presigned already: a service would find two signatures.
fn presigns_again(alloc: Global, asked: &Asked<'_>) -> Mem<bool>
    ensures { IfOk result (DecidesAgain (sign_wanted asked.now)) }
{
    if asked.presigns {
        is_presigned(alloc, asked.url)
    } else {
        Ok(false)
    }
}

// The signed request as it is printed, whatever the URL has.
fn signed_anew(
    alloc: Global,
    asked: &Asked<'_>,
    env: &Env,
    source: &Source,
    digest: Option<&str>,
    at: Moment,
) -> Result<Vec<u8>, Fault>
    requires { string_bytes source.now.profile ≡ asked_profile asked.now.options env.now }
    ensures { PrintsAnew (sign_wanted asked.now) env.now (map file_of source.now.files.items) (option_copied digest.entry) at result }
{
    if is_long(&asked.options) {
        return Err(Fault::LongExpiry);
    }
    match signer_for(alloc, &asked.options, url_host(asked.url), env, source) {
        Ok(signer) => print_signed(alloc, asked, signer, digest, at),
        Err(fault) => Err(fault),
    }
}

// The request that somebody signs, as it is printed.
fn print_signed(
    alloc: Global,
    asked: &Asked<'_>,
    signer: Chosen,
    digest: Option<&str>,
    at: Moment,
) -> Result<Vec<u8>, Fault>
    ensures { let asks = sign_wanted asked.now in let s3 = is_s3 asks.options (string_bytes signer.service) in
        SignsPrinted asks (asked_case asks (signs_for_of signer) (asked_payload asks s3 (option_copied digest.entry)) at) result }
{
    let s3 = is_s3(&asked.options, signer.service.as_str());
    match payload_of(alloc, asked, s3, digest) {
        Ok(payload) => print_over(alloc, asked, signer, payload, at),
        Err(_) => Err(Fault::NoMemory),
    }
}

// The request that somebody signs over the payload of this text, as it is printed.
fn print_over(
    alloc: Global,
    asked: &Asked<'_>,
    signer: Chosen,
    payload: String,
    at: Moment,
) -> Result<Vec<u8>, Fault>
    ensures { SignsPrinted (sign_wanted asked.now) (asked_case (sign_wanted asked.now) (signs_for_of signer) (string_bytes payload) at) result }
{
    match signed_request(alloc, asked, signer, payload, at) {
        Ok(signed) => Ok(printed_request(alloc, asked, &signed, asked.options.get("--data"))?),
        Err(fault) => Err(fault),
    }
}

/// A signed request in the form that words ask for, with the file at a path as its body.
pub fn printed_request(
    alloc: Global,
    asked: &Asked<'_>,
    signed: &SignedRequest,
    file: Option<&str>,
) -> Mem<Vec<u8>>
    ensures { IfOk result (λ text. IsPrinted (sign_wanted asked.now) signed.now (option_copied file.entry) text.items) }
{
    let host = host_text(&signed.uri);
    text_of(alloc, form_of(asked), &signed.request, host, file)
}

/// The request that words ask for, signed by somebody over the payload of this text, at a moment.
///
/// # Errors
///
/// [`Fault::Signing`] with the first of these: the URL isn't accepted; the moment lies outside the years 0 to 9999; and then as
/// [`sigv4::sign`] and [`sigv4::SigningInstructions::apply_to_request`] have them.
pub fn signed_request(
    alloc: Global,
    asked: &Asked<'_>,
    signer: Chosen,
    payload: String,
    at: Moment,
) -> Result<SignedRequest, Fault>
    ensures { SignsAsked (sign_wanted asked.now) (asked_case (sign_wanted asked.now) (signs_for_of signer) (string_bytes payload) at) result }
{
    let (request, made) = asked_parts(alloc, asked, &signer)?;
    sign_as(alloc, request, made, payload.as_str(), at)
}

// The request of the words before it is signed, and what signs it.
fn asked_parts(alloc: Global, asked: &Asked<'_>, chosen: &Chosen) -> Mem<(HttpRequest, Signer)>
    ensures request { IfOk result (λ parts. IsAsked (sign_wanted asked.now) parts.0) }
    ensures signer { let settings = asked_settings (sign_wanted asked.now) (is_s3 asked.now.options (string_bytes chosen.now.service)) in
        IfOk result (λ parts. parts.1 ≡ chosen_signer chosen.now settings) }
{
    let settings = settings_of(alloc, asked, is_s3(&asked.options, chosen.service.as_str()))?;
    let signer = chosen_signer(alloc, chosen, settings)?;
    Ok((request_of(alloc, asked)?, signer))
}

// Who is chosen, as a signer by settings.
fn chosen_signer(alloc: Global, chosen: &Chosen, settings: SigningSettings) -> Mem<Signer>
    ensures { IfOk result (λ signer. signer ≡ chosen_signer chosen.now (settings_of settings)) }
{
    let (region, service) = (chosen.region.as_str(), chosen.service.as_str());
    match Signer::with_settings(alloc, &chosen.credentials, region, service, settings) {
        Ok(signer) => Ok(signer),
        Err(AwsSigningError::NoMemory) => Err(AllocError),
        Err(_) => unreachable!(),
    }
}

// A request, signed by a signer over the payload of this text. Its target is read first: what it spells is a part of the answer.
fn sign_as(
    alloc: Global,
    request: HttpRequest,
    signer: Signer,
    payload: &str,
    at: Moment,
) -> Result<SignedRequest, Fault>
    ensures { SignsUrl (string_bytes request.method) (string_bytes request.target) (settings_case signer request (Some payload.now) at) result }
{
    match read_target(alloc, request.target.as_str()) {
        Ok(uri) => sign_read(request, uri, signer, payload, at),
        Err(fault) => Err(Fault::from(SigningError::from(fault))),
    }
}

// The same of a request whose target spells this.
fn sign_read(
    mut request: HttpRequest,
    uri: Uri,
    mut signer: Signer,
    payload: &str,
    at: Moment,
) -> Result<SignedRequest, Fault>
    requires { SpellsTarget (string_bytes request.target) uri }
    ensures { SignsUrl (string_bytes request.method) (string_bytes request.target) (settings_case signer request (Some payload.now) at) result }
{
    match signer.sign_with_payload_hash(&mut request, payload, at) {
        Ok(signature) => Ok(SignedRequest {
            request,
            uri,
            signature,
        }),
        Err(fault) => Err(fault_of(fault)),
    }
}

// The fault of a request that a signer doesn't sign.
fn fault_of(fault: AwsSigningError) -> Fault
    requires { (error : SigningError) × (fault ≡ of_signing error) }
    ensures { (error : SigningError) → fault ≡ of_signing error → result ≡ signing_fault error }
{
    match fault {
        AwsSigningError::Signing(error) => Fault::from(error),
        AwsSigningError::NoMemory => Fault::NoMemory,
        _ => unreachable!(),
    }
}

// The request before it is signed.
fn request_of(alloc: Global, asked: &Asked<'_>) -> Mem<HttpRequest>
    ensures { IfOk result (IsAsked (sign_wanted asked.now)) }
{
    let headers = asked.headers.try_clone()?;
    let mut request = HttpRequest::new(alloc, asked.method, asked.url)?;
    request.headers = headers;
    Ok(request)
}

// The settings that are asked for.
fn settings_of(alloc: Global, asked: &Asked<'_>, s3: bool) -> Mem<SigningSettings>
    ensures { IfOk result (λ settings. settings_of settings ≡ asked_settings (sign_wanted asked.now) s3) }
{
    let usual = usual_settings(alloc, s3)?;
    if !asked.presigns {
        return Ok(usual);
    }
    Ok(SigningSettings {
        signature_location: SignatureLocation::QueryParams,
        expires_in: expiry(&asked.options),
        ..usual
    })
}

/// The settings of a service, with the signature in headers.
pub fn usual_settings(alloc: Global, s3: bool) -> Mem<SigningSettings>
    ensures { IfOk result (λ settings. settings_of settings ≡ usual_settings s3) }
{
    if s3 {
        SigningSettings::for_s3(alloc)
    } else {
        SigningSettings::new(alloc)
    }
}

// The payload's text.
fn payload_of(alloc: Global, asked: &Asked<'_>, s3: bool, digest: Option<&str>) -> Mem<String>
    ensures { IfOk result (λ text. string_bytes text ≡ asked_payload (sign_wanted asked.now) s3 (option_copied digest.entry)) }
{
    let options = &asked.options;
    let named = options
        .get("--payload-hash")
        .or(options.get("--payload-text"));
    match named.or(digest) {
        Some(text) => String::from_str(alloc, text),
        None => default_payload(alloc, asked, s3),
    }
}

fn default_payload(alloc: Global, asked: &Asked<'_>, s3: bool) -> Mem<String>
    ensures { IfOk result (λ text. string_bytes text ≡ default_payload (sign_wanted asked.now) s3) }
{
    if asked.options.get("--unsigned").is_some() || (asked.presigns && s3) {
        String::from_str(alloc, "UNSIGNED-PAYLOAD")
    } else {
        sha256_hex(alloc, b"")
    }
}

fn form_of(asked: &Asked<'_>) -> Form
    ensures { result ≡ asked_form (sign_wanted asked.now) }
{
    let usual = if asked.presigns {
        Form::Url
    } else {
        Form::Curl
    };
    match asked.options.get("--as") {
        Some(word) => form_named(word).unwrap_or(usual),
        None => usual,
    }
}

/// Whether the settings are those of Amazon S3.
pub fn is_s3(options: &Env, service: &str) -> bool
    ensures { result ≡ is_s3 options.now service.now }
{
    options.get("--s3").is_some() || service == "s3"
}

fn expiry(options: &Env) -> Option<u64>
    ensures { result ≡ expiry options.now }
{
    match options.get("--expires") {
        Some(word) => expiry_named(word),
        None => None,
    }
}

fn is_long(options: &Env) -> bool
    ensures { result ≡ is_long options.now }
{
    expiry(options).unwrap_or(0) > MOST_EXPIRY && options.get("--long").is_none()
}
