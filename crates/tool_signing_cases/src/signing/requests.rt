//! A request and how it is signed, from the words `METHOD TARGET`, `header NAME: VALUE`, `body TEXT` and so on.
use crate::parts::{part_or_none, part_text, request_at, word};
use crate::signing::moments::moment_of;
use sigv4::{
    PayloadChecksumKind, PercentEncodingMode, SessionTokenMode, SignableBody, SignableRequest,
    SignatureLocation, SigningError, SigningParams, SigningSettings, UriPathNormalizationMode, v4,
};
use smithy_core::{HttpRequest, Identity, Mem, Moment};
use std::alloc::Global;
use tool_case_lines::{halves, has_part, part};

/// The request of `METHOD TARGET`, which comes first, its headers and its body.
pub fn request_of(alloc: Global, words: &[&str]) -> Mem<HttpRequest> {
    let (method, target) = halves(word(words, 0));
    request_at(alloc, method, target, words)
}

/// The settings: `encode-once`, `keep-path`, `payload-header`, `omit-token`, `exclude-none`, `query-form`, `expires-in N` and
/// `token-name N` change the usual ones, and `for-s3` gives those for Amazon S3.
pub fn settings_of(alloc: Global, parts: &[&str]) -> Mem<SigningSettings> {
    if has_part(parts, "for-s3") {
        return SigningSettings::for_s3(alloc);
    }
    match SigningSettings::new(alloc) {
        Ok(settings) => changed(alloc, settings, parts),
        Err(fault) => Err(fault),
    }
}

fn changed(alloc: Global, settings: SigningSettings, parts: &[&str]) -> Mem<SigningSettings> {
    let mut settings = settings;
    change(&mut settings, parts);
    settings.session_token_name_override = part_text(alloc, parts, "token-name")?;
    Ok(settings)
}

fn change(settings: &mut SigningSettings, parts: &[&str]) {
    if has_part(parts, "encode-once") {
        settings.percent_encoding_mode = PercentEncodingMode::Single;
    }
    let keeps_path = has_part(parts, "keep-path");
    settings.uri_path_normalization_mode = UriPathNormalizationMode::from(!keeps_path);
    if has_part(parts, "payload-header") {
        settings.payload_checksum_kind = PayloadChecksumKind::XAmzSha256;
    }
    if has_part(parts, "omit-token") {
        settings.session_token_mode = SessionTokenMode::Exclude;
    }
    if has_part(parts, "exclude-none") {
        settings.excluded_headers = None;
    }
    change_location(settings, parts);
}

fn change_location(settings: &mut SigningSettings, parts: &[&str]) {
    if has_part(parts, "query-form") {
        settings.signature_location = SignatureLocation::QueryParams;
    }
    settings.expires_in = part_or_none(parts, "expires-in").parse().ok();
}

/// What signs: region, name, moment and settings beside who does.
pub fn params_of<'a>(
    alloc: Global,
    identity: &'a Identity,
    parts: &[&'a str],
) -> Mem<SigningParams<'a>> {
    let settings = settings_of(alloc, parts)?;
    let (region, name, time) = (region_of(parts), name_of(parts), time_of(parts));
    let params = v4::SigningParams::new(identity, region, name, time, settings);
    Ok(SigningParams::V4(params))
}

/// The region of `region R`, or else that of the AWS signing test suite.
pub fn region_of<'a>(parts: &[&'a str]) -> &'a str {
    part(parts, "region").unwrap_or("us-east-1")
}

/// The name of `name N`, or else that of the suite.
pub fn name_of<'a>(parts: &[&'a str]) -> &'a str {
    part(parts, "name").unwrap_or("service")
}

/// The moment of `at MOMENT`, or else that of the suite.
pub fn time_of(parts: &[&str]) -> Moment {
    moment_of(part(parts, "at").unwrap_or("1440938160"))
}

/// A copy of the request with its body as it is signed.
pub fn signable_of<'a>(
    alloc: Global,
    request: &'a HttpRequest,
    parts: &[&str],
) -> Result<SignableRequest<'a>, SigningError> {
    match signable(alloc, request, parts) {
        Ok(signable) => Ok(signable.try_clone()?),
        Err(error) => Err(error),
    }
}

// The request with its body `as-it-stands`, or with `payload TEXT` in place of the body's bytes.
fn signable<'a>(
    alloc: Global,
    request: &'a HttpRequest,
    parts: &[&str],
) -> Result<SignableRequest<'a>, SigningError> {
    if has_part(parts, "as-it-stands") {
        return SignableRequest::from_http_request(alloc, request);
    }
    let body = body_of(alloc, request, parts)?;
    SignableRequest::new(
        alloc,
        request.method.as_str(),
        request.target.as_str(),
        &request.headers,
        body,
    )
}

/// The body with `payload TEXT` in place of its bytes.
pub fn body_of<'a>(
    alloc: Global,
    request: &'a HttpRequest,
    parts: &[&str],
) -> Mem<SignableBody<'a>> {
    match part(parts, "payload") {
        Some(text) => payload_of(alloc, text),
        None => Ok(SignableBody::Bytes(request.body.as_slice())),
    }
}

/// The body of which this is the payload's text, and no bytes for none.
pub fn payload_of(alloc: Global, text: &str) -> Mem<SignableBody<'static>> {
    Ok(match text {
        "" => SignableBody::empty(),
        "UNSIGNED-PAYLOAD" => SignableBody::UnsignedPayload,
        "STREAMING-UNSIGNED-PAYLOAD-TRAILER" => SignableBody::StreamingUnsignedPayloadTrailer,
        "STREAMING-AWS4-HMAC-SHA256-PAYLOAD-TRAILER" => SignableBody::StreamingSignedPayloadTrailer,
        digest => SignableBody::Precomputed(String::from_str(alloc, digest)?),
    })
}

/// Whether the settings are those for Amazon S3.
pub fn is_for_s3(alloc: Global, parts: &[&str]) -> Mem<String> {
    are_equal(
        alloc,
        &settings_of(alloc, parts)?,
        SigningSettings::for_s3(alloc),
    )
}

/// Whether settings are equal to others.
pub fn are_equal(
    alloc: Global,
    settings: &SigningSettings,
    others: Mem<SigningSettings>,
) -> Mem<String> {
    let is_equal = others? == *settings;
    format!(in alloc; "equal: {is_equal}")
}
