ghost use Rattle.std.specs.Prelude.{◌≡◌, option_copied};
ghost use Rattle.smithy_core.specs.TextPairs.{AreLower};
ghost use Rattle.smithy_http.specs.Target.{target_of};
ghost use Rattle.sigv4.specs.Canonical.{added_host, has_host, header_payload};
ghost use Rattle.sigv4.specs.Refusal.{FindsHost, Tests, unfit_early_text, unfit_header, unfit_headers, unfit_host, unfit_late_texts, unfit_optional, unfit_target, unfit_value};
ghost use Rattle.sigv4.specs.Settings.{settings_of};

use crate::canonical_headers::header_payload;
use crate::error::{SigningError, ValuePlace};
use crate::grammar::{is_name, is_value};
use crate::host::host_text;
use crate::request::SignableRequest;
use crate::settings::{SignatureLocation, SigningSettings};
use crate::token_name::test_token_name;
use http_uri::Uri;
use smithy_core::Headers;

/// The tests that need neither the body's hash nor the canonical headers. The answer is the host that is added to the headers.
pub(crate) fn test_request<'a>(
    request: &'a SignableRequest<'_>,
    settings: &SigningSettings,
    token: Option<&str>,
) -> Result<Option<&'a str>, SigningError>
    ensures { FindsHost (settings_of settings.now) (target_of request.now.uri) request.now.headers.now (option_copied token.entry) result }
{
    test_target(settings, &request.uri)?;
    test_headers(request.headers)?;
    test_host(&request.uri, request.headers)?;
    test_token_name(settings)?;
    test_early_text(settings, token)?;
    Ok(added_host(&request.uri, request.headers))
}

// Tests that the target takes parameters, where the signature goes into these.
fn test_target(settings: &SigningSettings, uri: &Uri) -> Result<(), SigningError>
    ensures { Tests (unfit_target (settings_of settings.now) (target_of uri.now)) result }
{
    match settings.signature_location {
        SignatureLocation::QueryParams if uri.path() == "*" => Err(SigningError::InvalidUri),
        _ => Ok(()),
    }
}

/// Tests the headers in order, each by its name and then by its value.
///
/// # Errors
///
/// [`SigningError::InvalidHeaderName`] or [`SigningError::InvalidHeaderValue`] with the place of the first that isn't one,
/// counted from 1.
pub fn test_headers(headers: &Headers) -> Result<(), SigningError>
    ensures { Tests (unfit_headers 1 headers.now) result }
{
    let count = headers.len();
    for (index, (name, value)) in headers.iter().enumerate() {
        prove!(index < count);
        test_header(index + 1, name, value)?;
    }
    Ok(())
}

fn test_header(place: usize, name: &str, value: &str) -> Result<(), SigningError>
    ensures { Tests (unfit_header place (name.now, value.now)) result }
{
    if !is_name(name) {
        return Err(SigningError::InvalidHeaderName(place));
    }
    test_value(ValuePlace::Header(place), value)
}

/// Tests the text at a place, which is to be a header's value.
///
/// # Errors
///
/// [`SigningError::InvalidHeaderValue`] with the place.
pub fn test_value(place: ValuePlace, value: &str) -> Result<(), SigningError>
    ensures { Tests (unfit_value place value.now) result }
{
    if is_value(value) {
        Ok(())
    } else {
        Err(SigningError::InvalidHeaderValue(place))
    }
}

// Tests the text at a place, where there is one.
fn test_optional(place: ValuePlace, value: Option<&str>) -> Result<(), SigningError>
    ensures { Tests (unfit_optional place (option_copied value.entry)) result }
{
    match value {
        Some(value) => test_value(place, value),
        None => Ok(()),
    }
}

/// Tests the host that is added to the headers, where none of them is `host`.
///
/// # Errors
///
/// [`SigningError::MissingHost`] where there is none, and [`SigningError::InvalidHeaderValue`] where it is no header's value.
pub fn test_host(uri: &Uri, headers: &Headers) -> Result<(), SigningError>
    ensures { Tests (unfit_host (target_of uri.now) headers.now) result }
{
    if has_host(headers) {
        return Ok(());
    }
    match host_text(uri) {
        Some(host) => test_value(ValuePlace::Host, host),
        None => Err(SigningError::MissingHost),
    }
}

/// The host that is added to the headers: the target's, where none of them is `host`.
pub fn added_host<'a>(uri: &'a Uri, headers: &Headers) -> Option<&'a str>
    ensures host { option_copied result ≡ added_host (target_of uri.now) headers.now }
    ensures lower { AreLower headers.now }
{
    if has_host(headers) {
        return None;
    }
    host_text(uri)
}

// Whether a header is `host`.
fn has_host(headers: &Headers) -> bool
    ensures host { result ≡ has_host headers.now }
    ensures lower { AreLower headers.now }
{
    headers.contains_key("host")
}

// Tests that there is an expiry in query form, and the token in header form.
fn test_early_text(settings: &SigningSettings, token: Option<&str>) -> Result<(), SigningError>
    ensures { Tests (unfit_early_text (settings_of settings.now) (option_copied token.entry)) result }
{
    match (settings.signature_location, settings.expires_in) {
        (SignatureLocation::Headers, _) => test_optional(ValuePlace::Token, token),
        (SignatureLocation::QueryParams, Some(_)) => Ok(()),
        (SignatureLocation::QueryParams, None) => Err(SigningError::MissingExpires),
    }
}

/// Tests the texts that go into headers in header form, and for which the body is hashed or the headers are put in order:
/// the payload's text where it has a header, and the credential, since the other parts of the authorization are always a header's
/// value.
pub(crate) fn test_texts(
    settings: &SigningSettings,
    payload: &str,
    credential: &str,
) -> Result<(), SigningError>
    ensures { Tests (unfit_late_texts (settings_of settings.now) payload.now credential.now) result }
{
    match settings.signature_location {
        SignatureLocation::QueryParams => Ok(()),
        SignatureLocation::Headers => {
            test_optional(ValuePlace::PayloadHash, header_payload(settings, payload))?;
            test_value(ValuePlace::Authorization, credential)
        }
    }
}
