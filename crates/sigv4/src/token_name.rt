ghost use Rattle.std.specs.Prelude.{◌≡◌, bytes_eq};
ghost use Rattle.std.specs.Char.{is_ascii_uppercase};
ghost use Rattle.std.specs.List.{list_any};
ghost use Rattle.smithy_core.specs.TextPairs.{lower};
ghost use Rattle.sigv4.specs.Canonical.{token_header, token_parameter};
ghost use Rattle.sigv4.specs.Refusal.{Tests, is_lower_name, is_reserved, is_token_name, unfit_token_name};
ghost use Rattle.sigv4.specs.Settings.{settings_of};

use crate::error::SigningError;
use crate::grammar::is_name;
use crate::settings::{SignatureLocation, SigningSettings};

/// The names of a signature's own headers and parameters, in lower case.
const RESERVED_NAMES: [&str; 9] = [
    "host",
    "authorization",
    "x-amz-date",
    "x-amz-content-sha256",
    "x-amz-algorithm",
    "x-amz-credential",
    "x-amz-expires",
    "x-amz-signedheaders",
    "x-amz-signature",
];

/// The name of the session token's header.
pub(crate) fn token_header(settings: &SigningSettings) -> &str
    ensures { result.now ≡ token_header (settings_of settings.now) }
{
    match &settings.session_token_name_override {
        Some(name) => name.as_str(),
        None => "x-amz-security-token",
    }
}

/// The name of the session token's parameter.
pub fn token_parameter(settings: &SigningSettings) -> &str
    ensures { result.now ≡ token_parameter (settings_of settings.now) }
{
    match &settings.session_token_name_override {
        Some(name) => name.as_str(),
        None => "X-Amz-Security-Token",
    }
}

/// Tests the name that is given in place of the session token's usual one.
pub(crate) fn test_token_name(settings: &SigningSettings) -> Result<(), SigningError>
    ensures { Tests (unfit_token_name (settings_of settings.now)) result }
{
    match &settings.session_token_name_override {
        Some(name) if !is_token_name(settings, name.as_str()) => {
            Err(SigningError::InvalidTokenName)
        }
        _ => Ok(()),
    }
}

// Whether the token may have this name.
fn is_token_name(settings: &SigningSettings, name: &str) -> bool
    ensures { result ≡ is_token_name (settings_of settings.now) name.now }
{
    if is_reserved(name) {
        return false;
    }
    match settings.signature_location {
        SignatureLocation::QueryParams => true,
        SignatureLocation::Headers => is_lower_name(name),
    }
}

fn is_reserved(name: &str) -> bool
    ensures { result ≡ is_reserved name.now }
{
    is_among(RESERVED_NAMES.as_slice(), name)
}

// Whether the name is among these, in whatever case.
fn is_among(names: &[&str], name: &str) -> bool
    ensures { result ≡ list_any (λ other. bytes_eq (lower name.now) (lower other.now)) names.now }
{
    names.iter().any(|other| is_same_name(name, other))
}

fn is_same_name(name: &str, other: &str) -> bool
    ensures { result ≡ bytes_eq (lower name.now) (lower other.now) }
{
    name.eq_ignore_ascii_case(other)
}

fn is_lower_name(name: &str) -> bool
    ensures { result ≡ is_lower_name name.now }
{
    is_name(name) && is_lower(name)
}

/// Whether the name is the other one in lower case.
pub(crate) fn is_lower_case_of(name: &str, other: &str) -> bool
    ensures { result ≡ bytes_eq name.now (lower other.now) }
{
    is_lower(name) && name.eq_ignore_ascii_case(other)
}

// Whether the text is the same in lower case.
#[tactic(auto, using(crate::proofs::NameLemmas::lower_text))]
fn is_lower(text: &str) -> bool
    ensures { result ≡ bytes_eq (lower text.now) text.now }
{
    !has_uppercase(text)
}

fn has_uppercase(text: &str) -> bool
    ensures { result ≡ list_any is_ascii_uppercase text.now }
{
    text.bytes().any(|byte| byte.is_ascii_uppercase())
}
