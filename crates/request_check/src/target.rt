//! The query of a canonical text.
ghost use Rattle.std.specs.Prelude.{◌≡◌, map, bytes_eq, IfOk, string_bytes};
ghost use Rattle.std.specs.List.{list_any};
ghost use Rattle.smithy_core.specs.TextPairs.{text_pairs};
ghost use Rattle.smithy_http.specs.QueryWriter.{escaped_pair};
ghost use Rattle.smithy_http.specs.Target.{target_of};
ghost use Rattle.sigv4.specs.Canonical.{excluded_token, token_parameter};
ghost use Rattle.sigv4.specs.Query.{decoded, query};
ghost use Rattle.sigv4.specs.Settings.{settings_of};
ghost use Rattle.request_check.specs.Recomputed.{sent_pairs, unsigned_keys};

use crate::parameters::query_pairs;
use http_uri::Uri;
use sigv4::parts::{EscapedPairs, token_parameter};
use sigv4::{SessionTokenMode, SignatureLocation, SigningSettings};
use smithy_core::Mem;
use std::alloc::Global;

/// The pairs of the target's query that are signed, as form decoding gives them, escaped and then sorted, as `key=value` with
/// `&` between.
#[tactic(auto, unfolding(sigv4::specs::Query::query))]
pub(crate) fn signed_query(
    alloc: Global,
    uri: &Uri,
    settings: &SigningSettings,
    place: SignatureLocation,
) -> Mem<String>
    ensures { IfOk result (λ text. string_bytes text ≡ query (sent_pairs place (settings_of settings.now) (decoded (target_of uri.now)))) }
{
    let pairs = query_pairs(alloc, uri)?;
    let escaped = escaped_pairs(alloc, settings, place, pairs.as_slice())?;
    escaped.into_text()
}

// The pairs that are signed, escaped.
fn escaped_pairs(
    alloc: Global,
    settings: &SigningSettings,
    place: SignatureLocation,
    pairs: &[(String, String)],
) -> Mem<EscapedPairs>
    ensures { IfOk result (λ escaped. escaped ≡ map escaped_pair (sent_pairs place (settings_of settings.now) (text_pairs pairs.now))) }
{
    let mut escaped = EscapedPairs::new(alloc);
    for (key, value) in pairs {
        if !is_unsigned(settings, place, key.as_str()) {
            escaped.push(key.as_str(), value.as_str())?;
        }
    }
    Ok(escaped)
}

// Whether a pair of this key isn't signed.
fn is_unsigned(settings: &SigningSettings, place: SignatureLocation, key: &str) -> bool
    ensures { result ≡ list_any (bytes_eq key.now) (unsigned_keys place (settings_of settings.now)) }
{
    match place {
        SignatureLocation::Headers => false,
        SignatureLocation::QueryParams => key == "X-Amz-Signature"
            || is_excluded_parameter(settings, key),
    }
}

// Whether the key is that of the parameter of a token that isn't signed.
fn is_excluded_parameter(settings: &SigningSettings, key: &str) -> bool
    ensures { result ≡ list_any (bytes_eq key.now) (excluded_token settings.now.session_token_mode (token_parameter (settings_of settings.now))) }
{
    match settings.session_token_mode {
        SessionTokenMode::Include => false,
        SessionTokenMode::Exclude => key == token_parameter(settings),
    }
}
