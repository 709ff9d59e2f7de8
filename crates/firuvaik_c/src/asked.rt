//! What a caller asks for, as the layers below take it.
ghost use Rattle.std.specs.Prelude.{◌≡◌, ◌⊎◌, true, false, Some, IfOk, MatchResult, if◌then◌else◌, map, option_map, string_bytes};
ghost use Rattle.smithy_core.specs.Identity.{IsCredentials, access_key_id, secret_access_key, secret_of, session_token};
ghost use Rattle.sigv4.specs.Body.{payload_text};
ghost use Rattle.sigv4.specs.Request.{key_id_of, token_of};
ghost use Rattle.sigv4.specs.Settings.{default_exclusions, settings_of};
ghost use Rattle.firuvaik_c.specs.Asked.{asked_exclusions, asked_expiry, lent_payload, lent_settings, given_text, has_flag, is_text_keys, is_text_payload, is_text_settings, service_settings};
ghost use Rattle.firuvaik_c.specs.Faults.{no_memory, not_text};

use crate::fault::Fault;
use crate::lent::{
    EXCLUDED, KEEP_PATH, PAYLOAD_TEXT, QUERY, SHA256_HEADER, SINGLE_ENCODE, Settings, Signer,
    UNSIGNED_TOKEN,
};
use crate::texts::{names_of, text_of};
use sigv4::{
    PayloadChecksumKind, PercentEncodingMode, SessionTokenMode, SignableBody, SignatureLocation,
    SigningSettings, UriPathNormalizationMode,
};
use smithy_core::{Credentials, Identity, Mem};
use std::alloc::Global;

/// Whether a flag is one of the sum.
pub(crate) fn has_flag(flags: u32, flag: u32) -> bool
    ensures { result ≡ has_flag flags flag }
{
    flags & flag != 0
}

/// A copy of the text, where it has a byte.
pub(crate) fn given_text(alloc: Global, text: &str) -> Mem<Option<String>>
    ensures { IfOk result (λ copy. option_map string_bytes copy ≡ given_text text.now) }
{
    if text.is_empty() {
        Ok(None)
    } else {
        Ok(Some(String::from_str(alloc, text)?))
    }
}

/// The credentials of a signer.
pub(crate) fn identity_of(alloc: Global, signer: &Signer<'_>) -> Result<Identity, Fault>
    ensures texts { MatchResult result (λ _. is_text_keys signer.now ≡ true)
        (λ fault. ((is_text_keys signer.now ≡ false) × (fault ≡ not_text)) ⊎ (fault ≡ no_memory)) }
    ensures credentials { MatchResult result IsCredentials (λ _. Unit {0}) }
    ensures key_id { MatchResult result (λ identity. key_id_of identity ≡ signer.now.key_id.now) (λ _. Unit {0}) }
    ensures secret { MatchResult result (λ identity. secret_of identity ≡ signer.now.secret.now) (λ _. Unit {0}) }
    ensures token { MatchResult result (λ identity. token_of identity ≡ given_text signer.now.token.now) (λ _. Unit {0}) }
{
    let key_id = text_of(signer.key_id)?;
    let secret = text_of(signer.secret)?;
    let token = text_of(signer.token)?;
    Ok(Identity::Credentials(credentials_of(alloc, key_id, secret, token)?))
}

/// The settings that flags, expiry and names stand for.
pub(crate) fn settings_asked(alloc: Global, asked: &Settings<'_>) -> Result<SigningSettings, Fault>
    ensures { MatchResult result
        (λ settings. (is_text_settings asked.now ≡ true) × (settings_of settings ≡ lent_settings asked.now))
        (λ fault. ((is_text_settings asked.now ≡ false) × (fault ≡ not_text)) ⊎ (fault ≡ no_memory)) }
{
    let token_name = text_of(asked.token_name)?;
    let names = names_of(alloc, asked.excluded)?;
    let excluded = exclusions_of(alloc, asked.flags, names)?;
    let token_name = given_text(alloc, token_name)?;
    Ok(settings_with(alloc, asked, excluded, token_name)?)
}

// The settings of flags and expiry, with these names.
fn settings_with(
    alloc: Global,
    asked: &Settings<'_>,
    excluded: Option<Vec<String>>,
    token_name: Option<String>,
) -> Mem<SigningSettings>
    requires excluded { option_map (λ names. map string_bytes names.items) excluded ≡ Some (asked_exclusions asked.now) }
    requires token_name { option_map string_bytes token_name ≡ given_text asked.now.token_name.now }
    ensures { IfOk result (λ settings. settings_of settings ≡ lent_settings asked.now) }
{
    Ok(SigningSettings {
        signature_location: by_flag(
            asked.flags,
            QUERY,
            SignatureLocation::QueryParams,
            SignatureLocation::Headers,
        ),
        expires_in: expiry(asked.expires_in),
        excluded_headers: excluded,
        session_token_name_override: token_name,
        ..service_settings(alloc, asked.flags)?
    })
}

// One value where a flag is one of the sum, and else the other.
fn by_flag<T: Copy>(flags: u32, flag: u32, set: T, unset: T) -> T
    ensures { result ≡ (if has_flag flags flag then set else unset) }
{
    if has_flag(flags, flag) { set } else { unset }
}

fn expiry(seconds: u64) -> Option<u64>
    ensures { result ≡ asked_expiry seconds }
{
    if seconds == 0 { None } else { Some(seconds) }
}

// The names that aren't signed: those that are given, or the default ones.
fn exclusions_of(alloc: Global, flags: u32, names: Vec<String>) -> Mem<Option<Vec<String>>>
    ensures { IfOk result (λ excluded. option_map (λ given. map string_bytes given.items) excluded
        ≡ Some (if has_flag flags 64 then map string_bytes names.items else default_exclusions)) }
{
    if has_flag(flags, EXCLUDED) {
        return Ok(Some(names));
    }
    Ok(SigningSettings::new(alloc)?.excluded_headers)
}

/// The settings of a service with these flags.
pub(crate) fn service_settings(alloc: Global, flags: u32) -> Mem<SigningSettings>
    ensures { IfOk result (λ settings. settings_of settings ≡ service_settings flags) }
{
    Ok(SigningSettings {
        percent_encoding_mode: by_flag(
            flags,
            SINGLE_ENCODE,
            PercentEncodingMode::Single,
            PercentEncodingMode::Double,
        ),
        payload_checksum_kind: by_flag(
            flags,
            SHA256_HEADER,
            PayloadChecksumKind::XAmzSha256,
            PayloadChecksumKind::NoHeader,
        ),
        uri_path_normalization_mode: by_flag(
            flags,
            KEEP_PATH,
            UriPathNormalizationMode::Disabled,
            UriPathNormalizationMode::Enabled,
        ),
        session_token_mode: by_flag(
            flags,
            UNSIGNED_TOKEN,
            SessionTokenMode::Exclude,
            SessionTokenMode::Include,
        ),
        ..SigningSettings::new(alloc)?
    })
}

// The credentials of these texts.
fn credentials_of(alloc: Global, key_id: &str, secret: &str, token: &str) -> Mem<Credentials>
    ensures key_id { IfOk result (λ keys. access_key_id keys ≡ key_id.now) }
    ensures secret { IfOk result (λ keys. secret_access_key keys ≡ secret.now) }
    ensures token { IfOk result (λ keys. session_token keys ≡ given_text token.now) }
{
    let key_id = String::from_str(alloc, key_id)?;
    let secret = String::from_str(alloc, secret)?;
    let token = given_text(alloc, token)?;
    Ok(Credentials::new(key_id, secret, token, None))
}

/// What is signed of a body.
pub(crate) fn payload_asked<'a>(
    alloc: Global,
    flags: u32,
    body: &'a [u8],
) -> Result<SignableBody<'a>, Fault>
    ensures { MatchResult result
        (λ payload. (is_text_payload flags body.now ≡ true) × (payload_text payload ≡ lent_payload flags body.now))
        (λ fault. ((is_text_payload flags body.now ≡ false) × (fault ≡ not_text)) ⊎ (fault ≡ no_memory)) }
{
    if !has_flag(flags, PAYLOAD_TEXT) {
        return Ok(SignableBody::Bytes(body));
    }
    let text = text_of(body)?;
    Ok(SignableBody::Precomputed(String::from_str(alloc, text)?))
}
