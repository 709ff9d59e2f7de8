ghost use Rattle.std.specs.Prelude.{◌≡◌, ℕ, List, [], ◌∷◌, ◌++◌, map, codes, bytes_eq, if◌then◌else◌, option_copied, string_bytes, IfOk, OnOk};
ghost use Rattle.std.specs.List.{flat_map, list_any};
ghost use Rattle.smithy_core.specs.TextPairs.{AreLower, inserted, lower, named_values, without};
ghost use Rattle.sigv4.specs.Canonical.{excluded_token, given_headers, is_signed, joined_names, header_payload, token_header, unsigned_in_query_form, unsigned_token, with_optional, with_signing_headers};
ghost use Rattle.sigv4.specs.CanonicalHeaders.{HoldsHeaders, after_values, before_value, header_pairs, header_texts, next_name, ordered_headers, pair_line, signed_values, signed_value_text};
ghost use Rattle.sigv4.specs.Query.{Pair};
ghost use Rattle.sigv4.specs.Settings.{Settings, settings_of};
ghost use Rattle.sigv4.specs.Trim.{trim_all};

use crate::settings::{PayloadChecksumKind, SessionTokenMode, SignatureLocation, SigningSettings};
use crate::token_name::{is_lower_case_of, token_header, token_parameter};
use crate::trim::push_trimmed;
use smithy_core::{Headers, Mem};
use std::alloc::Global;

/// Whether a header of this name is signed.
#[tactic(auto, using(crate::proofs::HeaderLemmas::finds), unfolding(crate::specs::Canonical::is_signed))]
pub(crate) fn is_signed(settings: &SigningSettings, name: &str) -> bool
    ensures { result ≡ is_signed (settings_of settings.now) name.now }
{
    let is_excluded = match &settings.excluded_headers {
        Some(names) => is_among(names.as_slice(), name),
        None => false,
    };
    !(is_excluded || is_excluded_token(settings, name) || is_unsigned_in_query(settings, name))
}

fn is_among(names: &[String], name: &str) -> bool
    ensures { result ≡ list_any (λ other. bytes_eq name.now (string_bytes other)) names.now }
{
    names.iter().any(|other| name == other.as_str())
}

// Whether the name is that of a token that isn't signed.
fn is_excluded_token(settings: &SigningSettings, name: &str) -> bool
    ensures { result ≡ list_any (bytes_eq name.now)
        (excluded_token settings.now.session_token_mode (unsigned_token (settings_of settings.now))) }
{
    match settings.session_token_mode {
        SessionTokenMode::Include => false,
        SessionTokenMode::Exclude => is_unsigned_token(settings, name),
    }
}

// Whether the name is that by which the token's header isn't signed.
fn is_unsigned_token(settings: &SigningSettings, name: &str) -> bool
    ensures { result ≡ bytes_eq name.now (unsigned_token (settings_of settings.now)) }
{
    match settings.signature_location {
        SignatureLocation::Headers => name == token_header(settings),
        SignatureLocation::QueryParams => is_lower_case_of(name, token_parameter(settings)),
    }
}

// Whether headers of this name aren't signed in query form, and the settings are those of it.
fn is_unsigned_in_query(settings: &SigningSettings, name: &str) -> bool
    ensures { result ≡ list_any (bytes_eq name.now) (unsigned_in_query_form (settings_of settings.now)) }
{
    match settings.signature_location {
        SignatureLocation::Headers => false,
        SignatureLocation::QueryParams => {
            name == "x-amz-user-agent" || name == "x-amz-checksum-mode"
        }
    }
}

/// What a signature adds to the headers that are signed: the host in both forms, the others in header form.
#[derive(Clone, Copy)]
pub(crate) struct AddedHeaders<'a> {
    pub(crate) host: Option<&'a str>,
    pub(crate) date: &'a str,
    pub(crate) token: Option<&'a str>,
    pub(crate) payload: &'a str,
}

/// The value of a header that is signed.
#[derive(Clone, Copy)]
pub(crate) enum SignedValue<'a> {
    /// A given value: it is signed trimmed.
    Given(&'a str),
    /// A value that the signature adds: it is signed as it is.
    Added(&'a str),
}

/// The headers that are signed, by name: the given ones and those that the signature adds. Those of one name stand in order.
pub(crate) fn signed_headers<'a>(
    alloc: Global,
    settings: &'a SigningSettings,
    headers: &'a Headers,
    added: &AddedHeaders<'a>,
) -> Mem<Vec<(&'a str, SignedValue<'a>)>>
    requires { AreLower headers.now }
    ensures { IfOk result (λ signed. header_texts signed.items ≡ ordered_headers (settings_of settings.now)
        (with_signing_headers (settings_of settings.now) added.now.date.now (option_copied added.now.token)
        (header_payload settings.now.payload_checksum_kind added.now.payload.now)
        (with_optional (codes "host") (option_copied added.now.host) (given_headers headers.now)))) }
{
    let mut signed = Vec::with_capacity(alloc, 16)?;
    put_given(settings, &mut signed, headers)?;
    put_optional(settings, &mut signed, "host", added.host)?;
    put_signing_headers(settings, &mut signed, added)?;
    sort_by_name(&mut signed)?;
    Ok(signed)
}

// Puts the given headers, where there are none yet.
fn put_given<'a>(
    settings: &SigningSettings,
    signed: &mut Vec<(&'a str, SignedValue<'a>)>,
    headers: &'a Headers,
) -> Mem<()>
    requires lower { AreLower headers.now }
    requires empty { signed.old.items ≡ [] }
    ensures { OnOk result (HoldsHeaders (settings_of settings.now) (given_headers headers.now) signed.new.items) }
{
    for (name, value) in headers.iter() {
        append(settings, signed, name, value)?;
    }
    Ok(())
}

// Appends a given header, where it is signed.
fn append<'a>(
    settings: &SigningSettings,
    signed: &mut Vec<(&'a str, SignedValue<'a>)>,
    name: &'a str,
    value: &'a str,
) -> Mem<()>
    ensures { OnOk result ((q : List ℕ) → named_values (header_pairs signed.new.items) q
        ≡ named_values (header_pairs signed.old.items) q ++ signed_values (settings_of settings.now) ((name.now, trim_all value.now) ∷ []) q) }
{
    if is_signed(settings, name) {
        signed.push((name, SignedValue::Given(value)))?;
    }
    Ok(())
}

// Puts the headers that the signature adds in header form: the date, the session token where one is held, and the payload's
// text where it has a header.
fn put_signing_headers<'a>(
    settings: &'a SigningSettings,
    signed: &mut Vec<(&'a str, SignedValue<'a>)>,
    added: &AddedHeaders<'a>,
) -> Mem<()>
    ensures { OnOk result ((pairs : List Pair) → HoldsHeaders (settings_of settings.now) pairs signed.old.items
        → HoldsHeaders (settings_of settings.now)
        (with_signing_headers (settings_of settings.now) added.now.date.now (option_copied added.now.token)
        (header_payload settings.now.payload_checksum_kind added.now.payload.now) pairs) signed.new.items) }
{
    match settings.signature_location {
        SignatureLocation::QueryParams => Ok(()),
        SignatureLocation::Headers => {
            put(settings, signed, "x-amz-date", added.date)?;
            put_optional(settings, signed, token_header(settings), added.token)?;
            let payload = header_payload(settings, added.payload);
            put_optional(settings, signed, "x-amz-content-sha256", payload)?;
            Ok(())
        }
    }
}

/// The payload's text, where it has a header in header form.
pub(crate) fn header_payload<'a>(settings: &SigningSettings, payload: &'a str) -> Option<&'a str>
    ensures { option_copied result ≡ header_payload settings.now.payload_checksum_kind payload.now }
{
    match settings.payload_checksum_kind {
        PayloadChecksumKind::XAmzSha256 => Some(payload),
        PayloadChecksumKind::NoHeader => None,
    }
}

// Puts a header in place of all headers of its name, where there is a value.
fn put_optional<'a>(
    settings: &SigningSettings,
    signed: &mut Vec<(&'a str, SignedValue<'a>)>,
    name: &'a str,
    value: Option<&'a str>,
) -> Mem<()>
    ensures { OnOk result ((pairs : List Pair) → HoldsHeaders (settings_of settings.now) pairs signed.old.items
        → HoldsHeaders (settings_of settings.now) (with_optional name.now (option_copied value.entry) pairs) signed.new.items) }
{
    match value {
        Some(value) => put(settings, signed, name, value),
        None => Ok(()),
    }
}

// Puts a header in place of all headers of its name, where that is signed.
fn put<'a>(
    settings: &SigningSettings,
    signed: &mut Vec<(&'a str, SignedValue<'a>)>,
    name: &'a str,
    value: &'a str,
) -> Mem<()>
    ensures { OnOk result ((pairs : List Pair) → HoldsHeaders (settings_of settings.now) pairs signed.old.items
        → HoldsHeaders (settings_of settings.now) (inserted pairs name.now value.now) signed.new.items) }
{
    if is_signed(settings, name) {
        put_signed(signed, name, value)?;
    }
    Ok(())
}

fn put_signed<'a>(
    signed: &mut Vec<(&'a str, SignedValue<'a>)>,
    name: &'a str,
    value: &'a str,
) -> Mem<()>
    ensures { OnOk result ((q : List ℕ) → named_values (header_pairs signed.new.items) q
        ≡ (if bytes_eq name.now q then value.now ∷ [] else named_values (header_pairs signed.old.items) q)) }
{
    drop_named(signed, name);
    signed.push((name, SignedValue::Added(value)))?;
    Ok(())
}

// Drops the headers of the name.
fn drop_named(signed: &mut Vec<(&str, SignedValue<'_>)>, name: &str)
    ensures { header_pairs signed.new.items ≡ without (header_pairs signed.old.items) name.now }
{
    signed.retain(|header| header.0 != name);
}

// Sorts the headers by the bytes of their names, and leaves those of one name in order.
fn sort_by_name(signed: &mut Vec<(&str, SignedValue<'_>)>) -> Mem<()>
    ensures { OnOk result ((settings : Settings) (pairs : List Pair) → HoldsHeaders settings pairs signed.old.items
        → header_texts signed.new.items ≡ ordered_headers settings pairs) }
{
    signed.sort_by_key(|header| header.0)?;
    Ok(())
}

/// The names of headers that are in order, each once, with `;` between.
#[tactic(auto, using(crate::proofs::GatheredLemmas::starts))]
pub(crate) fn joined_names(alloc: Global, headers: &[(&str, SignedValue<'_>)]) -> Mem<String>
    ensures { IfOk result (λ names. string_bytes names ≡ joined_names (map (λ header. header.0) (header_texts headers.now))) }
{
    let mut names = String::with_capacity(alloc, 64)?;
    let mut last = None;
    for (name, _) in headers {
        push_name(&mut names, last, *name)?;
        last = Some(*name);
    }
    Ok(names)
}

// The name, behind `;` where it isn't the first, unless it is the last one again.
fn push_name(names: &mut String, last: Option<&str>, name: &str) -> Mem<()>
    ensures { OnOk result (string_bytes names.new ≡ string_bytes names.old ++ next_name (option_copied last.entry) name.now) }
{
    match last {
        None => names.push_str(name),
        Some(last) if last == name => Ok(()),
        Some(_) => {
            names.push_str(";")?;
            names.push_str(name)
        }
    }
}

/// Appends `name:value` for each name of headers that are in order, as lines. The values of one name have `,` between.
#[tactic(auto, using(crate::proofs::GatheredLemmas::starts))]
pub(crate) fn push_header_lines(text: &mut String, headers: &[(&str, SignedValue<'_>)]) -> Mem<()>
    ensures { OnOk result (string_bytes text.new ≡ string_bytes text.old ++ flat_map pair_line (header_texts headers.now)) }
{
    let mut last = None;
    for (name, value) in headers {
        push_front(text, last, *name)?;
        push_value(text, value)?;
        last = Some(*name);
    }
    push_end(text, last)
}

// What stands before the value of a name.
fn push_front(text: &mut String, last: Option<&str>, name: &str) -> Mem<()>
    ensures { OnOk result (string_bytes text.new ≡ string_bytes text.old ++ before_value (option_copied last.entry) name.now) }
{
    match last {
        Some(last) if last == name => return text.push_str(","),
        Some(_) => text.push_str("\n")?,
        None => (),
    }
    text.push_str(name)?;
    text.push_str(":")
}

fn push_value(text: &mut String, value: &SignedValue<'_>) -> Mem<()>
    ensures { OnOk result (string_bytes text.new ≡ string_bytes text.old ++ signed_value_text value.now) }
{
    match value {
        SignedValue::Given(value) => push_trimmed(text, *value),
        SignedValue::Added(value) => text.push_str(*value),
    }
}

// What stands behind the last value.
fn push_end(text: &mut String, last: Option<&str>) -> Mem<()>
    ensures { OnOk result (string_bytes text.new ≡ string_bytes text.old ++ after_values (option_copied last.entry)) }
{
    match last {
        Some(_) => text.push_str("\n"),
        None => Ok(()),
    }
}
