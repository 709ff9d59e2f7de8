ghost use Rattle.std.specs.Prelude.{◌≡◌, ◌++◌, [], ◌∷◌, codes, true, false, if◌then◌else◌, IfOk, OnOk, option_copied, string_bytes};
ghost use Rattle.smithy_core.specs.TextPairs.{text_pairs};
ghost use Rattle.sigv4.specs.Canonical.{header_payload, token_header, token_pairs, token_parameter};
ghost use Rattle.sigv4.specs.Settings.{is_query_form, settings_of};
ghost use Rattle.sigv4.specs.Signed.{authorization_text, instructions_for, optional_header};

use crate::canonical_query::push_parameter;
use crate::header::Header;
use crate::instructions::SigningInstructions;
use crate::settings::{PayloadChecksumKind, SignatureLocation, SigningSettings};
use crate::signing_texts::SigningTexts;
use crate::token_name::{token_header, token_parameter};
use smithy_core::Mem;
use std::alloc::Global;
use std::borrow::CowStr;

/// What goes out: headers in header form, and parameters in query form.
pub(crate) fn instructions(
    alloc: Global,
    settings: &SigningSettings,
    token: Option<&str>,
    texts: SigningTexts,
    signature: &str,
) -> Mem<SigningInstructions>
    ensures headers { IfOk result (λ made. made.headers ≡ (
        if is_query_form (settings_of settings.now) then []
        else instructions_for (settings_of settings.now) (string_bytes texts.scope.stamp)
        (authorization_text (string_bytes texts.credential) (string_bytes texts.names) signature.now)
        (header_payload settings.now.payload_checksum_kind (string_bytes texts.payload)) (option_copied token.entry))) }
    ensures params { IfOk result (λ made. made.params ≡ (
        if is_query_form (settings_of settings.now)
        then text_pairs texts.parameters.items
        ++ (codes "X-Amz-Signature", signature.now) ∷ token_pairs (token_parameter (settings_of settings.now)) (option_copied token.entry)
        else [])) }
{
    match settings.signature_location {
        SignatureLocation::Headers => {
            let headers = headers_of(alloc, settings, token, texts, signature)?;
            Ok(SigningInstructions::of_headers(alloc, headers))
        }
        SignatureLocation::QueryParams => {
            let parameters = parameters_of(settings, token, texts, signature)?;
            Ok(SigningInstructions::of_params(alloc, parameters))
        }
    }
}

// The headers that go out: the date, the authorization, the payload's text where it has a header, and the token where one is
// held.
fn headers_of(
    alloc: Global,
    settings: &SigningSettings,
    token: Option<&str>,
    texts: SigningTexts,
    signature: &str,
) -> Mem<Vec<Header>>
    ensures { IfOk result (λ headers. headers.items ≡ instructions_for (settings_of settings.now) (string_bytes texts.scope.stamp)
        (authorization_text (string_bytes texts.credential) (string_bytes texts.names) signature.now)
        (header_payload settings.now.payload_checksum_kind (string_bytes texts.payload)) (option_copied token.entry)) }
{
    let authorization = authorization_of(alloc, &texts, signature)?;
    let SigningTexts { scope, payload, .. } = texts;
    let mut headers = Vec::with_capacity(alloc, 4)?;
    headers.push(Header::new(CowStr::Borrowed("x-amz-date"), scope.stamp, false))?;
    headers.push(Header::new(CowStr::Borrowed("authorization"), authorization, false))?;
    push_payload(&mut headers, settings, payload)?;
    push_token(alloc, &mut headers, settings, token)?;
    Ok(headers)
}

fn authorization_of(alloc: Global, texts: &SigningTexts, signature: &str) -> Mem<String>
    ensures { IfOk result (λ text. string_bytes text
        ≡ authorization_text (string_bytes texts.now.credential) (string_bytes texts.now.names) signature.now) }
{
    let mut text = String::with_capacity(alloc, 320)?;
    text.push_str("AWS4-HMAC-SHA256 Credential=")?;
    text.push_str(texts.credential.as_str())?;
    text.push_str(", SignedHeaders=")?;
    text.push_str(texts.names.as_str())?;
    text.push_str(", Signature=")?;
    text.push_str(signature)?;
    Ok(text)
}

// Appends the header of the payload's text, where that has one.
fn push_payload(headers: &mut Vec<Header>, settings: &SigningSettings, payload: String) -> Mem<()>
    ensures { OnOk result (headers.new.items ≡ headers.old.items
        ++ optional_header (codes "x-amz-content-sha256") false (header_payload settings.now.payload_checksum_kind (string_bytes payload))) }
{
    match settings.payload_checksum_kind {
        PayloadChecksumKind::XAmzSha256 => {
            let name = CowStr::Borrowed("x-amz-content-sha256");
            headers.push(Header::new(name, payload, false))?;
            Ok(())
        }
        PayloadChecksumKind::NoHeader => Ok(()),
    }
}

// Appends the token's header, where one is held.
fn push_token(
    alloc: Global,
    headers: &mut Vec<Header>,
    settings: &SigningSettings,
    token: Option<&str>,
) -> Mem<()>
    ensures { OnOk result (headers.new.items ≡ headers.old.items
        ++ optional_header (token_header (settings_of settings.now)) true (option_copied token.entry)) }
{
    if let Some(token) = token {
        let name = CowStr::Owned(String::from_str(alloc, token_header(settings))?);
        let value = String::from_str(alloc, token)?;
        headers.push(Header::new(name, value, true))?;
    }
    Ok(())
}

// The parameters that go out: those that are signed, the signature, and the token where one is held.
fn parameters_of(
    settings: &SigningSettings,
    token: Option<&str>,
    texts: SigningTexts,
    signature: &str,
) -> Mem<Vec<(String, String)>>
    ensures { IfOk result (λ parameters. text_pairs parameters.items
        ≡ text_pairs texts.parameters.items ++ (codes "X-Amz-Signature", signature.now) ∷ token_pairs (token_parameter (settings_of settings.now)) (option_copied token.entry)) }
{
    let mut parameters = texts.parameters;
    push_parameter(&mut parameters, "X-Amz-Signature", signature)?;
    push_token_parameter(&mut parameters, settings, token)?;
    Ok(parameters)
}

// Appends the token's parameter, where one is held.
fn push_token_parameter(
    parameters: &mut Vec<(String, String)>,
    settings: &SigningSettings,
    token: Option<&str>,
) -> Mem<()>
    ensures { OnOk result (text_pairs parameters.new.items
        ≡ text_pairs parameters.old.items ++ token_pairs (token_parameter (settings_of settings.now)) (option_copied token.entry)) }
{
    match token {
        Some(token) => push_parameter(parameters, token_parameter(settings), token),
        None => Ok(()),
    }
}
