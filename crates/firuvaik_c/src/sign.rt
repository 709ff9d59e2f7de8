//! A request that is signed.
ghost use Rattle.std.specs.Prelude.{◌≡◌, ◌++◌, None, true, false, Result, IfOk, OnOk, MatchResult, length, map, nat_lt, string_bytes, if◌then◌else◌};
ghost use Rattle.std.specs.List.{flat_map};
ghost use Rattle.smithy_http.specs.QueryWriter.{SpellsTarget};
ghost use Rattle.smithy_http.specs.Target.{target_of};
ghost use Rattle.sigv4.specs.Body.{payload_text};
ghost use Rattle.sigv4.specs.EventStream.{unsignable};
ghost use Rattle.sigv4.specs.Instructions.{instruction_pair};
ghost use Rattle.sigv4.specs.Output.{output_signature};
ghost use Rattle.sigv4.specs.Request.{identity_of};
ghost use Rattle.sigv4.specs.SigningParams.{params_time};
ghost use Rattle.firuvaik_c.specs.Answers.{LendsSigned};
ghost use Rattle.firuvaik_c.specs.Asked.{are_plain_texts};
ghost use Rattle.firuvaik_c.specs.Faults.{not_text, unknown_flags};
ghost use Rattle.firuvaik_c.specs.Signing.{GivesOutgoing, SignsLent, SignsOrRefuses, SignsPieces, http_line, is_query_params, pieces_case};
ghost use Rattle.firuvaik_c.specs.declared.answer.Made.{Made};
ghost use Rattle.firuvaik_c.specs.declared.fault.Fault.{Fault};

use crate::answer::{Answer, Made, lend_signed};
use crate::asked::{identity_of, payload_asked, settings_asked};
use crate::fault::{Fault, plain};
use crate::lent::{Request, Settings, Signer};
use crate::texts::{headers_of, test_years, text_of};
use http_uri::Uri;
use sigv4::{
    SignableBody, SignableRequest, SignatureLocation, SigningError, SigningInstructions,
    SigningOutput, SigningParams, sign_request, v4,
};
use smithy_core::{Headers, HttpRequest, Mem, Moment};
use std::alloc::Global;

/// Signs a request by AWS Signature Version 4, in its headers, or with the flag `QUERY` in its target.
///
/// The text is what goes out: the headers that are added, as lines of HTTP/1.1, or the signed target. Text and signature are written
/// where the text fits the room, and else nothing is.
#[unsafe(no_mangle)]
pub extern "C" fn firuvaik_sign(
    alloc: Global,
    signer: &Signer<'_>,
    request: &Request<'_>,
    settings: &Settings<'_>,
    seconds: i64,
    signature: &mut [u8; 64],
    out: &mut [u8],
) -> Answer
    ensures { (made : Result Made Fault) × SignsLent signer.now request.now settings.now seconds made
        × LendsSigned made signature.old signature.new out.old out.new result }
{
    let made = signed(alloc, signer, request, settings, seconds);
    lend_signed(made, signature, out)
}

// Signs a request as it is asked for.
#[tactic(auto, using(crate::proofs::SignLemmas::able))]
fn signed(
    alloc: Global,
    signer: &Signer<'_>,
    request: &Request<'_>,
    settings: &Settings<'_>,
    seconds: i64,
) -> Result<Made, Fault>
    ensures { SignsLent signer.now request.now settings.now seconds result }
{
    test_flags(settings.flags)?;
    let texts = plain_texts(signer, request)?;
    let identity = identity_of(alloc, signer)?;
    let headers = headers_of(alloc, request.headers)?;
    let body = payload_asked(alloc, settings.flags, request.body)?;
    let asked = settings_asked(alloc, settings)?;
    let at = Moment::new(seconds, 0);
    test_years(at)?;
    let params = v4::SigningParams::new(&identity, texts.region, texts.service, at, asked);
    match sign_pieces(alloc, &texts, &headers, body, &SigningParams::V4(params)) {
        Ok(made) => Ok(made),
        Err(error) => Err(Fault::from(error)),
    }
}

fn test_flags(flags: u32) -> Result<(), Fault>
    ensures { MatchResult result (λ _. nat_lt 127 flags ≡ false) (λ fault. (nat_lt 127 flags ≡ true) × (fault ≡ unknown_flags)) }
{
    if flags > 127 {
        return Err(plain(4));
    }
    Ok(())
}

// The texts that are taken as they are.
#[derive(Clone, Copy)]
struct PlainTexts<'a> {
    region: &'a str,
    service: &'a str,
    method: &'a str,
    target: &'a str,
}

fn plain_texts<'a>(signer: &Signer<'a>, request: &Request<'a>) -> Result<PlainTexts<'a>, Fault>
    ensures texts { MatchResult result (λ _. are_plain_texts signer.now request.now ≡ true)
        (λ fault. (are_plain_texts signer.now request.now ≡ false) × (fault ≡ not_text)) }
    ensures region { IfOk result (λ texts. texts.region.now ≡ signer.now.region.now) }
    ensures service { IfOk result (λ texts. texts.service.now ≡ signer.now.service.now) }
    ensures method { IfOk result (λ texts. texts.method.now ≡ request.now.method.now) }
    ensures target { IfOk result (λ texts. texts.target.now ≡ request.now.target.now) }
{
    let region = text_of(signer.region)?;
    let service = text_of(signer.service)?;
    let method = text_of(request.method)?;
    let target = text_of(request.target)?;
    Ok(PlainTexts {
        region,
        service,
        method,
        target,
    })
}

// Signs a request of these pieces: what goes out, and the signature.
fn sign_pieces(
    alloc: Global,
    texts: &PlainTexts<'_>,
    headers: &Headers,
    body: SignableBody<'_>,
    params: &SigningParams<'_>,
) -> Result<Made, SigningError>
    requires { unsignable (identity_of params.now) (params_time params.now) ≡ None }
    ensures { SignsOrRefuses texts.now.target.now (pieces_case texts.now headers.now (payload_text body.entry) params.now) result }
{
    let (output, uri) = signed_parts(alloc, texts, headers, body, params)?;
    let signature = code_of(&output);
    let (instructions, _) = output.into_parts();
    let text = outgoing_text(alloc, is_query(params), texts.target, &uri, instructions)?;
    Ok(Made { text, signature })
}

// What a signature adds to a request, and what was read of its target.
fn signed_parts(
    alloc: Global,
    texts: &PlainTexts<'_>,
    headers: &Headers,
    body: SignableBody<'_>,
    params: &SigningParams<'_>,
) -> Result<(SigningOutput<SigningInstructions>, Uri), SigningError>
    requires { unsignable (identity_of params.now) (params_time params.now) ≡ None }
    ensures { SignsPieces texts.now.target.now (pieces_case texts.now headers.now (payload_text body.entry) params.now) result }
{
    let signable = SignableRequest::new(alloc, texts.method, texts.target, headers, body)?;
    let output = sign_request(alloc, &signable, params)?;
    Ok((output, signable.into_uri()))
}

// Whether the signature goes into the query.
fn is_query(params: &SigningParams<'_>) -> bool
    ensures { result ≡ is_query_params params.now }
{
    let SigningParams::V4(params) = params;
    match params.settings().signature_location {
        SignatureLocation::Headers => false,
        SignatureLocation::QueryParams => true,
    }
}

/// The digits of a signature.
pub(crate) fn code_of<T>(signed: &SigningOutput<T>) -> [u8; 64]
    requires { length (output_signature signed.now) ≡ 64 }
    ensures { result ≡ output_signature signed.now }
{
    let mut code = [0; 64];
    code.copy_from_slice(signed.signature().as_bytes());
    code
}

// What goes out of a request with this target: the lines of the headers, or the target with the parameters.
fn outgoing_text(
    alloc: Global,
    in_query: bool,
    target: &str,
    uri: &Uri,
    instructions: SigningInstructions,
) -> Result<Vec<u8>, SigningError>
    requires { SpellsTarget target.now uri.now }
    ensures { GivesOutgoing in_query (target_of uri.now) target.now instructions result }
{
    let lines = header_lines(alloc, &instructions)?;
    let mut request = HttpRequest::new(alloc, "", target)?;
    instructions.apply_to_parsed(&mut request, uri)?;
    Ok(text_going_out(in_query, request.target, lines))
}

fn text_going_out(in_query: bool, target: String, lines: Vec<u8>) -> Vec<u8>
    ensures { result.items ≡ (if in_query then string_bytes target else lines.items) }
{
    if in_query { target.into_bytes() } else { lines }
}

// The lines of the headers that go out.
fn header_lines(alloc: Global, instructions: &SigningInstructions) -> Mem<Vec<u8>>
    ensures { IfOk result (λ lines. lines.items ≡ flat_map http_line (map instruction_pair instructions.now.headers)) }
{
    let mut lines = Vec::new(alloc);
    for (name, value) in instructions.headers() {
        push_field(&mut lines, name, value)?;
    }
    Ok(lines)
}

// Appends the line of a header.
fn push_field(lines: &mut Vec<u8>, name: &str, value: &str) -> Mem<()>
    ensures { OnOk result (lines.new.items ≡ lines.old.items ++ http_line (name.now, value.now)) }
{
    lines.extend_from_slice(name.as_bytes())?;
    lines.extend_from_slice(b": ")?;
    lines.extend_from_slice(value.as_bytes())?;
    lines.extend_from_slice(b"\r\n")
}
