//! Signs requests.
use crate::operations::inputs::Given;
use crate::parts::{debugged, identity_of, part_text, request_at};
use aws_auth::{
    OverrideError, SigV4AuthScheme, SigV4MessageSigner, SigV4OperationSigningConfig,
    SigV4SessionTokenNameOverride, SigV4SigningError, Signed,
};
use sigv4::SigningSettings;
use smithy_core::{HttpRequest, Identity, Mem, Moment};
use std::alloc::Global;
use tool_case_lines::{has_part, number, part};

/// Of `sign` the signature and which signers start at it, or the refusal, and then the request as it is after the call; of
/// other calls what is shown of the answer or of a part of it.
pub fn answer(alloc: Global, call: &str, parts: &[&str]) -> Mem<String> {
    let target = part(parts, "target").unwrap_or("https://h.example/");
    let mut request = request_at(alloc, "GET", target, parts)?;
    answer_of(alloc, call, &mut request, parts)
}

fn answer_of(alloc: Global, call: &str, request: &mut HttpRequest, parts: &[&str]) -> Mem<String> {
    let answer = match signed(alloc, request, parts) {
        Ok(signed) => signed_text(alloc, call, &signed)?,
        Err(error) => debugged(alloc, &error)?,
    };
    if call == "sign" {
        return with_request(alloc, answer.as_str(), request);
    }
    Ok(answer)
}

fn signed_text(alloc: Global, call: &str, signed: &Signed) -> Mem<String> {
    match call {
        "sign" => signature_text(alloc, signed),
        "debug" => debugged(alloc, signed),
        "message_signer" => signer_text(alloc, &signed.message_signer.try_clone()?),
        "chunk_signer" => signer_text(alloc, &signed.chunk_signer.try_clone()?),
        _ => copy_text(alloc, &signed.try_clone()?),
    }
}

fn signature_text(alloc: Global, signed: &Signed) -> Mem<String> {
    let signature = signed.signature.as_str();
    let for_messages = signed.message_signer.running_signature() == signature;
    let for_chunks = signed.chunk_signer.running_signature() == signature;
    let starts = if for_messages && for_chunks {
        "both"
    } else {
        "not both"
    };
    format!(in alloc; "{signature} {starts}")
}

// The signature and both signers.
fn copy_text(alloc: Global, signed: &Signed) -> Mem<String> {
    let messages = signer_text(alloc, &signed.message_signer)?;
    let chunks = signer_text(alloc, &signed.chunk_signer)?;
    let signature = signed.signature.as_str();
    format!(in alloc; "{signature} {messages} {chunks}")
}

// For what a signer signs, its last signature and how many keys it derived.
fn signer_text<S>(alloc: Global, signer: &SigV4MessageSigner<S>) -> Mem<String> {
    let (signature, derivations) = (signer.running_signature(), signer.derivations());
    format!(in alloc; "{signer:?} {signature} derived {derivations}")
}

// With the method and the target, and then the headers in order.
fn with_request(alloc: Global, signed: &str, request: &HttpRequest) -> Mem<String> {
    let (method, target) = (request.method.as_str(), request.target.as_str());
    let mut answer = format!(in alloc; "{signed}: {method} {target}")?;
    for (name, value) in request.headers.iter() {
        write!(answer, " | {name}: {value}")?;
    }
    Ok(answer)
}

fn signed(
    alloc: Global,
    request: &mut HttpRequest,
    parts: &[&str],
) -> Result<Signed, SigV4SigningError> {
    let identity = identity_of(alloc, parts)?;
    signed_by(alloc, request, &identity, parts)
}

fn signed_by(
    alloc: Global,
    request: &mut HttpRequest,
    identity: &Identity,
    parts: &[&str],
) -> Result<Signed, SigV4SigningError> {
    let given = Given::of(alloc, parts)?;
    sign_with(alloc, request, identity, &given, parts)
}

// Signs by `override NAME`, `override-none` or `override-refuses`, and at the moment of `at SECONDS`, or else at that of
// the AWS signing test suite.
fn sign_with(
    alloc: Global,
    request: &mut HttpRequest,
    identity: &Identity,
    given: &Given,
    parts: &[&str],
) -> Result<Signed, SigV4SigningError> {
    let at = Moment::new(number(part(parts, "at").unwrap_or("1440938160")), 0);
    let name_override = SigV4SessionTokenNameOverride::new(
        move |_: &SigningSettings, _: &SigV4OperationSigningConfig| name_asked(alloc, parts),
    );
    let asked = if has_override(parts) {
        Some(&name_override)
    } else {
        None
    };
    let scheme = SigV4AuthScheme::new();
    scheme
        .signer()
        .sign_http_request(request, identity, &given.inputs(), at, asked)
}

fn has_override(parts: &[&str]) -> bool {
    has_part(parts, "override")
        || has_part(parts, "override-none")
        || has_part(parts, "override-refuses")
        || has_part(parts, "override-no-memory")
}

fn name_asked(alloc: Global, parts: &[&str]) -> Result<Option<String>, OverrideError> {
    if has_part(parts, "override-refuses") {
        return Err(OverrideError::Refused);
    }
    if has_part(parts, "override-no-memory") {
        return Err(OverrideError::NoMemory);
    }
    Ok(part_text(alloc, parts, "override")?)
}
