//! Canonical texts, signatures, and what these add to requests.
use crate::parts::identity_of;
use crate::signing::keys::key_of;
use crate::signing::requests::{params_of, request_of, signable_of};
use sigv4::{
    Header, SignableRequest, SigningError, SigningInstructions, SigningOutput, SigningParams,
    canonical_text, sign, sign_with_key,
};
use smithy_core::{HttpRequest, Identity, Mem};
use std::alloc::Global;
use tool_case_lines::{has_part, on_one_line, part, with_repeats};

/// The `signature` of a request, the `instructions` for its headers, the sensitive ones with `!`, and its parameters, what
/// these `apply` to the request, or the length of its target then; else a part of the canonical text. All come from copies.
pub fn answer(alloc: Global, call: &str, words: &[&str]) -> Mem<String> {
    let mut request = request_of(alloc, words)?;
    match answer_for(alloc, call, &mut request, words) {
        Ok(text) => on_one_line(alloc, text.as_str()),
        Err(error) => refusal(alloc, &error),
    }
}

/// The copy of an error with its place, and what it prints.
pub fn refusal(alloc: Global, error: &SigningError) -> Mem<String> {
    let copy = error.try_clone()?;
    let text = format!(in alloc; "{copy:?}: {copy}")?;
    on_one_line(alloc, text.as_str())
}

fn answer_for(
    alloc: Global,
    call: &str,
    request: &mut HttpRequest,
    words: &[&str],
) -> Result<String, SigningError> {
    match identity_of(alloc, words) {
        Ok(identity) => answer_by(alloc, call, request, &identity, words),
        Err(_) => Err(SigningError::NoMemory),
    }
}

fn answer_by(
    alloc: Global,
    call: &str,
    request: &mut HttpRequest,
    identity: &Identity,
    words: &[&str],
) -> Result<String, SigningError> {
    match params_of(alloc, identity, words) {
        Ok(params) => answer_under(alloc, call, request, &params, words),
        Err(_) => Err(SigningError::NoMemory),
    }
}

fn answer_under(
    alloc: Global,
    call: &str,
    request: &mut HttpRequest,
    params: &SigningParams<'_>,
    words: &[&str],
) -> Result<String, SigningError> {
    let signable = signable_of(alloc, request, words);
    match call {
        "signature" | "instructions" | "apply" | "apply_length" => {
            let output = signed(alloc, signable, params, words)?.try_clone()?;
            output_text(alloc, call, output, request, words)
        }
        part => canonical(alloc, part, signable, params),
    }
}

fn canonical(
    alloc: Global,
    part: &str,
    signable: Result<SignableRequest<'_>, SigningError>,
    params: &SigningParams<'_>,
) -> Result<String, SigningError> {
    match signable {
        Ok(signable) => {
            let text = canonical_text(alloc, &signable, params)?;
            Ok(String::from_str(alloc, part_of(text.as_str(), part))?)
        }
        Err(error) => Err(error),
    }
}

// A part of the canonical text: `whole`, `path`, `query`, the value of a header `NAME:`, `signed` or `payload`.
fn part_of<'a>(text: &'a str, part: &str) -> &'a str {
    match part {
        "whole" => text,
        "path" => text.split('\n').nth(1).unwrap_or("none"),
        "query" => text.split('\n').nth(2).unwrap_or("none"),
        "signed" => text.rsplit('\n').nth(1).unwrap_or("none"),
        "payload" => text.rsplit('\n').next().unwrap_or("none"),
        name => value_of(text, name),
    }
}

// The value of the header whose line begins so.
fn value_of<'a>(text: &'a str, name: &str) -> &'a str {
    for line in text.split('\n') {
        if let Some(value) = line.strip_prefix(name) {
            return value;
        }
    }
    "none"
}

type Signed = Result<SigningOutput<SigningInstructions>, SigningError>;

// Signs, or does `with-key` under a key that was derived beforehand.
fn signed(
    alloc: Global,
    signable: Result<SignableRequest<'_>, SigningError>,
    params: &SigningParams<'_>,
    words: &[&str],
) -> Signed {
    match signable {
        Ok(signable) if has_part(words, "with-key") => {
            let SigningParams::V4(v4_params) = params;
            sign_with_key(alloc, signable, params, &key_of(v4_params))
        }
        Ok(signable) => sign(alloc, signable, params),
        Err(error) => Err(error),
    }
}

fn output_text(
    alloc: Global,
    call: &str,
    output: SigningOutput<SigningInstructions>,
    request: &mut HttpRequest,
    words: &[&str],
) -> Result<String, SigningError> {
    let (instructions, signature) = output.into_parts();
    match call {
        "signature" => Ok(signature),
        "instructions" => Ok(instructions_text(alloc, instructions)?),
        _ => applied(alloc, call, instructions, request, words),
    }
}

// The headers and the parameters, a line each.
fn instructions_text(alloc: Global, instructions: SigningInstructions) -> Mem<String> {
    let mut text = String::new(alloc);
    push_instructions(&mut text, instructions.try_clone()?)?;
    Ok(text)
}

fn push_instructions(text: &mut String, instructions: SigningInstructions) -> Mem<()> {
    let (headers, params) = instructions.into_parts();
    push_headers(text, headers.as_slice())?;
    for (key, value) in &params {
        write!(text, "?{key}={value}\n")?;
    }
    Ok(())
}

fn push_headers(text: &mut String, headers: &[Header]) -> Mem<()> {
    for header in headers {
        push_header(text, &header.try_clone()?)?;
    }
    Ok(())
}

fn push_header(text: &mut String, header: &Header) -> Mem<()> {
    let mark = if header.sensitive() { "!" } else { "" };
    let (name, value) = (header.name(), header.value());
    write!(text, "{mark}{name}: {value}\n")
}

// The request after its signature is put into it, and before it the refusal where it isn't, or the length of its target.
// `onto TARGET` puts the signature into the same request at another target.
fn applied(
    alloc: Global,
    call: &str,
    instructions: SigningInstructions,
    request: &mut HttpRequest,
    words: &[&str],
) -> Result<String, SigningError> {
    if let Some(target) = part(words, "onto") {
        request.target = with_repeats(alloc, target)?;
    }
    match instructions.apply_to_request(request) {
        Ok(()) => Ok(request_text(alloc, call, request)?),
        Err(error) if call == "apply" => Ok(with_refusal(alloc, &error, request)?),
        Err(error) => Err(error),
    }
}

fn request_text(alloc: Global, call: &str, request: &HttpRequest) -> Mem<String> {
    if call == "apply_length" {
        return request.target.len().to_string(alloc);
    }
    let mut text = String::new(alloc);
    push_request(&mut text, request)?;
    Ok(text)
}

fn with_refusal(alloc: Global, error: &SigningError, request: &HttpRequest) -> Mem<String> {
    let mut text = format!(in alloc; "{error:?}: {error}\n")?;
    push_request(&mut text, request)?;
    Ok(text)
}

fn push_request(text: &mut String, request: &HttpRequest) -> Mem<()> {
    write!(text, "{} {}\n", request.method, request.target)?;
    for (name, value) in request.headers.iter() {
        write!(text, "{name}: {value}\n")?;
    }
    Ok(())
}
