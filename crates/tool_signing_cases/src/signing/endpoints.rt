use crate::parts::{debugged, word};
use crate::signing::texts::text_or_length;
use http_uri::Uri;
use smithy_core::{ErrorMetadata, Mem};
use smithy_http::{
    EndpointPrefix, InvalidEndpointError, ResolveEndpointError, UriFault, apply_endpoint,
};
use std::alloc::Global;
use tool_case_lines::{unknown, with_repeats};

/// The answer of a call on endpoints.
pub fn answer(alloc: Global, call: &str, words: &[&str]) -> Mem<String> {
    match (call, words) {
        ("resolve_error", [message, why]) => resolve_error(alloc, message, why),
        (_, [target, endpoint, prefix @ ..]) => {
            endpoint_answer(alloc, call, target, endpoint, word(prefix, 0))
        }
        _ => unknown(alloc),
    }
}

// The target at the endpoint, or its length, or the fault and then the target, which has stayed.
fn endpoint_answer(
    alloc: Global,
    call: &str,
    target: &str,
    endpoint: &str,
    prefix: &str,
) -> Mem<String> {
    let target = with_repeats(alloc, target)?;
    match target_of(alloc, target.as_str()) {
        Ok(uri) => moved(alloc, call, uri, endpoint, prefix),
        Err(fault) => debugged(alloc, &fault),
    }
}

fn moved(alloc: Global, call: &str, uri: Uri, endpoint: &str, prefix: &str) -> Mem<String> {
    let mut uri = uri;
    match apply(alloc, &mut uri, endpoint, prefix) {
        Ok(()) => text_or_length(alloc, call, uri.to_string(alloc)?),
        Err(fault) if call == "endpoint" => format!(in alloc; "{fault:?} {uri}"),
        Err(fault) => debugged(alloc, &fault),
    }
}

fn apply(
    alloc: Global,
    uri: &mut Uri,
    endpoint: &str,
    prefix: &str,
) -> Result<(), InvalidEndpointError> {
    match target_of(alloc, endpoint) {
        Ok(endpoint) if prefix.is_empty() => apply_endpoint(alloc, uri, &endpoint, None),
        Ok(endpoint) => apply_prefixed(alloc, uri, &endpoint, prefix),
        Err(fault) => Err(InvalidEndpointError::from(fault)),
    }
}

fn apply_prefixed(
    alloc: Global,
    uri: &mut Uri,
    endpoint: &Uri,
    prefix: &str,
) -> Result<(), InvalidEndpointError> {
    let prefix = prefix_of(alloc, prefix)?;
    apply_endpoint(alloc, uri, endpoint, Some(&prefix))
}

/// A copy of a prefix.
pub fn prefix_of(alloc: Global, text: &str) -> Result<EndpointPrefix, InvalidEndpointError> {
    let prefix = EndpointPrefix::new(String::from_str(alloc, text)?)?;
    Ok(prefix.try_clone()?)
}

fn target_of(alloc: Global, text: &str) -> Result<Uri, UriFault> {
    Ok(Uri::from_str(alloc, text)?)
}

// What an error from a source prints, the source's message, and whether it has a source without it.
fn resolve_error(alloc: Global, message: &str, why: &str) -> Mem<String> {
    let source = source_of(alloc, why)?;
    let error = ResolveEndpointError::from_source(String::from_str(alloc, message)?, source);
    with_bare(alloc, error)
}

fn with_bare(alloc: Global, error: ResolveEndpointError) -> Mem<String> {
    let text = source_text(alloc, &error)?;
    let bare = source_text(alloc, &error.with_source(None))?;
    format!(in alloc; "{text}; {bare}")
}

fn source_text(alloc: Global, error: &ResolveEndpointError) -> Mem<String> {
    let source = error.source();
    format!(in alloc; "{error}, from {source:?}")
}

/// An error of a message, from a source with this one.
pub fn error_of(alloc: Global, message: &str, why: &str) -> Mem<ResolveEndpointError> {
    let source = source_of(alloc, why)?;
    let error = ResolveEndpointError::message(String::from_str(alloc, message)?);
    Ok(error.with_source(Some(source)))
}

fn source_of(alloc: Global, why: &str) -> Mem<ErrorMetadata> {
    Ok(ErrorMetadata {
        code: None,
        message: Some(String::from_str(alloc, why)?),
    })
}
