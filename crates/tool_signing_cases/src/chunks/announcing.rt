//! Bodies in chunks that a request's headers announce.
use crate::chunks::lengths::options_of;
use crate::chunks::parts::headers_in;
use crate::parts::{number_of, part_or_none};
use aws_chunked::AwsChunkedBodyOptions;
use smithy_core::{Headers, Mem};
use std::alloc::Global;
use tool_case_lines::has_part;

/// What a request is signed over that announces a body with the trailers `trailers NAME=VALUE,..`, or why there is none, and then the
/// headers `given NAME=VALUE,..` as they are after the call.
pub fn answer(alloc: Global, parts: &[&str]) -> Mem<String> {
    let trailers = headers_in(alloc, part_or_none(parts, "trailers"))?;
    let mut headers = headers_in(alloc, part_or_none(parts, "given"))?;
    let options = announced_options(alloc, &trailers, parts)?;
    let answer = match options.announce(alloc, &mut headers, &trailers) {
        Ok(payload) => payload,
        Err(fault) => format!(in alloc; "{fault}")?,
    };
    with_headers(answer, &headers)
}

// The options for the body of the parts `length N` and `signed`; with `declared N,N..` those of these lengths, and with `off` those
// without chunks.
fn announced_options(
    alloc: Global,
    trailers: &Headers,
    parts: &[&str],
) -> Mem<AwsChunkedBodyOptions> {
    if has_part(parts, "off") {
        return Ok(AwsChunkedBodyOptions::disable_chunked_encoding(alloc));
    }
    if !part_or_none(parts, "declared").is_empty() {
        return options_of(alloc, parts);
    }
    let length = number_of(parts, "length", 0);
    AwsChunkedBodyOptions::for_body(alloc, length, trailers, has_part(parts, "signed"))
}

// With the headers in order.
fn with_headers(mut answer: String, headers: &Headers) -> Mem<String> {
    for (name, value) in headers.iter() {
        write!(answer, " | {name}: {value}")?;
    }
    Ok(answer)
}
