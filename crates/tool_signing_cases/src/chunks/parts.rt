use bytes::Bytes;
use smithy_core::{Headers, Mem};
use std::alloc::Global;
use tool_case_lines::with_repeats;

/// The bytes of a text.
pub fn bytes_of(alloc: Global, word: &str) -> Mem<Bytes> {
    Ok(Bytes::from_vec(with_repeats(alloc, word)?.into_bytes())?)
}

/// The headers of words `name=value`.
pub fn headers_of(alloc: Global, pairs: &[&str]) -> Mem<Headers> {
    let mut headers = Headers::new(alloc);
    for pair in pairs {
        append(&mut headers, pair)?;
    }
    Ok(headers)
}

/// The headers of pairs `name=value` with commas between.
pub fn headers_in(alloc: Global, pairs: &str) -> Mem<Headers> {
    let mut headers = Headers::new(alloc);
    for pair in pairs.split(',') {
        append(&mut headers, pair)?;
    }
    Ok(headers)
}

// Appends the header of a pair, and nothing for no text.
fn append(headers: &mut Headers, pair: &str) -> Mem<()> {
    if pair.is_empty() {
        return Ok(());
    }
    let (name, value) = pair.split_once('=').unwrap_or((pair, ""));
    headers.append(name, value)
}
