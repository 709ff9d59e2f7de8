//! Reads whole texts.
use crate::chunks::parts::bytes_of;
use crate::parts::debugged;
use aws_chunked::{Decoded, decode_chunked};
use mac_core::sha256_hex;
use smithy_core::Mem;
use std::alloc::Global;
use tool_case_lines::{bytes_of_hex, on_one_line};

// The most bytes of data that are shown as a text.
const MOST_SHOWN: usize = 100;

/// What the text says that parts make up one after the other: `hex DIGITS`, or a text.
pub fn answer(alloc: Global, parts: &[&str]) -> Mem<String> {
    let mut bytes = Vec::new(alloc);
    push_parts(alloc, &mut bytes, parts)?;
    match decode_chunked(alloc, bytes.as_slice()) {
        Ok(decoded) => shown(alloc, &decoded),
        Err(fault) => debugged(alloc, &fault),
    }
}

fn push_parts(alloc: Global, bytes: &mut Vec<u8>, parts: &[&str]) -> Mem<()> {
    for part in parts {
        match part.strip_prefix("hex ") {
            Some(digits) => bytes.extend_from_slice(bytes_of_hex(alloc, digits)?.as_slice())?,
            None => bytes.extend_from_slice(bytes_of(alloc, part)?.as_slice())?,
        }
    }
    Ok(())
}

// The data, or its length and its digest, and the signatures and trailers that there are.
fn shown(alloc: Global, decoded: &Decoded) -> Mem<String> {
    let mut found = shown_body(alloc, decoded.body.as_slice())?;
    push_rest(&mut found, decoded)?;
    on_one_line(alloc, found.as_str())
}

fn push_rest(found: &mut String, decoded: &Decoded) -> Mem<()> {
    for signature in &decoded.signatures {
        write!(found, " | {signature}")?;
    }
    for (name, value) in decoded.trailers.iter() {
        write!(found, " | {name}={value}")?;
    }
    Ok(())
}

fn shown_body(alloc: Global, body: &[u8]) -> Mem<String> {
    if body.len() > MOST_SHOWN {
        let digest = sha256_hex(alloc, body)?;
        return format!(in alloc; "{} bytes {digest}", body.len());
    }
    String::from_utf8_lossy(alloc, body)
}
