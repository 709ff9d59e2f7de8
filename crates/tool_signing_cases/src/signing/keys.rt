ghost use Rattle.sigv4.specs.EventStream.{IsKeyOf};

use crate::parts::word;
use crate::signing::moments::moment_of;
use sigv4::v4::{
    SigningParams, calculate_signature, credential_scope, generate_signing_key, request_signature,
    signing_key_of,
};
use smithy_core::{Mem, Moment, civil};
use std::alloc::Global;
use tool_case_lines::unknown;

/// The answer of a call on scopes, keys and codes.
pub fn answer(alloc: Global, call: &str, words: &[&str]) -> Mem<String> {
    match (call, words) {
        ("stamp" | "scope", [moment, words @ ..]) => {
            of_moment(alloc, call, "", moment_of(moment), words)
        }
        (_, [secret, moment, words @ ..]) => {
            of_moment(alloc, call, secret, moment_of(moment), words)
        }
        _ => unknown(alloc),
    }
}

// Date and time of a moment, or the scope of a region and a name then, the signing key in hexadecimal, the signature of a
// string to sign under it, or that of a canonical text.
fn of_moment(alloc: Global, call: &str, secret: &str, time: Moment, words: &[&str]) -> Mem<String> {
    let Some(civil) = civil(time) else {
        return String::from_str(alloc, "outside the years");
    };
    let (region, name, text) = (word(words, 0), word(words, 1), word(words, 2).as_bytes());
    match call {
        "stamp" => civil.stamp_text(alloc),
        "scope" => credential_scope(alloc, time, region, name),
        "request_code" => request_signature(alloc, text, secret, time, region, name),
        _ => {
            let key = generate_signing_key(secret, time, region, name);
            under_key(alloc, call, key.as_slice(), text)
        }
    }
}

fn under_key(alloc: Global, call: &str, key: &[u8], text: &[u8]) -> Mem<String> {
    match call {
        "key" => hex::encode(alloc, key),
        _ => calculate_signature(alloc, key, text),
    }
}

/// The signing key of the parameters, and some other one where they sign nothing.
pub fn key_of<S>(params: &SigningParams<'_, S>) -> [u8; 32]
    ensures { IsKeyOf params.now result }
{
    match signing_key_of(params) {
        Ok(key) => key,
        Err(_) => [7; 32],
    }
}
