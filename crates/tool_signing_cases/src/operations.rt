//! Requests that are signed by the inputs of their operation, and kept keys.
mod copies;
mod faults;
mod inputs;
mod kept_keys;
mod signing;

use crate::operations::faults::error_of;
use crate::operations::inputs::override_of;
use crate::parts::{debugged, printed, printed_of, word};
use aws_auth::{
    OverrideError, PayloadSigningOverrideRuntimePlugin, SCHEME_ID, SigV4AuthScheme,
    SigV4OperationSigningConfig, SigningOptions,
};
use smithy_core::Mem;
use std::alloc::Global;
use tool_case_lines::unknown;

/// The answer of a call.
pub fn answer(alloc: Global, call: &str, words: &[&str]) -> Mem<String> {
    match (call, words) {
        ("sign" | "debug", parts) => signing::answer(alloc, call, parts),
        ("keys", parts) => kept_keys::keys(alloc, parts),
        ("links", parts) => kept_keys::links(alloc, parts),
        ("messages", parts) => kept_keys::messages(alloc, parts),
        ("copy", [kind, words @ ..]) => copies::answer(alloc, kind, words),
        ("fault", ["OverrideError", name]) => {
            printed_of(
                alloc,
                &[OverrideError::Refused, OverrideError::NoMemory],
                name,
            )
        }
        ("fault", [_, name, rest @ ..]) => printed(alloc, &error_of(name, word(rest, 0))),
        _ => default_answer(alloc, call, word(words, 0)),
    }
}

// What options, configs, the scheme and overrides are.
fn default_answer(alloc: Global, call: &str, word: &str) -> Mem<String> {
    match call {
        "default" if word == "SigningOptions" => debugged(alloc, &SigningOptions::default()),
        "default" => debugged(alloc, &SigV4OperationSigningConfig::default()),
        "scheme" => format!(in alloc; "{} {SCHEME_ID}", SigV4AuthScheme::new().scheme_id()),
        "plugin" => {
            let payload = PayloadSigningOverrideRuntimePlugin::unsigned().override_value();
            debugged(alloc, &payload)
        }
        "body" => debugged(alloc, &override_of(alloc, word)?.to_signable_body()),
        _ => unknown(alloc),
    }
}
