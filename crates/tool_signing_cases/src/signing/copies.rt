//! Copies, which show what they were made of.
use crate::parts::{copy_compared, copy_shown, word};
use crate::signing::endpoints::{error_of, prefix_of};
use crate::signing::faults::endpoint_error_of;
use crate::signing::queries::built;
use crate::signing::requests::{are_equal, payload_of, settings_of};
use crate::signing::signatures;
use smithy_core::Mem;
use std::alloc::Global;
use tool_case_lines::{shown, unknown};

/// What the copy of a value of this kind shows. Targets and all that is signed are copied in each call on them.
pub fn answer(alloc: Global, kind: &str, words: &[&str]) -> Mem<String> {
    match kind {
        "SignableRequest" => signatures::answer(alloc, "whole", words),
        "SigningError" | "SigningOutput" => signatures::answer(alloc, "signature", words),
        "SigningInstructions" | "Header" => signatures::answer(alloc, "instructions", words),
        "SigningSettings" => {
            let settings = settings_of(alloc, words)?;
            are_equal(alloc, &settings, settings.try_clone())
        }
        _ => of_word(alloc, kind, word(words, 0), word(words, 1)),
    }
}

fn of_word(alloc: Global, kind: &str, text: &str, why: &str) -> Mem<String> {
    match kind {
        "QueryWriter" => shown(alloc, built(alloc, "target_text", text, &[])),
        "EndpointPrefix" => match prefix_of(alloc, text) {
            Ok(prefix) => String::from_str(alloc, prefix.as_str()),
            Err(fault) => copy_shown(alloc, fault.try_clone()),
        },
        "InvalidEndpointError" => copy_shown(alloc, endpoint_error_of(alloc, text)?.try_clone()),
        "ResolveEndpointError" => copy_shown(alloc, error_of(alloc, text, why)?.try_clone()),
        "SignableBody" => {
            let body = payload_of(alloc, text)?;
            copy_compared(alloc, &body, body.try_clone())
        }
        _ => unknown(alloc),
    }
}
