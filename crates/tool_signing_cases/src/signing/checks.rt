//! Requests that were signed and sent, with the signature computed again.
use crate::signing::requests::{body_of, name_of, region_of, request_of, settings_of};
use request_check::{CheckRequestFault, Seal, check_request};
use smithy_core::{HttpRequest, Mem};
use std::alloc::Global;
use tool_case_lines::part;

/// Of `check` both signatures of the request, of `sealed` the seal beside them, or why there are none.
pub fn answer(alloc: Global, call: &str, words: &[&str]) -> Mem<String> {
    let request = request_of(alloc, words)?;
    checked(alloc, call, &request, words)
}

fn checked(alloc: Global, call: &str, request: &HttpRequest, words: &[&str]) -> Mem<String> {
    let body = body_of(alloc, request, words)?;
    let settings = settings_of(alloc, words)?;
    let (region, name) = (region_of(words), name_of(words));
    let secret = part(words, "secret").unwrap_or("wJalrXUtnFEMI/K7MDENG+bPxRfiCYEXAMPLEKEY");
    match check_request(alloc, request, &settings, region, name, &body, secret) {
        Ok(checked) if call == "sealed" => seal_text(alloc, &checked.seal),
        Ok(checked) => format!(in alloc; "ok {} {}", checked.carried, checked.recomputed),
        Err(CheckRequestFault::NoSignature) => String::from_str(alloc, "NoSignature"),
        Err(CheckRequestFault::Signing(error)) => format!(in alloc; "Signing {error}"),
        Err(CheckRequestFault::NoMemory) => String::from_str(alloc, "NoMemory"),
    }
}

// Where a seal is, who signed, in which second and which headers, and for how long it is good.
fn seal_text(alloc: Global, seal: &Seal) -> Mem<String> {
    let (place, at, expires) = (seal.place(), seal.at().secs(), seal.expires());
    format!(in alloc;
        "{place:?} {} {at} {} {expires:?}",
        seal.key_id(),
        seal.names()
    )
}
