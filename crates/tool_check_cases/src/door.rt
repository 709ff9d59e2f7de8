//! Requests that come to a service's door.
use crate::given::{keys_of, request_of, settings_of};
use request_door::{Admitted, DoorFault, Limits, admit};
use sigv4::SigningSettings;
use smithy_core::{HttpRequest, Mem, Moment};
use std::alloc::Global;
use tool_case_lines::{number, part};

/// Who signed the request of the words, or the error that it gets.
pub fn answer(alloc: Global, words: &[&str]) -> Mem<String> {
    let request = request_of(alloc, words)?;
    of_request(alloc, &request, words)
}

fn of_request(alloc: Global, request: &HttpRequest, words: &[&str]) -> Mem<String> {
    let settings = settings_of(alloc, words)?;
    of_settings(alloc, request, &settings, words)
}

fn of_settings(
    alloc: Global,
    request: &HttpRequest,
    settings: &SigningSettings,
    words: &[&str],
) -> Mem<String> {
    let keys = keys_of(alloc, words)?;
    let region = part(words, "region").unwrap_or("us-east-1");
    let name = part(words, "name").unwrap_or("service");
    let now = Moment::new(number(part(words, "at").unwrap_or("1440938160")), 0);
    let limits = Limits::new();
    let body = request.body.as_slice();
    match admit(
        alloc, request, body, settings, region, name, &keys, now, &limits,
    ) {
        Ok(admitted) => told(alloc, &admitted),
        Err(fault) => refused(alloc, fault),
    }
}

// What is told of a request that was admitted.
fn told(alloc: Global, admitted: &Admitted) -> Mem<String> {
    let Admitted {
        key_id,
        place,
        until,
        names,
        payload,
        signature,
        ..
    } = admitted;
    let at = admitted.at.secs();
    format!(in alloc; "{key_id} {place:?} {at} {until} {names} {payload:?} {signature}")
}

// A fault, what it prints, and its error.
fn refused(alloc: Global, fault: DoorFault) -> Mem<String> {
    let code = fault.code();
    let (name, status) = (code.name, code.status);
    format!(in alloc; "{fault:?} {fault}: {name} {status}")
}
