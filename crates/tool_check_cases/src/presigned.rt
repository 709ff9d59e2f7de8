//! Presigned requests that are checked.
use crate::given::{body_of, key_id_of, request_of, secret_of, settings_of};
use presign_check::{PresignFault, check_presigned};
use sigv4::{SignableBody, SigningSettings};
use smithy_core::{HttpRequest, Mem, Moment};
use std::alloc::Global;
use tool_case_lines::{number, part};

/// Until when the request of the words is good, or what is wrong with it.
pub fn answer(alloc: Global, words: &[&str]) -> Mem<String> {
    let request = request_of(alloc, words)?;
    of_request(alloc, &request, words)
}

fn of_request(alloc: Global, request: &HttpRequest, words: &[&str]) -> Mem<String> {
    let body = body_of(request, words);
    let settings = settings_of(alloc, words)?;
    checked(alloc, request, &settings, &body, words)
}

fn checked(
    alloc: Global,
    request: &HttpRequest,
    settings: &SigningSettings,
    body: &SignableBody<'_>,
    words: &[&str],
) -> Mem<String> {
    let region = part(words, "region").unwrap_or("us-east-1");
    let name = part(words, "name").unwrap_or("service");
    let (key_id, secret) = (key_id_of(words), secret_of(words));
    let now = Moment::new(number(part(words, "at").unwrap_or("1440938160")), 0);
    match check_presigned(
        alloc, request, settings, region, name, body, key_id, secret, now,
    ) {
        Ok(until) => format!(in alloc; "valid until {until}"),
        Err(fault) => told(alloc, &fault),
    }
}

// What a fault shows, and what it prints.
fn told(alloc: Global, fault: &PresignFault) -> Mem<String> {
    let copy = fault.try_clone()?;
    match &copy {
        PresignFault::Mismatch {
            carried,
            recomputed,
        } => format!(in alloc; "{fault:?} {fault}: {carried} {recomputed}"),
        _ => format!(in alloc; "{fault:?} {fault}"),
    }
}
