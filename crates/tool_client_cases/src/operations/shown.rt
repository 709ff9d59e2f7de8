//! What an answer shows.
use crate::texts::debugged;
use aws_intercept::ConfigBag;
use operation_run::{OperationFault, Outcome, Reply};
use smithy_core::{HttpRequest, Mem, Moment};
use std::alloc::Global;

/// `ok ATTEMPTS STATUS CODE SKEW` of a copy of the reply, or a copy of the fault as its `Debug` shows it.
pub fn outcome_text(alloc: Global, outcome: &Result<Outcome, OperationFault>) -> Mem<String> {
    match outcome {
        Ok(outcome) => reply_text(alloc, outcome.attempts, &outcome.reply.try_clone()?),
        Err(fault) => debugged(alloc, fault.try_clone()),
    }
}

fn reply_text(alloc: Global, attempts: u32, reply: &Reply) -> Mem<String> {
    let (status, code) = (reply.response.status, code_of(reply));
    match reply.response.skew {
        Some(skew) => format!(in alloc; "ok {attempts} {status} {code} {skew}"),
        None => format!(in alloc; "ok {attempts} {status} {code} -"),
    }
}

fn code_of(reply: &Reply) -> &str {
    match &reply.error {
        Some(error) => match &error.code {
            Some(code) => code.as_str(),
            None => "-",
        },
        None => "-",
    }
}

/// Appends each request as `METHOD TARGET`, its headers as `NAME: VALUE` and the digits of its body, a line each.
pub fn push_requests(alloc: Global, out: &mut String, requests: &[HttpRequest]) -> Mem<()> {
    for request in requests {
        push_request(alloc, out, request)?;
    }
    Ok(())
}

fn push_request(alloc: Global, out: &mut String, request: &HttpRequest) -> Mem<()> {
    write!(out, "\n{} {}", request.method, request.target)?;
    for (name, value) in &request.headers {
        write!(out, "\n{name}: {value}")?;
    }
    let digits = hex::encode(alloc, request.body.as_slice())?;
    write!(out, "\n{digits}")
}

/// Appends the moments, and the skew and the number of attempts that the bag holds.
pub fn push_state(out: &mut String, moments: &[Moment], bag: &ConfigBag) -> Mem<()> {
    out.push_str("\nmoments")?;
    for moment in moments {
        write!(out, " {}.{}", moment.secs(), moment.subsec_nanos())?;
    }
    let (skew, attempts) = (bag.attempt_skew, bag.attempts);
    write!(out, "\nskew {skew:?} attempts {attempts:?}")
}
