//! Operations over a transport in memory.
ghost use Rattle.std.specs.Prelude.{◌≡◌, ◌≤◌, true};
ghost use Rattle.operation_run.specs.Again.{most_attempts};

mod always;
mod given;
mod replies;
mod shown;

use crate::operations::always::Always;
use crate::operations::given::{Given, clock_of, given_of};
use crate::operations::shown::{outcome_text, push_requests, push_state};
use aws_auth::SigningInputs;
use aws_intercept::{
    ConfigBag, InvocationIdGenerator, NoInvocationIdGenerator, PredefinedInvocationIdGenerator,
};
use operation_run::{ScriptedTransport, Transport, operate};
use smithy_core::Mem;
use std::alloc::Global;
use std::mem;
use tool_case_lines::{has_part, on_one_line, unknown};

/// What an operation answers, sends, takes and leaves in its bag.
pub fn answer(alloc: Global, method: &str, words: &[&str]) -> Mem<String> {
    let mut bag = ConfigBag::new(alloc);
    let mut given = given_of(alloc, &mut bag, method, words)?;
    if !has_attempts(&bag) {
        return unknown(alloc);
    }
    of_given(alloc, &mut given, &mut bag, words)
}

fn has_attempts(bag: &ConfigBag) -> bool
    ensures { result ≡ true → 1 ≤ most_attempts bag.now }
{
    match &bag.retry {
        Some(retry) => retry.max_attempts > 0,
        None => true,
    }
}

fn of_given(alloc: Global, given: &mut Given, bag: &mut ConfigBag, words: &[&str]) -> Mem<String>
    requires { 1 ≤ most_attempts bag.old }
{
    let ids = mem::replace(&mut given.ids, Vec::new(alloc));
    let mut ids = PredefinedInvocationIdGenerator::new(ids);
    let mut out = if has_part(words, "no-ids") {
        over(
            alloc,
            given,
            bag,
            &mut NoInvocationIdGenerator::new(),
            words,
        )?
    } else {
        over(alloc, given, bag, &mut ids, words)?
    };
    push_state(&mut out, given.taken.as_slice(), bag)?;
    on_one_line(alloc, out.as_str())
}

// The outcome, and the requests that were sent, where the transport keeps them.
fn over<G: InvocationIdGenerator>(
    alloc: Global,
    given: &mut Given,
    bag: &mut ConfigBag,
    ids: &mut G,
    words: &[&str],
) -> Mem<String>
    requires { 1 ≤ most_attempts bag.old }
{
    if has_part(words, "always") {
        return outcome(alloc, given, bag, ids, &mut Always { alloc });
    }
    let replies = mem::replace(&mut given.replies, Vec::new(alloc));
    let mut script = ScriptedTransport::new(replies).try_clone()?;
    let mut out = outcome(alloc, given, bag, ids, &mut script)?;
    push_requests(alloc, &mut out, script.sent())?;
    Ok(out)
}

fn outcome<T: Transport, G: InvocationIdGenerator>(
    alloc: Global,
    given: &mut Given,
    bag: &mut ConfigBag,
    ids: &mut G,
    transport: &mut T,
) -> Mem<String>
    requires { 1 ≤ most_attempts bag.old }
{
    let inputs = SigningInputs {
        skew_millis: Some(7_000_000),
        ..SigningInputs::from(&given.config)
    };
    let mut clock = clock_of(mem::replace(&mut given.moments, Vec::new(alloc)))?;
    let outcome = operate(
        alloc,
        &given.request,
        &given.identity,
        &inputs,
        &given.env,
        bag,
        ids,
        &mut clock,
        transport,
        &mut given.taken,
    );
    outcome_text(alloc, &outcome)
}
