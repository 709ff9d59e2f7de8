//! The calls of signers.
use crate::parts::{debugged, frame_or_error, push};
use crate::sending::marshalling::message_of;
use crate::sending::signers::{LastSignature, MarkSigner, bearer, sigv4};
use eventstream::{DeferredSigner, NoOpSigner, SignMessage};
use smithy_core::{Mem, Moment};
use std::alloc::Global;
use tool_case_lines::{halves, number, unknown};

/// What the steps on the signer of a name answer.
pub fn answer(alloc: Global, name: &str, steps: &[&str]) -> Mem<String> {
    match name {
        "no-op" => steps_of(alloc, &mut NoOpSigner, steps),
        "mark" => steps_of(alloc, &mut MarkSigner::new(alloc), steps),
        "deferred" => deferred_steps(alloc, steps),
        "bearer" => steps_of(alloc, &mut bearer(alloc)?, steps),
        "sigv4" => steps_of(alloc, &mut sigv4(alloc)?, steps),
        _ => unknown(alloc),
    }
}

fn steps_of<G: SignMessage + LastSignature>(
    alloc: Global,
    signer: &mut G,
    steps: &[&str],
) -> Mem<String> {
    let mut answers = String::new(alloc);
    for step in steps {
        push(&mut answers, step_of(alloc, signer, step))?;
    }
    Ok(answers)
}

// What a deferred signer answers to the steps, of which `wire NAME` hands it another signer.
fn deferred_steps(alloc: Global, steps: &[&str]) -> Mem<String> {
    let mut signer = DeferredSigner::new();
    let mut answers = String::new(alloc);
    for step in steps {
        match halves(step) {
            ("wire", "no-op") => signer.wire(Box::new(alloc, NoOpSigner)?),
            ("wire", "mark") => signer.wire(Box::new(alloc, MarkSigner::new(alloc))?),
            ("wire", _) => signer.wire(Box::new(alloc, sigv4(alloc)?)?),
            _ => push(&mut answers, step_of(alloc, &mut signer, step))?,
        }
    }
    Ok(answers)
}

// `signature`, `sign SECONDS WORD` or `empty SECONDS`.
fn step_of<G: SignMessage + LastSignature>(
    alloc: Global,
    signer: &mut G,
    step: &str,
) -> Mem<String> {
    match halves(step) {
        ("signature", _) => String::from_str(alloc, signer.last_signature()),
        ("sign", rest) => sign(alloc, signer, rest),
        (_, secs) => match signer.sign_empty(Moment::new(number(secs), 0)) {
            Some(signed) => frame_or_error(alloc, signed),
            None => String::from_str(alloc, "none"),
        },
    }
}

/// Signs the message that a word tells, at a second.
pub fn sign<G: SignMessage>(alloc: Global, signer: &mut G, rest: &str) -> Mem<String> {
    let (secs, word) = halves(rest);
    match message_of(alloc, word) {
        Ok(message) => { frame_or_error(alloc, signer.sign(message, Moment::new(number(secs), 0))) }
        Err(error) => debugged(alloc, &error),
    }
}
