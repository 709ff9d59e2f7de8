//! Signing keys that are kept for their day, and the signers of messages that keep them.
use crate::parts::{identity_of, message_signer};
use crate::sending::marshalling::message_of;
use aws_auth::{KeptKey, SigV4MessageSigner};
use eventstream::{SignMessage, SignMessageError};
use smithy_core::{Mem, Moment, civil};
use std::alloc::Global;
use tool_case_lines::{number, part};

/// The keys at the moments of `at SECONDS ..`, one after another, and how many were derived, as a copy tells it.
pub fn keys(alloc: Global, parts: &[&str]) -> Mem<String> {
    let mut kept = kept_of(alloc, parts)?;
    keys_text(alloc, &mut kept, part(parts, "at").unwrap_or(""))
}

fn keys_text(alloc: Global, kept: &mut KeptKey, moments: &str) -> Mem<String> {
    let mut answer = String::new(alloc);
    for seconds in moments.split(' ') {
        push_key(alloc, &mut answer, kept, Moment::new(number(seconds), 0))?;
    }
    write!(answer, "derived {}", kept.try_clone()?.derivations())?;
    Ok(answer)
}

// Appends the key at a moment that has one.
fn push_key(alloc: Global, answer: &mut String, kept: &mut KeptKey, at: Moment) -> Mem<()> {
    if civil(at).is_none() {
        return Ok(());
    }
    let key = hex::encode(alloc, kept.key(at).as_slice())?;
    write!(answer, "{key} ")
}

/// The codes of links without bytes at the moments of `at SECONDS ..`, each over the code before it, and how many keys were derived.
pub fn links(alloc: Global, parts: &[&str]) -> Mem<String> {
    let mut kept = kept_of(alloc, parts)?;
    links_text(alloc, &mut kept, part(parts, "at").unwrap_or(""))
}

fn links_text(alloc: Global, kept: &mut KeptKey, moments: &str) -> Mem<String> {
    let mut answer = String::new(alloc);
    let mut last = String::new(alloc);
    for seconds in moments.split(' ') {
        last = next_link(alloc, kept, last.as_str(), Moment::new(number(seconds), 0))?;
        write!(answer, "{last} ")?;
    }
    write!(answer, "derived {}", kept.derivations())?;
    Ok(answer)
}

// The code of a link at a moment that has one, or else the last one.
fn next_link(alloc: Global, kept: &mut KeptKey, last: &str, at: Moment) -> Mem<String> {
    if civil(at).is_none() {
        return String::from_str(alloc, last);
    }
    let code = kept.link_code(b"", last, at)?;
    hex::encode(alloc, code.as_slice())
}

// A key of `secret S`, or else that of AWS's examples, for `region R` and `name N`.
fn kept_of(alloc: Global, parts: &[&str]) -> Mem<KeptKey> {
    let secret = part(parts, "secret").unwrap_or("wJalrXUtnFEMI/K7MDENG+bPxRfiCYEXAMPLEKEY");
    Ok(KeptKey::new(
        String::from_str(alloc, secret)?,
        String::from_str(alloc, part(parts, "region").unwrap_or("us-east-1"))?,
        String::from_str(alloc, part(parts, "name").unwrap_or("service"))?,
    ))
}

/// Signs messages one after another, from a signature without digits on: the last signature, or what the first refusal is,
/// and how many keys were derived, as a copy tells both.
pub fn messages(alloc: Global, parts: &[&str]) -> Mem<String> {
    let identity = identity_of(alloc, parts)?;
    let at = Moment::new(1_440_938_160, 0);
    let mut signer = message_signer(alloc, identity, "", "service", at, ())?;
    messages_text(alloc, &mut signer, parts)
}

fn messages_text(
    alloc: Global,
    signer: &mut SigV4MessageSigner<()>,
    parts: &[&str],
) -> Mem<String> {
    let signed = sign_each(alloc, signer, parts);
    let copy = signer.try_clone()?;
    let (signature, derivations) = (copy.running_signature(), copy.derivations());
    match signed {
        Ok(()) => format!(in alloc; "{signature} derived {derivations}"),
        Err(error) => format!(in alloc; "{error:?} derived {derivations}"),
    }
}

// Signs `count N` times the message of `message WORD`, or one without headers and payload, first at `at SECONDS`, then each
// so many seconds after the last as `step SECONDS` says.
fn sign_each(
    alloc: Global,
    signer: &mut SigV4MessageSigner<()>,
    parts: &[&str],
) -> Result<(), SignMessageError> {
    let count = number(part(parts, "count").unwrap_or("1"));
    let step = number(part(parts, "step").unwrap_or("0"));
    let mut seconds = number(part(parts, "at").unwrap_or("1440938160"));
    for _ in 0..count {
        let message = message_of(alloc, part(parts, "message").unwrap_or("text"))?;
        signer.sign(message, Moment::new(seconds, 0))?;
        seconds = seconds.saturating_add(step);
    }
    Ok(())
}
