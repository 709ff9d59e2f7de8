//! What words of several groups tell, and what their answers show.
use aws_auth::SigV4MessageSigner;
use bytes::Bytes;
use eventstream::write_message_to;
use smithy_core::{
    Credentials, Header, HeaderValue, Headers, HttpRequest, Identity, Mem, Message, Moment, Region,
    SigningName, StrBytes,
};
use std::alloc::Global;
use std::fmt::{Debug, Display};
use tool_case_lines::{part, unknown};

/// The word at a place, and no text past the last one.
pub fn word<'a>(words: &[&'a str], place: usize) -> &'a str {
    match words.get(place) {
        Some(word) => *word,
        None => "",
    }
}

/// What stands after the key, and no text where there is no such part.
pub fn part_or_none<'a>(parts: &[&'a str], key: &str) -> &'a str {
    part(parts, key).unwrap_or("")
}

/// The text after the key, where there is a part of it.
pub fn part_text(alloc: Global, parts: &[&str], key: &str) -> Mem<Option<String>> {
    match part(parts, key) {
        Some(text) => Ok(Some(String::from_str(alloc, text)?)),
        None => Ok(None),
    }
}

/// Who signs: `bearer TOKEN`, or else the credentials of AWS's examples, with `token TOKEN`.
pub fn identity_of(alloc: Global, parts: &[&str]) -> Mem<Identity> {
    match part(parts, "bearer") {
        Some(token) => Ok(Identity::Token(String::from_str(alloc, token)?)),
        None => Ok(Identity::Credentials(credentials_of(alloc, parts)?)),
    }
}

fn credentials_of(alloc: Global, parts: &[&str]) -> Mem<Credentials> {
    let key_id = String::from_str(alloc, part(parts, "key-id").unwrap_or("AKIDEXAMPLE"))?;
    let secret = String::from_str(alloc, "wJalrXUtnFEMI/K7MDENG+bPxRfiCYEXAMPLEKEY")?;
    Ok(Credentials::new(key_id, secret, part_text(alloc, parts, "token")?, None))
}

/// The request of a method and a target, with the headers `header NAME: VALUE` and the body `body TEXT`.
pub fn request_at(alloc: Global, method: &str, target: &str, parts: &[&str]) -> Mem<HttpRequest> {
    match HttpRequest::new(alloc, method, target) {
        Ok(request) => with_parts(alloc, request, parts),
        Err(fault) => Err(fault),
    }
}

fn with_parts(alloc: Global, request: HttpRequest, parts: &[&str]) -> Mem<HttpRequest> {
    let mut request = request;
    add_parts(alloc, &mut request, parts)?;
    Ok(request)
}

fn add_parts(alloc: Global, request: &mut HttpRequest, parts: &[&str]) -> Mem<()> {
    request.body = Bytes::copy_from_slice(alloc, part_or_none(parts, "body").as_bytes())?;
    add_headers(&mut request.headers, parts)
}

fn add_headers(headers: &mut Headers, parts: &[&str]) -> Mem<()> {
    for part in parts {
        if let Some(("header", pair)) = part.split_once(' ') {
            let (name, value) = pair.split_once(": ").unwrap_or((pair, ""));
            headers.append(name, value)?;
        }
    }
    Ok(())
}

/// The header of a name and a text.
pub fn text_header(alloc: Global, name: &str, value: &str) -> Mem<Header> {
    let name = StrBytes::copy_from_str(alloc, name)?;
    let value = StrBytes::copy_from_str(alloc, value)?;
    Ok(Header::new(name, HeaderValue::String(value)))
}

/// The frame of a message, or why it has none.
pub fn framed(alloc: Global, message: &Message) -> Mem<String> {
    let mut frame = Vec::new(alloc);
    match write_message_to(alloc, message, &mut frame) {
        Ok(()) => hex::encode(alloc, frame.as_slice()),
        Err(error) => debugged(alloc, &error),
    }
}

/// The frame of the message that an answer is, or why there is none.
pub fn frame_or_error<E: Debug + Drop>(alloc: Global, answer: Result<Message, E>) -> Mem<String> {
    match answer {
        Ok(message) => framed(alloc, &message),
        Err(error) => debugged(alloc, &error),
    }
}

/// What `Debug` shows of a value.
pub fn debugged<T: Debug>(alloc: Global, value: &T) -> Mem<String> {
    format!(in alloc; "{value:?}")
}

/// What a value prints.
pub fn printed<T: Display>(alloc: Global, value: &T) -> Mem<String> {
    format!(in alloc; "{value}")
}

/// What the one of these prints that `Debug` shows by this name.
pub fn printed_of<T: Debug + Display>(alloc: Global, all: &[T], name: &str) -> Mem<String> {
    for one in all {
        if debugged(alloc, one)?.as_str() == name {
            return printed(alloc, one);
        }
    }
    unknown(alloc)
}

/// What `Debug` shows of a copy.
pub fn copy_shown<T: Debug + Drop>(alloc: Global, copy: Mem<T>) -> Mem<String> {
    match copy {
        Ok(copy) => debugged(alloc, &copy),
        Err(fault) => Err(fault),
    }
}

/// What `Debug` shows of a copy, and whether it is equal to what it was made of.
pub fn copy_compared<T: Debug + PartialEq + Drop>(
    alloc: Global,
    value: &T,
    copy: Mem<T>,
) -> Mem<String> {
    let copy = copy?;
    let is_equal = copy == *value;
    format!(in alloc; "{copy:?}, equal: {is_equal}")
}

/// Adds an answer.
pub fn push(answers: &mut String, answer: Mem<String>) -> Mem<()> {
    push_text(answers, answer?.as_str())
}

/// Adds the text of an answer.
pub fn push_text(answers: &mut String, answer: &str) -> Mem<()> {
    if !answers.is_empty() {
        answers.push_str(" | ")?;
    }
    answers.push_str(answer)
}

/// A signer of messages or chunks for `us-east-1` and a name, which goes on from a signature.
pub fn message_signer<S: Drop>(
    alloc: Global,
    identity: Identity,
    signature: &str,
    name: &str,
    time: Moment,
    settings: S,
) -> Mem<SigV4MessageSigner<S>> {
    let (signature, region, name) = scope_of(alloc, signature, name)?;
    Ok(SigV4MessageSigner::new(signature, identity, region, name, time, settings))
}

fn scope_of(alloc: Global, signature: &str, name: &str) -> Mem<(String, Region, SigningName)> {
    let signature = String::from_str(alloc, signature)?;
    let region = Region::new(String::from_str(alloc, "us-east-1")?);
    let name = SigningName::new(String::from_str(alloc, name)?);
    Ok((signature, region, name))
}

/// The number of the key, and another one where there is none.
pub fn number_of(parts: &[&str], key: &str, default: u64) -> u64 {
    part_or_none(parts, key).parse().unwrap_or(default)
}
