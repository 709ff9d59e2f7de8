//! Signed messages.
use crate::parts::{identity_of, part_or_none, text_header};
use crate::signing::keys::key_of;
use crate::signing::requests::{name_of, region_of, time_of};
use crate::signing::signatures::refusal;
use bytes::Bytes;
use eventstream::write_message_to;
use mac_core::sha256_hex;
use sigv4::event_stream::{
    SigningParams, sign_empty_message, sign_empty_message_with_key, sign_message,
    sign_message_with_key,
};
use sigv4::{SigningError, SigningOutput};
use smithy_core::{Header, HeaderValue, Identity, Mem, Message};
use std::alloc::Global;
use tool_case_lines::{has_part, with_repeats};

/// The signature of a message over the last one, and the digest of the frame of the signed message (`link`) or its headers
/// (`link_headers`), or the same of no message, which ends a stream (`closing`).
pub fn answer(alloc: Global, call: &str, last: &str, parts: &[&str]) -> Mem<String> {
    let message = message_of(alloc, parts)?;
    answer_of(alloc, call, &message, last, parts)
}

fn answer_of(
    alloc: Global,
    call: &str,
    message: &Message,
    last: &str,
    parts: &[&str],
) -> Mem<String> {
    let identity = identity_of(alloc, parts)?;
    match signed(alloc, call, message, last, &identity, parts) {
        Ok(output) if call == "link_headers" => headers_of(alloc, output.output()),
        Ok(output) => message_text(alloc, &output),
        Err(error) => refusal(alloc, &error),
    }
}

fn signed(
    alloc: Global,
    call: &str,
    message: &Message,
    last: &str,
    identity: &Identity,
    parts: &[&str],
) -> Result<SigningOutput<Message>, SigningError> {
    let params = params_of(identity, parts);
    match (call, has_part(parts, "with-key")) {
        ("closing", true) => sign_empty_message_with_key(alloc, last, &params, &key_of(&params)),
        ("closing", false) => sign_empty_message(alloc, last, &params),
        (_, true) => sign_message_with_key(alloc, message, last, &params, &key_of(&params)),
        (_, false) => sign_message(alloc, message, last, &params),
    }
}

fn headers_of(alloc: Global, message: &Message) -> Mem<String> {
    let mut text = String::new(alloc);
    for header in message.headers() {
        push_header(alloc, &mut text, header)?;
    }
    Ok(text)
}

fn push_header(alloc: Global, text: &mut String, header: &Header) -> Mem<()> {
    let name = header.name().as_str();
    match header.value() {
        HeaderValue::ByteArray(bytes) => {
            write!(text, "{name} {};", hex::encode(alloc, bytes.as_slice())?)
        }
        HeaderValue::Timestamp(time) => {
            write!(text, "{name} {} {};", time.secs(), time.subsec_nanos())
        }
        other => write!(text, "{name} {other:?};"),
    }
}

fn params_of<'a>(identity: &'a Identity, parts: &[&'a str]) -> SigningParams<'a> {
    let builder = SigningParams::builder()
        .identity(identity)
        .region(region_of(parts))
        .name(name_of(parts))
        .time(time_of(parts))
        .settings(());
    match builder.build() {
        Ok(params) => params,
        Err(_) => unreachable!(),
    }
}

// The message of `header NAME: TEXT` and `payload TEXT`.
fn message_of(alloc: Global, parts: &[&str]) -> Mem<Message> {
    let payload = Bytes::copy_from_slice(alloc, part_or_none(parts, "payload").as_bytes())?;
    let header = header_of(alloc, part_or_none(parts, "header"))?;
    Message::new(alloc, payload).add_header(header)
}

fn header_of(alloc: Global, text: &str) -> Mem<Header> {
    let text = with_repeats(alloc, text)?;
    let (name, value) = text.as_str().split_once(": ").unwrap_or(("", ""));
    text_header(alloc, name, value)
}

fn message_text(alloc: Global, output: &SigningOutput<Message>) -> Mem<String> {
    let mut frame = Vec::new(alloc);
    let _ = write_message_to(alloc, output.output(), &mut frame);
    let digest = sha256_hex(alloc, frame.as_slice())?;
    let signature = output.signature();
    format!(in alloc; "{signature} {digest}")
}
