//! Messages in lines, as a job has them.
ghost use Rattle.std.specs.Prelude.{◌≡◌, ◌++◌, IfOk, OnOk};
ghost use Rattle.std.specs.List.{flat_map, list_all};
ghost use Rattle.std.specs.String.{string_bytes};
ghost use Rattle.awsign_events.specs.EventText.{is_line_byte, is_lined, is_lined_value, is_word_byte, kind_word, lined_header, lined_message, behind_space, spelled_value};

use smithy_core::{DateTime, Header, HeaderValue, Mem, Message};
use std::alloc::Global;

/// Appends a message in lines.
#[tactic(auto, unfolding(crate::specs::EventText::lined_message))]
pub(crate) fn push_lines(alloc: Global, text: &mut Vec<u8>, message: &Message) -> Mem<()>
    ensures { OnOk result (text.new.items ≡ text.old.items ++ lined_message message.now) }
{
    text.extend_from_slice(b"event\n")?;
    push_headers(alloc, text, message.headers())?;
    text.extend_from_slice(b"payload")?;
    push_spaced(
        text,
        hex::encode(alloc, message.payload().as_slice())?.as_str(),
    )?;
    text.extend_from_slice(b"\n")?;
    Ok(())
}

fn push_headers(alloc: Global, text: &mut Vec<u8>, headers: &[Header]) -> Mem<()>
    ensures { OnOk result (text.new.items ≡ text.old.items ++ flat_map lined_header headers.now) }
{
    for header in headers {
        push_header(alloc, text, header)?;
    }
    Ok(())
}

#[tactic(auto, unfolding(crate::specs::EventText::lined_header))]
fn push_header(alloc: Global, text: &mut Vec<u8>, header: &Header) -> Mem<()>
    ensures { OnOk result (text.new.items ≡ text.old.items ++ lined_header header.now) }
{
    text.extend_from_slice(b"h ")?;
    text.extend_from_slice(header.name().as_str().as_bytes())?;
    text.extend_from_slice(b" ")?;
    text.extend_from_slice(kind_word(header.value()).as_bytes())?;
    push_spaced(text, spelled_value(alloc, header.value())?.as_str())?;
    text.extend_from_slice(b"\n")?;
    Ok(())
}

fn push_spaced(text: &mut Vec<u8>, value: &str) -> Mem<()>
    ensures { OnOk result (text.new.items ≡ text.old.items ++ behind_space value.now) }
{
    if !value.is_empty() {
        text.extend_from_slice(b" ")?;
        text.extend_from_slice(value.as_bytes())?;
    }
    Ok(())
}

/// The kind of a value, by its word in a job.
pub(crate) fn kind_word(value: &HeaderValue) -> &'static str
    ensures { result.now ≡ kind_word value.now }
{
    match value {
        HeaderValue::Bool(true) => "true",
        HeaderValue::Bool(false) => "false",
        HeaderValue::Byte(_) => "i8",
        HeaderValue::Int16(_) => "i16",
        HeaderValue::Int32(_) => "i32",
        HeaderValue::Int64(_) => "i64",
        HeaderValue::ByteArray(_) => "bytes",
        HeaderValue::String(_) => "text",
        HeaderValue::Timestamp(_) => "time",
        HeaderValue::Uuid(_) => "uuid",
    }
}

/// A value, as a job spells it behind its kind.
pub(crate) fn spelled_value(alloc: Global, value: &HeaderValue) -> Mem<String>
    ensures { IfOk result (λ text. string_bytes text ≡ spelled_value value.now) }
{
    match value {
        HeaderValue::Bool(_) => Ok(String::new(alloc)),
        HeaderValue::Byte(n) => format!(in alloc; "{n}"),
        HeaderValue::Int16(n) => format!(in alloc; "{n}"),
        HeaderValue::Int32(n) => format!(in alloc; "{n}"),
        HeaderValue::Int64(n) => format!(in alloc; "{n}"),
        HeaderValue::ByteArray(bytes) => hex::encode(alloc, bytes.as_slice()),
        HeaderValue::String(text) => String::from_str(alloc, text.as_str()),
        HeaderValue::Timestamp(at) => spelled_time(alloc, *at),
        HeaderValue::Uuid(n) => hex::encode(alloc, n.to_be_bytes().as_slice()),
    }
}

fn spelled_time(alloc: Global, at: DateTime) -> Mem<String>
    ensures { IfOk result (λ text. string_bytes text ≡ spelled_value (HeaderValue.Timestamp at)) }
{
    let (secs, nanos) = (at.secs(), at.subsec_nanos());
    format!(in alloc; "{secs} {nanos}")
}

/// Whether lines can spell headers.
pub(crate) fn are_lined(headers: &[Header]) -> bool
    ensures { result ≡ list_all is_lined headers.now }
{
    headers.iter().all(|header| is_lined(header))
}

fn is_lined(header: &Header) -> bool
    ensures { result ≡ is_lined header.now }
{
    let name = header.name().as_str();
    !name.is_empty() && has_word_bytes(name) && is_lined_value(header.value())
}

fn is_lined_value(value: &HeaderValue) -> bool
    ensures { result ≡ is_lined_value value.now }
{
    match value {
        HeaderValue::String(text) => has_line_bytes(text.as_str()),
        _ => true,
    }
}

fn has_word_bytes(name: &str) -> bool
    ensures { result ≡ list_all is_word_byte name.now }
{
    name.as_bytes()
        .iter()
        .all(|byte| *byte != b' ' && *byte != b'\n')
}

fn has_line_bytes(text: &str) -> bool
    ensures { result ≡ list_all is_line_byte text.now }
{
    text.as_bytes().iter().all(|byte| *byte != b'\n')
}
