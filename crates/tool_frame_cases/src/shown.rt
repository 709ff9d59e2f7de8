use bytes::Bytes;
use mac_core::sha256_hex;
use smithy_core::{DateTime, Header, HeaderValue, Mem, Message};
use std::alloc::Global;
use std::fmt::{Debug, Display};
use std::str;

// The most bytes that are shown one by one.
const MOST: usize = 400;

// What an answer shows of a value.
pub trait Shown {
    fn shown(&self, alloc: Global) -> Mem<String>;
}

impl Shown for Bytes {
    fn shown(&self, alloc: Global) -> Mem<String> {
        quoted(alloc, self.as_slice())
    }
}

impl Shown for Vec<u8> {
    fn shown(&self, alloc: Global) -> Mem<String> {
        quoted(alloc, self.as_slice())
    }
}

impl Shown for DateTime {
    fn shown(&self, alloc: Global) -> Mem<String> {
        let (secs, nanos) = (self.secs(), self.subsec_nanos());
        format!(in alloc; "{secs} {nanos}")
    }
}

impl Shown for HeaderValue {
    fn shown(&self, alloc: Global) -> Mem<String> {
        match self {
            HeaderValue::ByteArray(bytes) => {
                labelled(alloc, "bytes", digits(alloc, bytes.as_slice()))
            }
            HeaderValue::String(value) => labelled(alloc, "text", text(alloc, value.as_str())),
            HeaderValue::Timestamp(time) => labelled(alloc, "time", time.shown(alloc)),
            HeaderValue::Uuid(value) => format!(in alloc; "uuid {value:032x}"),
            HeaderValue::Bool(value) => of_kind(alloc, "bool", value),
            HeaderValue::Byte(value) => of_kind(alloc, "i8", value),
            HeaderValue::Int16(value) => of_kind(alloc, "i16", value),
            HeaderValue::Int32(value) => of_kind(alloc, "i32", value),
            HeaderValue::Int64(value) => of_kind(alloc, "i64", value),
        }
    }
}

fn of_kind<T: Display>(alloc: Global, kind: &str, value: &T) -> Mem<String> {
    format!(in alloc; "{kind} {value}")
}

impl Shown for Header {
    fn shown(&self, alloc: Global) -> Mem<String> {
        let name = text(alloc, self.name().as_str())?;
        labelled(alloc, name.as_str(), self.value().shown(alloc))
    }
}

impl Shown for Message {
    // The headers and the payload, with `;` between them.
    fn shown(&self, alloc: Global) -> Mem<String> {
        let mut text = String::new(alloc);
        push_headers(alloc, &mut text, self.headers())?;
        push_shown(&mut text, self.payload().shown(alloc))?;
        Ok(text)
    }
}

fn push_headers(alloc: Global, text: &mut String, headers: &[Header]) -> Mem<()> {
    for header in headers {
        push_shown(text, header.shown(alloc))?;
        text.push_str("; ")?;
    }
    Ok(())
}

fn push_shown(text: &mut String, shown: Mem<String>) -> Mem<()> {
    text.push_str(shown?.as_str())
}

// The hexadecimal digits of bytes, or the length and the SHA-256 of many.
pub fn digits(alloc: Global, bytes: &[u8]) -> Mem<String> {
    if bytes.len() > MOST {
        return digest(alloc, bytes);
    }
    hex::encode(alloc, bytes)
}

// A text as it stands, or the length and the SHA-256 of a long one.
fn text(alloc: Global, text: &str) -> Mem<String> {
    if text.len() > MOST {
        return digest(alloc, text.as_bytes());
    }
    String::from_str(alloc, text)
}

fn digest(alloc: Global, bytes: &[u8]) -> Mem<String> {
    let count = bytes.len();
    let digest = sha256_hex(alloc, bytes)?;
    format!(in alloc; "{count} bytes, SHA-256 {digest}")
}

// Bytes that spell a text as that text in double quotes, and others as digits.
pub fn quoted(alloc: Global, bytes: &[u8]) -> Mem<String> {
    match str::from_utf8(bytes) {
        Ok(text) if text.len() <= MOST => format!(in alloc; "\"{text}\""),
        _ => digits(alloc, bytes),
    }
}

// What it is, before what it shows.
pub fn labelled(alloc: Global, what: &str, shown: Mem<String>) -> Mem<String> {
    let shown = shown?;
    format!(in alloc; "{what} {shown}")
}

// What a copy shows.
pub fn copy_shown<T: Shown + Drop>(alloc: Global, copy: Mem<T>) -> Mem<String> {
    copy?.shown(alloc)
}

// What `Debug` shows.
pub fn debugged<T: Debug>(alloc: Global, value: &T) -> Mem<String> {
    format!(in alloc; "{value:?}")
}

// What `Debug` shows of a copy.
pub fn copy_debugged<T: Debug + Drop>(alloc: Global, copy: Mem<T>) -> Mem<String> {
    debugged(alloc, &copy?)
}

// What is shown of an answer, or how a fault shows itself.
pub fn answered<T: Shown + Drop, E: Debug + Drop>(
    alloc: Global,
    answer: Result<T, E>,
) -> Mem<String> {
    match answer {
        Ok(value) => value.shown(alloc),
        Err(fault) => debugged(alloc, &fault),
    }
}

// What is shown of an answer, or the text of an error.
pub fn unless_error<T: Shown + Drop, E: Display + Drop>(
    alloc: Global,
    answer: Result<T, E>,
) -> Mem<String> {
    match answer {
        Ok(value) => value.shown(alloc),
        Err(error) => error.to_string(alloc),
    }
}

// Adds the answer of one step more, where it has one.
pub fn push(answers: &mut String, answer: Mem<String>) -> Mem<()> {
    push_text(answers, answer?.as_str())
}

pub fn push_text(answers: &mut String, answer: &str) -> Mem<()> {
    if answer.is_empty() {
        return Ok(());
    }
    if !answers.is_empty() {
        answers.push_str(" | ")?;
    }
    answers.push_str(answer)
}

// No answer.
pub fn nothing(alloc: Global) -> Mem<String> {
    Ok(String::new(alloc))
}
