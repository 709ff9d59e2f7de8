use crate::shown::{Shown, digits, labelled};
use crate::words::header_of;
use smithy_core::{Header, HeaderValue, Mem, StrBytes};
use std::alloc::Global;
use std::fmt::Display;
use tool_case_lines::unknown;

pub fn answer(alloc: Global, call: &str, word: &str) -> Mem<String> {
    match call {
        "from" => from_static(alloc),
        _ => of_header(alloc, call, header_of(alloc, word)?),
    }
}

// A text of a literal, and the value of one.
fn from_static(alloc: Global) -> Mem<String> {
    let (text, value) = (StrBytes::from("ab"), HeaderValue::from("ab"));
    let value = plain(alloc, value.as_string())?;
    format!(in alloc; "{text} {value}")
}

// What a value prints, or what a call for one kind gives, or the value that this refuses.
fn of_header(alloc: Global, call: &str, header: Header) -> Mem<String> {
    let value = header.value();
    match call {
        "print" => value.to_string(alloc),
        "as_bool" => plain(alloc, value.as_bool()),
        "as_byte" => plain(alloc, value.as_byte()),
        "as_int16" => plain(alloc, value.as_int16()),
        "as_int32" => plain(alloc, value.as_int32()),
        "as_int64" => plain(alloc, value.as_int64()),
        "as_uuid" => plain(alloc, value.as_uuid()),
        "as_string" => plain(alloc, value.as_string()),
        "as_byte_array" => as_byte_array(alloc, value),
        "as_timestamp" => as_timestamp(alloc, value),
        _ => unknown(alloc),
    }
}

fn plain<T: Display + Drop>(alloc: Global, answer: Result<T, &HeaderValue>) -> Mem<String> {
    match answer {
        Ok(value) => value.to_string(alloc),
        Err(other) => refused(alloc, other),
    }
}

fn as_byte_array(alloc: Global, value: &HeaderValue) -> Mem<String> {
    match value.as_byte_array() {
        Ok(bytes) => digits(alloc, bytes.as_slice()),
        Err(other) => refused(alloc, other),
    }
}

fn as_timestamp(alloc: Global, value: &HeaderValue) -> Mem<String> {
    match value.as_timestamp() {
        Ok(time) => time.shown(alloc),
        Err(other) => refused(alloc, other),
    }
}

fn refused(alloc: Global, other: &HeaderValue) -> Mem<String> {
    labelled(alloc, "refused", other.shown(alloc))
}
