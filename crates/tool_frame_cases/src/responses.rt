use crate::shown::{Shown, digits, unless_error};
use crate::words::{header_of, message_of, word};
use eventstream::{
    Error, ResponseHeaders, expect_bool, expect_byte, expect_byte_array, expect_int16,
    expect_int32, expect_int64, expect_string, expect_timestamp, parse_response_headers,
};
use smithy_core::{Blob, Header, Mem, Message};
use std::alloc::Global;
use std::fmt::Display;
use tool_case_lines::unknown;

pub fn answer(alloc: Global, call: &str, words: &[&str]) -> Mem<String> {
    match call {
        "headers" => headers(alloc, message_of(alloc, words)?),
        kind => expected(alloc, kind, header_of(alloc, word(words, 0))?),
    }
}

fn headers(alloc: Global, message: Message) -> Mem<String> {
    unless_error(alloc, parse_response_headers(alloc, &message))
}

impl Shown for ResponseHeaders<'_> {
    // The message type, the smithy type and the content type.
    fn shown(&self, alloc: Global) -> Mem<String> {
        let (message, smithy) = (self.message_type.as_str(), self.smithy_type.as_str());
        format!(in alloc; "{message} {smithy} {:?}", self.content_type())
    }
}

impl Shown for Blob {
    fn shown(&self, alloc: Global) -> Mem<String> {
        digits(alloc, self.as_ref())
    }
}

// The value that a call for one kind gives.
fn expected(alloc: Global, kind: &str, header: Header) -> Mem<String> {
    match kind {
        "expect_bool" => plain(alloc, expect_bool(alloc, &header)),
        "expect_byte" => plain(alloc, expect_byte(alloc, &header)),
        "expect_int16" => plain(alloc, expect_int16(alloc, &header)),
        "expect_int32" => plain(alloc, expect_int32(alloc, &header)),
        "expect_int64" => plain(alloc, expect_int64(alloc, &header)),
        "expect_string" => plain(alloc, expect_string(alloc, &header)),
        "expect_byte_array" => unless_error(alloc, expect_byte_array(alloc, &header)),
        "expect_timestamp" => unless_error(alloc, expect_timestamp(alloc, &header)),
        _ => unknown(alloc),
    }
}

fn plain<T: Display + Drop>(alloc: Global, answer: Result<T, Error>) -> Mem<String> {
    match answer {
        Ok(value) => value.to_string(alloc),
        Err(error) => error.to_string(alloc),
    }
}
