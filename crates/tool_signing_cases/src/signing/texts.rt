//! Escapes, paths and bodies.
use crate::parts::debugged;
use crate::signing::moments::moment_of;
use sigv4::{SignableBody, normalize_uri_path};
use smithy_core::{Format, Mem};
use smithy_http::label::EncodingStrategy;
use smithy_http::{label, query};
use std::alloc::Global;
use tool_case_lines::{shown, unknown};

/// The answer of a call on a text, or on a text or a moment that is written so.
pub fn answer(alloc: Global, call: &str, first: &str, second: &str) -> Mem<String> {
    match call {
        "query" => query::fmt_string(alloc, first),
        "path" => normalize_uri_path(alloc, first),
        "bytes" => debugged(alloc, &SignableBody::Bytes(first.as_bytes())),
        "label" if first == "greedy" => label::fmt_string(alloc, second, EncodingStrategy::Greedy),
        "label" => label::fmt_string(alloc, second, EncodingStrategy::Default),
        "label_time" => {
            let time = moment_of(second);
            shown(alloc, label::fmt_timestamp(alloc, &time, format_of(first)))
        }
        "query_time" => {
            let time = moment_of(second);
            shown(alloc, query::fmt_timestamp(alloc, &time, format_of(first)))
        }
        _ => unknown(alloc),
    }
}

fn format_of(word: &str) -> Format {
    match word {
        "date_time" => Format::DateTime,
        "http_date" => Format::HttpDate,
        _ => Format::EpochSeconds,
    }
}

/// The text, or its length where the call asks for that.
pub fn text_or_length(alloc: Global, call: &str, text: String) -> Mem<String> {
    if call.ends_with("_length") {
        return text.len().to_string(alloc);
    }
    Ok(text)
}
