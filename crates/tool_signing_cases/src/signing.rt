//! Escapes, targets, headers, signatures and signed messages, and requests and chains that are checked.
mod builders;
mod chains;
mod checks;
mod copies;
mod endpoints;
mod faults;
mod headers;
mod keys;
mod merges;
mod messages;
mod moments;
mod queries;
mod requests;
mod signatures;
mod texts;

use crate::parts::word;
use smithy_core::Mem;
use std::alloc::Global;
use tool_case_lines::unknown;

/// The answer of a call on what requests are made of, and else on what signs them.
pub fn answer(alloc: Global, call: &str, words: &[&str]) -> Mem<String> {
    match call {
        "label" | "label_time" | "query" | "query_time" | "path" | "bytes" => {
            texts::answer(alloc, call, word(words, 0), word(words, 1))
        }
        "stamp" | "scope" | "key" | "code" | "request_code" => keys::answer(alloc, call, words),
        "endpoint" | "endpoint_length" | "resolve_error" => endpoints::answer(alloc, call, words),
        "request_header" => headers::on_request(alloc, word(words, 0), word(words, 1)),
        "response_header" => headers::on_response(alloc, word(words, 0), word(words, 1)),
        "merge" | "merge_into" => merges::answer(alloc, call, word(words, 0), word(words, 1)),
        _ => signing_answer(alloc, call, words),
    }
}

fn signing_answer(alloc: Global, call: &str, words: &[&str]) -> Mem<String> {
    match (call, words) {
        ("signature" | "instructions" | "apply" | "apply_length", words) => {
            signatures::answer(alloc, call, words)
        }
        ("canonical", [part, words @ ..]) => signatures::answer(alloc, part, words),
        ("check" | "sealed", words) => checks::answer(alloc, call, words),
        ("copy", [kind, words @ ..]) => copies::answer(alloc, kind, words),
        ("fault", [kind, name]) => faults::answer(alloc, kind, name),
        ("s3", words) => requests::is_for_s3(alloc, words),
        ("chain", [seed, secret, name, frames]) => {
            chains::answer(alloc, seed, secret, name, frames)
        }
        ("link" | "link_headers" | "closing", [signature, parts @ ..]) => {
            messages::answer(alloc, call, signature, parts)
        }
        ("build" | "change" | "whole", parts) => builders::answer(alloc, call, parts),
        (_, [target, steps @ ..]) => queries::answer(alloc, call, target, steps),
        _ => unknown(alloc),
    }
}
