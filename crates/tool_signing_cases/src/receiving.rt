//! What receives the events of a stream.
mod cuts;
mod drains;
mod frames;
mod preprocessing;
mod receivers;
mod shown;
mod sources;
mod unmarshalling;

use crate::receiving::unmarshalling::{Payloads, Texts};
use eventstream::IdentityUnmarshaller;
use smithy_core::Mem;
use std::alloc::Global;
use tool_case_lines::unknown;

/// The answer of a call. A receiver of `identity` answers messages as they are, one of `text` their payloads as texts, and one
/// of `payload` these in hexadecimal digits.
pub fn answer(alloc: Global, call: &str, words: &[&str]) -> Mem<String> {
    match (call, words) {
        ("receiver", ["identity", words @ ..]) => {
            receivers::answers(alloc, IdentityUnmarshaller, words)
        }
        ("receiver", ["text", words @ ..]) => {
            receivers::answers(alloc, Texts::of(alloc, words)?, words)
        }
        ("receiver", [_, words @ ..]) => { receivers::answers(alloc, Payloads::new(alloc), words) }
        ("receive_all", words) => drains::answer(alloc, words),
        ("cuts", [kind, digits]) => cuts::answer(alloc, kind, digits),
        ("copy", [kind, text]) => shown::copied(alloc, kind, text),
        _ => unknown(alloc),
    }
}
