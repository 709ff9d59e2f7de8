//! What sends the events of a stream, and what signs them.
mod adapters;
mod copies;
mod errors;
mod events;
pub mod marshalling;
mod signers;
mod signing;

use crate::parts::{frame_or_error, number_of, word};
use crate::sending::events::sender_of;
use crate::sending::marshalling::marshalled;
use smithy_core::Mem;
use std::alloc::Global;

/// The answer of a call.
pub fn answer(alloc: Global, call: &str, words: &[&str]) -> Mem<String> {
    match (call, words) {
        ("signer", [name, steps @ ..]) => signing::answer(alloc, name, steps),
        ("copy", [kind, words @ ..]) => copies::answer(alloc, kind, words),
        ("marshaller", [name, word]) => frame_or_error(alloc, marshalled(alloc, name, word)),
        ("adapter", [kind, parts @ ..]) => adapters::answer(alloc, kind, parts),
        ("sender", [kind, parts @ ..]) => {
            sender_of(alloc, kind, parts, number_of(parts, "polls", 1))
        }
        _ => errors::answer(alloc, call, word(words, 0), word(words, 1)),
    }
}
