//! Chunks that are signed, and bodies in chunks.
mod announcing;
mod bodies;
mod decoding;
mod frames;
mod lengths;
mod parts;
mod signing;

use smithy_core::Mem;
use std::alloc::Global;
use tool_case_lines::unknown;

/// The answer of a call.
pub fn answer(alloc: Global, call: &str, words: &[&str]) -> Mem<String> {
    match (call, words) {
        ("chunk" | "trailer", [signature, words @ ..]) => {
            signing::signature(alloc, call, signature, words)
        }
        ("signer", [name, steps @ ..]) => signing::steps(alloc, name, steps),
        ("announce", parts) => announcing::answer(alloc, parts),
        ("length" | "data_length", parts) => lengths::answer(alloc, call, parts),
        ("text" | "digest", parts) => bodies::answer(alloc, call, parts),
        ("pieces", parts) => bodies::pieces(alloc, parts),
        ("decode", parts) => decoding::answer(alloc, parts),
        _ => unknown(alloc),
    }
}
