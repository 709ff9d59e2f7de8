//! Chains of signed frames that are checked.
use crate::parts::framed;
use chain_watch::{ChainFault, check_chain};
use smithy_core::{Mem, Message};
use std::alloc::Global;
use tool_case_lines::bytes_of_hex;

/// How many events a chain has, with their frames, or the first frame that doesn't pass and why.
pub fn answer(alloc: Global, seed: &str, secret: &str, name: &str, frames: &str) -> Mem<String> {
    let bytes = bytes_of_hex(alloc, frames)?;
    match check_chain(alloc, bytes.as_slice(), seed, secret, "us-east-1", name) {
        Ok(events) => frames_of(alloc, events.as_slice()),
        Err(fault) => fault_text(alloc, fault),
    }
}

fn frames_of(alloc: Global, events: &[Message]) -> Mem<String> {
    let mut text = format!(in alloc; "ok {}", events.len())?;
    for event in events {
        write!(text, " {}", framed(alloc, event)?)?;
    }
    Ok(text)
}

fn fault_text(alloc: Global, fault: ChainFault) -> Mem<String> {
    match fault {
        ChainFault::NotChain { frame, part } => format!(in alloc; "{frame} {part:?}"),
        ChainFault::Mismatch {
            frame,
            carried,
            recomputed,
        } => mismatch(alloc, frame, carried.as_slice(), recomputed.as_slice()),
        ChainFault::NoMemory => String::from_str(alloc, "NoMemory"),
    }
}

fn mismatch(alloc: Global, frame: usize, carried: &[u8], recomputed: &[u8]) -> Mem<String> {
    let carried = hex::encode(alloc, carried)?;
    let recomputed = hex::encode(alloc, recomputed)?;
    format!(in alloc; "{frame} Mismatch {carried} {recomputed}")
}
