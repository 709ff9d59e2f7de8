//! Runs over I/O objects whose calls fail where the lines say so, under a clock that gives the listed moments.
use crate::given::{Given, ended};
use crate::jobs::fails_of;
use crate::texts::{with_held, with_said};
use bytes::Bytes;
use eventstream::read_message_from;
use mac_core::sha256_hex;
use signed_stream::Status;
use smithy_core::{FaultyDisk, FaultySink, FaultySource, ListClock, Mem};
use std::alloc::Global;
use tool_case_lines::{bytes_of_hex, unknown};

type GivenFaulty = Given<FaultySource, FaultyDisk, ListClock>;

/// The answer of a run.
pub fn answer(alloc: Global, call: &str, words: &[&str]) -> Mem<String> {
    let [command, lines @ ..] = words else {
        return unknown(alloc);
    };
    let mut given = Given::faulty(alloc, command, lines)?;
    answer_of(alloc, call, &mut given, lines)
}

fn answer_of(alloc: Global, call: &str, given: &mut GivenFaulty, lines: &[&str]) -> Mem<String> {
    match call {
        "run_refusal" => refusal(alloc, unheard(alloc, given)),
        "run_status" => status(alloc, &unheard(alloc, given)),
        _ => outcome(alloc, call, given, lines),
    }
}

// How a run ends whose sinks nobody reads.
fn unheard(alloc: Global, given: &mut GivenFaulty) -> Status {
    let mut out = FaultySink::new(alloc, Vec::new(alloc));
    let mut err = FaultySink::new(alloc, Vec::new(alloc));
    ended(alloc, given, &mut out, &mut err)
}

// Why a run refused, with the place.
fn refusal(alloc: Global, status: Status) -> Mem<String> {
    match status {
        Status::Refused(fault) => format!(in alloc; "{fault:?}"),
        _ => String::from_str(alloc, "not refused"),
    }
}

// How a run ended, and whether a copy of that is equal.
fn status(alloc: Global, status: &Status) -> Mem<String> {
    let copy = status.try_clone()?;
    let is_equal = copy == *status;
    format!(in alloc; "{copy:?}, equal: {is_equal}")
}

// How a run ended, and what the call tells of its output.
fn outcome(alloc: Global, call: &str, given: &mut GivenFaulty, lines: &[&str]) -> Mem<String> {
    let mut out = FaultySink::new(alloc, fails_of(alloc, lines, "@out")?);
    let ending = ending(alloc, given, &mut out, lines);
    match call {
        "run" => with_held(alloc, ending, out.held()),
        "run_digest" => with_digest(alloc, ending, out.held()),
        "run_events" => with_events(alloc, ending, out.held()),
        "run_lost" => with_lost(alloc, ending, given),
        _ => unknown(alloc),
    }
}

// The number that a run ends with, and what `err` holds.
fn ending(
    alloc: Global,
    given: &mut GivenFaulty,
    out: &mut FaultySink,
    lines: &[&str],
) -> Mem<String> {
    let mut err = FaultySink::new(alloc, fails_of(alloc, lines, "@err")?);
    let code = ended(alloc, given, out, &mut err).code();
    with_said(alloc, code, err.held())
}

// How a run ended, and length and digest of what the output holds.
fn with_digest(alloc: Global, ending: Mem<String>, held: &[u8]) -> Mem<String> {
    let ending = ending?;
    let digest = sha256_hex(alloc, held)?;
    format!(in alloc; "{ending}|{} {digest}", held.len())
}

// How a run ended, and how many bytes the input lost.
fn with_lost(alloc: Global, ending: Mem<String>, given: &GivenFaulty) -> Mem<String> {
    let ending = ending?;
    let lost = given.lost();
    format!(in alloc; "{ending}|{lost}")
}

// How a run ended, and the frames of the events, each from the payload of its signed one.
fn with_events(alloc: Global, ending: Mem<String>, held: &[u8]) -> Mem<String> {
    let mut text = ending?;
    let held = std::str::from_utf8(held).unwrap_or("");
    let (_, frames) = held.split_once("\n\n").unwrap_or(("", ""));
    for frame in frames.split('\n') {
        push_event(alloc, &mut text, frame)?;
    }
    Ok(text)
}

fn push_event(alloc: Global, text: &mut String, frame: &str) -> Mem<()> {
    let payload = payload_of(alloc, frame)?;
    write!(text, "|{payload}")
}

// The payload of a frame in hexadecimal.
fn payload_of(alloc: Global, frame: &str) -> Mem<String> {
    let mut frame = Bytes::from_vec(bytes_of_hex(alloc, frame)?)?;
    match read_message_from(alloc, &mut frame) {
        Ok(message) => hex::encode(alloc, message.payload().as_slice()),
        Err(_) => Ok(String::new(alloc)),
    }
}
