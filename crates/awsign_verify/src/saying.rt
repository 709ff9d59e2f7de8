//! What is said of how a run ended.
ghost use Rattle.std.specs.Prelude.{◌≡◌, ◌≤◌, ◌++◌, IfOk, codes, map};
ghost use Rattle.std.specs.String.{string_bytes};
ghost use Rattle.awsign_run.specs.Saying.{tool_line};
ghost use Rattle.request_door.specs.DoorFaults.{door_fault_text};
ghost use Rattle.awsign_verify.specs.VerifySaying.{SaysVerify, verify_status_line};
ghost use Rattle.awsign_verify.specs.declared.status.VerifyStatus.TheVariants.{BadLine, Ended};

use crate::status::VerifyStatus;
use awsign_run::{Status, say, tool_line, write_some};
use request_door::DoorFault;
use smithy_core::{ByteSink, Mem};
use std::alloc::Global;

/// Says on `err` how a run with these words ended, in a line that begins with the tool's name; nothing where the request is good.
pub fn say_verify<E: ByteSink>(alloc: Global, words: &[String], status: &VerifyStatus, err: &mut E)
    ensures said { SaysVerify (map string_bytes words.now) status.now (E.held err.old) (E.held err.new) }
    ensures count { E.faults err.old ≤ E.faults err.new }
{
    match status {
        VerifyStatus::Ended(status) => say_ended(alloc, words, status, err),
        _ => match status_line(alloc, status) {
            Ok(line) => write_some(line.as_str(), err),
            Err(_) => write_some("awsign: no memory\n", err),
        },
    }
}

// Says how a run ended as those of other commands; what is printed here is no signed request, so of the output just that it failed.
fn say_ended<E: ByteSink>(alloc: Global, words: &[String], status: &Status, err: &mut E)
    ensures said { SaysVerify (map string_bytes words.now) (Ended status.now) (E.held err.old) (E.held err.new) }
    ensures count { E.faults err.old ≤ E.faults err.new }
{
    match status {
        Status::OutputFault => write_some("awsign: the output failed\n", err),
        _ => say(alloc, words, status, err),
    }
}

// The line of a status that other commands don't have.
fn status_line(alloc: Global, status: &VerifyStatus) -> Mem<String>
    ensures { IfOk result (λ line. string_bytes line ≡ verify_status_line status.now) }
{
    match status {
        VerifyStatus::Ended(_) => Ok(String::new(alloc)),
        VerifyStatus::BadLine(place) => bad_line(alloc, *place),
        VerifyStatus::InputFault => {
            tool_line(alloc, "could not read the request from standard input")
        }
        VerifyStatus::TooLarge => tool_line(alloc, "the request has over 67108864 bytes"),
        VerifyStatus::Wrong(fault) => wrong_line(alloc, fault),
    }
}

fn bad_line(alloc: Global, place: usize) -> Mem<String>
    ensures { IfOk result (λ line. string_bytes line ≡ verify_status_line (BadLine place)) }
{
    let text = format!(in alloc;
        "line {place} of the request isn't understood: a first line has a method, a target and HTTP/1.1, the others a name and a colon"
    )?;
    tool_line(alloc, text.as_str())
}

fn wrong_line(alloc: Global, fault: &DoorFault) -> Mem<String>
    ensures { IfOk result (λ line. string_bytes line ≡ tool_line (codes "the request isn't good: " ++ door_fault_text fault.now)) }
{
    let text = format!(in alloc; "the request isn't good: {fault}")?;
    tool_line(alloc, text.as_str())
}
