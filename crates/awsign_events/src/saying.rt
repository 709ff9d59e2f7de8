//! What is said of how a run ended.
ghost use Rattle.std.specs.Prelude.{◌≡◌, ◌≤◌, IfOk, map};
ghost use Rattle.std.specs.String.{string_bytes};
ghost use Rattle.awsign_events.specs.EventsSaying.{SaysEvents, events_status_line};
ghost use Rattle.awsign_events.specs.declared.status.EventsStatus.TheVariants.{BadLine, CutShort, Unframed, Unspelled, Unverified, WrongFrame};

use crate::status::EventsStatus;
use awsign_run::{say, tool_line, write_some};
use chain_watch::ChainFault;
use eventstream::Error;
use smithy_core::{ByteSink, Mem};
use std::alloc::Global;

/// Says on `err` how a run with these words ended, in a line that begins with the tool's name; nothing where all was written.
pub fn say_events<E: ByteSink>(alloc: Global, words: &[String], status: &EventsStatus, err: &mut E)
    ensures said { SaysEvents (map string_bytes words.now) status.now (E.held err.old) (E.held err.new) }
    ensures count { E.faults err.old ≤ E.faults err.new }
{
    match status {
        EventsStatus::Ended(status) => say(alloc, words, status, err),
        _ => match status_line(alloc, status) {
            Ok(line) => write_some(line.as_str(), err),
            Err(_) => write_some("awsign: no memory\n", err),
        },
    }
}

// The line of a status that other commands don't have.
fn status_line(alloc: Global, status: &EventsStatus) -> Mem<String>
    ensures { IfOk result (λ line. string_bytes line ≡ events_status_line status.now) }
{
    match status {
        EventsStatus::Ended(_) => Ok(String::new(alloc)),
        EventsStatus::WrongFrame(place, error) => frame_line(alloc, *place, error),
        EventsStatus::CutShort(place) => cut_line(alloc, *place),
        EventsStatus::Unspelled(place) => unspelled_line(alloc, *place),
        EventsStatus::Unverified(fault) => unverified_line(alloc, fault),
        EventsStatus::BadLine(place) => bad_line(alloc, *place),
        EventsStatus::Unframed(place, error) => event_line(alloc, *place, error),
        EventsStatus::InputFault => tool_line(alloc, "could not read standard input"),
        EventsStatus::TooLarge => tool_line(alloc, "the input has over 67108864 bytes"),
    }
}

fn frame_line(alloc: Global, place: u64, error: &Error) -> Mem<String>
    ensures { IfOk result (λ line. string_bytes line ≡ events_status_line (WrongFrame place error.now)) }
{
    let text = format!(in alloc; "frame {place}: {error}")?;
    tool_line(alloc, text.as_str())
}

fn cut_line(alloc: Global, place: u64) -> Mem<String>
    ensures { IfOk result (λ line. string_bytes line ≡ events_status_line (CutShort place)) }
{
    let text = format!(in alloc; "frame {place}: the input ends within it")?;
    tool_line(alloc, text.as_str())
}

fn unspelled_line(alloc: Global, place: u64) -> Mem<String>
    ensures { IfOk result (λ line. string_bytes line ≡ events_status_line (Unspelled place)) }
{
    let text = format!(in alloc;
        "frame {place}: lines can't spell one of its headers; --as json can"
    )?;
    tool_line(alloc, text.as_str())
}

fn unverified_line(alloc: Global, fault: &ChainFault) -> Mem<String>
    ensures { IfOk result (λ line. string_bytes line ≡ events_status_line (Unverified fault.now)) }
{
    let text = format!(in alloc; "the chain isn't good: {fault}")?;
    tool_line(alloc, text.as_str())
}

fn bad_line(alloc: Global, place: usize) -> Mem<String>
    ensures { IfOk result (λ line. string_bytes line ≡ events_status_line (BadLine place)) }
{
    let text = format!(in alloc; "line {place} of the input isn't understood")?;
    tool_line(alloc, text.as_str())
}

fn event_line(alloc: Global, place: usize, error: &Error) -> Mem<String>
    ensures { IfOk result (λ line. string_bytes line ≡ events_status_line (Unframed place error.now)) }
{
    let text = format!(in alloc; "event {place}: {error}")?;
    tool_line(alloc, text.as_str())
}
