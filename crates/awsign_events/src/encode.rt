//! Frames of events that lines spell.
ghost use Rattle.std.specs.Prelude.{◌≡◌, ◌≤◌, ◌++◌, IfOk, OnOk};
ghost use Rattle.smithy_core.specs.Outside.{CountsFault};
ghost use Rattle.job_text.specs.Job.{job};
ghost use Rattle.awsign_events.specs.Encode.{EncodesAll, EncodesInput, EncodesMessages, EncodesSpelled, MakesFrame, SpellsMessages, WritesEncoded, begins_with_event, events_behind, framed_text, no_frame, request_lines, spelled_messages, without_request};

use crate::hex_input::MOST_INPUT;
use crate::status::EventsStatus;
use awsign_run::Status;
use eventstream::{Error, ErrorKind, write_message_to};
use job_text::{JobFault, take_job};
use smithy_core::{ByteSink, ByteSource, Mem, Message, push_line, read_all, write_all};
use std::alloc::Global;

/// Writes the frames of the messages that the lines of an input spell: as bytes, or as lines of hexadecimal.
///
/// The first test that fails ends the run, in this order: the input, its lines, and each message's frame. Until all passed nothing is
/// written.
pub fn encode_events<S: ByteSource, K: ByteSink>(
    alloc: Global,
    is_hex: bool,
    input: &mut S,
    out: &mut K,
) -> EventsStatus
    // What was written is the frames of the messages that the lines of the input spell, in order; or why nothing was.
    ensures headline { EncodesInput is_hex (S.left input.old) result (K.held out.old) (K.held out.new) }

    // No count fell.
    ensures outside { (S.faults input.old ≤ S.faults input.new) × (K.faults out.old ≤ K.faults out.new) }

    // It answers that the output failed exactly where that counted a fault.
    ensures failed { CountsFault (result ≡ EventsStatus.Ended Status.OutputFault) (K.faults out.old) (K.faults out.new) }
{
    match encoded_input(alloc, is_hex, input) {
        Ok(text) => write_encoded(text.as_slice(), out),
        Err(status) => status,
    }
}

// Writes a text, and answers how that went.
fn write_encoded<K: ByteSink>(text: &[u8], out: &mut K) -> EventsStatus
    ensures wrote { WritesEncoded text.now result (K.held out.old) (K.held out.new) }
    ensures failed { CountsFault (result ≡ EventsStatus.Ended Status.OutputFault) (K.faults out.old) (K.faults out.new) }
{
    match write_all(out, text) {
        Ok(()) => EventsStatus::Ended(Status::Done),
        Err(fault) => EventsStatus::from(fault),
    }
}

// The frames of the messages that the lines of an input spell.
fn encoded_input<S: ByteSource>(
    alloc: Global,
    is_hex: bool,
    input: &mut S,
) -> Result<Vec<u8>, EventsStatus>
    ensures encodes { EncodesAll is_hex (S.left input.old) result }
    ensures count { S.faults input.old ≤ S.faults input.new }
{
    match read_all(alloc, input, MOST_INPUT) {
        Ok(bytes) => encoded(alloc, is_hex, bytes.as_slice()),
        Err(fault) => Err(EventsStatus::from(fault)),
    }
}

// The frames of the messages that lines spell.
fn encoded(alloc: Global, is_hex: bool, bytes: &[u8]) -> Result<Vec<u8>, EventsStatus>
    ensures { EncodesSpelled is_hex (spelled_messages bytes.now) result }
{
    match spelled_messages(alloc, bytes) {
        Ok(messages) => frame_texts(alloc, is_hex, messages.as_slice()),
        Err(fault) => Err(EventsStatus::from(fault)),
    }
}

// The messages that lines spell.
#[tactic(auto, unfolding(crate::specs::Encode::spelled_messages))]
fn spelled_messages(alloc: Global, bytes: &[u8]) -> Result<Vec<Message>, JobFault>
    ensures { SpellsMessages (spelled_messages bytes.now) result }
{
    if bytes.is_empty() {
        return Ok(Vec::new(alloc));
    }
    if !begins_with_event(bytes) {
        return Err(JobFault::BadLine(1));
    }
    job_messages(alloc, bytes)
}

// The events of a job that goes on with lines behind its request.
fn job_messages(alloc: Global, bytes: &[u8]) -> Result<Vec<Message>, JobFault>
    ensures { SpellsMessages (events_behind (job (request_lines ++ bytes.now))) result }
{
    let lines = job_lines(alloc, bytes)?;
    match take_job(alloc, lines) {
        Ok(job) => Ok(job.events),
        Err(fault) => Err(without_request(fault)),
    }
}

// Lines behind a request.
fn job_lines(alloc: Global, bytes: &[u8]) -> Mem<Vec<u8>>
    ensures { IfOk result (λ lines. lines.items ≡ request_lines ++ bytes.now) }
{
    let mut lines = Vec::new(alloc);
    lines.extend_from_slice(b"method GET\ntarget /\n")?;
    lines.extend_from_slice(bytes)?;
    Ok(lines)
}

// The fault, where the two lines of the request don't count.
fn without_request(fault: JobFault) -> JobFault
    ensures { result ≡ without_request fault }
{
    match fault {
        JobFault::BadLine(place) => JobFault::BadLine(place.saturating_sub(2)),
        JobFault::NoMemory => JobFault::NoMemory,
    }
}

// Whether the first line is `event`.
fn begins_with_event(bytes: &[u8]) -> bool
    ensures { result ≡ begins_with_event bytes.now }
{
    bytes.starts_with(b"event\n") || bytes == b"event".as_slice()
}

// The frames of messages.
fn frame_texts(alloc: Global, is_hex: bool, messages: &[Message]) -> Result<Vec<u8>, EventsStatus>
    ensures { EncodesMessages is_hex messages.now result }
{
    let mut text = Vec::new(alloc);
    let mut place = 1;
    'messages: for message in messages {
        let frame = frame_of(alloc, place, message)?;
        push_frame(alloc, &mut text, is_hex, frame.as_slice())?;
        place += 1;
    }
    Ok(text)
}

// The frame of the message at a place.
fn frame_of(alloc: Global, place: usize, message: &Message) -> Result<Vec<u8>, EventsStatus>
    ensures { MakesFrame place message.now result }
{
    let mut frame = Vec::new(alloc);
    match write_message_to(alloc, message, &mut frame) {
        Ok(()) => Ok(frame),
        Err(error) => Err(no_frame(place, error)),
    }
}

// The message at a place has no frame, or memory ran out.
fn no_frame(place: usize, error: Error) -> EventsStatus
    ensures { result ≡ no_frame place error }
{
    match error.kind() {
        ErrorKind::NoMemory => EventsStatus::Ended(Status::NoMemory),
        _ => EventsStatus::Unframed(place, error),
    }
}

// Appends a frame as it is written.
fn push_frame(alloc: Global, text: &mut Vec<u8>, is_hex: bool, frame: &[u8]) -> Mem<()>
    ensures { OnOk result (text.new.items ≡ text.old.items ++ framed_text is_hex frame.now) }
{
    if is_hex {
        push_line(text, hex::encode(alloc, frame)?.as_bytes())
    } else {
        Ok(text.extend_from_slice(frame)?)
    }
}
