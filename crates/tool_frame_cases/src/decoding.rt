use crate::segments::{left, push_piece};
use crate::shown::{Shown, copy_shown, debugged, digits, push};
use crate::steps::{Steps, all_answers};
use crate::words::{bytes_of, shared, word};
use bytes::Bytes;
use eventstream::{DecodedFrame, Error, MessageFrameDecoder};
use seg_buf::SegBuf;
use smithy_core::{Mem, Message};
use std::alloc::Global;
use tool_case_lines::halves;

// A decoder and the bytes that came to it.
#[derive(Drop)]
struct Stream {
    decoder: MessageFrameDecoder,
    buffer: SegBuf,
}

// The answers of these steps of one decoder on one buffer.
pub fn answer(alloc: Global, steps: &[&str]) -> Mem<String> {
    match word(steps, 0) {
        "in_pieces" => in_pieces(alloc, bytes_of(alloc, word(steps, 1))?),
        _ => all_answers(alloc, new_stream(alloc), steps),
    }
}

fn new_stream(alloc: Global) -> Stream {
    Stream {
        decoder: MessageFrameDecoder::new(),
        buffer: SegBuf::new(alloc),
    }
}

impl Steps for Stream {
    fn after(&mut self, alloc: Global, step: &str) -> Mem<String> {
        let (step, bytes) = halves(step);
        match step {
            "push" => push_piece(alloc, &mut self.buffer, shared(alloc, bytes)?),
            "push_each" => push_each(alloc, self, bytes_of(alloc, bytes)?),
            "decode" => decode(alloc, self),
            "decode_all" => decode_all(alloc, self),
            "end" => debugged(alloc, &self.decoder.end(&self.buffer)),
            "left" => left(alloc, &self.buffer),
            _ => prelude(alloc, self),
        }
    }
}

impl Shown for DecodedFrame {
    fn shown(&self, alloc: Global) -> Mem<String> {
        match self {
            DecodedFrame::Complete(decoded) => decoded.shown(alloc),
            DecodedFrame::Incomplete => String::from_str(alloc, "Incomplete"),
        }
    }
}

fn decode(alloc: Global, stream: &mut Stream) -> Mem<String> {
    match stream.decoder.decode_frame(alloc, &mut stream.buffer) {
        Ok(decoded) => copy_shown(alloc, decoded.try_clone()),
        Err(error) => error.to_string(alloc),
    }
}

// What the decoder takes in one call: the messages, and the fault that comes then.
fn decode_all(alloc: Global, stream: &mut Stream) -> Mem<String> {
    let mut messages = Vec::new(alloc);
    let decoded = stream
        .decoder
        .decode_all(alloc, &mut stream.buffer, &mut messages);
    taken(alloc, messages.as_slice(), &decoded)
}

fn taken(alloc: Global, messages: &[Message], decoded: &Result<(), Error>) -> Mem<String> {
    let mut answers = String::new(alloc);
    push_taken(alloc, &mut answers, messages, decoded)?;
    Ok(answers)
}

fn push_taken(
    alloc: Global,
    answers: &mut String,
    messages: &[Message],
    decoded: &Result<(), Error>,
) -> Mem<()> {
    write!(answers, "{} taken", messages.len())?;
    for message in messages {
        push(answers, message.shown(alloc))?;
    }
    match decoded {
        Ok(()) => Ok(()),
        Err(error) => push(answers, error.to_string(alloc)),
    }
}

fn prelude(alloc: Global, stream: &Stream) -> Mem<String> {
    match stream.decoder.prelude() {
        Some(prelude) => digits(alloc, prelude.as_slice()),
        None => String::from_str(alloc, "no prelude"),
    }
}

// The messages of a stream in pieces of each size, if these are the same at every size.
fn in_pieces(alloc: Global, bytes: Vec<u8>) -> Mem<String> {
    let whole = in_pieces_of(alloc, bytes.as_slice(), bytes.len())?;
    for size in 1..bytes.len() {
        let messages = in_pieces_of(alloc, bytes.as_slice(), size)?;
        if messages.as_str() != whole.as_str() {
            return format!(in alloc; "in pieces of {size}: {messages}");
        }
    }
    Ok(whole)
}

// The messages of a stream in pieces of this size, what is left then, and the prelude.
fn in_pieces_of(alloc: Global, bytes: &[u8], size: usize) -> Mem<String> {
    let mut stream = new_stream(alloc);
    let mut answers = String::new(alloc);
    push_pieces(alloc, &mut answers, &mut stream, bytes, size)?;
    Ok(answers)
}

fn push_pieces(
    alloc: Global,
    answers: &mut String,
    stream: &mut Stream,
    bytes: &[u8],
    size: usize,
) -> Mem<()> {
    for piece in bytes.chunks(size.max(1)) {
        push_bytes(alloc, answers, stream, piece)?;
        decode_each(alloc, answers, stream)?;
    }
    push(answers, left(alloc, &stream.buffer))?;
    push(answers, prelude(alloc, stream))
}

fn push_bytes(alloc: Global, answers: &mut String, stream: &mut Stream, piece: &[u8]) -> Mem<()> {
    let piece = Bytes::copy_from_slice(alloc, piece)?;
    push(answers, push_piece(alloc, &mut stream.buffer, piece))
}

// The messages that are there whole, or those before a fault and the fault, one call for each.
fn decode_each(alloc: Global, answers: &mut String, stream: &mut Stream) -> Mem<()> {
    for _ in 0..stream.buffer.remaining() {
        match stream.decoder.decode_frame(alloc, &mut stream.buffer) {
            Ok(DecodedFrame::Incomplete) => return Ok(()),
            Ok(decoded) => push(answers, decoded.shown(alloc))?,
            Err(error) => return push(answers, error.to_string(alloc)),
        }
    }
    Ok(())
}

// What the decoder answers after each byte: how often `Incomplete`, and then the other answer.
fn push_each(alloc: Global, stream: &mut Stream, bytes: Vec<u8>) -> Mem<String> {
    let mut answers = String::new(alloc);
    let mut waits = 0u32;
    for byte in &bytes {
        push_bytes(alloc, &mut answers, stream, [*byte].as_slice())?;
        waits = push_decoded(&mut answers, waits, decode(alloc, stream)?.as_str())?;
    }
    Ok(answers)
}

// Counts one answer `Incomplete` more, or writes how many there were and the other answer.
fn push_decoded(answers: &mut String, waits: u32, answer: &str) -> Mem<u32> {
    if answer == "Incomplete" {
        return Ok(waits.saturating_add(1));
    }
    if !answers.is_empty() {
        answers.push_str(" | ")?;
    }
    write!(answers, "{waits} Incomplete | {answer}")?;
    Ok(0)
}
