//! Streams that are cut in each way.
use crate::parts::push;
use crate::receiving::frames::Frames;
use crate::receiving::shown::received;
use crate::receiving::unmarshalling::Texts;
use bytes::Bytes;
use event_io::{Received, Receiver, ResponseFault};
use smithy_core::{CalmFrames, Mem, RawMessage, SdkError};
use std::alloc::Global;
use tool_case_lines::bytes_of_hex;

/// The answers for a stream that is cut at each place (`places`), or at each pair of places (`pairs`), where all cuts have
/// the same; and else the first cut that has others.
pub fn answer(alloc: Global, kind: &str, digits: &str) -> Mem<String> {
    let bytes = bytes_of_hex(alloc, digits)?;
    match kind {
        "places" => at_cuts(alloc, bytes.as_slice(), 1),
        _ => at_cuts(alloc, bytes.as_slice(), bytes.len()),
    }
}

// The answers for a stream that is cut twice, first at each of so many places.
fn at_cuts(alloc: Global, bytes: &[u8], places: usize) -> Mem<String> {
    let whole = answers(alloc, bytes, 0, 0)?;
    for first in 0..places {
        if let Some(second) = differing(alloc, bytes, first, whole.as_str())? {
            return format!(in alloc; "not so at {first} and {second}");
        }
    }
    Ok(whole)
}

// The first place from the first one on at which a second cut gives other answers.
fn differing(alloc: Global, bytes: &[u8], first: usize, whole: &str) -> Mem<Option<usize>> {
    for second in first..bytes.len() {
        if answers(alloc, bytes, first, second)?.as_str() != whole {
            return Ok(Some(second));
        }
    }
    Ok(None)
}

fn answers(alloc: Global, bytes: &[u8], first: usize, second: usize) -> Mem<String> {
    let source = cut(alloc, bytes, first, second)?;
    let mut receiver = Receiver::new(alloc, Texts::of(alloc, &[])?, source);
    answers_of(alloc, &mut receiver, bytes.len())
}

// The answers up to the first that is no event, and the one after it.
fn answers_of(
    alloc: Global,
    receiver: &mut Receiver<CalmFrames, Texts>,
    most: usize,
) -> Mem<String> {
    let mut answers = String::new(alloc);
    for _ in 0..=most {
        if !push_next(alloc, &mut answers, receiver)? {
            break;
        }
    }
    push_next(alloc, &mut answers, receiver)?;
    Ok(answers)
}

// Adds the next answer, and tells whether it is an event.
fn push_next(
    alloc: Global,
    answers: &mut String,
    receiver: &mut Receiver<CalmFrames, Texts>,
) -> Mem<bool> {
    push_received(alloc, answers, &receiver.recv())
}

fn push_received(
    alloc: Global,
    answers: &mut String,
    answer: &Result<Received<String>, SdkError<String, ResponseFault, RawMessage>>,
) -> Mem<bool> {
    push(answers, received(alloc, answer))?;
    Ok(matches!(answer, Ok(Received::Event(_))))
}

// The bytes in three pieces.
fn cut(alloc: Global, bytes: &[u8], first: usize, second: usize) -> Mem<CalmFrames> {
    let mut frames = Frames::new(alloc);
    for piece in [
        bytes.get(..first),
        bytes.get(first..second),
        bytes.get(second..),
    ] {
        frames.push_piece(Bytes::copy_from_slice(alloc, piece.unwrap_or(b""))?)?;
    }
    Ok(CalmFrames::new(frames.into_parts()))
}
