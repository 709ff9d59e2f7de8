use crate::shown::{digits, nothing};
use crate::steps::Steps;
use crate::words::{shared, size_of};
use bytes::Bytes;
use seg_buf::SegBuf;
use smithy_core::Mem;
use std::alloc::Global;
use tool_case_lines::halves;

impl Steps for SegBuf {
    fn after(&mut self, alloc: Global, step: &str) -> Mem<String> {
        let (step, word) = halves(step);
        match step {
            "push" => push_piece(alloc, self, shared(alloc, word)?),
            "push_slice" => push_slice(alloc, self, shared(alloc, word)?),
            "peek" => peek(alloc, self, size_of(word)),
            "left" => left(alloc, self),
            "first" => first(alloc, self),
            "prelude" => prelude(alloc, self),
            "copy" => copy(alloc, self),
            _ => of_front(alloc, self, step, size_of(word)),
        }
    }
}

// Appends a piece.
pub fn push_piece(alloc: Global, buffer: &mut SegBuf, piece: Bytes) -> Mem<String> {
    if buffer.remaining().checked_add(piece.len()).is_none() {
        return String::from_str(alloc, "too long");
    }
    buffer.reserve_one()?;
    buffer.push(piece);
    nothing(alloc)
}

// Appends a copy of a piece.
fn push_slice(alloc: Global, buffer: &mut SegBuf, piece: Bytes) -> Mem<String> {
    if buffer.remaining().checked_add(piece.len()).is_none() {
        return String::from_str(alloc, "too long");
    }
    buffer.push_slice(piece.as_slice())?;
    nothing(alloc)
}

fn first(alloc: Global, buffer: &SegBuf) -> Mem<String> {
    match buffer.first() {
        Some(segment) => digits(alloc, segment),
        None => String::from_str(alloc, "none"),
    }
}

pub fn left(alloc: Global, buffer: &SegBuf) -> Mem<String> {
    let left = buffer.remaining();
    format!(in alloc; "{left} left")
}

fn peek(alloc: Global, buffer: &SegBuf, at: usize) -> Mem<String> {
    if at >= buffer.remaining() {
        return String::from_str(alloc, "past the end");
    }
    let byte = buffer.peek(at);
    format!(in alloc; "{byte:02x}")
}

// A step on so many bytes.
fn of_front(alloc: Global, buffer: &mut SegBuf, step: &str, n: usize) -> Mem<String> {
    if n > buffer.remaining() {
        return String::from_str(alloc, "past the end");
    }
    match step {
        "front" => digits(alloc, buffer.copy_front(n)?.as_slice()),
        "take" => digits(alloc, buffer.copy_to_bytes(n)?.as_slice()),
        _ => {
            buffer.advance(n);
            nothing(alloc)
        }
    }
}

fn prelude(alloc: Global, buffer: &mut SegBuf) -> Mem<String> {
    if buffer.remaining() < 12 {
        return String::from_str(alloc, "past the end");
    }
    digits(alloc, buffer.take_prelude().as_slice())
}

// Goes on with a copy.
fn copy(alloc: Global, buffer: &mut SegBuf) -> Mem<String> {
    *buffer = emptied(buffer)?;
    nothing(alloc)
}

// The copy of a buffer, which is emptied.
fn emptied(buffer: &mut SegBuf) -> Mem<SegBuf> {
    let copy = buffer.try_clone()?;
    buffer.advance(buffer.remaining());
    Ok(copy)
}
