use crate::shown::{Shown, digits, quoted, unless_error};
use crate::words::{bytes_of, headers_of, message_of, shared, word, words_from};
use bytes::Bytes;
use eventstream::{
    Error, MessageSizeHint, frame_of, read_held_message, read_message_from, write_headers_to,
    write_message_to, write_summed_message_to,
};
use mac_core::Crc;
use smithy_core::{Mem, Message};
use std::alloc::Global;
use tool_case_lines::unknown;

pub fn answer(alloc: Global, call: &str, words: &[&str]) -> Mem<String> {
    match call {
        "read" => read(alloc, shared(alloc, word(words, 0))?),
        "read_held" => read_held(alloc, shared(alloc, word(words, 0))?),
        "write_headers" => write_headers(alloc, word(words, 0), words_from(words, 1)),
        "write" => write(
            alloc,
            word(words, 0),
            message_of(alloc, words_from(words, 1))?,
        ),
        _ => of_message(alloc, call, message_of(alloc, words)?),
    }
}

fn of_message(alloc: Global, call: &str, message: Message) -> Mem<String> {
    match call {
        "frame_of" => whole(alloc, &message),
        "read_back" => read_back(alloc, &message),
        "write_held" => write_held(alloc, &message),
        "size_hint" => message.size_hint().to_string(alloc),
        "write_hinted" => write_hinted(alloc, &message),
        _ => unknown(alloc),
    }
}

// The message or the fault, and what is left of the bytes.
fn read(alloc: Global, bytes: Bytes) -> Mem<String> {
    let mut rest = bytes.clone()?;
    let read = unless_error(alloc, read_message_from(alloc, &mut rest))?;
    with_rest(alloc, read.as_str(), rest.as_slice(), bytes.as_slice())
}

fn with_rest(alloc: Global, read: &str, rest: &[u8], bytes: &[u8]) -> Mem<String> {
    if rest == bytes {
        return format!(in alloc; "{read} | all left");
    }
    let left = rest.len();
    format!(in alloc; "{read} | {left} left")
}

// The message that the payload of the message that the bytes begin with begins with, and the length of its frame.
fn read_held(alloc: Global, bytes: Bytes) -> Mem<String> {
    let mut bytes = bytes;
    match read_message_from(alloc, &mut bytes) {
        Ok(outer) => held_by(alloc, &outer),
        Err(error) => error.to_string(alloc),
    }
}

fn held_by(alloc: Global, outer: &Message) -> Mem<String> {
    match read_held_message(alloc, outer) {
        Ok((held, len)) => {
            let held = held.shown(alloc)?;
            format!(in alloc; "{held} | {len}")
        }
        Err(error) => error.to_string(alloc),
    }
}

// The frame of a message with the frame of this one as its payload, whose bytes were summed.
fn write_held(alloc: Global, message: &Message) -> Mem<String> {
    let mut held = Vec::new(alloc);
    match write_summed_message_to(alloc, message, &mut held) {
        Ok(checksum) => {
            let outer = Message::new(alloc, Bytes::from_vec(held)?);
            write(alloc, "", outer.with_checksums(Crc::new(), checksum))
        }
        Err(error) => error.to_string(alloc),
    }
}

// The list with what was appended to it.
fn write(alloc: Global, list: &str, message: Message) -> Mem<String> {
    let mut list = bytes_of(alloc, list)?;
    let written = write_message_to(alloc, &message, &mut list);
    outcome(alloc, written, list.as_slice())
}

fn write_headers(alloc: Global, list: &str, headers: &[&str]) -> Mem<String> {
    let headers = headers_of(alloc, headers)?;
    let mut list = bytes_of(alloc, list)?;
    let written = write_headers_to(alloc, headers.as_slice(), &mut list);
    outcome(alloc, written, list.as_slice())
}

// The list, and before it why nothing was written and whether the message itself is at fault.
fn outcome(alloc: Global, written: Result<(), Error>, list: &[u8]) -> Mem<String> {
    match written {
        Ok(()) => digits(alloc, list),
        Err(error) => refused(alloc, &error, quoted(alloc, list)),
    }
}

fn refused(alloc: Global, error: &Error, list: Mem<String>) -> Mem<String> {
    let list = list?;
    let invalid = error.is_invalid_message();
    format!(in alloc; "{error} | {invalid} | {list}")
}

// The frame by the call that takes only a message that has one.
fn whole(alloc: Global, message: &Message) -> Mem<String> {
    let written = write_message_to(alloc, message, &mut Vec::new(alloc));
    match written {
        Ok(()) => digits(alloc, frame_of(alloc, message)?.as_slice()),
        Err(error) => error.to_string(alloc),
    }
}

// What is read of what was written.
fn read_back(alloc: Global, message: &Message) -> Mem<String> {
    let mut frame = Vec::new(alloc);
    match write_message_to(alloc, message, &mut frame) {
        Ok(()) => read(alloc, Bytes::from_vec(frame)?),
        Err(error) => error.to_string(alloc),
    }
}

// The room that the hint makes, and the room and the length once the message is written.
fn write_hinted(alloc: Global, message: &Message) -> Mem<String> {
    let mut list = Vec::with_capacity(alloc, message.size_hint())?;
    let room = list.capacity();
    match write_message_to(alloc, message, &mut list) {
        Ok(()) => format!(in alloc; "{room} | {} | {}", list.capacity(), list.len()),
        Err(error) => error.to_string(alloc),
    }
}
