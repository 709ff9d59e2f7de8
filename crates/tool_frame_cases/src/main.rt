//! Reads a case from each line of standard input and says each answer that isn't the wanted one: the checksums, the
//! pieces of bytes, the base of the stack with its I/O objects in memory, and the event stream encoding.
//!
//! The first word of a line names the subject, and the second the call. In an argument
//!
//! - bytes are pieces between `+`, each of hexadecimal digits or a text in double quotes, as `00ff+"text"`, and with
//!   repeats, as `{1024 00}+{3 "ab"}`; a long text stands bare;
//! - a moment is its seconds and its nanoseconds, as `-1 999000000`;
//! - a header of a frame is its name, its kind and its value, as `some-header text value`, where the kind is one of
//!   `bool`, `i8`, `i16`, `i32`, `i64`, `bytes`, `text`, `time` and `uuid`;
//! - a message is the words of its headers, and then the bytes of its payload.
//!
//! Answers show all of these in the same way. Bytes and texts over 400 bytes are shown by their length and SHA-256.
#![tactic(auto)]

mod checksums;
mod decoding;
mod documents;
mod faults;
mod frames;
mod host;
mod interrupted;
mod moments;
mod outside;
mod prints;
mod requests;
mod responses;
mod segments;
mod shown;
mod sources;
mod steps;
mod texts;
mod values;
mod words;

use crate::steps::all_answers;
use crate::words::{word, words_from};
use seg_buf::SegBuf;
use smithy_core::Mem;
use std::alloc::Global;
use std::process::ExitCode;
use std::rt::Runtime;
use std::{io, process};
use tool_case_lines::{Answers, run_cases, unknown};

// The calls of the four crates, with what those ask of the system.
#[derive(Drop)]
struct Cases<R> {
    runtime: R,
    process: u32,
}

impl<R: Runtime> Answers for Cases<R> {
    fn answer(&self, alloc: Global, words: &[&str]) -> Mem<String> {
        match word(words, 0) {
            "host" => {
                let (call, words) = (word(words, 1), words_from(words, 2));
                host::answer(&self.runtime, self.process, alloc, call, words)
            }
            subject => answer(alloc, subject, word(words, 1), words_from(words, 1)),
        }
    }
}

// The answer of a call, which is the first of the words, or of steps, which all words are.
fn answer(alloc: Global, subject: &str, call: &str, words: &[&str]) -> Mem<String> {
    match subject {
        "segments" => all_answers(alloc, SegBuf::new(alloc), words),
        "decoder" => decoding::answer(alloc, words),
        "fault" => faults::answer(alloc, call),
        _ => answer_to(alloc, subject, call, words_from(words, 1)),
    }
}

fn answer_to(alloc: Global, subject: &str, call: &str, words: &[&str]) -> Mem<String> {
    match subject {
        "checksum" => checksums::answer(alloc, call, words),
        "moment" => moments::answer(alloc, call, word(words, 0)),
        "text" => texts::answer(alloc, call, words),
        "value" => values::answer(alloc, call, word(words, 0)),
        "document" => documents::answer(alloc, call, words),
        "print" => prints::answer(alloc, call, word(words, 0)),
        "request" => requests::answer(alloc, call, words),
        "outside" => outside::answer(alloc, false, call, words),
        "copy" => outside::answer(alloc, true, call, words),
        "source" => sources::answer(alloc, call, words),
        "frame" => frames::answer(alloc, call, words),
        "response" => responses::answer(alloc, call, words),
        _ => unknown(alloc),
    }
}

fn main(rt: HostRuntime) -> io::Result<ExitCode> {
    let cases = Cases {
        runtime: rt,
        process: process::id(rt.process()),
    };
    run_cases(rt, &cases)
}
