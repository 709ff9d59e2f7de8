//! Answers cases on the signing of requests, of chunks and of messages, and on what sends and receives the events of a
//! stream: `stdin` says what each line means.
#![tactic(auto)]

mod chunks;
mod operations;
mod parts;
mod receiving;
mod sending;
mod signing;

use smithy_core::Mem;
use std::alloc::Global;
use std::io;
use std::process::ExitCode;
use tool_case_lines::{Answers, run_cases, unknown};

fn main(rt: HostRuntime) -> io::Result<ExitCode> {
    run_cases(rt, &Calls)
}

// The calls of the cases, each by its group and its name, the first two words of its line.
struct Calls;

impl Answers for Calls {
    fn answer(&self, alloc: Global, words: &[&str]) -> Mem<String> {
        match words {
            [group, call, rest @ ..] => answer(alloc, group, call, rest),
            _ => unknown(alloc),
        }
    }
}

fn answer(alloc: Global, group: &str, call: &str, words: &[&str]) -> Mem<String> {
    match group {
        "signing" => signing::answer(alloc, call, words),
        "operations" => operations::answer(alloc, call, words),
        "chunks" => chunks::answer(alloc, call, words),
        "receiving" => receiving::answer(alloc, call, words),
        "sending" => sending::answer(alloc, call, words),
        _ => unknown(alloc),
    }
}
