//! Answers cases on jobs, settings, streams of requests in memory, whole runs and checks of presigned URLs: `stdin` says what each line means.
#![tactic(auto)]

mod by_hand;
mod calm;
mod given;
mod job_texts;
mod jobs;
mod presigned;
mod runs;
mod settings;
mod streamed;
mod streams;
mod texts;

use smithy_core::Mem;
use std::alloc::Global;
use std::io;
use std::process::ExitCode;
use tool_case_lines::{Answers, run_cases, unknown};

fn main(rt: HostRuntime) -> io::Result<ExitCode> {
    run_cases(rt, &Calls)
}

// The calls of the cases, each by the first word of its line.
struct Calls;

impl Answers for Calls {
    fn answer(&self, alloc: Global, words: &[&str]) -> Mem<String> {
        match words {
            [call, rest @ ..] => answer(alloc, call, rest),
            [] => unknown(alloc),
        }
    }
}

fn answer(alloc: Global, call: &str, words: &[&str]) -> Mem<String> {
    match call {
        "read_job" => job_texts::answer(alloc, words),
        "read_settings" => settings::answer(alloc, words),
        "sign_and_stream" => streams::answer(alloc, words),
        "by_hand" => by_hand::answer(alloc, words),
        "run_calm" => calm::answer(alloc, words),
        "run_presigned" | "run_presigned_status" => presigned::answer(alloc, call, words),
        _ => runs::answer(alloc, call, words),
    }
}
