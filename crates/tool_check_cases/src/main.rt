//! Answers cases on what checks for a service: presigned requests, a service's door, and bodies in signed chunks. `stdin` says
//! what each line means.
#![tactic(auto)]

mod chunks;
mod door;
mod given;
mod presigned;

use smithy_core::Mem;
use std::alloc::Global;
use std::io;
use std::process::ExitCode;
use tool_case_lines::{Answers, run_cases, unknown};

fn main(rt: HostRuntime) -> io::Result<ExitCode> {
    run_cases(rt, &Checks)
}

// What is checked, by its group, the first word of a line.
struct Checks;

impl Answers for Checks {
    fn answer(&self, alloc: Global, words: &[&str]) -> Mem<String> {
        match words {
            ["presigned", rest @ ..] => presigned::answer(alloc, rest),
            ["door", rest @ ..] => door::answer(alloc, rest),
            ["chunks", rest @ ..] => chunks::answer(alloc, rest),
            _ => unknown(alloc),
        }
    }
}
