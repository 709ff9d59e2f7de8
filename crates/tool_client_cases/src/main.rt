//! Cases of profile files and settings, of what a client runs around each attempt, and of operations with their attempts. Each line of the input is a call,
//! its arguments and the answer that is wanted; the first word names the module that reads the others. `-` stands for
//! what isn't there.
#![tactic(auto)]

mod agents;
mod bags;
mod classes;
mod debugs;
mod faults;
mod files;
mod headers;
mod ids;
mod keys;
mod laws;
mod loading;
mod metadata;
mod metrics;
mod operations;
mod parts;
mod profiles;
mod sections;
mod sending;
mod settings;
mod skews;
mod texts;
mod traces;
mod values;

use aws_intercept::ConfigBag;
use std::alloc::{AllocError, Global};
use std::io;
use std::process::ExitCode;
use tool_case_lines::{Answers, run_cases, unknown};

fn main(rt: HostRuntime) -> io::Result<ExitCode> {
    run_cases(rt, &Clients)
}

// Settings and interceptors.
struct Clients;

impl Answers for Clients {
    fn answer(&self, alloc: Global, words: &[&str]) -> Result<String, AllocError> {
        match words {
            [subject, call, words @ ..] => answer(alloc, subject, call, words),
            _ => unknown(alloc),
        }
    }
}

// Settings, and else what a client runs.
fn answer(alloc: Global, subject: &str, call: &str, words: &[&str]) -> Result<String, AllocError> {
    match subject {
        "profiles" => profiles::answer(alloc, call, words),
        "keys" => keys::answer(alloc, texts::word(words, 0)),
        "values" => values::answer(alloc, call, words),
        "files" => loading::answer(alloc, call, words),
        "faults" => faults::answer(alloc, call, words),
        "debugs" => debugs::answer(alloc, call, words),
        "settings" => settings::answer(alloc, call, words),
        _ => client_answer(alloc, subject, call, words),
    }
}

fn client_answer(
    alloc: Global,
    subject: &str,
    call: &str,
    words: &[&str],
) -> Result<String, AllocError> {
    match subject {
        "metadata" => metadata::answer(alloc, call, words),
        "metrics" => metrics::answer(alloc, call, words),
        "agents" => agents::answer(alloc, call, words),
        "ids" => ids::answer(alloc, call, words),
        "classes" => classes::answer(alloc, call, words),
        "operate" => operations::answer(alloc, call, words),
        _ => bag_answer(alloc, &mut ConfigBag::new(alloc), subject, call, words),
    }
}

// What interceptors do with a bag, which is empty before.
fn bag_answer(
    alloc: Global,
    bag: &mut ConfigBag,
    subject: &str,
    call: &str,
    words: &[&str],
) -> Result<String, AllocError> {
    match subject {
        "bags" => sending::answer(alloc, bag, call, words),
        "traces" => traces::answer(alloc, bag, words),
        "skews" => skews::answer(alloc, bag, call, words),
        _ => unknown(alloc),
    }
}
