//! Runs of the check of presigned URLs, over I/O objects whose calls fail where the lines say so.
use crate::given::{Given, checked};
use crate::jobs::fails_of;
use crate::texts::{with_held, with_said};
use presigned_program::PresignStatus;
use smithy_core::{FaultySink, Mem};
use std::alloc::Global;
use tool_case_lines::unknown;

/// The number of the status, what `err` holds, and what the output holds; or what the status shows.
pub fn answer(alloc: Global, call: &str, words: &[&str]) -> Mem<String> {
    let [command, lines @ ..] = words else {
        return unknown(alloc);
    };
    let mut given = Given::faulty(alloc, command, lines)?;
    let mut out = FaultySink::new(alloc, fails_of(alloc, lines, "@out")?);
    let mut err = FaultySink::new(alloc, fails_of(alloc, lines, "@err")?);
    let status = checked(alloc, &mut given, &mut out, &mut err);
    match call {
        "run_presigned_status" => shown(alloc, &status),
        _ => with_held(
            alloc,
            with_said(alloc, status.code(), err.held()),
            out.held(),
        ),
    }
}

// What a status shows.
fn shown(alloc: Global, status: &PresignStatus) -> Mem<String> {
    format!(in alloc; "{status:?}")
}
