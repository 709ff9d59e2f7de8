//! Runs over I/O objects that never fail, under a clock that stands.
use crate::given::{Given, ended};
use crate::texts::{with_held, with_said};
use smithy_core::{CalmSink, Mem};
use std::alloc::Global;
use tool_case_lines::unknown;

/// The number of the status, what `err` holds, and what the output holds.
pub fn answer(alloc: Global, words: &[&str]) -> Mem<String> {
    let [command, lines @ ..] = words else {
        return unknown(alloc);
    };
    let mut given = Given::calm(alloc, command, lines)?;
    let mut out = CalmSink::new(alloc);
    let mut err = CalmSink::new(alloc);
    let code = ended(alloc, &mut given, &mut out, &mut err).code();
    with_held(alloc, with_said(alloc, code, err.held()), out.held())
}
