//! What answers show.
use smithy_core::Mem;
use std::alloc::Global;
use tool_case_lines::on_one_line;

/// The bytes on one line, where they are UTF-8, with their carriage returns as `\r`.
pub fn bytes_on_one_line(alloc: Global, bytes: &[u8]) -> Mem<String> {
    let line = on_one_line(alloc, std::str::from_utf8(bytes).unwrap_or("not UTF-8"))?;
    line.as_str().replace(alloc, "\r", "\\r")
}

/// The number that a run ends with, and what `err` holds.
pub fn with_said(alloc: Global, code: u8, said: &[u8]) -> Mem<String> {
    let said = bytes_on_one_line(alloc, said)?;
    format!(in alloc; "{code} {said}")
}

/// How a run ended, and what the output holds.
pub fn with_held(alloc: Global, ending: Mem<String>, held: &[u8]) -> Mem<String> {
    let ending = ending?;
    let held = bytes_on_one_line(alloc, held)?;
    format!(in alloc; "{ending}|{held}")
}
