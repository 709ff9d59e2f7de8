//! What is said of how a run ended.
ghost use Rattle.std.specs.Prelude.{◌≡◌, ◌≤◌, IfOk, map};
ghost use Rattle.std.specs.String.{string_bytes};
ghost use Rattle.awsign_chunk.specs.ChunkSaying.{SaysChunk, chunk_status_line};

use crate::status::ChunkStatus;
use awsign_run::{say, tool_line, write_some};
use smithy_core::{ByteSink, Mem};
use std::alloc::Global;

/// Says on `err` how a run with these words ended, in a line that begins with the tool's name; nothing where all was written.
pub fn say_chunk<E: ByteSink>(alloc: Global, words: &[String], status: &ChunkStatus, err: &mut E)
    ensures said { SaysChunk (map string_bytes words.now) status.now (E.held err.old) (E.held err.new) }
    ensures count { E.faults err.old ≤ E.faults err.new }
{
    match status {
        ChunkStatus::Ended(status) => say(alloc, words, status, err),
        _ => match status_line(alloc, status) {
            Ok(line) => write_some(line.as_str(), err),
            Err(_) => write_some("awsign: no memory\n", err),
        },
    }
}

// The line of a status that other commands don't have.
fn status_line(alloc: Global, status: &ChunkStatus) -> Mem<String>
    ensures { IfOk result (λ line. string_bytes line ≡ chunk_status_line status.now) }
{
    match status {
        ChunkStatus::Ended(_) => Ok(String::new(alloc)),
        ChunkStatus::UnfitTrailer(error) => {
            let text = format!(in alloc; "a trailer can't be sent: {error}")?;
            tool_line(alloc, text.as_str())
        }
        ChunkStatus::Unannounced(fault) => {
            let text = format!(in alloc; "the body can't be announced: {fault}")?;
            tool_line(alloc, text.as_str())
        }
        ChunkStatus::DataTooLong => tool_line(alloc, "the data has over 4294967295 bytes"),
        ChunkStatus::DataChanged => tool_line(alloc, "the data changed while it was read"),
        ChunkStatus::FileFault => tool_line(alloc, "could not write the file that --out names"),
    }
}
