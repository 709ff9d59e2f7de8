//! A source that says how much of it is read.
ghost use Rattle.std.specs.Prelude.{◌≡◌, ◌<◌, ◌≤◌, Ok, IfOk, OnErr, OnOk, length};
ghost use Rattle.std.specs.String.{string_bytes};
ghost use Rattle.smithy_core.specs.Outside.{IsAtEnd, RoseOrStands, TakesFront};
ghost use Rattle.awsign_run.specs.Progress.{SaysProgress, bytes_read, end_said, progress_said, progress_text, count_behind, said_on, step_said, steps_before};

use crate::saying::write_some;
use smithy_core::{ByteSink, ByteSource, Failed, Mem};
use std::alloc::Global;

/// After how many bytes more it is said how many are read.
const STEP: u64 = 67_108_864;

/// A source that says on a terminal how much of it is read, each time that 64 MiB more are, and covers that with blanks at its end. There
/// is no [`Debug`](std::fmt::Debug), so that no data is printed.
#[derive(Drop)]
pub struct ProgressSource<S, E> {
    source: S,
    err: E,
    read: u64,
    alloc: Global,
}

impl<S: ByteSource, E: ByteSink> ProgressSource<S, E> {
    /// Nothing of the source is read yet.
    pub fn new(alloc: Global, source: S, err: E) -> Self
        ensures left { ⟦<ProgressSource<S, E> as ByteSource>⟧.left result ≡ S.left source }
        ensures faults { ⟦<ProgressSource<S, E> as ByteSource>⟧.faults result ≡ S.faults source }
        ensures read { bytes_read result ≡ 0 }
        ensures said { said_on result ≡ err }
    {
        ProgressSource {
            source,
            err,
            read: 0,
            alloc,
        }
    }
}

impl<S: ByteSource, E: ByteSink> ByteSource for ProgressSource<S, E> {
    ghost left = { λ progress. S.left progress.source };

    ghost faults = { λ progress. S.faults progress.source };

    fn read(&mut self, into: &mut [u8]) -> Result<usize, Failed>
        ensures count { S.faults self.old.source ≤ S.faults self.new.source }
        ensures cause { OnErr result (RoseOrStands (S.faults self.old.source) (S.faults self.new.source)) }
        ensures steady { OnOk result (S.faults self.new.source ≡ S.faults self.old.source) }
        ensures within { IfOk result (λ n. n ≤ length into.old) }
        ensures taken { IfOk result (λ n. TakesFront n into.new (S.left self.old.source) (S.left self.new.source)) }
        ensures at_end { result ≡ Ok 0 → 0 < length into.old → IsAtEnd (S.left self.new.source) }
        ensures kept { OnErr result (S.left self.new.source ≡ S.left self.old.source) }

        // What is said of it.
        ensures read { bytes_read self.new ≡ count_behind result (bytes_read self.old) }
        ensures said { SaysProgress (progress_said result (bytes_read self.old)) (E.held (said_on self.old)) (E.held (said_on self.new)) }
    {
        let answer = self.source.read(into);
        let before = self.read;
        match answer {
            Ok(n) if n > 0 => {
                self.read = before.saturating_add(n as u64);
                say_step(self.alloc, before, self.read, &mut self.err);
            }
            _ => cover(before, &mut self.err),
        }
        answer
    }
}

// Says how many bytes are read now, where they pass another step.
fn say_step<E: ByteSink>(alloc: Global, before: u64, now: u64, err: &mut E)
    ensures { SaysProgress (step_said before now) (E.held err.old) (E.held err.new) }
{
    if steps_before(before) < steps_before(now) {
        if let Ok(text) = progress_text(alloc, now) {
            write_some(text.as_str(), err);
        }
    }
}

// How many whole steps stand before the last of so many bytes.
fn steps_before(read: u64) -> u64
    ensures { result ≡ steps_before read }
{
    read.saturating_sub(1) / STEP
}

fn progress_text(alloc: Global, read: u64) -> Mem<String>
    ensures { IfOk result (λ text. string_bytes text ≡ progress_text read) }
{
    let mebibytes = read / 1_048_576;
    format!(in alloc; "\rawsign: {mebibytes} MiB read")
}

// Covers what was said with blanks, where something was.
fn cover<E: ByteSink>(read: u64, err: &mut E)
    ensures { SaysProgress (end_said read) (E.held err.old) (E.held err.new) }
{
    if read > STEP {
        write_some("\r                                        \r", err);
    }
}
