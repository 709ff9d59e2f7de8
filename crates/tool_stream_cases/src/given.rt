//! What a run is given, and how it ends.
use crate::jobs::{clock_of, disk_of, env_of, fails_of, files_of, input_of};
use presigned_program::{PresignStatus, run_presigned};
use signed_stream::{Status, run};
use smithy_core::{
    ByteSink, ByteSource, CalmDisk, CalmSource, Clock, Disk, Env, FaultyDisk, FaultySource,
    FixedClock, ListClock, Mem,
};
use std::alloc::Global;

/// The words, the variables and what else a run reads.
pub struct Given<S, D, C> {
    words: Vec<String>,
    env: Env,
    len: usize,
    input: S,
    disk: D,
    clock: C,
}

// Written out: a derived drop would be taken apart in the proof of each function that drops one.
impl<S: Drop, D: Drop, C: Drop> Drop for Given<S, D, C> {
    fn drop(self) {
        let Given {
            words,
            env,
            len: _,
            input,
            disk,
            clock,
        } = self;
        drop(words);
        drop(env);
        drop(input);
        drop(disk);
        drop(clock);
    }
}

impl Given<FaultySource, FaultyDisk, ListClock> {
    /// An input and a disk whose calls `@read PLACE` and `@disk PLACE` fail, and a clock of the listed moments.
    pub fn faulty(alloc: Global, command: &str, lines: &[&str]) -> Mem<Self> {
        let fails = fails_of(alloc, lines, "@read")?;
        let input = input_of(alloc, lines)?;
        Ok(Given {
            len: input.len(),
            input: FaultySource::new(input, fails),
            clock: clock_of(alloc, lines)?,
            words: words_of(alloc, command)?,
            env: env_of(alloc, lines)?,
            disk: disk_of(alloc, lines)?,
        })
    }

    /// How many bytes the input lost.
    pub fn lost(&self) -> usize {
        self.len.saturating_sub(self.input.left().len())
    }
}

impl Given<CalmSource, CalmDisk, FixedClock> {
    /// An input and a disk that never fail, and a clock that stands at the first of the listed moments.
    pub fn calm(alloc: Global, command: &str, lines: &[&str]) -> Mem<Self> {
        let input = input_of(alloc, lines)?;
        Ok(Given {
            len: input.len(),
            clock: FixedClock::new(clock_of(alloc, lines)?.now()),
            input: CalmSource::new(input),
            words: words_of(alloc, command)?,
            env: env_of(alloc, lines)?,
            disk: CalmDisk::new(files_of(alloc, lines)?),
        })
    }
}

// The words between spaces, each with its own spaces in place of `%20`.
fn words_of(alloc: Global, command: &str) -> Mem<Vec<String>> {
    let mut words = Vec::new(alloc);
    for word in command.split_whitespace() {
        words.push(word.replace(alloc, "%20", " ")?)?;
    }
    Ok(words)
}

/// How a run ends that writes to these sinks.
pub fn ended<S: ByteSource, D: Disk, C: Clock, K: ByteSink>(
    alloc: Global,
    given: &mut Given<S, D, C>,
    out: &mut K,
    err: &mut K,
) -> Status {
    run(
        alloc,
        given.words.as_slice(),
        &given.env,
        &mut given.input,
        &mut given.disk,
        &mut given.clock,
        out,
        err,
    )
}

/// How a check of a presigned URL ends that writes to these sinks.
pub fn checked<S: ByteSource, D: Disk, C: Clock, K: ByteSink>(
    alloc: Global,
    given: &mut Given<S, D, C>,
    out: &mut K,
    err: &mut K,
) -> PresignStatus {
    run_presigned(
        alloc,
        given.words.as_slice(),
        &given.env,
        &mut given.input,
        &mut given.disk,
        &mut given.clock,
        out,
        err,
    )
}
