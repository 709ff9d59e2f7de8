ghost use Rattle.std.specs.Prelude.{◌≡◌, ◌≤◌, ◌<◌, None, length, IfOk, IsTrue};
ghost use Rattle.smithy_core.specs.Host.{failed_files, failed_reads, failed_writes};

use crate::moment::Moment;
use crate::outside::clock::Clock;
use crate::outside::disk::{Disk, DiskError};
use crate::outside::read_all::{ReadFault, read_all};
use crate::outside::sink::{ByteSink, SinkError};
use crate::outside::source::{ByteSource, Failed};
use std::alloc::Global;
use std::fs::{File, Files};
use std::io::{ErrorKind, Read, Write};
use std::num::TryFromIntError;
use std::rt;
use std::time::{SystemTime, UNIX_EPOCH};

/// Standard input. Contracts don't know what it has left. A read that a signal interrupted is made again, up to
/// 18,446,744,073,709,551,615 times.
#[derive(Drop)]
pub struct StdSource<R> {
    reader: R,
    faults: u64,
}

impl<R: Read> StdSource<R> {
    /// A source over a reader.
    pub fn new(reader: R) -> StdSource<R>
        ensures left { ⟦<StdSource<R> as ByteSource>⟧.left result ≡ None }
        ensures faults { ⟦<StdSource<R> as ByteSource>⟧.faults result ≡ 0 }
    {
        StdSource { reader, faults: 0 }
    }
}

impl<R: Read> ByteSource for StdSource<R> {
    ghost left = { λ _. None };

    ghost faults = { failed_reads };

    fn read(&mut self, into: &mut [u8]) -> Result<usize, Failed> {
        let read = read_uninterrupted(&mut self.reader, into);
        if read.is_err() {
            self.faults = self.faults.saturating_add(1);
        }
        read
    }
}

// Reads, and again where a signal interrupted the read.
fn read_uninterrupted<R: Read>(reader: &mut R, into: &mut [u8]) -> Result<usize, Failed>
    ensures { IfOk result (λ n. n ≤ length into.old) }
{
    for _ in 0..u64::MAX {
        match reader.read(into) {
            Ok(n) => return Ok(n),
            Err(e) if e.kind() == ErrorKind::Interrupted => (),
            Err(_) => return Err(Failed),
        }
    }
    Err(Failed)
}

/// Standard output or error. Contracts don't know what it holds. Each write is flushed. A write and a flush that a signal
/// interrupted are made again, up to 18,446,744,073,709,551,615 times each.
#[derive(Drop)]
pub struct StdSink<W> {
    writer: W,
    faults: u64,
    lost_reader: bool,
}

impl<W: Write> StdSink<W> {
    /// A sink over a writer.
    pub fn new(writer: W) -> StdSink<W>
        ensures held { ⟦<StdSink<W> as ByteSink>⟧.held result ≡ None }
        ensures faults { ⟦<StdSink<W> as ByteSink>⟧.faults result ≡ 0 }
    {
        StdSink {
            writer,
            faults: 0,
            lost_reader: false,
        }
    }

    /// Whether the last fault was a broken pipe: whoever read what was written has left. A program then needs to say nothing.
    pub fn has_lost_reader(&self) -> bool
        ensures { IsTrue result → 0 < ⟦<StdSink<W> as ByteSink>⟧.faults self.now }
    {
        self.faults > 0 && self.lost_reader
    }
}

impl<W: Write> ByteSink for StdSink<W> {
    ghost held = { λ _. None };

    ghost faults = { failed_writes };

    fn write(&mut self, piece: &[u8]) -> Result<usize, SinkError> {
        let written = write_uninterrupted(&mut self.writer, piece);
        let flushed = flush_uninterrupted(&mut self.writer);
        match (written, flushed) {
            (Ok(n), Ok(())) if n > 0 || piece.is_empty() => Ok(n),
            (written, flushed) => {
                self.faults = self.faults.saturating_add(1);
                self.lost_reader = is_broken_pipe(&written) || is_broken_pipe(&flushed);
                Err(SinkError::Failed)
            }
        }
    }
}

// Whether a write or a flush found that nothing reads any more.
fn is_broken_pipe<T>(answer: &Result<T, ErrorKind>) -> bool {
    matches!(answer, Err(ErrorKind::BrokenPipe))
}

// Writes, and again where a signal interrupted the write; else the kind of the fault.
fn write_uninterrupted<W: Write>(writer: &mut W, piece: &[u8]) -> Result<usize, ErrorKind>
    ensures { IfOk result (λ n. n ≤ length piece.now) }
{
    for _ in 0..u64::MAX {
        match writer.write(piece) {
            Ok(n) => return Ok(n),
            Err(e) if e.kind() == ErrorKind::Interrupted => (),
            Err(e) => return Err(e.kind()),
        }
    }
    Err(ErrorKind::Interrupted)
}

// Flushes, and again where a signal interrupted the flush.
fn flush_uninterrupted<W: Write>(writer: &mut W) -> Result<(), ErrorKind> {
    for _ in 0..u64::MAX {
        match writer.flush() {
            Ok(()) => return Ok(()),
            Err(e) if e.kind() == ErrorKind::Interrupted => (),
            Err(e) => return Err(e.kind()),
        }
    }
    Err(ErrorKind::Interrupted)
}

/// The most bytes of a file that a [`HostDisk`] reads.
const FILE_LIMIT: usize = 16_777_216;

/// The files of the operating system. Contracts don't know what they hold. A file over 16,777,216 bytes counts as a fault.
#[derive(Drop)]
pub struct HostDisk<R> {
    alloc: Global,
    runtime: R,
    faults: u64,
}

impl<R: Files> HostDisk<R> {
    /// The disk of a runtime.
    pub fn new(alloc: Global, runtime: R) -> HostDisk<R>
        ensures files { ⟦<HostDisk<R> as Disk>⟧.files result ≡ None }
        ensures faults { ⟦<HostDisk<R> as Disk>⟧.faults result ≡ 0 }
    {
        HostDisk {
            alloc,
            runtime,
            faults: 0,
        }
    }
}

impl<R: Files> Disk for HostDisk<R> {
    ghost files = { λ _. None };

    ghost faults = { failed_files };

    fn read(&mut self, path: &str) -> Result<Vec<u8>, DiskError> {
        let result = read_file(self.alloc, &self.runtime, path);
        if matches!(result, Err(DiskError::Failed)) {
            self.faults = self.faults.saturating_add(1);
        }
        result
    }
}

// The bytes of a file that isn't too long.
fn read_file<R: Files>(alloc: Global, runtime: &R, path: &str) -> Result<Vec<u8>, DiskError> {
    let file = match File::open(runtime, path) {
        Ok(file) => file,
        Err(e) if e.kind() == ErrorKind::NotFound => return Err(DiskError::NotFound),
        Err(_) => return Err(DiskError::Failed),
    };
    match read_all(alloc, &mut StdSource::new(file), FILE_LIMIT) {
        Ok(bytes) => Ok(bytes),
        Err(ReadFault::NoMemory) => Err(DiskError::NoMemory),
        Err(ReadFault::Failed | ReadFault::TooLarge) => Err(DiskError::Failed),
    }
}

/// The clock of the operating system. Contracts don't know what it gave. Where the runtime gives no time it answers second 0,
/// and the runtime gives none while the system's clock is set before 1970, since it counts from there without a sign.
#[derive(Drop)]
pub struct SystemClock<R> {
    runtime: R,
}

impl<R: rt::Clock> SystemClock<R> {
    /// The clock of a runtime.
    pub fn new(runtime: R) -> SystemClock<R>
        ensures { ⟦<SystemClock<R> as Clock>⟧.given result ≡ None }
    {
        SystemClock { runtime }
    }
}

impl<R: rt::Clock> Clock for SystemClock<R> {
    ghost given = { λ _. None };

    fn now(&mut self) -> Moment {
        match SystemTime::now(&self.runtime) {
            Ok(time) => moment_of(time),
            Err(_) => Moment::new(0, 0),
        }
    }
}

// The moment, its seconds rounded down; before 1970 too, if a runtime gives such a time.
fn moment_of(time: SystemTime) -> Moment {
    match nanos_of(time) {
        Ok(nanos) => Moment::from_nanos(nanos).unwrap_or(Moment::new(0, 0)),
        Err(_) => Moment::new(0, 0),
    }
}

// The nanoseconds since 1970, or the negated ones before it.
fn nanos_of(time: SystemTime) -> Result<i128, TryFromIntError> {
    match time.duration_since(UNIX_EPOCH) {
        Ok(since) => i128::try_from(since.as_nanos()),
        Err(before) => Ok(-i128::try_from(before.duration().as_nanos())?),
    }
}
