use crate::interrupted;
use crate::shown::{Shown, answered, debugged, labelled, nothing, push, quoted};
use crate::steps::{Steps, all_answers, answers_of};
use crate::words::{bytes_of, moment_of, numbers_of, parted, size_of, word, words_from};
use smithy_core::{
    ByteSink, ByteSource, CalmDisk, CalmSink, CalmSource, Clock, DateTime, Disk, FaultyDisk,
    FaultySink, FaultySource, FixedClock, HostDisk, ListClock, Mem, StdSink, StdSource, read_all,
    write_all,
};
use std::alloc::Global;
use std::io::{Read, Write};
use std::rt::Files;
use tool_case_lines::{halves, unknown};

// An I/O object: a source, a sink or a disk.
trait Outside: Steps + Sized {
    // What is left in it or was written to it.
    fn rest(&self, alloc: Global) -> Mem<String> {
        nothing(alloc)
    }

    // A copy, which goes on from here.
    fn copied(&self) -> Mem<Self>;
}

impl Steps for FaultySource {
    fn after(&mut self, alloc: Global, step: &str) -> Mem<String> {
        read_by(alloc, self, step)
    }
}

impl Outside for FaultySource {
    fn rest(&self, alloc: Global) -> Mem<String> {
        labelled(alloc, "left", quoted(alloc, self.left()))
    }

    fn copied(&self) -> Mem<FaultySource> {
        self.try_clone()
    }
}

impl Steps for CalmSource {
    fn after(&mut self, alloc: Global, step: &str) -> Mem<String> {
        read_by(alloc, self, step)
    }
}

impl Outside for CalmSource {
    fn rest(&self, alloc: Global) -> Mem<String> {
        labelled(alloc, "left", quoted(alloc, self.left()))
    }

    fn copied(&self) -> Mem<CalmSource> {
        self.try_clone()
    }
}

impl Steps for FaultySink {
    fn after(&mut self, alloc: Global, step: &str) -> Mem<String> {
        write_by(alloc, self, step)
    }
}

impl Outside for FaultySink {
    fn rest(&self, alloc: Global) -> Mem<String> {
        quoted(alloc, self.held())
    }

    fn copied(&self) -> Mem<FaultySink> {
        self.try_clone()
    }
}

impl Steps for CalmSink {
    fn after(&mut self, alloc: Global, step: &str) -> Mem<String> {
        write_by(alloc, self, step)
    }
}

impl Outside for CalmSink {
    fn rest(&self, alloc: Global) -> Mem<String> {
        quoted(alloc, self.held())
    }

    fn copied(&self) -> Mem<CalmSink> {
        self.try_clone()
    }
}

impl Steps for FaultyDisk {
    fn after(&mut self, alloc: Global, step: &str) -> Mem<String> {
        read_path(alloc, self, step)
    }
}

impl Outside for FaultyDisk {
    fn copied(&self) -> Mem<FaultyDisk> {
        self.try_clone()
    }
}

impl Steps for CalmDisk {
    fn after(&mut self, alloc: Global, step: &str) -> Mem<String> {
        read_path(alloc, self, step)
    }
}

impl Outside for CalmDisk {
    fn copied(&self) -> Mem<CalmDisk> {
        self.try_clone()
    }
}

impl<R: Read> Steps for StdSource<R> {
    fn after(&mut self, alloc: Global, step: &str) -> Mem<String> {
        read_by(alloc, self, step)
    }
}

impl<W: Write> Steps for StdSink<W> {
    fn after(&mut self, alloc: Global, step: &str) -> Mem<String> {
        write_by(alloc, self, step)
    }
}

impl<R: Files> Steps for HostDisk<R> {
    fn after(&mut self, alloc: Global, path: &str) -> Mem<String> {
        read_path(alloc, self, path)
    }
}

// What an object answers to the steps, and what is in it then. With `copies` a copy that is made after the first step takes
// the others.
fn shown_after<O: Outside + Drop>(
    alloc: Global,
    copies: bool,
    object: O,
    steps: &[&str],
) -> Mem<String> {
    let mut object = object;
    if copies {
        return shown_by_copy(alloc, &mut object, steps);
    }
    all_shown(alloc, &mut object, steps)
}

fn shown_by_copy<O: Outside + Drop>(alloc: Global, object: &mut O, steps: &[&str]) -> Mem<String> {
    let first = object.after(alloc, word(steps, 0))?;
    let mut copy = object.copied()?;
    with_rest(first, all_shown(alloc, &mut copy, words_from(steps, 1)))
}

fn all_shown<O: Outside>(alloc: Global, object: &mut O, steps: &[&str]) -> Mem<String> {
    let answers = answers_of(alloc, object, steps)?;
    with_rest(answers, object.rest(alloc))
}

// The answers, and one more.
pub fn with_rest(answers: String, rest: Mem<String>) -> Mem<String> {
    let mut answers = answers;
    push(&mut answers, rest)?;
    Ok(answers)
}

/// The answers of an object to its steps, and with `copies` those of its copy to all but the first.
pub fn answer(alloc: Global, copies: bool, call: &str, words: &[&str]) -> Mem<String> {
    let first = word(words, 0);
    match call {
        "calm_sink" => shown_after(alloc, copies, CalmSink::new(alloc), words),
        "calm_source" => {
            let source = CalmSource::new(bytes_of(alloc, first)?);
            shown_after(alloc, copies, source, words_from(words, 1))
        }
        "calm_disk" => {
            let disk = CalmDisk::new(files_of(alloc, first)?);
            shown_after(alloc, copies, disk, words_from(words, 1))
        }
        "faulty_sink" => {
            let sink = FaultySink::new(alloc, numbers_of(alloc, first)?);
            shown_after(alloc, copies, sink, words_from(words, 1))
        }
        "faulty_source" => {
            let source = faulty_source_of(alloc, first, word(words, 1))?;
            shown_after(alloc, copies, source, words_from(words, 2))
        }
        "faulty_disk" => {
            let disk = faulty_disk_of(alloc, first, word(words, 1))?;
            shown_after(alloc, copies, disk, words_from(words, 2))
        }
        "list_clock" => list_clock(alloc, copies, words),
        _ => of_std(alloc, call, words),
    }
}

fn of_std(alloc: Global, call: &str, words: &[&str]) -> Mem<String> {
    let (first, second) = (word(words, 0), word(words, 1));
    match call {
        "fixed_clock" => given(
            alloc,
            &mut FixedClock::new(moment_of(first)),
            size_of(second),
        ),
        "std_source" => std_source(alloc, bytes_of(alloc, first)?, words_from(words, 1)),
        "std_sink" => std_sink(alloc, words),
        "full_sink" => full_sink(alloc, size_of(first), words_from(words, 1)),
        "interrupted_source" => interrupted::source(alloc, first, second, words_from(words, 2)),
        "interrupted_sink" => interrupted::sink(alloc, first, words_from(words, 1)),
        _ => unknown(alloc),
    }
}

fn faulty_source_of(alloc: Global, content: &str, fails: &str) -> Mem<FaultySource> {
    let fails = numbers_of(alloc, fails)?;
    Ok(FaultySource::new(bytes_of(alloc, content)?, fails))
}

fn faulty_disk_of(alloc: Global, files: &str, fails: &str) -> Mem<FaultyDisk> {
    let fails = numbers_of(alloc, fails)?;
    Ok(FaultyDisk::new(files_of(alloc, files)?, fails))
}

// A step reads once into so much room or into a buffer, or all up to a limit.
fn read_by<S: ByteSource>(alloc: Global, source: &mut S, step: &str) -> Mem<String> {
    let (step, word) = halves(step);
    match step {
        "all" => answered(alloc, read_all(alloc, source, size_of(word))),
        "into" => read_into(alloc, source, word),
        _ => read_once(alloc, source, size_of(word)),
    }
}

// The answer of a read into a buffer of this content, and what the buffer then holds.
fn read_into<S: ByteSource>(alloc: Global, source: &mut S, content: &str) -> Mem<String> {
    let mut into = bytes_of(alloc, content)?;
    let answer = source.read(into.as_mut_slice());
    let into = quoted(alloc, into.as_slice())?;
    format!(in alloc; "{answer:?} {into}")
}

fn read_once<S: ByteSource>(alloc: Global, source: &mut S, room: usize) -> Mem<String> {
    let mut into = vec![in alloc; 0u8; room]?;
    match source.read(into.as_mut_slice()) {
        Ok(n) => quoted(alloc, &into.as_slice()[..n]),
        Err(fault) => debugged(alloc, &fault),
    }
}

/// What a source over a reader answers to the steps.
pub fn read_from<R: Read + Drop>(alloc: Global, reader: R, steps: &[&str]) -> Mem<String> {
    all_answers(alloc, StdSource::new(reader), steps)
}

/// What a sink over a writer answers to the steps.
pub fn write_to<W: Write + Drop>(alloc: Global, writer: W, steps: &[&str]) -> Mem<String> {
    all_answers(alloc, StdSink::new(writer), steps)
}

fn std_source(alloc: Global, content: Vec<u8>, steps: &[&str]) -> Mem<String> {
    read_from(alloc, content.as_slice(), steps)
}

fn std_sink(alloc: Global, steps: &[&str]) -> Mem<String> {
    let mut written = Vec::new(alloc);
    let answers = write_to(alloc, &mut written, steps)?;
    with_rest(answers, written.shown(alloc))
}

// A sink over a slice, which can be full.
fn full_sink(alloc: Global, room: usize, steps: &[&str]) -> Mem<String> {
    let mut slice = vec![in alloc; b'.'; room]?;
    let answers = write_to(alloc, slice.as_mut_slice(), steps)?;
    with_rest(answers, slice.shown(alloc))
}

// A step writes a piece once, or the whole of it.
fn write_by<K: ByteSink>(alloc: Global, sink: &mut K, step: &str) -> Mem<String> {
    let (step, piece) = halves(step);
    let piece = bytes_of(alloc, piece)?;
    match step {
        "all" => debugged(alloc, &write_all(sink, piece.as_slice())),
        _ => debugged(alloc, &sink.write(piece.as_slice())),
    }
}

// The files between `;`, each a path and its bytes.
fn files_of(alloc: Global, word: &str) -> Mem<Vec<(String, Vec<u8>)>> {
    let mut files = Vec::new(alloc);
    for file in word.split(';') {
        files.push(file_of(alloc, file)?)?;
    }
    Ok(files)
}

fn file_of(alloc: Global, word: &str) -> Mem<(String, Vec<u8>)> {
    let (path, bytes) = halves(word);
    let bytes = bytes_of(alloc, bytes)?;
    Ok((String::from_str(alloc, path)?, bytes))
}

fn read_path<D: Disk>(alloc: Global, disk: &mut D, path: &str) -> Mem<String> {
    answered(alloc, disk.read(path))
}

// What a clock gives of moments, which come before a count.
fn list_clock(alloc: Global, copies: bool, words: &[&str]) -> Mem<String> {
    let (words, count) = parted(words);
    let moments = moments_of(alloc, words)?;
    if moments.is_empty() {
        return String::from_str(alloc, "no moments");
    }
    let mut clock = ListClock::new(moments);
    if copies {
        return given_by_copy(alloc, &mut clock, size_of(count));
    }
    given(alloc, &mut clock, size_of(count))
}

// A first moment, and then so many of a copy.
fn given_by_copy(alloc: Global, clock: &mut ListClock, count: usize) -> Mem<String> {
    let first = given(alloc, clock, 1)?;
    with_rest(first, given(alloc, &mut clock.try_clone()?, count))
}

fn moments_of(alloc: Global, words: &[&str]) -> Mem<Vec<DateTime>> {
    let mut moments = Vec::new(alloc);
    for word in words {
        moments.push(moment_of(word))?;
    }
    Ok(moments)
}

// What so many calls of a clock give.
fn given<C: Clock>(alloc: Global, clock: &mut C, count: usize) -> Mem<String> {
    let mut answers = String::new(alloc);
    for _ in 0..count {
        push(&mut answers, clock.now().shown(alloc))?;
    }
    Ok(answers)
}
