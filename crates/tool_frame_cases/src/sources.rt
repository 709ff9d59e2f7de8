ghost use Rattle.std.specs.Prelude.{◌≤◌, length, IfOk};
ghost use Rattle.smithy_core.specs.FrameSource.{AreShort, IsShort};

use crate::shown::{Shown, copy_shown, labelled, push};
use crate::words::{numbers_of, shared, size_of, word};
use bytes::Bytes;
use smithy_core::{CalmFrames, FaultyFrames, FramePart, FrameSource, Headers, Mem, Polled};
use std::alloc::Global;
use tool_case_lines::{halves, unknown};

// The longest piece of data, in bytes.
const LONGEST: usize = 4_294_967_295;

pub fn answer(alloc: Global, call: &str, words: &[&str]) -> Mem<String> {
    let first = word(words, 0);
    match call {
        "copied_frame" => copied_frame(alloc, frame_of(alloc, first)?),
        "copied_answer" => copied_answer(alloc, answer_of(alloc, first)?),
        "faulty" => faulty(alloc, words),
        "empty" => empty(alloc, words),
        "calm" => calm(alloc, words),
        _ => unknown(alloc),
    }
}

fn copied_frame(alloc: Global, frame: FramePart) -> Mem<String> {
    Polled::from(frame.try_clone()?).shown(alloc)
}

fn copied_answer(alloc: Global, answer: Polled) -> Mem<String> {
    copy_shown(alloc, answer.try_clone())
}

// The first polls of a source of data and trailers, and then those of its copy.
fn faulty(alloc: Global, words: &[&str]) -> Mem<String> {
    let frames = data_and_trailers(alloc, word(words, 0), word(words, 1))?;
    let mut source = faulty_of(alloc, frames, word(words, 2), word(words, 3))?;
    let answers = polls(alloc, &mut source, size_of(word(words, 4)))?;
    with_copy(alloc, answers, source.try_clone(), size_of(word(words, 5)))
}

fn faulty_of(alloc: Global, frames: Vec<FramePart>, fails: &str, waits: &str) -> Mem<FaultyFrames>
    requires { AreShort frames.items }
{
    let fails = numbers_of(alloc, fails)?;
    Ok(FaultyFrames::new(frames, fails, numbers_of(alloc, waits)?))
}

fn data_and_trailers(alloc: Global, data: &str, pair: &str) -> Mem<Vec<FramePart>>
    ensures { IfOk result (λ frames. AreShort frames.items) }
{
    let data = piece_of(alloc, data)?;
    let trailers = trailers_of(alloc, pair)?;
    both(alloc, FramePart::Data(data), FramePart::Trailers(trailers))
}

fn both(alloc: Global, first: FramePart, second: FramePart) -> Mem<Vec<FramePart>>
    requires first { IsShort first }
    requires second { IsShort second }
    ensures { IfOk result (λ frames. AreShort frames.items) }
{
    Ok(vec![in alloc; first, second]?)
}

// A piece of data, which is empty in place of one that would be too long.
fn piece_of(alloc: Global, word: &str) -> Mem<Bytes>
    ensures { IfOk result (λ piece. length piece ≤ 4294967295) }
{
    let piece = shared(alloc, word)?;
    if piece.len() > LONGEST {
        return Ok(Bytes::from_static(b""));
    }
    Ok(piece)
}

fn empty(alloc: Global, words: &[&str]) -> Mem<String> {
    let mut source = faulty_of(alloc, Vec::new(alloc), word(words, 0), word(words, 1))?;
    polls(alloc, &mut source, size_of(word(words, 2)))
}

// The first polls of a source of two pieces of data, and then those of its copy.
fn calm(alloc: Global, words: &[&str]) -> Mem<String> {
    let mut source = CalmFrames::new(two_pieces(alloc, word(words, 0), word(words, 1))?);
    let answers = polls(alloc, &mut source, size_of(word(words, 2)))?;
    with_copy(alloc, answers, source.try_clone(), size_of(word(words, 3)))
}

fn two_pieces(alloc: Global, left: &str, right: &str) -> Mem<Vec<FramePart>>
    ensures { IfOk result (λ frames. AreShort frames.items) }
{
    let left = piece_of(alloc, left)?;
    let right = piece_of(alloc, right)?;
    both(alloc, FramePart::Data(left), FramePart::Data(right))
}

// With what so many polls of a copy answer.
fn with_copy<S: FrameSource + Drop>(
    alloc: Global,
    answers: String,
    copy: Mem<S>,
    count: usize,
) -> Mem<String> {
    let mut answers = answers;
    push(&mut answers, polls(alloc, &mut copy?, count))?;
    Ok(answers)
}

// What so many polls answer.
fn polls<S: FrameSource>(alloc: Global, source: &mut S, count: usize) -> Mem<String> {
    let mut answers = String::new(alloc);
    for _ in 0..count {
        push(&mut answers, source.poll_frame().shown(alloc))?;
    }
    Ok(answers)
}

impl Shown for Polled {
    fn shown(&self, alloc: Global) -> Mem<String> {
        match self {
            Polled::Data(data) => labelled(alloc, "data", data.shown(alloc)),
            Polled::Trailers(trailers) => labelled(alloc, "trailers", trailers.shown(alloc)),
            Polled::NotYet => String::from_str(alloc, "NotYet"),
            Polled::End => String::from_str(alloc, "End"),
            Polled::Failed => String::from_str(alloc, "Failed"),
            Polled::NoMemory => String::from_str(alloc, "NoMemory"),
        }
    }
}

fn answer_of(alloc: Global, word: &str) -> Mem<Polled> {
    match word {
        "NotYet" => Ok(Polled::NotYet),
        "End" => Ok(Polled::End),
        "Failed" => Ok(Polled::Failed),
        "NoMemory" => Ok(Polled::NoMemory),
        frame => Ok(Polled::from(frame_of(alloc, frame)?)),
    }
}

fn frame_of(alloc: Global, word: &str) -> Mem<FramePart> {
    let (kind, rest) = halves(word);
    match kind {
        "trailers" => Ok(FramePart::Trailers(trailers_of(alloc, rest)?)),
        _ => Ok(FramePart::Data(shared(alloc, rest)?)),
    }
}

fn trailers_of(alloc: Global, pair: &str) -> Mem<Headers> {
    let (name, value) = halves(pair);
    let mut trailers = Headers::new(alloc);
    trailers.append(name, value)?;
    Ok(trailers)
}
