ghost use Rattle.std.specs.Prelude.{◌≤◌, length, IfOk};
ghost use Rattle.tool_signing_cases.specs.Frames.{IsFrame};

use crate::chunks::parts::{bytes_of, headers_in};
use bytes::Bytes;
use smithy_core::{FrameSource, Mem, Polled};
use std::alloc::Global;
use std::collections::VecDeque;

// The longest piece of data, in bytes.
const LONGEST: usize = 4_294_967_295;

/// A source of the frames that words name: `data TEXT`, `empty N` for N pieces without data, `trailers PAIR,PAIR..`, and the answers
/// `wait` and `fail`.
#[derive(Drop)]
pub struct GivenFrames {
    alloc: Global,
    words: VecDeque<String>,
    waits: u64,
    faults: u64,
}

impl GivenFrames {
    /// The frames of those of the parts that name some.
    pub fn of(alloc: Global, parts: &[&str]) -> Mem<GivenFrames> {
        let mut words = VecDeque::new(alloc);
        for part in parts {
            match part.split_once(' ').unwrap_or((part, "")) {
                ("empty", count) => {
                    for _ in 0..count.parse().unwrap_or(0u32) {
                        words.push_back(String::from_str(alloc, "data")?)?;
                    }
                }
                ("data" | "trailers" | "wait" | "fail", _) => {
                    words.push_back(String::from_str(alloc, part)?)?;
                }
                _ => (),
            }
        }
        Ok(GivenFrames {
            alloc,
            words,
            waits: 0,
            faults: 0,
        })
    }
}

impl FrameSource for GivenFrames {
    ghost use Rattle.std.specs.Prelude.{◌≡◌, [], None};

    ghost left = { λ _. None };

    ghost waits = { λ frames. frames.waits };

    ghost faults = { λ frames. frames.faults };

    ghost ended = { λ frames. frames.words.items ≡ [] };

    fn poll_frame(&mut self) -> Polled {
        let Some(word) = self.words.pop_front() else {
            return Polled::End;
        };
        match word.as_str().split_once(' ') {
            Some(("data", text)) => data(self.alloc, text),
            Some((_, pairs)) => trailers(self.alloc, pairs),
            None if word.as_str() == "data" => data(self.alloc, ""),
            None if word.as_str() == "trailers" => trailers(self.alloc, ""),
            None if word.as_str() == "fail" => {
                self.faults = self.faults.saturating_add(1);
                Polled::Failed
            }
            None => {
                self.waits = self.waits.saturating_add(1);
                Polled::NotYet
            }
        }
    }
}

fn data(alloc: Global, text: &str) -> Polled
    ensures { IsFrame result }
{
    match piece_of(alloc, text) {
        Ok(piece) => Polled::Data(piece),
        Err(_) => Polled::NoMemory,
    }
}

// A piece of data, which is empty in place of one that would be too long.
fn piece_of(alloc: Global, text: &str) -> Mem<Bytes>
    ensures { IfOk result (λ piece. length piece ≤ 4294967295) }
{
    let piece = bytes_of(alloc, text)?;
    if piece.len() > LONGEST {
        return Ok(Bytes::from_static(b""));
    }
    Ok(piece)
}

fn trailers(alloc: Global, pairs: &str) -> Polled
    ensures { IsFrame result }
{
    match headers_in(alloc, pairs) {
        Ok(headers) => Polled::Trailers(headers),
        Err(_) => Polled::NoMemory,
    }
}
