//! Sources of frames, each by the words that tell its polls.
use crate::receiving::frames::Frames;
use bytes::Bytes;
use smithy_core::{FaultyFrames, Headers, Mem};
use std::alloc::Global;
use tool_case_lines::{bytes_of_hex, halves};

/// The source of the frames that the words tell, with the polls that `fail N` and `wait N` name.
pub fn source_of(alloc: Global, words: &[&str]) -> Mem<FaultyFrames> {
    let mut frames = Frames::new(alloc);
    for word in words {
        push_frames(alloc, &mut frames, word)?;
    }
    let fails = numbers_of(alloc, words, "fail")?;
    let waits = numbers_of(alloc, words, "wait")?;
    Ok(FaultyFrames::new(frames.into_parts(), fails, waits))
}

// `data HEX` is a piece, `single HEX` a piece for each byte, `spaced HEX` an empty one after each too, `empty N` so many empty
// pieces and `trailers` a frame of trailers. Other words are none.
fn push_frames(alloc: Global, frames: &mut Frames, word: &str) -> Mem<()> {
    match halves(word) {
        ("data", digits) => frames.push_piece(piece_of(alloc, digits)?),
        ("single", digits) => push_bytes(alloc, frames, digits, false),
        ("spaced", digits) => push_bytes(alloc, frames, digits, true),
        ("empty", count) => push_empty(frames, count.parse().unwrap_or(0)),
        ("trailers", _) => frames.push_trailers(trailers(alloc)?),
        _ => Ok(()),
    }
}

fn piece_of(alloc: Global, digits: &str) -> Mem<Bytes> {
    Ok(Bytes::from_vec(bytes_of_hex(alloc, digits)?)?)
}

fn push_bytes(alloc: Global, frames: &mut Frames, digits: &str, spaced: bool) -> Mem<()> {
    for byte in bytes_of_hex(alloc, digits)? {
        frames.push_piece(Bytes::copy_from_slice(alloc, &[byte])?)?;
        if spaced {
            push_empty(frames, 1)?;
        }
    }
    Ok(())
}

fn push_empty(frames: &mut Frames, count: u32) -> Mem<()> {
    for _ in 0..count {
        frames.push_piece(Bytes::from_static(b""))?;
    }
    Ok(())
}

fn trailers(alloc: Global) -> Mem<Headers> {
    let mut trailers = Headers::new(alloc);
    trailers.append("x-amz-checksum-crc32", "AAAAAA==")?;
    Ok(trailers)
}

// The numbers of the words `KEY N`.
fn numbers_of(alloc: Global, words: &[&str], key: &str) -> Mem<Vec<u64>> {
    let mut numbers = Vec::new(alloc);
    for word in words {
        let (first, rest) = halves(word);
        if first == key {
            numbers.push(rest.parse().unwrap_or(0))?;
        }
    }
    Ok(numbers)
}
