//! How long a frame is, and what it holds.
ghost use Rattle.std.specs.Prelude.{◌≡◌, ◌⊎◌, ◌+◌, ◌<◌, ◌^◌, IfOk, MatchResult, Ok, Err, length, pos};
ghost use Rattle.std.specs.Int.{w64, saturate_signed};
ghost use Rattle.smithy_core.specs.Moment.{floor_ms};
ghost use Rattle.eventstream.specs.Frame.{block, spelling};
ghost use Rattle.eventstream.specs.Read.{announced, read, read_prelude};
ghost use Rattle.firuvaik_c.specs.Faults.{no_memory};
ghost use Rattle.firuvaik_c.specs.Frames.{FindsParts, DescribesFrame, AnswersLength, WritesParts, all_places, header_place, prelude_length, value_shape};

use crate::answer::{Answer, refuse};
use crate::fault::Fault;
use bytes::Bytes;
use eventstream::{peek_message, read_message_from};
use seg_buf::{PRELUDE, SegBuf};
use smithy_core::{Header, HeaderValue, Mem, Moment};
use std::alloc::Global;

/// Where a header of a frame stands in the frame's bytes.
#[repr(C)]
#[derive(Clone, Copy)]
pub struct HeaderPlace {
    /// Where its name begins.
    pub name: usize,
    /// How many bytes the name has.
    pub name_length: usize,
    /// The kind of its value, as the encoding numbers them.
    pub kind: u32,
    /// The value, where it is a number, or a moment in milliseconds.
    pub number: i64,
    /// Where the bytes of the value begin.
    pub value: usize,
    /// How many bytes the value has.
    pub value_length: usize,
}

/// Where a frame ends, and where its payload stands in its bytes.
#[repr(C)]
#[derive(Clone, Copy)]
pub struct FrameParts {
    /// How many bytes the frame has.
    pub length: usize,
    /// Where the payload begins.
    pub payload: usize,
    /// How many bytes the payload has.
    pub payload_length: usize,
}

/// Tells how long the frame is that bytes begin with, by its prelude: its first twelve bytes. Of fewer it tells that so many are
/// wanted.
#[unsafe(no_mangle)]
pub extern "C" fn firuvaik_frame_length(alloc: Global, bytes: &[u8]) -> Answer
    ensures { AnswersLength bytes.now result }
{
    let Some((prelude, _)) = bytes.split_first_chunk::<PRELUDE>() else {
        return Answer {
            status: 30,
            place: 0,
            length: PRELUDE,
        };
    };
    match prelude_length(alloc, prelude) {
        Ok(length) => Answer {
            status: 0,
            place: 0,
            length,
        },
        Err(fault) => refuse(fault),
    }
}

// The length of the frame that a prelude begins.
fn prelude_length(alloc: Global, prelude: &[u8; PRELUDE]) -> Result<usize, Fault>
    ensures { MatchResult result
        (λ length. prelude_length (read_prelude prelude.now) ≡ Ok length)
        (λ fault. (prelude_length (read_prelude prelude.now) ≡ Err fault) ⊎ (fault ≡ no_memory)) }
{
    let mut buffer = SegBuf::new(alloc);
    buffer.push_slice(prelude.as_slice())?;
    let _none = peek_message(alloc, &buffer)?;
    Ok(announced_length(prelude) as usize)
}

// The length that the first four bytes spell.
#[tactic(auto, unfolding(eventstream::specs::Read::big_endian))]
fn announced_length(prelude: &[u8; PRELUDE]) -> u32
    ensures { result ≡ announced prelude.now }
{
    match prelude.as_slice().split_first_chunk::<4>() {
        Some((length, _)) => u32::from_be_bytes(*length),
        None => unreachable!(),
    }
}

/// Tells what the frame holds that bytes begin with: where its payload and its headers stand in the bytes.
///
/// Parts and headers are written where the headers fit the room, and else neither is.
#[unsafe(no_mangle)]
pub extern "C" fn firuvaik_read_frame(
    alloc: Global,
    bytes: &[u8],
    parts: &mut FrameParts,
    headers: &mut [HeaderPlace],
) -> Answer
    ensures { DescribesFrame bytes.now parts.old parts.new headers.old headers.new result }
{
    match found_parts(alloc, bytes) {
        Ok(found) => write_parts(&found, parts, headers),
        Err(fault) => refuse(fault),
    }
}

// What was found of a frame.
#[derive(Drop)]
struct FoundParts {
    parts: FrameParts,
    headers: Vec<HeaderPlace>,
}

// The parts of the frame that bytes begin with.
fn found_parts(alloc: Global, bytes: &[u8]) -> Result<FoundParts, Fault>
    ensures { FindsParts bytes.now (read bytes.now) result }
{
    let mut rest = Bytes::copy_from_slice(alloc, bytes)?;
    let message = read_message_from(alloc, &mut rest)?;
    let length = bytes.len() - rest.len();
    let payload_length = message.payload().len();
    let headers = places_of(alloc, message.headers())?;
    Ok(FoundParts {
        parts: FrameParts {
            length,
            payload: length - 4 - payload_length,
            payload_length,
        },
        headers,
    })
}

// Writes what was found, where the headers fit the room.
fn write_parts(found: &FoundParts, parts: &mut FrameParts, headers: &mut [HeaderPlace]) -> Answer
    ensures { WritesParts found.now.parts found.now.headers.items parts.old parts.new headers.old headers.new result }
{
    let length = found.headers.len();
    if length > headers.len() {
        return Answer {
            status: 1,
            place: 0,
            length,
        };
    }
    *parts = found.parts;
    headers[..length].copy_from_slice(found.headers.as_slice());
    Answer {
        status: 0,
        place: 0,
        length,
    }
}

// Where the headers of a frame stand, one after another behind its prelude.
fn places_of(alloc: Global, headers: &[Header]) -> Mem<Vec<HeaderPlace>>
    requires { 12 + length (block headers.now) < 2 ^ 64 }
    ensures { IfOk result (λ places. places.items ≡ all_places 12 headers.now) }
{
    let mut places = Vec::new(alloc);
    let mut at = PRELUDE;
    for header in headers {
        let place = place_of(header, at);
        places.push(place)?;
        at = place.value + place.value_length;
    }
    Ok(places)
}

// Where a header stands that begins at a place.
fn place_of(header: &Header, at: usize) -> HeaderPlace
    requires { at + length (spelling header.now) < 2 ^ 64 }
    ensures place { result ≡ header_place at header.now }
    ensures end { result.value + result.value_length ≡ at + length (spelling header.now) }
{
    let name_length = header.name().as_bytes().len();
    let shape = value_shape(header.value());
    HeaderPlace {
        name: at + 1,
        name_length,
        kind: shape.kind,
        number: shape.number,
        value: at + 2 + name_length + shape.count,
        value_length: shape.length,
    }
}

// The kind of a value, the number that it is, how many bytes count its bytes, and how many it has.
#[derive(Clone, Copy)]
struct ValueShape {
    kind: u32,
    number: i64,
    count: usize,
    length: usize,
}

fn value_shape(value: &HeaderValue) -> ValueShape
    ensures { result ≡ value_shape value.now }
{
    match value {
        HeaderValue::Bool(true) => number_shape(0, 1, 0),
        HeaderValue::Bool(false) => number_shape(1, 0, 0),
        HeaderValue::Byte(number) => number_shape(2, i64::from(*number), 1),
        HeaderValue::Int16(number) => number_shape(3, i64::from(*number), 2),
        HeaderValue::Int32(number) => number_shape(4, i64::from(*number), 4),
        HeaderValue::Int64(number) => number_shape(5, *number, 8),
        HeaderValue::ByteArray(bytes) => counted_shape(6, bytes.len()),
        HeaderValue::String(text) => counted_shape(7, text.as_bytes().len()),
        HeaderValue::Timestamp(moment) => number_shape(8, millis_of(*moment), 8),
        HeaderValue::Uuid(_) => number_shape(9, 0, 16),
    }
}

fn number_shape(kind: u32, number: i64, length: usize) -> ValueShape
    ensures { result ≡ record { kind = kind; number = number; count = 0; length = length } }
{
    ValueShape {
        kind,
        number,
        count: 0,
        length,
    }
}

fn counted_shape(kind: u32, length: usize) -> ValueShape
    ensures { result ≡ record { kind = kind; number = pos 0; count = 2; length = length } }
{
    ValueShape {
        kind,
        number: 0,
        count: 2,
        length,
    }
}

// The whole milliseconds of a moment, or the nearest number of 64 bits. A frame has no moment that is further away.
fn millis_of(moment: Moment) -> i64
    ensures { result ≡ saturate_signed w64 (floor_ms moment) }
{
    match moment.to_millis() {
        Ok(millis) => millis,
        Err(_) if moment.secs() < 0 => i64::MIN,
        Err(_) => i64::MAX,
    }
}
