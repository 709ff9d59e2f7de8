ghost use Rattle.std.specs.Prelude.{◌≡◌, ℕ, List, ◌+◌, ◌≤◌, ◌<◌, ◌++◌, ◌∷◌, length, drop, None, Some, IfOk, MatchResult};
ghost use Rattle.std.specs.Int.{w16, to_be_bytes};
ghost use Rattle.std.specs.Vec.{vec_capacity, vec_len};
ghost use Rattle.mac_core.specs.Crc.{after_bytes, before_any, remainder};
ghost use Rattle.seg_buf.specs.Segments.{prelude_len};
ghost use Rattle.eventstream.specs.Frame.{be32, block, first_unspelled, frame, frame_lengths, least_frame, most_frame, most_value, spelling, summed, unfit_lengths, unframed, unspelled, unspelled_value, value_spelling};
ghost use Rattle.eventstream.specs.Write.{Writes, WritesSummed};

use crate::error::{Error, ErrorKind};
use crate::kind;
use crate::size_hint::headers_width;
use mac_core::{Crc, crc32};
use smithy_core::{Header, HeaderValue, Mem, Message};
use std::alloc::{AllocError, Global};

/// The most bytes of a header's name.
pub(crate) const MOST_HEADER_NAME: usize = 255;

/// The most bytes of a header's byte array or text.
const MOST_VALUE: usize = 32_767;

/// The most bytes of a frame: 16 MiB, as the services have it.
pub(crate) const MOST_FRAME: usize = 16_777_216;

/// The most bytes of a header block: 128 KiB, as the services have it.
pub(crate) const MOST_BLOCK: usize = 131_072;

/// The most bytes of a payload: those of the largest frame without headers.
const MOST_PAYLOAD: usize = MOST_FRAME - LEAST_FRAME;

/// The bytes of the smallest frame, which has neither headers nor a payload: a prelude and the closing checksum.
pub(crate) const LEAST_FRAME: usize = 16;

/// Appends the spellings of the headers.
///
/// # Errors
///
/// The first header that has no spelling decides, its name before its value:
/// [`ErrorKind::InvalidHeaderNameLength`], [`ErrorKind::HeaderValueTooLong`] or
/// [`ErrorKind::TimestampValueTooLarge`]. A refused call appends nothing.
pub fn write_headers_to(
    _alloc: Global,
    headers: &[Header],
    buffer: &mut Vec<u8>,
) -> Result<(), Error>
    ensures { Writes (first_unspelled headers.now) (block headers.now) buffer.old.items buffer.new.items result }
{
    if let Err(kind) = test_headers(headers) {
        return Err(Error::from(kind));
    }
    let len = block_len(headers)?;
    buffer.reserve(len)?;
    push_headers(buffer, headers);
    Ok(())
}

/// Appends the frame of the message.
///
/// # Errors
///
/// As [`write_headers_to`], and then, in this order, [`ErrorKind::HeadersTooLong`] for a header block of over 131,072 bytes,
/// [`ErrorKind::PayloadTooLong`] for a payload of over 16,777,200 and [`ErrorKind::MessageTooLong`] for a frame of over
/// 16,777,216. A refused call appends nothing.
pub fn write_message_to(alloc: Global, message: &Message, buffer: &mut Vec<u8>) -> Result<(), Error>
    ensures { Writes (unframed message.now) (frame message.now) buffer.old.items buffer.new.items result }
{
    let _checksum = write_summed_message_to(alloc, message, buffer)?;
    Ok(())
}

/// Appends the frame of the message as [`write_message_to`] does, and answers the checksum that took the bytes of the frame
/// alone. The SDK has no such call.
///
/// This is for a caller that makes the frame the payload of another message: see [`Message::with_checksums`].
///
/// # Errors
///
/// Those of [`write_message_to`].
#[tactic(auto, unfolding(crate::specs::Frame::frame, crate::specs::Frame::unframed))]
pub fn write_summed_message_to(
    _alloc: Global,
    message: &Message,
    buffer: &mut Vec<u8>,
) -> Result<Crc, Error>
    ensures { WritesSummed (unframed message.now) (frame message.now) buffer.old.items buffer.new.items result }
{
    if let Err(kind) = test_headers(message.headers()) {
        return Err(Error::from(kind));
    }
    let headers = block_len(message.headers())?;
    if let Err(kind) = test_lengths(headers, message.payload().len()) {
        return Err(Error::from(kind));
    }
    buffer.reserve(LEAST_FRAME + headers + message.payload().len())?;
    Ok(push_frame(buffer, headers, message))
}

/// The frame of a message, which has to have one: where that isn't known, [`write_message_to`] answers why there is none.
#[tactic(auto, unfolding(crate::specs::Frame::frame, crate::specs::Frame::unframed))]
pub fn frame_of(alloc: Global, message: &Message) -> Mem<Vec<u8>>
    requires { unframed message.now ≡ None }
    ensures { IfOk result (λ bytes. bytes.items ≡ frame message.now) }
{
    let headers = block_len(message.headers())?;
    let len = LEAST_FRAME + headers + message.payload().len();
    let mut frame = Vec::with_capacity(alloc, len)?;
    let _checksum = push_frame(&mut frame, headers, message);
    Ok(frame)
}

fn test_headers(headers: &[Header]) -> Result<(), ErrorKind>
    ensures { MatchResult result (λ _. first_unspelled headers.now ≡ None) (λ kind. first_unspelled headers.now ≡ Some kind) }
{
    for header in headers {
        if let Err(kind) = test_header(header) {
            return Err(kind);
        }
    }
    Ok(())
}

fn test_header(header: &Header) -> Result<(), ErrorKind>
    ensures { MatchResult result (λ _. unspelled header.now ≡ None) (λ kind. unspelled header.now ≡ Some kind) }
{
    if header.name().as_bytes().len() > MOST_HEADER_NAME {
        return Err(ErrorKind::InvalidHeaderNameLength);
    }
    test_value(header.value())
}

#[tactic(auto, unfolding(crate::specs::Frame::unspelled_value))]
fn test_value(value: &HeaderValue) -> Result<(), ErrorKind>
    ensures { MatchResult result (λ _. unspelled_value value.now ≡ None) (λ kind. unspelled_value value.now ≡ Some kind) }
{
    match value {
        HeaderValue::ByteArray(bytes) => test_len(bytes.len()),
        HeaderValue::String(text) => test_len(text.as_bytes().len()),
        HeaderValue::Timestamp(moment) => match moment.to_millis() {
            Ok(_) => Ok(()),
            Err(_) => Err(ErrorKind::TimestampValueTooLarge(*moment)),
        },
        HeaderValue::Bool(_)
        | HeaderValue::Byte(_)
        | HeaderValue::Int16(_)
        | HeaderValue::Int32(_)
        | HeaderValue::Int64(_)
        | HeaderValue::Uuid(_) => Ok(()),
    }
}

fn test_len(len: usize) -> Result<(), ErrorKind>
    ensures { MatchResult result (λ _. len ≤ most_value) (λ kind. (most_value < len) × (kind ≡ ErrorKind.HeaderValueTooLong)) }
{
    if len > MOST_VALUE {
        return Err(ErrorKind::HeaderValueTooLong);
    }
    Ok(())
}

fn test_lengths(headers: usize, payload: usize) -> Result<(), ErrorKind>
    ensures { MatchResult result
        (λ _. (least_frame + headers + payload ≤ most_frame) × (unfit_lengths headers payload ≡ None))
        (λ kind. unfit_lengths headers payload ≡ Some kind) }
{
    if headers > MOST_BLOCK {
        return Err(ErrorKind::HeadersTooLong);
    }
    if payload > MOST_PAYLOAD {
        return Err(ErrorKind::PayloadTooLong);
    }
    if LEAST_FRAME + headers + payload > MOST_FRAME {
        return Err(ErrorKind::MessageTooLong);
    }
    Ok(())
}

// The bytes of the header block, where the headers have spellings. Memory has no room for more than `usize` counts.
#[tactic(auto, using(crate::proofs::SizeHintLemmas::length_block))]
fn block_len(headers: &[Header]) -> Mem<usize>
    requires { first_unspelled headers.now ≡ None }
    ensures { IfOk result (λ len. len ≡ length (block headers.now)) }
{
    let len = headers_width(headers);
    if len == usize::MAX {
        return Err(AllocError);
    }
    Ok(len)
}

// The spellings of the headers, where there is room for them.
fn push_headers(buffer: &mut Vec<u8>, headers: &[Header])
    requires spelled { first_unspelled headers.now ≡ None }
    requires room { vec_len buffer.old + length (block headers.now) ≤ vec_capacity buffer.old }
    ensures items { buffer.new.items ≡ buffer.old.items ++ block headers.now }
    ensures len { vec_len buffer.new ≡ vec_len buffer.old + length (block headers.now) }
    ensures capacity { vec_capacity buffer.old ≤ vec_capacity buffer.new }
{
    for header in headers {
        push_header(buffer, header);
    }
}

fn push_header(buffer: &mut Vec<u8>, header: &Header)
    requires spelled { unspelled header.now ≡ None }
    requires room { vec_len buffer.old + length (spelling header.now) ≤ vec_capacity buffer.old }
    ensures items { buffer.new.items ≡ buffer.old.items ++ spelling header.now }
    ensures len { vec_len buffer.new ≡ vec_len buffer.old + length (spelling header.now) }
    ensures capacity { vec_capacity buffer.old ≤ vec_capacity buffer.new }
{
    let name = header.name().as_bytes();
    push_tagged(buffer, name.len() as u8, name.as_slice());
    push_value(buffer, header.value());
}

#[tactic(auto, unfolding(crate::specs::Frame::value_spelling, crate::specs::Frame::unspelled_value))]
fn push_value(buffer: &mut Vec<u8>, value: &HeaderValue)
    requires spelled { unspelled_value value.now ≡ None }
    requires room { vec_len buffer.old + length (value_spelling value.now) ≤ vec_capacity buffer.old }
    ensures items { buffer.new.items ≡ buffer.old.items ++ value_spelling value.now }
    ensures len { vec_len buffer.new ≡ vec_len buffer.old + length (value_spelling value.now) }
    ensures capacity { vec_capacity buffer.old ≤ vec_capacity buffer.new }
{
    match value {
        HeaderValue::Bool(true) => push_tagged(buffer, kind::TRUE, &[]),
        HeaderValue::Bool(false) => push_tagged(buffer, kind::FALSE, &[]),
        HeaderValue::Byte(n) => push_tagged(buffer, kind::BYTE, n.to_be_bytes().as_slice()),
        HeaderValue::Int16(n) => push_tagged(buffer, kind::INT16, n.to_be_bytes().as_slice()),
        HeaderValue::Int32(n) => push_tagged(buffer, kind::INT32, n.to_be_bytes().as_slice()),
        HeaderValue::Int64(n) => push_tagged(buffer, kind::INT64, n.to_be_bytes().as_slice()),
        HeaderValue::ByteArray(bytes) => push_counted(buffer, kind::BYTE_ARRAY, bytes.as_slice()),
        HeaderValue::String(text) => push_counted(buffer, kind::STRING, text.as_bytes().as_slice()),
        HeaderValue::Timestamp(moment) => {
            let millis = moment.to_millis().unwrap();
            push_tagged(buffer, kind::TIMESTAMP, millis.to_be_bytes().as_slice());
        }
        HeaderValue::Uuid(n) => push_tagged(buffer, kind::UUID, n.to_be_bytes().as_slice()),
    }
}

// A byte, and then these bytes.
fn push_tagged(buffer: &mut Vec<u8>, tag: u8, bytes: &[u8])
    requires room { vec_len buffer.old + (1 + length bytes.now) ≤ vec_capacity buffer.old }
    ensures items { buffer.new.items ≡ buffer.old.items ++ tag ∷ bytes.now }
    ensures len { vec_len buffer.new ≡ vec_len buffer.old + (1 + length bytes.now) }
    ensures capacity { vec_capacity buffer.old ≤ vec_capacity buffer.new }
{
    buffer.push_reserved(tag);
    push_bytes(buffer, bytes);
}

// A byte, the number of these bytes, and then the bytes.
fn push_counted(buffer: &mut Vec<u8>, tag: u8, bytes: &[u8])
    requires few { length bytes.now < 65536 }
    requires room { vec_len buffer.old + (3 + length bytes.now) ≤ vec_capacity buffer.old }
    ensures items { buffer.new.items ≡ buffer.old.items ++ tag ∷ to_be_bytes w16 (length bytes.now) ++ bytes.now }
    ensures len { vec_len buffer.new ≡ vec_len buffer.old + (3 + length bytes.now) }
    ensures capacity { vec_capacity buffer.old ≤ vec_capacity buffer.new }
{
    push_tagged(buffer, tag, (bytes.len() as u16).to_be_bytes().as_slice());
    push_bytes(buffer, bytes);
}

// The frame of the message, whose header block takes so many bytes, where there is room for it, and the checksum of its bytes.
fn push_frame(buffer: &mut Vec<u8>, headers: usize, message: &Message) -> Crc
    requires spelled { first_unspelled message.now.headers ≡ None }
    requires block { headers ≡ length (block message.now.headers) }
    requires fits { least_frame + headers + length message.now.payload ≤ most_frame }
    requires room { vec_len buffer.old + (least_frame + headers + length message.now.payload) ≤ vec_capacity buffer.old }
    ensures items { buffer.new.items ≡ buffer.old.items ++ summed (summed (frame_lengths
        (least_frame + headers + length message.now.payload) headers) ++ block message.now.headers ++ message.now.payload) }
    ensures checksum { result ≡ after_bytes before_any (summed (summed (frame_lengths
        (least_frame + headers + length message.now.payload) headers) ++ block message.now.headers ++ message.now.payload)) }
{
    let start = buffer.len();
    let total = LEAST_FRAME + headers + message.payload().len();
    push_prelude(buffer, total as u32, headers as u32);
    push_headers(buffer, message.headers());
    push_payload(buffer, start, message)
}

// The message's payload, and the checksum of the bytes from `start` on; and the checksum with these four. What is before the
// payload is summed where it stands, since the payload may be summed already.
fn push_payload(buffer: &mut Vec<u8>, start: usize, message: &Message) -> Crc
    requires place { start ≤ length buffer.old.items }
    requires room { vec_len buffer.old + (length message.now.payload + 4) ≤ vec_capacity buffer.old }
    ensures items { buffer.new.items ≡ (buffer.old.items ++ message.now.payload) ++ be32 (remainder (drop start buffer.old.items ++ message.now.payload)) }
    ensures checksum { result ≡ after_bytes before_any (summed (drop start buffer.old.items ++ message.now.payload)) }
{
    let checksum = sum_frame(&buffer[start..], message);
    push_bytes(buffer, message.payload().as_slice());
    push_closing(buffer, checksum)
}

// The checksum of these bytes and the message's payload.
#[tactic(auto, using(mac_core::proofs::CrcLemmas::joins))]
fn sum_frame(front: &[u8], message: &Message) -> Crc
    ensures { result ≡ after_bytes before_any (front.now ++ message.now.payload) }
{
    let mut checksum = Crc::new();
    checksum.update(front);
    message.sum_payload(&mut checksum);
    checksum
}

// The closing checksum of bytes that were summed, and the checksum with these four.
#[tactic(auto, using(mac_core::proofs::CrcLemmas::joins), unfolding(crate::specs::Frame::be32, mac_core::specs::Crc::remainder))]
fn push_closing(buffer: &mut Vec<u8>, checksum: Crc) -> Crc
    requires room { vec_len buffer.old + 4 ≤ vec_capacity buffer.old }
    ensures items { (bytes : List ℕ) → checksum ≡ after_bytes before_any bytes → buffer.new.items ≡ buffer.old.items ++ be32 (remainder bytes) }
    ensures checksum { (bytes : List ℕ) → checksum ≡ after_bytes before_any bytes → result ≡ after_bytes before_any (summed bytes) }
{
    let closing = checksum.value().to_be_bytes();
    push_bytes(buffer, closing.as_slice());
    let mut closed = checksum;
    closed.update(closing.as_slice());
    closed
}

fn push_prelude(buffer: &mut Vec<u8>, total: u32, headers: u32)
    requires room { vec_len buffer.old + prelude_len ≤ vec_capacity buffer.old }
    ensures items { buffer.new.items ≡ buffer.old.items ++ summed (frame_lengths total headers) }
    ensures len { vec_len buffer.new ≡ vec_len buffer.old + prelude_len }
    ensures capacity { vec_capacity buffer.old ≤ vec_capacity buffer.new }
{
    let start = buffer.len();
    push_u32(buffer, total);
    push_u32(buffer, headers);
    push_checksum(buffer, start);
}

// The checksum of the bytes from `start` on.
fn push_checksum(buffer: &mut Vec<u8>, start: usize)
    requires place { start ≤ length buffer.old.items }
    requires room { vec_len buffer.old + 4 ≤ vec_capacity buffer.old }
    ensures items { buffer.new.items ≡ buffer.old.items ++ be32 (remainder (drop start buffer.old.items)) }
    ensures len { vec_len buffer.new ≡ vec_len buffer.old + 4 }
    ensures capacity { vec_capacity buffer.old ≤ vec_capacity buffer.new }
{
    let checksum = crc32(&buffer[start..]);
    push_u32(buffer, checksum);
}

#[tactic(auto, unfolding(crate::specs::Frame::be32))]
fn push_u32(buffer: &mut Vec<u8>, n: u32)
    requires room { vec_len buffer.old + 4 ≤ vec_capacity buffer.old }
    ensures items { buffer.new.items ≡ buffer.old.items ++ be32 n }
    ensures len { vec_len buffer.new ≡ vec_len buffer.old + 4 }
    ensures capacity { vec_capacity buffer.old ≤ vec_capacity buffer.new }
{
    push_bytes(buffer, n.to_be_bytes().as_slice());
}

// The bytes, where there is room for them.
fn push_bytes(buffer: &mut Vec<u8>, bytes: &[u8])
    requires room { vec_len buffer.old + length bytes.now ≤ vec_capacity buffer.old }
    ensures items { buffer.new.items ≡ buffer.old.items ++ bytes.now }
    ensures len { vec_len buffer.new ≡ vec_len buffer.old + length bytes.now }
    ensures capacity { vec_capacity buffer.old ≤ vec_capacity buffer.new }
{
    buffer.extend_from_slice(bytes).unwrap();
}
