ghost use Rattle.std.specs.Prelude.{◌≡◌};
ghost use Rattle.job_text.specs.EventHeader.{hex_bytes, event_header, fixed_value, header_value, number_value, spelled_time, spelled_uuid};
ghost use Rattle.job_text.specs.Draft.{GivesSpelled};

use crate::fault::LineFault;
use crate::job::bytes_pool::BytesPool;
use crate::lines::cut_word;
use crate::numbers::{parse_i8, parse_i16, parse_i32, parse_i64, parse_nanos};
use bytes::Bytes;
use hex::{FromHex, FromHexError};
use smithy_core::{DateTime, Header, HeaderValue};
use std::alloc::Global;

/// The header of `NAME KIND VALUE`, whose texts and bytes share a pool's blocks where they are short.
///
/// # Errors
///
/// [`LineFault::Bad`] where the text isn't of this form.
#[tactic(auto, unfolding(crate::specs::EventHeader::event_header))]
pub fn header_of(alloc: Global, pool: &mut BytesPool, rest: &str) -> Result<Header, LineFault>
    ensures { GivesSpelled (event_header rest.now) result }
{
    let (name, rest) = cut_word(rest);
    if name.is_empty() {
        return Err(LineFault::Bad);
    }
    let (kind, text) = cut_word(rest);
    let value = value_of(alloc, pool, kind, text)?;
    Ok(Header::new(pool.text(name)?, value))
}

// The value of `KIND VALUE`.
#[tactic(auto, unfolding(crate::specs::EventHeader::header_value))]
fn value_of(
    alloc: Global,
    pool: &mut BytesPool,
    kind: &str,
    text: &str,
) -> Result<HeaderValue, LineFault>
    ensures { GivesSpelled (header_value kind.now text.now) result }
{
    match kind {
        "bytes" => Ok(HeaderValue::ByteArray(pool.pooled(hex_bytes(alloc, text)?)?)),
        "text" => Ok(HeaderValue::String(pool.text(text)?)),
        _ => fixed_value(kind, text).ok_or(LineFault::Bad),
    }
}

// The value of a kind whose values are of one length.
#[tactic(auto, unfolding(crate::specs::EventHeader::fixed_value))]
fn fixed_value(kind: &str, text: &str) -> Option<HeaderValue>
    ensures { result ≡ fixed_value kind.now text.now }
{
    match kind {
        "true" => text.is_empty().then_some(HeaderValue::Bool(true)),
        "false" => text.is_empty().then_some(HeaderValue::Bool(false)),
        "time" => Some(HeaderValue::Timestamp(spelled_time(text)?)),
        "uuid" => Some(HeaderValue::Uuid(spelled_uuid(text)?)),
        _ => number_value(kind, text),
    }
}

// The value of a kind of numbers with a sign.
#[tactic(auto, unfolding(crate::specs::EventHeader::number_value))]
fn number_value(kind: &str, text: &str) -> Option<HeaderValue>
    ensures { result ≡ number_value kind.now text.now }
{
    match kind {
        "i8" => Some(HeaderValue::Byte(parse_i8(text)?)),
        "i16" => Some(HeaderValue::Int16(parse_i16(text)?)),
        "i32" => Some(HeaderValue::Int32(parse_i32(text)?)),
        "i64" => Some(HeaderValue::Int64(parse_i64(text)?)),
        _ => None,
    }
}

/// The bytes of an even number of hexadecimal digits, in either case.
///
/// # Errors
///
/// [`LineFault::Bad`] where the text isn't of this form.
#[tactic(auto, unfolding(crate::specs::EventHeader::hex_bytes))]
pub fn hex_bytes(alloc: Global, digits: &str) -> Result<Bytes, LineFault>
    ensures { GivesSpelled (hex_bytes digits.now) result }
{
    match hex::decode(alloc, digits.as_bytes()) {
        Ok(bytes) => Ok(Bytes::from_vec(bytes)?),
        Err(FromHexError::OutOfMemory) => Err(LineFault::NoMemory),
        Err(_) => Err(LineFault::Bad),
    }
}

// The moment of `SECS NANOS`.
#[tactic(auto, unfolding(crate::specs::EventHeader::spelled_time))]
fn spelled_time(text: &str) -> Option<DateTime>
    ensures { result ≡ spelled_time text.now }
{
    let (secs, nanos) = cut_word(text);
    Some(DateTime::new(parse_i64(secs)?, parse_nanos(nanos)?))
}

// The number of 32 hexadecimal digits, in either case.
#[tactic(auto, unfolding(crate::specs::EventHeader::spelled_uuid))]
fn spelled_uuid(digits: &str) -> Option<u128>
    ensures { result ≡ spelled_uuid digits.now }
{
    let bytes = <[u8; 16] as FromHex>::from_hex(digits).ok()?;
    Some(u128::from_be_bytes(bytes))
}
