ghost use Rattle.std.specs.Prelude.{◌<◌, length, OnOk};
ghost use Rattle.std.specs.Int.{w8, w16, w32, w64, w128, cast_signed};
ghost use Rattle.smithy_core.specs.Moment.{at_ms};
ghost use Rattle.smithy_core.specs.declared.header.HeaderValue.TheVariants.{Byte, Int16, Int32, Int64, Timestamp, Uuid};
ghost use Rattle.eventstream.specs.Read.{array_of, big_endian, counted_of, front_of, header_of, header_name_of, number_of, text_value_of, value_of, GivesFront};

use crate::error::{Error, ErrorKind};
use crate::kind;
use bytes::Bytes;
use smithy_core::{DateTime, Header, HeaderValue, StrBytes};

/// Takes the header at the front of all bytes that are there.
#[tactic(auto, unfolding(crate::specs::Read::header_of))]
pub fn take_header(rest: &mut Bytes) -> Result<Header, Error>
    ensures header { GivesFront header_of rest.old rest.new result }
    ensures shorter { OnOk result (length rest.new < length rest.old) }
{
    let name = take_name(rest)?;
    let kind = rest.as_slice()[0];
    rest.advance(1);
    let value = take_value(kind, rest)?;
    Ok(Header::new(name, value))
}

// A name behind its length, with one byte at least after it.
#[tactic(auto, unfolding(crate::specs::Read::header_name_of))]
fn take_name(rest: &mut Bytes) -> Result<StrBytes, Error>
    ensures name { GivesFront header_name_of rest.old rest.new result }
    ensures more { OnOk result ((0 < length rest.new) × (length rest.new < length rest.old)) }
{
    if rest.len() < 2 {
        return Err(Error::from(ErrorKind::InvalidHeadersLength));
    }
    let len = usize::from(rest.as_slice()[0]);
    rest.advance(1);
    if len >= rest.len() {
        return Err(Error::from(ErrorKind::InvalidHeaderNameLength));
    }
    match StrBytes::try_from_bytes(rest.split_to(len)?) {
        Ok(name) => Ok(name),
        Err(_) => Err(Error::from(ErrorKind::InvalidUtf8String)),
    }
}

// The value of a kind.
#[tactic(auto, unfolding(crate::specs::Read::value_of))]
fn take_value(kind: u8, rest: &mut Bytes) -> Result<HeaderValue, Error>
    ensures { GivesFront (value_of kind) rest.old rest.new result }
{
    match kind {
        kind::TRUE => Ok(HeaderValue::Bool(true)),
        kind::FALSE => Ok(HeaderValue::Bool(false)),
        kind::BYTE => take_byte(rest),
        kind::INT16 => take_int16(rest),
        kind::INT32 => take_int32(rest),
        kind::INT64 => take_int64(rest),
        kind::BYTE_ARRAY => take_array(rest),
        kind::STRING => take_text(rest),
        kind::TIMESTAMP => take_timestamp(rest),
        kind::UUID => take_uuid(rest),
        other => Err(Error::from(ErrorKind::InvalidHeaderValueType(other))),
    }
}

// A whole number of 8 bits.
#[tactic(auto, unfolding(crate::specs::Read::number_of, crate::specs::Read::big_endian))]
fn take_byte(rest: &mut Bytes) -> Result<HeaderValue, Error>
    ensures { GivesFront (number_of w8 (λ n. Byte (cast_signed w8 n))) rest.old rest.new result }
{
    Ok(HeaderValue::Byte(i8::from_be_bytes(take_chunk::<1>(rest)?)))
}

// A whole number of 16 bits.
#[tactic(auto, unfolding(crate::specs::Read::number_of, crate::specs::Read::big_endian))]
fn take_int16(rest: &mut Bytes) -> Result<HeaderValue, Error>
    ensures { GivesFront (number_of w16 (λ n. Int16 (cast_signed w16 n))) rest.old rest.new result }
{
    Ok(HeaderValue::Int16(i16::from_be_bytes(take_chunk::<2>(rest)?)))
}

// A whole number of 32 bits.
#[tactic(auto, unfolding(crate::specs::Read::number_of, crate::specs::Read::big_endian))]
fn take_int32(rest: &mut Bytes) -> Result<HeaderValue, Error>
    ensures { GivesFront (number_of w32 (λ n. Int32 (cast_signed w32 n))) rest.old rest.new result }
{
    Ok(HeaderValue::Int32(i32::from_be_bytes(take_chunk::<4>(rest)?)))
}

// A whole number of 64 bits.
#[tactic(auto, unfolding(crate::specs::Read::number_of, crate::specs::Read::big_endian))]
fn take_int64(rest: &mut Bytes) -> Result<HeaderValue, Error>
    ensures { GivesFront (number_of w64 (λ n. Int64 (cast_signed w64 n))) rest.old rest.new result }
{
    Ok(HeaderValue::Int64(i64::from_be_bytes(take_chunk::<8>(rest)?)))
}

// A moment in whole milliseconds.
#[tactic(auto, unfolding(crate::specs::Read::number_of, crate::specs::Read::big_endian))]
fn take_timestamp(rest: &mut Bytes) -> Result<HeaderValue, Error>
    ensures { GivesFront (number_of w64 (λ n. Timestamp (at_ms (cast_signed w64 n)))) rest.old rest.new result }
{
    let millis = i64::from_be_bytes(take_chunk::<8>(rest)?);
    Ok(HeaderValue::Timestamp(DateTime::from_millis(millis)))
}

// The 128 bits of a UUID.
#[tactic(auto, unfolding(crate::specs::Read::number_of, crate::specs::Read::big_endian))]
fn take_uuid(rest: &mut Bytes) -> Result<HeaderValue, Error>
    ensures { GivesFront (number_of w128 (λ n. Uuid n)) rest.old rest.new result }
{
    Ok(HeaderValue::Uuid(u128::from_be_bytes(take_chunk::<16>(rest)?)))
}

// A byte array.
#[tactic(auto, unfolding(crate::specs::Read::array_of))]
fn take_array(rest: &mut Bytes) -> Result<HeaderValue, Error>
    ensures { GivesFront array_of rest.old rest.new result }
{
    Ok(HeaderValue::ByteArray(take_counted(rest)?))
}

// A UTF-8 text.
#[tactic(auto, unfolding(crate::specs::Read::text_value_of))]
fn take_text(rest: &mut Bytes) -> Result<HeaderValue, Error>
    ensures { GivesFront text_value_of rest.old rest.new result }
{
    match StrBytes::try_from_bytes(take_counted(rest)?) {
        Ok(text) => Ok(HeaderValue::String(text)),
        Err(_) => Err(Error::from(ErrorKind::InvalidUtf8String)),
    }
}

// Two bytes of length, and that many bytes.
#[tactic(auto, unfolding(crate::specs::Read::counted_of, crate::specs::Read::front_of, crate::specs::Read::big_endian))]
fn take_counted(rest: &mut Bytes) -> Result<Bytes, Error>
    ensures { GivesFront counted_of rest.old rest.new result }
{
    if rest.len() < 3 {
        return Err(Error::from(ErrorKind::InvalidHeaderValue));
    }
    let len = usize::from(u16::from_be_bytes(take_chunk::<2>(rest)?));
    take_front(rest, len)
}

// So many bytes of a value.
#[tactic(auto, unfolding(crate::specs::Read::front_of))]
fn take_front(rest: &mut Bytes, len: usize) -> Result<Bytes, Error>
    ensures { GivesFront (front_of len) rest.old rest.new result }
{
    if rest.len() < len {
        return Err(Error::from(ErrorKind::InvalidHeaderValue));
    }
    Ok(rest.split_to(len)?)
}

// The bytes of a number.
#[tactic(auto, unfolding(crate::specs::Read::front_of))]
fn take_chunk<const N: usize>(rest: &mut Bytes) -> Result<[u8; N], Error>
    ensures { GivesFront (front_of N) rest.old rest.new result }
{
    match rest.as_slice().split_first_chunk::<N>() {
        Some((chunk, _)) => {
            let chunk = *chunk;
            rest.advance(N);
            Ok(chunk)
        }
        None => Err(Error::from(ErrorKind::InvalidHeaderValue)),
    }
}
