ghost use Rattle.std.specs.Prelude.{codes, string_bytes};
ghost use Rattle.smithy_core.specs.HeaderValue.{bool_of, byte_of, byte_array_of, instant_of, int16_of, int32_of, int64_of, string_of};
ghost use Rattle.eventstream.specs.Expect.{expected};
ghost use Rattle.eventstream.specs.Texts.{Answers, AnswersAtOnce, Tells, unexpected_text};

use crate::error::Error;
use crate::texts::{refusal, unexpected_text};
use smithy_core::{Blob, DateTime, Header, HeaderValue};
use std::alloc::Global;

/// The value of a header that has to be true or false.
///
/// # Errors
///
/// [`ErrorKind::Unmarshalling`](crate::ErrorKind::Unmarshalling) exactly where it is of another kind.
pub fn expect_bool(alloc: Global, header: &Header) -> Result<bool, Error>
    ensures { AnswersAtOnce (λ b. b) (expected bool_of (codes "Bool") header.now) result }
{
    match header.value() {
        HeaderValue::Bool(value) => Ok(*value),
        _ => Err(unexpected(alloc, header, "Bool")),
    }
}

/// The value of a header that has to be a whole number of 8 bits.
///
/// # Errors
///
/// [`ErrorKind::Unmarshalling`](crate::ErrorKind::Unmarshalling) exactly where it is of another kind.
pub fn expect_byte(alloc: Global, header: &Header) -> Result<i8, Error>
    ensures { AnswersAtOnce (λ n. n) (expected byte_of (codes "Byte") header.now) result }
{
    match header.value() {
        HeaderValue::Byte(value) => Ok(*value),
        _ => Err(unexpected(alloc, header, "Byte")),
    }
}

/// The value of a header that has to be a whole number of 16 bits.
///
/// # Errors
///
/// [`ErrorKind::Unmarshalling`](crate::ErrorKind::Unmarshalling) exactly where it is of another kind.
pub fn expect_int16(alloc: Global, header: &Header) -> Result<i16, Error>
    ensures { AnswersAtOnce (λ n. n) (expected int16_of (codes "Int16") header.now) result }
{
    match header.value() {
        HeaderValue::Int16(value) => Ok(*value),
        _ => Err(unexpected(alloc, header, "Int16")),
    }
}

/// The value of a header that has to be a whole number of 32 bits.
///
/// # Errors
///
/// [`ErrorKind::Unmarshalling`](crate::ErrorKind::Unmarshalling) exactly where it is of another kind.
pub fn expect_int32(alloc: Global, header: &Header) -> Result<i32, Error>
    ensures { AnswersAtOnce (λ n. n) (expected int32_of (codes "Int32") header.now) result }
{
    match header.value() {
        HeaderValue::Int32(value) => Ok(*value),
        _ => Err(unexpected(alloc, header, "Int32")),
    }
}

/// The value of a header that has to be a whole number of 64 bits.
///
/// # Errors
///
/// [`ErrorKind::Unmarshalling`](crate::ErrorKind::Unmarshalling) exactly where it is of another kind.
pub fn expect_int64(alloc: Global, header: &Header) -> Result<i64, Error>
    ensures { AnswersAtOnce (λ n. n) (expected int64_of (codes "Int64") header.now) result }
{
    match header.value() {
        HeaderValue::Int64(value) => Ok(*value),
        _ => Err(unexpected(alloc, header, "Int64")),
    }
}

/// The value of a header that has to be bytes.
///
/// # Errors
///
/// [`ErrorKind::Unmarshalling`](crate::ErrorKind::Unmarshalling) exactly where it is of another kind.
pub fn expect_byte_array(alloc: Global, header: &Header) -> Result<Blob, Error>
    ensures { Answers (λ bytes. bytes) (expected byte_array_of (codes "ByteArray") header.now) result }
{
    match header.value() {
        HeaderValue::ByteArray(value) => Ok(Blob::new(value.clone()?)),
        _ => Err(unexpected(alloc, header, "ByteArray")),
    }
}

/// The value of a header that has to be text.
///
/// # Errors
///
/// [`ErrorKind::Unmarshalling`](crate::ErrorKind::Unmarshalling) exactly where it is of another kind.
pub fn expect_string(alloc: Global, header: &Header) -> Result<String, Error>
    ensures { Answers string_bytes (expected string_of (codes "String") header.now) result }
{
    match header.value() {
        HeaderValue::String(value) => Ok(String::from_str(alloc, value.as_str())?),
        _ => Err(unexpected(alloc, header, "String")),
    }
}

/// The value of a header that has to be a moment.
///
/// # Errors
///
/// [`ErrorKind::Unmarshalling`](crate::ErrorKind::Unmarshalling) exactly where it is of another kind.
pub fn expect_timestamp(alloc: Global, header: &Header) -> Result<DateTime, Error>
    ensures { AnswersAtOnce (λ t. t) (expected instant_of (codes "Timestamp") header.now) result }
{
    match header.value() {
        HeaderValue::Timestamp(value) => Ok(*value),
        _ => Err(unexpected(alloc, header, "Timestamp")),
    }
}

// Why a header with a value of another kind is refused.
fn unexpected(alloc: Global, header: &Header, kind: &str) -> Error
    ensures { Tells (unexpected_text header.now.name kind.now) result.kind }
{
    refusal(unexpected_text(alloc, header.name().as_str(), kind))
}
