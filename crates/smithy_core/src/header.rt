ghost use Rattle.std.specs.Prelude.{◌≡◌, IfOk, MatchResult, Some, None};
ghost use Rattle.smithy_core.specs.HeaderValue.{bool_of, byte_array_of, byte_of, instant_of, int16_of, int32_of, int64_of, string_of, uuid_bits_of};

use crate::memory::Mem;
use crate::moment::DateTime;
use crate::str_bytes::StrBytes;
use bytes::Bytes;
use std::fmt;
use std::marker::Model;

/// The value of a [`Header`]: one of the nine kinds of the event stream encoding.
///
/// [`Debug`](std::fmt::Debug) prints the value, its bytes or its text too, as the SDK's type does: a header says what a
/// message is. That of a [`Message`](crate::Message) prints none.
#[derive(Debug, Drop)]
pub enum HeaderValue {
    /// True or false.
    Bool(bool),
    /// A whole number of 8 bits.
    Byte(i8),
    /// A whole number of 16 bits.
    Int16(i16),
    /// A whole number of 32 bits.
    Int32(i32),
    /// A whole number of 64 bits.
    Int64(i64),
    /// Bytes.
    ByteArray(Bytes),
    /// UTF-8 text.
    String(StrBytes),
    /// A moment, which a frame carries in whole milliseconds.
    Timestamp(DateTime),
    /// The 128 bits of a UUID (RFC 9562), the highest first.
    Uuid(u128),
}

impl HeaderValue {
    /// The text of a [`HeaderValue::String`].
    ///
    /// # Errors
    ///
    /// The value itself, where it is of another kind.
    pub fn as_string(&self) -> Result<&StrBytes, &HeaderValue>
        ensures { MatchResult result (λ text. string_of self.now ≡ Some text.now) (λ value. (string_of self.now ≡ None) × (value.now ≡ self.now)) }
    {
        match self {
            HeaderValue::String(text) => Ok(text),
            _ => Err(self),
        }
    }

    /// The Boolean of a [`HeaderValue::Bool`].
    ///
    /// # Errors
    ///
    /// The value itself, where it is of another kind.
    pub fn as_bool(&self) -> Result<bool, &HeaderValue>
        ensures { MatchResult result (λ value. bool_of self.now ≡ Some value) (λ value. (bool_of self.now ≡ None) × (value.now ≡ self.now)) }
    {
        match self {
            HeaderValue::Bool(value) => Ok(*value),
            _ => Err(self),
        }
    }

    /// The number of a [`HeaderValue::Byte`].
    ///
    /// # Errors
    ///
    /// The value itself, where it is of another kind.
    pub fn as_byte(&self) -> Result<i8, &HeaderValue>
        ensures { MatchResult result (λ value. byte_of self.now ≡ Some value) (λ value. (byte_of self.now ≡ None) × (value.now ≡ self.now)) }
    {
        match self {
            HeaderValue::Byte(value) => Ok(*value),
            _ => Err(self),
        }
    }

    /// The number of a [`HeaderValue::Int16`].
    ///
    /// # Errors
    ///
    /// The value itself, where it is of another kind.
    pub fn as_int16(&self) -> Result<i16, &HeaderValue>
        ensures { MatchResult result (λ value. int16_of self.now ≡ Some value) (λ value. (int16_of self.now ≡ None) × (value.now ≡ self.now)) }
    {
        match self {
            HeaderValue::Int16(value) => Ok(*value),
            _ => Err(self),
        }
    }

    /// The number of a [`HeaderValue::Int32`].
    ///
    /// # Errors
    ///
    /// The value itself, where it is of another kind.
    pub fn as_int32(&self) -> Result<i32, &HeaderValue>
        ensures { MatchResult result (λ value. int32_of self.now ≡ Some value) (λ value. (int32_of self.now ≡ None) × (value.now ≡ self.now)) }
    {
        match self {
            HeaderValue::Int32(value) => Ok(*value),
            _ => Err(self),
        }
    }

    /// The number of a [`HeaderValue::Int64`].
    ///
    /// # Errors
    ///
    /// The value itself, where it is of another kind.
    pub fn as_int64(&self) -> Result<i64, &HeaderValue>
        ensures { MatchResult result (λ value. int64_of self.now ≡ Some value) (λ value. (int64_of self.now ≡ None) × (value.now ≡ self.now)) }
    {
        match self {
            HeaderValue::Int64(value) => Ok(*value),
            _ => Err(self),
        }
    }

    /// The bytes of a [`HeaderValue::ByteArray`].
    ///
    /// # Errors
    ///
    /// The value itself, where it is of another kind.
    pub fn as_byte_array(&self) -> Result<&Bytes, &HeaderValue>
        ensures { MatchResult result (λ value. byte_array_of self.now ≡ Some value.now) (λ value. (byte_array_of self.now ≡ None) × (value.now ≡ self.now)) }
    {
        match self {
            HeaderValue::ByteArray(value) => Ok(value),
            _ => Err(self),
        }
    }

    /// The moment of a [`HeaderValue::Timestamp`].
    ///
    /// # Errors
    ///
    /// The value itself, where it is of another kind.
    pub fn as_timestamp(&self) -> Result<DateTime, &HeaderValue>
        ensures { MatchResult result (λ value. instant_of self.now ≡ Some value) (λ value. (instant_of self.now ≡ None) × (value.now ≡ self.now)) }
    {
        match self {
            HeaderValue::Timestamp(value) => Ok(*value),
            _ => Err(self),
        }
    }

    /// The bits of a [`HeaderValue::Uuid`].
    ///
    /// # Errors
    ///
    /// The value itself, where it is of another kind.
    pub fn as_uuid(&self) -> Result<u128, &HeaderValue>
        ensures { MatchResult result (λ value. uuid_bits_of self.now ≡ Some value) (λ value. (uuid_bits_of self.now ≡ None) × (value.now ≡ self.now)) }
    {
        match self {
            HeaderValue::Uuid(value) => Ok(*value),
            _ => Err(self),
        }
    }

    /// An equal value.
    pub fn try_clone(&self) -> Mem<HeaderValue>
        ensures { IfOk result (λ copy. copy ≡ self.now) }
    {
        Ok(match self {
            HeaderValue::Bool(value) => HeaderValue::Bool(*value),
            HeaderValue::Byte(value) => HeaderValue::Byte(*value),
            HeaderValue::Int16(value) => HeaderValue::Int16(*value),
            HeaderValue::Int32(value) => HeaderValue::Int32(*value),
            HeaderValue::Int64(value) => HeaderValue::Int64(*value),
            HeaderValue::ByteArray(value) => HeaderValue::ByteArray(value.clone()?),
            HeaderValue::String(value) => HeaderValue::String(value.try_clone()?),
            HeaderValue::Timestamp(value) => HeaderValue::Timestamp(*value),
            HeaderValue::Uuid(value) => HeaderValue::Uuid(*value),
        })
    }
}

impl From<&'static str> for HeaderValue {
    ghost use Rattle.std.specs.Prelude.{◌≡◌};
    ghost use Rattle.smithy_core.specs.declared.header.HeaderValue.TheVariants as value;

    ghost from_gives = { λ text result. result ≡ value.String text.now };

    fn from(text: &'static str) -> HeaderValue {
        HeaderValue::String(StrBytes::from_static(text))
    }
}

/// Prints true or false, a number in decimal, bytes as lower-case hexadecimal digits, a text as it is, and a moment as its
/// seconds, one space and its nanoseconds.
impl fmt::Display for HeaderValue {
    ghost use Rattle.smithy_core.specs.HeaderValue.{value_text};

    ghost output = { value_text };

    fn fmt<W: fmt::Write>(&self, f: &mut fmt::Formatter<W>) -> fmt::Result {
        match self {
            HeaderValue::Bool(value) => write!(f, "{value}"),
            HeaderValue::Byte(value) => write!(f, "{value}"),
            HeaderValue::Int16(value) => write!(f, "{value}"),
            HeaderValue::Int32(value) => write!(f, "{value}"),
            HeaderValue::Int64(value) => write!(f, "{value}"),
            HeaderValue::ByteArray(value) => fmt::LowerHex::fmt(value, f),
            HeaderValue::String(value) => f.write_str(value.as_str()),
            HeaderValue::Timestamp(value) => {
                let (secs, nanos) = (value.secs(), value.subsec_nanos());
                write!(f, "{secs} {nanos}")
            }
            HeaderValue::Uuid(value) => write!(f, "{value}"),
        }
    }
}

/// A header of a [`Message`](crate::Message): a name and a value. [`Debug`](std::fmt::Debug) prints both, as the SDK's type
/// does.
///
/// Contracts see it as its name and its value.
#[derive(Debug)]
pub struct Header {
    name: StrBytes,
    value: HeaderValue,
}

// Written out: a derived drop would be taken apart in the proof of each function that drops one.
impl Drop for Header {
    fn drop(self) {
        let Header { name, value } = self;
        drop(name);
        drop(value);
    }
}

impl Model for Header {
    ghost use Rattle.smithy_core.specs.Header.{Header as NameAndValue};

    ghost Value = { NameAndValue };

    ghost view = { λ header. record { name = header.name; value = header.value } };
}

impl Header {
    /// The header of this name and value.
    pub fn new(name: StrBytes, value: HeaderValue) -> Header
        ensures { result ≡ record { name = name; value = value } }
    {
        Header { name, value }
    }

    /// Its name.
    pub fn name(&self) -> &StrBytes
        ensures { result.now ≡ self.now.name }
    {
        &self.name
    }

    /// Its value.
    pub fn value(&self) -> &HeaderValue
        ensures { result.now ≡ self.now.value }
    {
        &self.value
    }

    /// An equal header.
    pub fn try_clone(&self) -> Mem<Header>
        ensures { IfOk result (λ copy. copy ≡ self.now) }
    {
        Ok(Header {
            name: self.name.try_clone()?,
            value: self.value.try_clone()?,
        })
    }
}
