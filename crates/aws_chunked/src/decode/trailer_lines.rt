ghost use Rattle.std.specs.Prelude.{◌≡◌, ℕ, ◌<◌, ◌≤◌, IsTrue, drop, false, length, slice_index};
ghost use Rattle.std.specs.Int.{is_in_range};
ghost use Rattle.std.specs.Str.{IsErrorLen, IsValidUpTo, error_len, valid_up_to};
ghost use Rattle.std.specs.Str.Lossy.{utf8_error_len};
ghost use Rattle.http_header.specs.Token.{is_value_byte};
ghost use Rattle.aws_chunked.specs.TailRests.{IsLongestFront, ReadsLine, ReadsLines, ReadsName, ReadsValue, is_name_byte};

use crate::decode::expecting::{begins_with, expect};
use crate::decode::fault::{PartFault, bad_at};
use crate::text::CRLF;
use http_header::is_token_char;
use std::alloc::Global;
use std::str;
use std::str::Utf8Error;

// The most bytes of a trailer's name.
const MOST_TRAILER_NAME: usize = 65_535;

// Reads the lines of trailers up to one that begins with a CR: the trailers, and that line and what stands behind it.
pub(crate) fn read_lines<'a>(
    alloc: Global,
    bytes: &'a [u8],
) -> Result<(Vec<(&'a str, &'a str)>, &'a [u8]), PartFault>
    ensures { ReadsLines bytes.now result }
{
    let mut lines = Vec::new(alloc);
    let mut rest = bytes;
    while !begins_with(rest, b'\r') {
        let (line, behind) = read_line(rest)?;
        lines.push(line)?;
        rest = behind;
    }
    Ok((lines, rest))
}

// Reads a trailer's line: its name and value, and what stands behind it.
fn read_line(bytes: &[u8]) -> Result<((&str, &str), &[u8]), PartFault>
    ensures { ReadsLine bytes.now result }
{
    let (name, rest) = read_name(bytes)?;
    let (value, rest) = read_value(rest)?;
    let rest = expect(rest, CRLF)?;
    Ok(((name, value), rest))
}

// Reads a trailer's name and the colon behind it: the name, and what stands behind the colon.
fn read_name(bytes: &[u8]) -> Result<(&str, &[u8]), PartFault>
    ensures { ReadsName bytes.now result }
{
    let (name, rest) = bytes.split_at(name_length(bytes));
    if name.is_empty() {
        return Err(bad_at(rest));
    }
    let Ok(name) = str::from_utf8(name) else {
        return Err(bad_at(rest));
    };
    let rest = expect(rest, b":")?;
    Ok((name, rest))
}

// How many of the first bytes may stand in a name.
fn name_length(bytes: &[u8]) -> usize
    ensures most { result ≤ 65535 }
    ensures there { result ≤ length bytes.now }
    ensures all { (k : ℕ) → k < result → IsTrue (is_name_byte (slice_index bytes.now k)) }
    ensures ends { result < 65535 → result < length bytes.now → is_name_byte (slice_index bytes.now result) ≡ false }
{
    let mut length = 0;
    while length < MOST_TRAILER_NAME && length < bytes.len() && is_name_byte(bytes[length]) {
        length += 1;
    }
    length
}

// Whether the byte may stand in a name in lower case.
fn is_name_byte(byte: u8) -> bool
    ensures { result ≡ is_name_byte byte }
{
    is_token_char(byte) && !matches!(byte, b'A'..=b'Z')
}

// Reads a trailer's value, which goes as far as bytes may stand in one: the value, and what stands behind it.
fn read_value(bytes: &[u8]) -> Result<(&str, &[u8]), PartFault>
    ensures { ReadsValue bytes.now result }
{
    let (value, rest) = bytes.split_at(value_length(bytes));
    match str::from_utf8(value) {
        Ok(value) => Ok((value, rest)),
        Err(error) => Err(bad_at(&bytes[sound_length(value, &error)..])),
    }
}

// How many of the first bytes may stand in a value.
fn value_length(bytes: &[u8]) -> usize
    ensures there { result ≤ length bytes.now }
    ensures all { (k : ℕ) → k < result → IsTrue (is_value_byte (slice_index bytes.now k)) }
    ensures ends { result < length bytes.now → is_value_byte (slice_index bytes.now result) ≡ false }
{
    let mut length = 0;
    while length < bytes.len() && is_value_byte(bytes[length]) {
        length += 1;
    }
    length
}

// Whether the byte may stand in a value.
fn is_value_byte(byte: u8) -> bool
    ensures { result ≡ is_value_byte byte }
{
    byte == b'\t' || (byte >= b' ' && byte != 127)
}

// How many of the first bytes begin a text: whole characters, and the part of one that goes on behind them.
fn sound_length(value: &[u8], error: &Utf8Error) -> usize
    requires front { IsValidUpTo value.now (valid_up_to error.now) }
    requires part { IsErrorLen value.now (valid_up_to error.now) (error_len error.now) }
    requires fault { error_len error.now ≡ utf8_error_len (drop (valid_up_to error.now) value.now) }
    ensures { IsLongestFront value.now result }
{
    let whole = error.valid_up_to();
    if !begins_char(value[whole]) {
        return whole;
    }
    match error.error_len() {
        Some(part) => whole + part,
        None => value.len(),
    }
}

// Whether a character of more than one byte may begin with the byte.
fn begins_char(byte: u8) -> bool
    ensures { result ≡ is_in_range 194 244 byte }
{
    matches!(byte, 0xC2..=0xF4)
}
