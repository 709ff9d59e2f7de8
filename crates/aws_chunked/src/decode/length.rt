ghost use Rattle.std.specs.Prelude.{◌+◌, ◌*◌, ◌≤◌, ◌<◌};
ghost use Rattle.aws_chunked.specs.Reading.{ReadsFirstDigit, ReadsLength, ReadsDigit, AddsDigit};

use crate::decode::fault::{PartFault, bad_at};

// Reads a length of at most so many bytes: the length, and what stands behind its digits. They are hexadecimal, in upper case, and
// no zero stands before others.
pub(crate) fn read_length(bytes: &[u8], most: usize) -> Result<(usize, &[u8]), PartFault>
    requires { most ≤ 4294967295 }
    ensures { ReadsLength most bytes.now result }
{
    let (mut length, mut rest) = first_digit(bytes, most)?;
    while let Some((byte, others)) = rest.split_first() {
        let Some(digit) = digit_of(*byte) else {
            return Ok((length, rest));
        };
        let Some(longer) = with_digit(length, digit, most) else {
            return Err(bad_at(rest));
        };
        length = longer;
        rest = others;
    }
    Err(bad_at(rest))
}

// Reads the first digit of a length of at most so many bytes: its value, and what stands behind it.
fn first_digit(bytes: &[u8], most: usize) -> Result<(usize, &[u8]), PartFault>
    requires { most ≤ 4294967295 }
    ensures { ReadsFirstDigit most bytes.now result }
{
    let Some((byte, rest)) = bytes.split_first() else {
        return Err(bad_at(bytes));
    };
    match digit_of(*byte) {
        Some(digit) if digit <= most => Ok((digit, rest)),
        _ => Err(bad_at(bytes)),
    }
}

// A length with one digit more, where there may be one.
fn with_digit(length: usize, digit: usize, most: usize) -> Option<usize>
    requires { (length ≤ 4294967295) × (digit < 16) }
    ensures { AddsDigit length digit most result }
{
    let longer = length * 16 + digit;
    if length > 0 && longer <= most {
        Some(longer)
    } else {
        None
    }
}

// The value of a hexadecimal digit in upper case.
fn digit_of(byte: u8) -> Option<usize>
    ensures { ReadsDigit byte result }
{
    match byte {
        b'0'..=b'9' => Some((byte - b'0') as usize),
        b'A'..=b'F' => Some((byte - b'A') as usize + 10),
        _ => None,
    }
}
