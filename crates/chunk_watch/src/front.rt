//! What bytes begin with.
ghost use Rattle.std.specs.Prelude.{◌≡◌, ◌≤◌, ◌+◌, ◌^◌, ◌<◌, length, option_copied};
ghost use Rattle.std.specs.Char.{digit_value};
ghost use Rattle.std.specs.List.{prefix_len};
ghost use Rattle.std.specs.Str.Parse.{AllDigits, digits_value};
ghost use Rattle.chunk_watch.specs.Front.{front_begun, begun_behind, is_hex_digit, line_signature};
ghost use Rattle.chunk_watch.specs.FrontTold.{told_begun};

use crate::fault::ChunkFault;

// How many digits a length has at most.
const MOST_DIGITS: usize = 8;

// How many bytes a line has behind its length.
const LINE_END: usize = 83;

// What stands before a signature, and how many bytes that has.
const MARK: &[u8; 17] = b";chunk-signature=";

const SIGNATURE: usize = 64;

/// What bytes begin with.
#[derive(Clone, Copy)]
pub(crate) enum Front<'a> {
    /// The first chunk isn't there whole yet.
    Short,
    /// They begin no chunk.
    Bad(ChunkFault),
    /// A chunk of data: its signature, its data, and the length of the whole.
    Chunk(&'a [u8], &'a [u8], usize),
    /// The line of the empty chunk: its signature, and the length of the line.
    Empty(&'a [u8], usize),
}

/// What bytes begin with at this place, where a chunk has at most so many bytes of data.
#[tactic(auto, using(crate::proofs::DigitLemmas::few_digits, crate::proofs::DigitLemmas::first_digits), unfolding(crate::specs::Front::front_begun))]
pub(crate) fn front_of(most: usize, place: u64, bytes: &[u8]) -> Front<'_>
    requires { most ≤ 4294967295 }
    ensures { told_begun result ≡ front_begun most place bytes.now }
{
    let digits = count_digits(bytes);
    if digits > MOST_DIGITS {
        return Front::Bad(ChunkFault::BadLine(place));
    }
    let (number, rest) = bytes.split_at(digits);
    if rest.len() < LINE_END {
        return Front::Short;
    }
    if digits == 0 {
        return Front::Bad(ChunkFault::BadLine(place));
    }
    let (line, behind) = rest.split_at(LINE_END);
    let Some(signature) = line_signature(line) else {
        return Front::Bad(ChunkFault::BadLine(place));
    };
    let size = length_of(number);
    front_behind(most, place, size, digits + LINE_END, behind, signature)
}

// The chunk of this length at this place, whose line has this length and this signature, before these bytes.
fn front_behind<'a>(
    most: usize,
    place: u64,
    size: usize,
    line_len: usize,
    bytes: &'a [u8],
    signature: &'a [u8],
) -> Front<'a>
    requires low { most ≤ 4294967295 }
    requires small { line_len ≤ 91 }
    ensures { told_begun result ≡ begun_behind most place size line_len bytes.now signature.now }
{
    if size > most {
        return Front::Bad(ChunkFault::LongChunk(place));
    }
    if size == 0 {
        return Front::Empty(signature, line_len);
    }
    if bytes.len() < size + 2 {
        return Front::Short;
    }
    let (data, rest) = bytes.split_at(size);
    let (end, _) = rest.split_at(2);
    if end == b"\r\n".as_slice() {
        Front::Chunk(signature, data, line_len + size + 2)
    } else {
        Front::Bad(ChunkFault::BadEnd(place))
    }
}

// How many hexadecimal digits stand first.
#[tactic(auto, using(crate::proofs::DigitLemmas::next_count))]
fn count_digits(bytes: &[u8]) -> usize
    ensures { result ≡ prefix_len is_hex_digit bytes.now }
{
    let mut count = 0;
    for byte in bytes {
        if !is_hex_digit(*byte) {
            return count;
        }
        count += 1;
    }
    count
}

// Whether a byte is a hexadecimal digit, in either case.
fn is_hex_digit(byte: u8) -> bool
    ensures { result ≡ is_hex_digit byte }
{
    (byte as char).is_digit(16)
}

// The signature of a line, of the bytes behind its length.
fn line_signature(line: &[u8]) -> Option<&[u8]>
    requires { length line.now ≡ 83 }
    ensures { option_copied result ≡ line_signature line.now }
{
    let (mark, rest) = line.split_at(MARK.len());
    let (signature, end) = rest.split_at(SIGNATURE);
    if mark == MARK.as_slice() && end == b"\r\n".as_slice() {
        Some(signature)
    } else {
        None
    }
}

// The number that hexadecimal digits write.
#[tactic(auto, using(crate::proofs::DigitLemmas::digits_low, crate::proofs::DigitLemmas::digit_more, crate::proofs::DigitLemmas::next_digit, crate::proofs::DigitLemmas::next_value))]
fn length_of(digits: &[u8]) -> usize
    requires few { length digits.now ≤ 8 }
    requires digits { AllDigits 16 digits.now }
    ensures value { result ≡ digits_value 16 digits.now }
    ensures small { result < 2 ^ 32 }
{
    let mut number = 0usize;
    for byte in digits {
        number = number * 16 + digit_value(*byte);
    }
    number
}

// The value of a hexadecimal digit.
fn digit_value(byte: u8) -> usize
    requires { digit_value byte < 16 }
    ensures { result ≡ digit_value byte }
{
    match (byte as char).to_digit(16) {
        Some(digit) => digit as usize,
        None => unreachable!(),
    }
}
