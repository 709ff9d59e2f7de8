//! What a word may be.
//!
//! - `<text>`: any text;
//! - `<word>`: a text without a space, one character at least; `<plain>`: one that doesn't begin with `@`;
//! - `<number>`: a whole number of 64 bits in decimal digits, with a sign or without; `<numbers>`: none of them, or some
//!   with a space between each two;
//! - `<hex>`: pairs of hexadecimal digits;
//! - `<bytes>`: pieces between `+`, each pairs of hexadecimal digits, or a text in double quotes.

/// Whether a part of a word is of the kind whose name, with the bracket that ends it, is given.
pub fn is_of_kind(kind: &str, part: &str) -> bool {
    match kind {
        "text>" => true,
        "word>" => !part.is_empty() && !part.contains(' '),
        "plain>" => !part.starts_with('@'),
        "number>" => is_number(part),
        "numbers>" => are_numbers(part),
        "hex>" => are_digits(part),
        "bytes>" => are_bytes(part),
        _ => false,
    }
}

// Whether a part is a whole number of 64 bits.
fn is_number(part: &str) -> bool {
    let signed: Result<i64, _> = part.parse();
    let unsigned: Result<u64, _> = part.parse();
    signed.is_ok() || unsigned.is_ok()
}

fn are_numbers(part: &str) -> bool {
    for number in part.split(' ') {
        if !is_number(number) {
            return part.is_empty();
        }
    }
    true
}

// Whether a part is pairs of hexadecimal digits.
fn are_digits(part: &str) -> bool {
    for byte in part.as_bytes() {
        if !byte.is_ascii_hexdigit() {
            return false;
        }
    }
    part.len() % 2 == 0
}

fn are_bytes(part: &str) -> bool {
    for piece in part.split('+') {
        if !are_digits(piece) && !is_quoted(piece) {
            return false;
        }
    }
    true
}

// Whether a text stands in double quotes.
fn is_quoted(piece: &str) -> bool {
    match piece.strip_prefix('"') {
        Some(text) => text.ends_with('"'),
        None => false,
    }
}
