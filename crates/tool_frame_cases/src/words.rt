use bytes::Bytes;
use smithy_core::{DateTime, Header, HeaderValue, Mem, Message, StrBytes};
use std::alloc::Global;
use tool_case_lines::{bytes_of_hex, halves, number, with_repeats};

// The word at a place, and no text past the last one.
pub fn word<'a>(words: &[&'a str], place: usize) -> &'a str {
    match words.get(place) {
        Some(word) => *word,
        None => "",
    }
}

// The words from a place on.
pub fn words_from<'a>(words: &'a [&'a str], place: usize) -> &'a [&'a str] {
    words.get(place..).unwrap_or(&[])
}

// The words before the last one, and that one.
pub fn parted<'a>(words: &'a [&'a str]) -> (&'a [&'a str], &'a str) {
    match words.split_last() {
        Some((last, front)) => (front, *last),
        None => (words, ""),
    }
}

// The bytes of the pieces between `+`.
pub fn bytes_of(alloc: Global, word: &str) -> Mem<Vec<u8>> {
    let mut bytes = Vec::new(alloc);
    for piece in word.split('+') {
        push_copies(&mut bytes, piece)?;
    }
    Ok(bytes)
}

fn push_copies(bytes: &mut Vec<u8>, word: &str) -> Mem<()> {
    let (piece, times) = copies_of(word);
    let piece = piece_of(*bytes.allocator(), piece)?;
    for _ in 0..times {
        bytes.extend_from_slice(piece.as_slice())?;
    }
    Ok(())
}

// The bytes of a text in double quotes, or of hexadecimal digits.
fn piece_of(alloc: Global, word: &str) -> Mem<Vec<u8>> {
    if let Some(text) = word.strip_prefix('"') {
        let text = text.strip_suffix('"').unwrap_or(text);
        return Vec::from_slice(alloc, text.as_bytes());
    }
    bytes_of_hex(alloc, word)
}

// The piece and the number of `{N PIECE}`, or else the word once.
fn copies_of(word: &str) -> (&str, usize) {
    match word.strip_prefix('{') {
        Some(repeat) => {
            let (times, piece) = halves(repeat.strip_suffix('}').unwrap_or(repeat));
            (piece, times.parse().unwrap_or(0))
        }
        None => (word, 1),
    }
}

pub fn shared(alloc: Global, word: &str) -> Mem<Bytes> {
    Ok(Bytes::from_vec(bytes_of(alloc, word)?)?)
}

fn shared_text(alloc: Global, word: &str) -> Mem<StrBytes> {
    StrBytes::copy_from_str(alloc, word)
}

pub fn moment_of(word: &str) -> DateTime {
    let (secs, nanos) = halves(word);
    let nanos: u32 = nanos.parse().unwrap_or(0);
    DateTime::new(number(secs), nanos.min(999_999_999))
}

pub fn size_of(word: &str) -> usize {
    word.parse().unwrap_or(0)
}

// The numbers among the parts between spaces.
pub fn numbers_of(alloc: Global, word: &str) -> Mem<Vec<u64>> {
    let mut numbers = Vec::new(alloc);
    for part in word.split(' ') {
        if let Ok(n) = part.parse() {
            numbers.push(n)?;
        }
    }
    Ok(numbers)
}

pub fn header_of(alloc: Global, word: &str) -> Mem<Header> {
    let word = with_repeats(alloc, word)?;
    header_in(alloc, word.as_str())
}

fn header_in(alloc: Global, word: &str) -> Mem<Header> {
    let (name, value) = halves(word);
    let name = shared_text(alloc, name)?;
    let (kind, value) = halves(value);
    Ok(Header::new(name, value_of(alloc, kind, value)?))
}

fn value_of(alloc: Global, kind: &str, word: &str) -> Mem<HeaderValue> {
    match kind {
        "bytes" => Ok(HeaderValue::ByteArray(shared(alloc, word)?)),
        "text" => Ok(HeaderValue::String(shared_text(alloc, word)?)),
        _ => Ok(plain_value_of(kind, word)),
    }
}

fn plain_value_of(kind: &str, word: &str) -> HeaderValue {
    match kind {
        "bool" => HeaderValue::Bool(word == "true"),
        "i8" => HeaderValue::Byte(word.parse().unwrap_or(0)),
        "i16" => HeaderValue::Int16(word.parse().unwrap_or(0)),
        "i32" => HeaderValue::Int32(word.parse().unwrap_or(0)),
        "i64" => HeaderValue::Int64(number(word)),
        "time" => HeaderValue::Timestamp(moment_of(word)),
        _ => HeaderValue::Uuid(u128::from_str_radix(word, 16).unwrap_or(0)),
    }
}

pub fn headers_of(alloc: Global, words: &[&str]) -> Mem<Vec<Header>> {
    let mut headers = Vec::new(alloc);
    for word in words {
        headers.push(header_of(alloc, word)?)?;
    }
    Ok(headers)
}

// The message of the words of its headers and then the bytes of its payload.
pub fn message_of(alloc: Global, words: &[&str]) -> Mem<Message> {
    let (headers, payload) = parted(words);
    let payload = shared(alloc, payload)?;
    Ok(Message::new_from_parts(headers_of(alloc, headers)?, payload))
}

pub fn unless_empty(alloc: Global, text: &str) -> Mem<Option<String>> {
    if text.is_empty() {
        return Ok(None);
    }
    Ok(Some(String::from_str(alloc, text)?))
}
