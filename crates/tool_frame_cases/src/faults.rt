use crate::words::moment_of;
use eventstream::{Error, ErrorKind};
use smithy_core::Mem;
use std::alloc::{AllocError, Global};
use tool_case_lines::halves;

// The kind of a copy of the error of a copy of this kind, its text, and whether the message itself is at fault.
pub fn answer(alloc: Global, word: &str) -> Mem<String> {
    let (name, rest) = halves(word);
    let copy = error_of(alloc, name, rest)?.try_clone()?;
    let invalid = copy.is_invalid_message();
    format!(in alloc; "{:?} | {copy} | {invalid}", copy.kind())
}

fn error_of(alloc: Global, name: &str, rest: &str) -> Mem<Error> {
    Ok(match name {
        "marshalling" => Error::marshalling(String::from_str(alloc, rest)?),
        "unmarshalling" => Error::unmarshalling(String::from_str(alloc, rest)?),
        "AllocError" => Error::from(AllocError),
        _ => Error::from(kind_of(alloc, name, rest)?.try_clone()?),
    })
}

fn kind_of(alloc: Global, name: &str, word: &str) -> Mem<ErrorKind> {
    Ok(match name {
        "HeadersTooLong" => ErrorKind::HeadersTooLong,
        "HeaderValueTooLong" => ErrorKind::HeaderValueTooLong,
        "InvalidHeaderNameLength" => ErrorKind::InvalidHeaderNameLength,
        "InvalidHeaderValue" => ErrorKind::InvalidHeaderValue,
        "InvalidHeadersLength" => ErrorKind::InvalidHeadersLength,
        "InvalidMessageLength" => ErrorKind::InvalidMessageLength,
        "InvalidUtf8String" => ErrorKind::InvalidUtf8String,
        "MessageTooLong" => ErrorKind::MessageTooLong,
        "PayloadTooLong" => ErrorKind::PayloadTooLong,
        "NoMemory" => ErrorKind::NoMemory,
        _ => kind_with(alloc, name, word)?,
    })
}

// The kinds that say more.
fn kind_with(alloc: Global, name: &str, word: &str) -> Mem<ErrorKind> {
    let (computed, carried) = halves(word);
    let (computed, carried) = (checksum_of(computed), checksum_of(carried));
    Ok(match name {
        "InvalidHeaderValueType" => ErrorKind::InvalidHeaderValueType(word.parse().unwrap_or(0)),
        "MessageChecksumMismatch" => ErrorKind::MessageChecksumMismatch(computed, carried),
        "PreludeChecksumMismatch" => ErrorKind::PreludeChecksumMismatch(computed, carried),
        "TimestampValueTooLarge" => ErrorKind::TimestampValueTooLarge(moment_of(word)),
        "Marshalling" => ErrorKind::Marshalling(String::from_str(alloc, word)?),
        _ => ErrorKind::Unmarshalling(String::from_str(alloc, word)?),
    })
}

fn checksum_of(word: &str) -> u32 {
    u32::from_str_radix(word, 16).unwrap_or(0)
}
