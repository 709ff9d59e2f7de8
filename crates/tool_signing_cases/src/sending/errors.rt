//! Faults and errors, each by its name.
use crate::parts::{debugged, printed};
use event_io::{AdapterFault, MessageStreamError};
use eventstream::{Error, ErrorKind, SignMessageError};
use smithy_core::{ErrorMetadata, Mem, Moment, RawMessage, SdkError};
use std::alloc::{AllocError, Global};
use tool_case_lines::{halves, number, unknown};

/// What a fault prints, or what is made of it.
pub fn answer(alloc: Global, call: &str, word: &str, rest: &str) -> Mem<String> {
    match call {
        "AdapterFault" => printed(alloc, &fault_of(alloc, word, rest)?),
        "SdkError" => debugged(alloc, &sdk_error(fault_of(alloc, word, rest)?)),
        "SignMessageError" => printed(alloc, &sign_error_of(alloc, word)?),
        "SignMessageError from" if word == "AllocError" => {
            debugged(alloc, &SignMessageError::from(AllocError))
        }
        "SignMessageError from" => {
            debugged(alloc, &SignMessageError::from(error_of(alloc, word)?))
        }
        "MessageStreamError" => stream_error(alloc, &stream_error_of(alloc, word)?.try_clone()?),
        _ => unknown(alloc),
    }
}

fn sdk_error(fault: AdapterFault) -> SdkError<AdapterFault, AdapterFault, RawMessage> {
    SdkError::from(fault)
}

// What it prints, what it tells and what it was made of.
fn stream_error(alloc: Global, error: &MessageStreamError) -> Mem<String> {
    format!(in alloc; "{error} | {:?} | {:?}", error.meta(), error.source())
}

// The error of a name, of the code C and the message m.
fn stream_error_of(alloc: Global, name: &str) -> Mem<MessageStreamError> {
    let metadata = ErrorMetadata {
        code: Some(String::from_str(alloc, "C")?),
        message: Some(String::from_str(alloc, "m")?),
    };
    Ok(match name {
        "unhandled" => MessageStreamError::unhandled(metadata),
        _ => MessageStreamError::generic(metadata),
    })
}

/// The fault of a name, for the error of a word.
pub fn fault_of(alloc: Global, name: &str, rest: &str) -> Mem<AdapterFault> {
    Ok(match name {
        "Marshall" => AdapterFault::Marshall(error_of(alloc, rest)?),
        "Sign" => AdapterFault::Sign(sign_error_of(alloc, rest)?),
        _ => AdapterFault::Write(error_of(alloc, rest)?),
    })
}

/// The error of a signer that a word names.
pub fn sign_error_of(alloc: Global, word: &str) -> Mem<SignMessageError> {
    Ok(match halves(word) {
        ("FailedToEncodeMessage", rest) => {
            SignMessageError::FailedToEncodeMessage(error_of(alloc, rest)?)
        }
        ("UnsupportedIdentityType", _) => SignMessageError::UnsupportedIdentityType,
        ("MomentOutOfRange", secs) => {
            SignMessageError::MomentOutOfRange(Moment::new(number(secs), 0))
        }
        _ => SignMessageError::NoMemory,
    })
}

/// The error that a word names.
pub fn error_of(alloc: Global, word: &str) -> Mem<Error> {
    Ok(match halves(word) {
        ("Marshalling", text) => Error::marshalling(String::from_str(alloc, text)?),
        ("InvalidMessageLength", _) => Error::from(ErrorKind::InvalidMessageLength),
        ("HeaderValueTooLong", _) => Error::from(ErrorKind::HeaderValueTooLong),
        ("InvalidHeaderNameLength", _) => Error::from(ErrorKind::InvalidHeaderNameLength),
        _ => Error::from(AllocError),
    })
}
