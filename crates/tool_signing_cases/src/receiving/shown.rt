//! What answers show.
use crate::parts::{copy_shown, debugged, framed};
use bytes::Bytes;
use event_io::{Drained, InitialMessageType, Received, ReceiverError, ResponseFault, Tried};
use eventstream::{Error, ErrorKind};
use smithy_core::{Mem, Message, RawMessage, SdkError};
use std::alloc::Global;
use std::fmt;

/// An event that tells what it is.
pub trait Shown {
    fn shown(&self, alloc: Global) -> Mem<String>;
}

impl Shown for String {
    fn shown(&self, alloc: Global) -> Mem<String> {
        debugged(alloc, self)
    }
}

impl Shown for Message {
    fn shown(&self, alloc: Global) -> Mem<String> {
        framed(alloc, self)
    }
}

/// The event, or the name of the answer.
pub fn received<T: Shown + fmt::Debug, E: fmt::Debug>(
    alloc: Global,
    answer: &Result<Received<T>, SdkError<E, ResponseFault, RawMessage>>,
) -> Mem<String> {
    match answer {
        Ok(Received::Event(event)) => event.shown(alloc),
        Ok(received) => debugged(alloc, received),
        Err(error) => refused(alloc, error),
    }
}

/// The message that begins the stream and what was made beside, or the name of the answer.
pub fn tried<M: fmt::Debug, E: fmt::Debug>(
    alloc: Global,
    answer: &Result<Tried<M>, SdkError<E, ResponseFault, RawMessage>>,
) -> Mem<String> {
    match answer {
        Ok(Tried::Initial(message, made)) => {
            let frame = framed(alloc, message)?;
            format!(in alloc; "Initial {frame} {made:?}")
        }
        Ok(tried) => debugged(alloc, tried),
        Err(error) => refused(alloc, error),
    }
}

/// Why no more messages were taken.
pub fn drained<E: fmt::Debug>(
    alloc: Global,
    answer: &Result<Drained, SdkError<E, ResponseFault, RawMessage>>,
) -> Mem<String> {
    match answer {
        Ok(drained) => debugged(alloc, drained),
        Err(error) => refused(alloc, error),
    }
}

// The error, and the bytes behind it.
fn refused<E: fmt::Debug>(
    alloc: Global,
    error: &SdkError<E, ResponseFault, RawMessage>,
) -> Mem<String> {
    match error {
        SdkError::ResponseError { source, raw } => {
            let raw = raw_text(alloc, raw)?;
            format!(in alloc; "{source:?} {raw}")
        }
        SdkError::ServiceError { source, raw } => {
            let raw = raw_text(alloc, raw)?;
            format!(in alloc; "ServiceError {source:?} {raw}")
        }
        error => debugged(alloc, error),
    }
}

// The frame of the message, or the bytes that it holds.
fn raw_text(alloc: Global, raw: &RawMessage) -> Mem<String> {
    match raw {
        RawMessage::Decoded(message) => {
            let frame = framed(alloc, message)?;
            format!(in alloc; "Decoded {frame}")
        }
        RawMessage::Invalid(Some(bytes)) => {
            let digits = hex::encode(alloc, bytes.as_slice())?;
            format!(in alloc; "Invalid {digits}")
        }
        RawMessage::Invalid(None) => String::from_str(alloc, "Invalid"),
    }
}

/// What the copy of an answer or a fault shows, and what is printed of a fault.
pub fn copied(alloc: Global, kind: &str, text: &str) -> Mem<String> {
    match kind {
        "Received" => {
            let received = Received::Event(String::from_str(alloc, text)?);
            copy_shown(alloc, received.try_clone())
        }
        "Tried" => {
            let payload = Bytes::copy_from_slice(alloc, text.as_bytes())?;
            tried_copy(alloc, &Tried::Initial(Message::new(alloc, payload), 7))
        }
        _ => {
            let copy = fault_of(text).try_clone()?;
            format!(in alloc; "{copy:?}: {copy}")
        }
    }
}

fn tried_copy(alloc: Global, answer: &Tried<u8>) -> Mem<String> {
    let copy = answer.try_clone()?;
    tried::<u8, Error>(alloc, &Ok(copy))
}

fn fault_of(name: &str) -> ResponseFault {
    let error = Error::from(ErrorKind::InvalidMessageLength);
    match name {
        "Frame" => ResponseFault::Frame(error),
        "Unmarshall" => ResponseFault::Unmarshall(error),
        "Preprocessor" => ResponseFault::Preprocessor(error),
        _ => ResponseFault::UnexpectedEndOfStream(ReceiverError),
    }
}

/// Which message begins a stream.
pub fn message_type(word: &str) -> InitialMessageType {
    match word {
        "request" => InitialMessageType::Request,
        _ => InitialMessageType::Response,
    }
}
