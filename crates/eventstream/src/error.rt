ghost use Rattle.std.specs.Prelude.{◌≡◌, IfOk};
ghost use Rattle.eventstream.specs.Error.{IsSameKind, error_kind, is_invalid_message};
ghost use Rattle.eventstream.specs.declared.error.ErrorKind.TheVariants.{Marshalling, NoMemory, Unmarshalling};

use smithy_core::{DateTime, Mem};
use std::alloc::{AllocError, AllocFailed};
use std::fmt;

/// Why a message can't be written or read, or an event can't be made a message.
#[derive(Debug, Drop)]
pub enum ErrorKind {
    /// The header block of a message passes 4,294,967,295 bytes.
    HeadersTooLong,
    /// The byte array or the text of a header passes 32,767 bytes.
    HeaderValueTooLong,
    /// The name of a header passes 255 bytes, or the bytes that are there.
    InvalidHeaderNameLength,
    /// The value of a header passes the bytes that are there, or the header block.
    InvalidHeaderValue,
    /// No kind of value has this byte.
    InvalidHeaderValueType(u8),
    /// The header block is too short for a header, or passes the frame.
    InvalidHeadersLength,
    /// The frame is shorter than the smallest one, or longer than the bytes that are there.
    InvalidMessageLength,
    /// A name or a text isn't UTF-8.
    InvalidUtf8String,
    /// The checksum of the bytes of the frame, and the other one that it carries.
    MessageChecksumMismatch(u32, u32),
    /// The frame of a message passes 4,294,967,295 bytes.
    MessageTooLong,
    /// The payload of a message passes 4,294,967,295 bytes.
    PayloadTooLong,
    /// The checksum of the two lengths, and the other one that the frame carries.
    PreludeChecksumMismatch(u32, u32),
    /// The whole milliseconds of a moment leave `i64`.
    TimestampValueTooLarge(DateTime),
    /// An event can't be made a message.
    Marshalling(String),
    /// A message can't be read as an event.
    Unmarshalling(String),
    /// Memory ran out.
    NoMemory,
}

impl ErrorKind {
    /// An equal kind.
    pub fn try_clone(&self) -> Mem<ErrorKind>
        ensures { IfOk result (λ copy. IsSameKind self.now copy) }
    {
        Ok(match self {
            ErrorKind::HeadersTooLong => ErrorKind::HeadersTooLong,
            ErrorKind::HeaderValueTooLong => ErrorKind::HeaderValueTooLong,
            ErrorKind::InvalidHeaderNameLength => ErrorKind::InvalidHeaderNameLength,
            ErrorKind::InvalidHeaderValue => ErrorKind::InvalidHeaderValue,
            ErrorKind::InvalidHeaderValueType(kind) => ErrorKind::InvalidHeaderValueType(*kind),
            ErrorKind::InvalidHeadersLength => ErrorKind::InvalidHeadersLength,
            ErrorKind::InvalidMessageLength => ErrorKind::InvalidMessageLength,
            ErrorKind::InvalidUtf8String => ErrorKind::InvalidUtf8String,
            ErrorKind::MessageChecksumMismatch(computed, carried) => {
                ErrorKind::MessageChecksumMismatch(*computed, *carried)
            }
            ErrorKind::MessageTooLong => ErrorKind::MessageTooLong,
            ErrorKind::PayloadTooLong => ErrorKind::PayloadTooLong,
            ErrorKind::PreludeChecksumMismatch(computed, carried) => {
                ErrorKind::PreludeChecksumMismatch(*computed, *carried)
            }
            ErrorKind::TimestampValueTooLarge(moment) => ErrorKind::TimestampValueTooLarge(*moment),
            ErrorKind::Marshalling(message) => ErrorKind::Marshalling(message.clone()?),
            ErrorKind::Unmarshalling(message) => ErrorKind::Unmarshalling(message.clone()?),
            ErrorKind::NoMemory => ErrorKind::NoMemory,
        })
    }
}

/// The error of this crate: an [`ErrorKind`].
#[derive(Debug)]
pub struct Error {
    kind: ErrorKind,
}

// Written out: a derived drop would be taken apart in the proof of each function that drops one.
impl Drop for Error {
    fn drop(self) {
        let Error { kind } = self;
        drop(kind);
    }
}

impl Error {
    /// An event that can't be made a message.
    pub fn marshalling(message: String) -> Error
        ensures { error_kind result ≡ Marshalling message }
    {
        Error {
            kind: ErrorKind::Marshalling(message),
        }
    }

    /// A message that can't be read as an event.
    pub fn unmarshalling(message: String) -> Error
        ensures { error_kind result ≡ Unmarshalling message }
    {
        Error {
            kind: ErrorKind::Unmarshalling(message),
        }
    }

    /// What happened.
    pub fn kind(&self) -> &ErrorKind
        ensures { result.now ≡ error_kind self.now }
    {
        &self.kind
    }

    /// An equal error.
    pub fn try_clone(&self) -> Mem<Error>
        ensures { IfOk result (λ copy. IsSameKind (error_kind self.now) (error_kind copy)) }
    {
        Ok(Error {
            kind: self.kind.try_clone()?,
        })
    }

    /// Whether the message itself is at fault, so that no writer could send it.
    pub fn is_invalid_message(&self) -> bool
        ensures { result ≡ is_invalid_message (error_kind self.now) }
    {
        matches!(
            &self.kind,
            ErrorKind::HeadersTooLong
                | ErrorKind::HeaderValueTooLong
                | ErrorKind::PayloadTooLong
                | ErrorKind::MessageTooLong
                | ErrorKind::InvalidHeaderNameLength
                | ErrorKind::TimestampValueTooLarge(_)
                | ErrorKind::Marshalling(_)
        )
    }
}

impl fmt::Display for Error {
    ghost use Rattle.std.specs.Prelude.{Some};
    ghost use Rattle.eventstream.specs.Error.{error_kind, error_kind_text};

    ghost output = { λ error. Some (error_kind_text (error_kind error)) };

    fn fmt<W: fmt::Write>(&self, f: &mut fmt::Formatter<W>) -> fmt::Result {
        match &self.kind {
            ErrorKind::HeadersTooLong => {
                f.write_str("headers too long to fit in event stream frame")
            }
            ErrorKind::HeaderValueTooLong => {
                f.write_str("header value too long to fit in event stream frame")
            }
            ErrorKind::InvalidHeaderNameLength => f.write_str("invalid header name length"),
            ErrorKind::InvalidHeaderValue => f.write_str("invalid header value"),
            ErrorKind::InvalidHeaderValueType(kind) => {
                write!(f, "invalid header value type: {kind}")
            }
            ErrorKind::InvalidHeadersLength => f.write_str("invalid headers length"),
            ErrorKind::InvalidMessageLength => f.write_str("invalid message length"),
            ErrorKind::InvalidUtf8String => f.write_str("encountered invalid UTF-8 string"),
            ErrorKind::MessageChecksumMismatch(computed, carried) => {
                write!(
                    f,
                    "message checksum 0x{carried:X} didn't match expected checksum 0x{computed:X}"
                )
            }
            ErrorKind::MessageTooLong => {
                f.write_str("message too long to fit in event stream frame")
            }
            ErrorKind::PayloadTooLong => {
                f.write_str("message payload too long to fit in event stream frame")
            }
            ErrorKind::PreludeChecksumMismatch(computed, carried) => {
                write!(
                    f,
                    "prelude checksum 0x{carried:X} didn't match expected checksum 0x{computed:X}"
                )
            }
            ErrorKind::TimestampValueTooLarge(moment) => {
                let secs = moment.secs();
                write!(f, "timestamp value {secs} is too large to fit into an i64")
            }
            ErrorKind::Marshalling(message) => write!(f, "failed to marshall message: {message}"),
            ErrorKind::Unmarshalling(message) => {
                write!(f, "failed to unmarshall message: {message}")
            }
            ErrorKind::NoMemory => f.write_str("no memory"),
        }
    }
}

impl std::error::Error for Error {}

impl From<ErrorKind> for Error {
    ghost from_gives = { λ kind error. error_kind error ≡ kind };

    fn from(kind: ErrorKind) -> Error {
        Error { kind }
    }
}

impl From<AllocError> for Error {
    ghost from_gives = { λ _ error. error_kind error ≡ NoMemory };

    fn from(_e: AllocError) -> Error {
        Error {
            kind: ErrorKind::NoMemory,
        }
    }
}

impl<T: Drop> From<AllocFailed<T>> for Error {
    ghost from_gives = { λ _ error. error_kind error ≡ NoMemory };

    fn from(_e: AllocFailed<T>) -> Error {
        Error {
            kind: ErrorKind::NoMemory,
        }
    }
}
