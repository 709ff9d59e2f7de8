ghost use Rattle.std.specs.Prelude.{◌≡◌, IfOk};
ghost use Rattle.eventstream.specs.Error.{error_kind};
ghost use Rattle.event_io.specs.ResponseFault.{is_want_kind, response_error};

use eventstream::{Error, ErrorKind};
use smithy_core::{Mem, RawMessage, SdkError};
use std::fmt;

/// The stream ended within a frame.
#[derive(Clone, Copy, Debug, PartialEq, Eq)]
pub struct ReceiverError;

impl fmt::Display for ReceiverError {
    ghost use Rattle.std.specs.Prelude.{Some};
    ghost use Rattle.event_io.specs.ResponseFault.{receiver_error_text};

    ghost output = { λ _. Some receiver_error_text };

    fn fmt<W: fmt::Write>(&self, f: &mut fmt::Formatter<W>) -> fmt::Result {
        f.write_str("unexpected end of stream")
    }
}

impl std::error::Error for ReceiverError {}

/// Why a message isn't received.
#[derive(Debug, Drop)]
pub enum ResponseFault {
    /// The bytes are no frame.
    Frame(Error),
    /// The stream ended within a frame.
    UnexpectedEndOfStream(ReceiverError),
    /// The unmarshaller refused the message.
    Unmarshall(Error),
    /// The preprocessor refused the first message.
    Preprocessor(Error),
}

/// The error of a call that receives.
pub(crate) type ReceiveError<E> = SdkError<E, ResponseFault, RawMessage>;

impl ResponseFault {
    ghost use Rattle.event_io.specs.ResponseFault.{IsSameResponseFault, is_want};

    // Whether it carries `NoMemory`.
    fn is_want(&self) -> bool
        ensures { result ≡ is_want self.now }
    {
        match self {
            ResponseFault::Frame(error) => is_want(error),
            ResponseFault::UnexpectedEndOfStream(_) => false,
            ResponseFault::Unmarshall(error) => is_want(error),
            ResponseFault::Preprocessor(error) => is_want(error),
        }
    }

    /// An equal fault.
    pub fn try_clone(&self) -> Mem<ResponseFault>
        ensures { IfOk result (IsSameResponseFault self.now) }
    {
        Ok(match self {
            ResponseFault::Frame(error) => ResponseFault::Frame(error.try_clone()?),
            ResponseFault::UnexpectedEndOfStream(end) => ResponseFault::UnexpectedEndOfStream(*end),
            ResponseFault::Unmarshall(error) => ResponseFault::Unmarshall(error.try_clone()?),
            ResponseFault::Preprocessor(error) => ResponseFault::Preprocessor(error.try_clone()?),
        })
    }
}

impl fmt::Display for ResponseFault {
    ghost use Rattle.std.specs.Prelude.{Some};
    ghost use Rattle.event_io.specs.ResponseFault.{response_fault_text};

    ghost output = { λ fault. Some (response_fault_text fault) };

    fn fmt<W: fmt::Write>(&self, f: &mut fmt::Formatter<W>) -> fmt::Result {
        match self {
            ResponseFault::Frame(error) => write!(f, "{error}"),
            ResponseFault::UnexpectedEndOfStream(end) => write!(f, "{end}"),
            ResponseFault::Unmarshall(error) => write!(f, "{error}"),
            ResponseFault::Preprocessor(error) => write!(f, "{error}"),
        }
    }
}

impl std::error::Error for ResponseFault {}

/// Whether an error is `NoMemory`.
pub(crate) fn is_want(error: &Error) -> bool
    ensures { result ≡ is_want_kind (error_kind error.now) }
{
    matches!(error.kind(), ErrorKind::NoMemory)
}

/// The error of a message that isn't received for a reason. `NoMemory` stays what it is.
pub(crate) fn response_error<E>(fault: ResponseFault, raw: RawMessage) -> ReceiveError<E>
    ensures { result ≡ response_error fault raw }
{
    if fault.is_want() {
        return SdkError::NoMemory;
    }
    SdkError::ResponseError { source: fault, raw }
}
