ghost use Rattle.std.specs.Prelude.{IfOk};

use eventstream::{Error, ErrorKind, SignMessageError};
use smithy_core::{Mem, RawMessage, SdkError};
use std::fmt;

/// Why an item of a stream isn't sent.
#[derive(Debug, Drop)]
pub enum AdapterFault {
    /// The marshaller refused it.
    Marshall(Error),
    /// The signer refused its message, or the empty one at the end.
    Sign(SignMessageError),
    /// The signed message has no frame.
    Write(Error),
}

/// The error of a call that sends.
pub(crate) type SendError = SdkError<AdapterFault, AdapterFault, RawMessage>;

impl AdapterFault {
    ghost use Rattle.event_io.specs.AdapterFault.{IsSameFault};

    /// An equal fault.
    pub fn try_clone(&self) -> Mem<AdapterFault>
        ensures { IfOk result (IsSameFault self.now) }
    {
        Ok(match self {
            AdapterFault::Marshall(error) => AdapterFault::Marshall(error.try_clone()?),
            AdapterFault::Sign(error) => AdapterFault::Sign(error.try_clone()?),
            AdapterFault::Write(error) => AdapterFault::Write(error.try_clone()?),
        })
    }
}

impl fmt::Display for AdapterFault {
    ghost use Rattle.std.specs.Prelude.{Some};
    ghost use Rattle.event_io.specs.AdapterFault.{fault_text};

    ghost output = { λ fault. Some (fault_text fault) };

    fn fmt<W: fmt::Write>(&self, f: &mut fmt::Formatter<W>) -> fmt::Result {
        match self {
            AdapterFault::Marshall(error) => write!(f, "{error}"),
            AdapterFault::Sign(error) => write!(f, "{error}"),
            AdapterFault::Write(error) => write!(f, "{error}"),
        }
    }
}

impl std::error::Error for AdapterFault {}

impl From<AdapterFault> for SdkError<AdapterFault, AdapterFault, RawMessage> {
    ghost use Rattle.std.specs.Prelude.{◌≡◌};
    ghost use Rattle.event_io.specs.AdapterFault.{send_error};

    ghost from_gives = { λ fault error. error ≡ send_error fault };

    fn from(fault: AdapterFault) -> SdkError<AdapterFault, AdapterFault, RawMessage> {
        let kind = match &fault {
            AdapterFault::Marshall(error) => error.kind(),
            AdapterFault::Write(error) => error.kind(),
            AdapterFault::Sign(SignMessageError::FailedToEncodeMessage(error)) => error.kind(),
            AdapterFault::Sign(SignMessageError::NoMemory) => return SdkError::NoMemory,
            AdapterFault::Sign(_) => return SdkError::ConstructionFailure(fault),
        };
        match kind {
            ErrorKind::NoMemory => SdkError::NoMemory,
            _ => SdkError::ConstructionFailure(fault),
        }
    }
}
