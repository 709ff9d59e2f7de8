ghost use Rattle.std.specs.Prelude.{◌≡◌, IfOk};

use crate::error::{Error, ErrorKind};
use smithy_core::{Mem, Moment};
use std::alloc::AllocError;
use std::fmt;

/// Why a message isn't signed.
#[derive(Debug, Drop)]
pub enum SignMessageError {
    /// The message has no frame, for this reason.
    FailedToEncodeMessage(Error),
    /// The identity isn't AWS credentials.
    UnsupportedIdentityType,
    /// The moment lies outside the years 0 to 9999.
    MomentOutOfRange(Moment),
    /// Memory ran out.
    NoMemory,
}

impl SignMessageError {
    ghost use Rattle.eventstream.specs.Sign.{IsSameSignError};

    /// An equal error.
    pub fn try_clone(&self) -> Mem<SignMessageError>
        ensures { IfOk result (IsSameSignError self.now) }
    {
        Ok(match self {
            SignMessageError::FailedToEncodeMessage(error) => {
                SignMessageError::FailedToEncodeMessage(error.try_clone()?)
            }
            SignMessageError::UnsupportedIdentityType => SignMessageError::UnsupportedIdentityType,
            SignMessageError::MomentOutOfRange(moment) => {
                SignMessageError::MomentOutOfRange(*moment)
            }
            SignMessageError::NoMemory => SignMessageError::NoMemory,
        })
    }
}

impl fmt::Display for SignMessageError {
    ghost use Rattle.std.specs.Prelude.{Some};
    ghost use Rattle.eventstream.specs.Sign.{sign_error_text};

    ghost output = { λ error. Some (sign_error_text error) };

    fn fmt<W: fmt::Write>(&self, f: &mut fmt::Formatter<W>) -> fmt::Result {
        match self {
            SignMessageError::FailedToEncodeMessage(error) => {
                write!(f, "failed to encode message: {error}")
            }
            SignMessageError::UnsupportedIdentityType => {
                f.write_str("only AWS credentials are supported for signing")
            }
            SignMessageError::MomentOutOfRange(moment) => {
                let secs = moment.secs();
                write!(f, "moment {secs} is outside the years 0 to 9999")
            }
            SignMessageError::NoMemory => f.write_str("no memory"),
        }
    }
}

impl std::error::Error for SignMessageError {}

impl From<Error> for SignMessageError {
    ghost use Rattle.eventstream.specs.Sign.{sign_error_of};

    ghost from_gives = { λ inner error. error ≡ sign_error_of inner };

    fn from(inner: Error) -> SignMessageError {
        match inner.kind() {
            ErrorKind::NoMemory => SignMessageError::NoMemory,
            _ => SignMessageError::FailedToEncodeMessage(inner),
        }
    }
}

impl From<AllocError> for SignMessageError {
    ghost use Rattle.eventstream.specs.declared.sign_error.SignMessageError.TheVariants.{NoMemory};

    ghost from_gives = { λ _ error. error ≡ NoMemory };

    fn from(_e: AllocError) -> SignMessageError {
        SignMessageError::NoMemory
    }
}
