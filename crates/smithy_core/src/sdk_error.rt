ghost use Rattle.std.specs.Prelude.{IfOk};
ghost use Rattle.smithy_core.specs.SdkError.{IsSdkErrorCopy};

use crate::memory::Mem;
use std::alloc::AllocError;
use std::error::Error;
use std::fmt;

/// Why an operation failed. `E` is what the service answered, `F` is what kept a request or a response from being
/// made or read, and `R` is the response.
#[derive(Debug, Drop)]
pub enum SdkError<E, F, R> {
    /// The request wasn't made.
    ConstructionFailure(F),
    /// The request wasn't sent, or the response didn't come.
    DispatchFailure,
    /// The response wasn't read.
    ResponseError {
        /// Why it wasn't read.
        source: F,
        /// The response.
        raw: R,
    },
    /// The service answered an error.
    ServiceError {
        /// The error.
        source: E,
        /// The response.
        raw: R,
    },
    /// Memory ran out.
    NoMemory,
}

impl<E: Clone + Drop, F: Clone + Drop, R: Clone + Drop> SdkError<E, F, R> {
    /// An equal error, of copies of what it holds.
    pub fn try_clone(&self) -> Mem<SdkError<E, F, R>>
        ensures { IfOk result (λ copy. IsSdkErrorCopy E.is_clone F.is_clone R.is_clone self.now copy) }
    {
        Ok(match self {
            SdkError::ConstructionFailure(fault) => SdkError::ConstructionFailure(fault.clone()?),
            SdkError::DispatchFailure => SdkError::DispatchFailure,
            SdkError::ResponseError { source, raw } => SdkError::ResponseError {
                source: source.clone()?,
                raw: raw.clone()?,
            },
            SdkError::ServiceError { source, raw } => SdkError::ServiceError {
                source: source.clone()?,
                raw: raw.clone()?,
            },
            SdkError::NoMemory => SdkError::NoMemory,
        })
    }
}

impl<E, F, R> From<AllocError> for SdkError<E, F, R> {
    ghost use Rattle.std.specs.Prelude.{◌≡◌};
    ghost use Rattle.smithy_core.specs.declared.sdk_error.SdkError.TheVariants.{NoMemory};

    ghost from_gives = { λ _ error. error ≡ NoMemory };

    fn from(_e: AllocError) -> SdkError<E, F, R> {
        SdkError::NoMemory
    }
}

impl<E, F, R> fmt::Display for SdkError<E, F, R> {
    ghost use Rattle.std.specs.Prelude.{Some};
    ghost use Rattle.smithy_core.specs.SdkError.{sdk_error_text};

    ghost output = { λ error. Some (sdk_error_text error) };

    fn fmt<W: fmt::Write>(&self, f: &mut fmt::Formatter<W>) -> fmt::Result {
        f.write_str(match self {
            SdkError::ConstructionFailure(_) => "failed to construct request",
            SdkError::DispatchFailure => "dispatch failure",
            SdkError::ResponseError { .. } => "response error",
            SdkError::ServiceError { .. } => "service error",
            SdkError::NoMemory => "no memory",
        })
    }
}

impl<E: fmt::Debug + Drop, F: fmt::Debug + Drop, R: fmt::Debug + Drop> Error
    for SdkError<E, F, R> {}
