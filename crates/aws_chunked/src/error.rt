ghost use Rattle.std.specs.Prelude.{◌≡◌, IfOk};

use eventstream::ErrorKind;
use sigv4::SigningError;
use smithy_core::Mem;
use std::alloc::AllocError;
use std::fmt;

/// Why a body can't go on. It is closed then.
#[derive(Debug, Drop)]
pub enum AwsChunkedBodyError {
    /// The data has another length than was declared.
    StreamLengthMismatch {
        /// How many bytes of data came.
        actual: u64,
        /// How many were declared.
        expected: u64,
    },
    /// The trailers have other lengths than were declared.
    ReportedTrailerLengthMismatch {
        /// The bytes of the trailers' lines, each with its CRLF, that of their signature among them.
        actual: u64,
        /// The declared bytes, with 2 for each CRLF.
        expected: u64,
    },
    /// The signer refused, or a signed body has none.
    FailedToSign {
        /// Why.
        source: SigningError,
    },
    /// The source failed, and counted it.
    SourceFault,
    /// Memory ran out.
    NoMemory,
}

impl AwsChunkedBodyError {
    ghost use Rattle.aws_chunked.specs.Error.{IsSameBodyError};

    /// An equal error.
    pub fn try_clone(&self) -> Mem<AwsChunkedBodyError>
        ensures { IfOk result (IsSameBodyError self.now) }
    {
        Ok(match self {
            AwsChunkedBodyError::StreamLengthMismatch { actual, expected } => {
                AwsChunkedBodyError::StreamLengthMismatch {
                    actual: *actual,
                    expected: *expected,
                }
            }
            AwsChunkedBodyError::ReportedTrailerLengthMismatch { actual, expected } => {
                AwsChunkedBodyError::ReportedTrailerLengthMismatch {
                    actual: *actual,
                    expected: *expected,
                }
            }
            AwsChunkedBodyError::FailedToSign { source } => AwsChunkedBodyError::FailedToSign {
                source: source.try_clone()?,
            },
            AwsChunkedBodyError::SourceFault => AwsChunkedBodyError::SourceFault,
            AwsChunkedBodyError::NoMemory => AwsChunkedBodyError::NoMemory,
        })
    }
}

impl fmt::Display for AwsChunkedBodyError {
    ghost use Rattle.std.specs.Prelude.{Some};
    ghost use Rattle.aws_chunked.specs.Error.{body_error_text};

    ghost output = { λ error. Some (body_error_text error) };

    fn fmt<W: fmt::Write>(&self, f: &mut fmt::Formatter<W>) -> fmt::Result {
        match self {
            AwsChunkedBodyError::StreamLengthMismatch { actual, expected } => {
                write!(
                    f,
                    "the stream has {actual} bytes in place of {expected} declared ones"
                )
            }
            AwsChunkedBodyError::ReportedTrailerLengthMismatch { actual, expected } => {
                write!(
                    f,
                    "the trailers have {actual} bytes in place of {expected} declared ones"
                )
            }
            AwsChunkedBodyError::FailedToSign { source } => write!(f, "failed to sign: {source}"),
            AwsChunkedBodyError::SourceFault => f.write_str("the source failed"),
            AwsChunkedBodyError::NoMemory => f.write_str("no memory"),
        }
    }
}

impl std::error::Error for AwsChunkedBodyError {}

impl From<SigningError> for AwsChunkedBodyError {
    ghost use Rattle.aws_chunked.specs.Error.{signing_error};

    ghost from_gives = { λ source error. error ≡ signing_error source };

    fn from(source: SigningError) -> AwsChunkedBodyError {
        let kind = match &source {
            SigningError::NoMemory => return AwsChunkedBodyError::NoMemory,
            SigningError::FailedToEncodeMessage(error) => error.kind(),
            _ => return AwsChunkedBodyError::FailedToSign { source },
        };
        match kind {
            ErrorKind::NoMemory => AwsChunkedBodyError::NoMemory,
            _ => AwsChunkedBodyError::FailedToSign { source },
        }
    }
}

impl From<AllocError> for AwsChunkedBodyError {
    ghost use Rattle.aws_chunked.specs.declared.error.AwsChunkedBodyError.TheVariants.{NoMemory};

    ghost from_gives = { λ _ error. error ≡ NoMemory };

    fn from(_e: AllocError) -> AwsChunkedBodyError {
        AwsChunkedBodyError::NoMemory
    }
}
