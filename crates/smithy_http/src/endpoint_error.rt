ghost use Rattle.std.specs.Prelude.{◌≡◌, IfOk};
ghost use Rattle.smithy_http.specs.EndpointError.{IsSameEndpointError};
ghost use Rattle.smithy_http.specs.declared.endpoint_error.InvalidEndpointError.TheVariants.{EndpointMustHaveScheme, FailedToConstructAuthority, FailedToConstructUri, NoMemory};

use crate::uri_fault::UriFault;
use smithy_core::Mem;
use std::alloc::AllocError;
use std::fmt;

/// Why an endpoint isn't applied.
#[derive(Debug, Drop)]
pub enum InvalidEndpointError {
    /// The endpoint has no scheme.
    EndpointMustHaveScheme,
    /// The prefix and the endpoint's authority make no authority.
    FailedToConstructAuthority {
        /// The two, joined.
        authority: String,
    },
    /// The joined target isn't accepted, or passes 65,534 bytes.
    FailedToConstructUri,
    /// Memory ran out.
    NoMemory,
}

impl InvalidEndpointError {
    /// The endpoint has no scheme.
    pub fn endpoint_must_have_scheme() -> InvalidEndpointError
        ensures { result ≡ EndpointMustHaveScheme }
    {
        InvalidEndpointError::EndpointMustHaveScheme
    }

    /// The text is no authority.
    pub fn failed_to_construct_authority(authority: String) -> InvalidEndpointError
        ensures { result ≡ FailedToConstructAuthority authority }
    {
        InvalidEndpointError::FailedToConstructAuthority { authority }
    }

    /// The joined target isn't accepted.
    pub fn failed_to_construct_uri() -> InvalidEndpointError
        ensures { result ≡ FailedToConstructUri }
    {
        InvalidEndpointError::FailedToConstructUri
    }

    /// An equal error.
    pub fn try_clone(&self) -> Mem<InvalidEndpointError>
        ensures { IfOk result (λ copy. IsSameEndpointError self.now copy) }
    {
        Ok(match self {
            InvalidEndpointError::EndpointMustHaveScheme => {
                InvalidEndpointError::EndpointMustHaveScheme
            }
            InvalidEndpointError::FailedToConstructAuthority { authority } => {
                InvalidEndpointError::FailedToConstructAuthority {
                    authority: authority.clone()?,
                }
            }
            InvalidEndpointError::FailedToConstructUri => {
                InvalidEndpointError::FailedToConstructUri
            }
            InvalidEndpointError::NoMemory => InvalidEndpointError::NoMemory,
        })
    }
}

impl fmt::Display for InvalidEndpointError {
    ghost use Rattle.std.specs.Prelude.{Some};
    ghost use Rattle.smithy_http.specs.EndpointError.{endpoint_error_text};

    ghost output = { λ error. Some (endpoint_error_text error) };

    fn fmt<W: fmt::Write>(&self, f: &mut fmt::Formatter<W>) -> fmt::Result {
        match self {
            InvalidEndpointError::EndpointMustHaveScheme => f.write_str(
                "the endpoint must have a scheme",
            ),
            InvalidEndpointError::FailedToConstructAuthority { authority } => write!(
                f,
                "invalid authority: {authority}"
            ),
            InvalidEndpointError::FailedToConstructUri => f.write_str(
                "the target at the endpoint is invalid",
            ),
            InvalidEndpointError::NoMemory => f.write_str("no memory"),
        }
    }
}

impl std::error::Error for InvalidEndpointError {}

impl From<AllocError> for InvalidEndpointError {
    ghost from_gives = { λ _ error. error ≡ NoMemory };

    fn from(_e: AllocError) -> InvalidEndpointError {
        InvalidEndpointError::NoMemory
    }
}

impl From<UriFault> for InvalidEndpointError {
    ghost use Rattle.smithy_http.specs.EndpointError.{endpoint_error_of};

    ghost from_gives = { λ fault error. error ≡ endpoint_error_of fault };

    fn from(fault: UriFault) -> InvalidEndpointError {
        match fault {
            UriFault::InvalidUri => InvalidEndpointError::FailedToConstructUri,
            UriFault::NoMemory => InvalidEndpointError::NoMemory,
        }
    }
}
