ghost use Rattle.std.specs.Prelude.{◌≡◌, IfOk};
ghost use Rattle.aws_auth.specs.declared.error.SigV4SigningError.TheVariants.{NoMemory};

use crate::endpoint::EndpointField;
use crate::name_override::OverrideError;
use sigv4::SigningError;
use smithy_core::Mem;
use std::alloc::AllocError;
use std::fmt;

/// Why a request isn't signed.
#[derive(Debug, Drop)]
pub enum SigV4SigningError {
    /// The inputs have no config.
    MissingOperationSigningConfig,
    /// The endpoint, the inputs and the config have no region.
    MissingSigningRegion,
    /// The endpoint, the inputs and the config have no name of the service.
    MissingSigningName,
    /// The identity isn't AWS credentials.
    WrongIdentityType,
    /// The value of this field of the endpoint is of another type.
    BadTypeInEndpointAuthSchemeConfig(EndpointField),
    /// The override of the session token's name refused.
    NameOverrideRefused,
    /// The request isn't signed for this reason.
    Signing(SigningError),
    /// Memory ran out.
    NoMemory,
}

impl SigV4SigningError {
    ghost use Rattle.aws_auth.specs.Error.{IsSameAuthError};

    /// An equal error.
    pub fn try_clone(&self) -> Mem<SigV4SigningError>
        ensures { IfOk result (IsSameAuthError self.now) }
    {
        Ok(match self {
            SigV4SigningError::MissingOperationSigningConfig => {
                SigV4SigningError::MissingOperationSigningConfig
            }
            SigV4SigningError::MissingSigningRegion => SigV4SigningError::MissingSigningRegion,
            SigV4SigningError::MissingSigningName => SigV4SigningError::MissingSigningName,
            SigV4SigningError::WrongIdentityType => SigV4SigningError::WrongIdentityType,
            SigV4SigningError::BadTypeInEndpointAuthSchemeConfig(field) => {
                SigV4SigningError::BadTypeInEndpointAuthSchemeConfig(*field)
            }
            SigV4SigningError::NameOverrideRefused => SigV4SigningError::NameOverrideRefused,
            SigV4SigningError::Signing(error) => SigV4SigningError::Signing(error.try_clone()?),
            SigV4SigningError::NoMemory => SigV4SigningError::NoMemory,
        })
    }
}

impl fmt::Display for SigV4SigningError {
    ghost use Rattle.std.specs.Prelude.{Some};
    ghost use Rattle.aws_auth.specs.Error.{auth_error_text};

    ghost output = { λ error. Some (auth_error_text error) };

    fn fmt<W: fmt::Write>(&self, f: &mut fmt::Formatter<W>) -> fmt::Result {
        match self {
            SigV4SigningError::MissingOperationSigningConfig => {
                f.write_str("missing operation signing config")
            }
            SigV4SigningError::MissingSigningRegion => f.write_str("missing signing region"),
            SigV4SigningError::MissingSigningName => f.write_str("missing signing name"),
            SigV4SigningError::WrongIdentityType => {
                f.write_str("wrong identity type for SigV4, which takes AWS credentials")
            }
            SigV4SigningError::BadTypeInEndpointAuthSchemeConfig(field) => {
                write!(
                    f,
                    "unexpected type for `{field}` in endpoint auth scheme config"
                )
            }
            SigV4SigningError::NameOverrideRefused => {
                f.write_str("the name of the session token is refused")
            }
            SigV4SigningError::Signing(error) => write!(f, "{error}"),
            SigV4SigningError::NoMemory => f.write_str("no memory"),
        }
    }
}

impl std::error::Error for SigV4SigningError {}

impl From<SigningError> for SigV4SigningError {
    ghost use Rattle.aws_auth.specs.Error.{auth_error};

    ghost from_gives = { λ inner error. error ≡ auth_error inner };

    fn from(inner: SigningError) -> SigV4SigningError {
        match inner {
            SigningError::NoMemory => SigV4SigningError::NoMemory,
            _ => SigV4SigningError::Signing(inner),
        }
    }
}

impl From<OverrideError> for SigV4SigningError {
    ghost use Rattle.aws_auth.specs.Error.{override_error};

    ghost from_gives = { λ inner error. error ≡ override_error inner };

    fn from(inner: OverrideError) -> SigV4SigningError {
        match inner {
            OverrideError::Refused => SigV4SigningError::NameOverrideRefused,
            OverrideError::NoMemory => SigV4SigningError::NoMemory,
        }
    }
}

impl From<AllocError> for SigV4SigningError {
    ghost from_gives = { λ _ error. error ≡ NoMemory };

    fn from(_e: AllocError) -> SigV4SigningError {
        SigV4SigningError::NoMemory
    }
}
