//! Errors, each by its name.
use aws_auth::{EndpointField, SigV4SigningError};
use sigv4::SigningError;
use smithy_core::Moment;

/// The error of a name, at a field or of a reason.
pub fn error_of(name: &str, rest: &str) -> SigV4SigningError {
    match name {
        "MissingOperationSigningConfig" => SigV4SigningError::MissingOperationSigningConfig,
        "MissingSigningRegion" => SigV4SigningError::MissingSigningRegion,
        "MissingSigningName" => SigV4SigningError::MissingSigningName,
        "WrongIdentityType" => SigV4SigningError::WrongIdentityType,
        "BadType" => SigV4SigningError::BadTypeInEndpointAuthSchemeConfig(field_of(rest)),
        "NameOverrideRefused" => SigV4SigningError::NameOverrideRefused,
        "Signing" => SigV4SigningError::Signing(reason_of(rest)),
        _ => SigV4SigningError::NoMemory,
    }
}

fn field_of(word: &str) -> EndpointField {
    match word {
        "SigningName" => EndpointField::SigningName,
        "SigningRegion" => EndpointField::SigningRegion,
        "DisableDoubleEncoding" => EndpointField::DisableDoubleEncoding,
        _ => EndpointField::DisableNormalizePath,
    }
}

fn reason_of(word: &str) -> SigningError {
    match word {
        "MissingHost" => SigningError::MissingHost,
        "MissingExpires" => SigningError::MissingExpires,
        "InvalidTokenName" => SigningError::InvalidTokenName,
        "MomentOutOfRange" => SigningError::MomentOutOfRange(Moment::new(253_402_300_800, 0)),
        _ => SigningError::InvalidUri,
    }
}
