ghost use Rattle.std.specs.Prelude.{◌≡◌, IfOk};
ghost use Rattle.sigv4.specs.declared.error.SigningError.TheVariants.{NoMemory};

use eventstream::ErrorKind;
use smithy_core::{Mem, Moment};
use smithy_http::UriFault;
use std::alloc::AllocError;
use std::fmt;

/// A text of a request that goes into a header.
#[derive(Clone, Copy, Debug, PartialEq, Eq)]
pub enum ValuePlace {
    /// The value of the header at this place, counted from 1.
    Header(usize),
    /// The host.
    Host,
    /// The session token.
    Token,
    /// The payload's text.
    PayloadHash,
    /// The authorization.
    Authorization,
}

/// Why nothing is signed.
#[derive(Debug, Drop)]
pub enum SigningError {
    /// The text isn't accepted as a target, or has an authority without a scheme. Texts from outside are escaped before
    /// they go into a target: by `smithy_http::label::fmt_string` in its path, by `QueryWriter::insert` in its query.
    InvalidUri,
    /// The name of the header at this place, counted from 1, is outside the grammar of header names.
    InvalidHeaderName(usize),
    /// The text at this place is outside the grammar of header values.
    InvalidHeaderValue(ValuePlace),
    /// Neither the target nor a header has a host.
    MissingHost,
    /// The name that is given in place of the session token's usual one is one of a signature's own, or in header form
    /// isn't a header's name in lower case.
    InvalidTokenName,
    /// The signature goes into the target's query, and the settings don't say for how long it is good.
    MissingExpires,
    /// The identity isn't AWS credentials.
    UnsupportedIdentityType,
    /// The message has no frame, for this reason.
    FailedToEncodeMessage(eventstream::Error),
    /// The moment lies outside the years 0 to 9999.
    MomentOutOfRange(Moment),
    /// The signer of chunks waits for another one, or there is none.
    SignerNotWired,
    /// Memory ran out.
    NoMemory,
}

impl SigningError {
    ghost use Rattle.sigv4.specs.Error.{IsSameError};

    /// An equal error.
    pub fn try_clone(&self) -> Mem<SigningError>
        ensures { IfOk result (IsSameError self.now) }
    {
        Ok(match self {
            SigningError::InvalidUri => SigningError::InvalidUri,
            SigningError::InvalidHeaderName(place) => SigningError::InvalidHeaderName(*place),
            SigningError::InvalidHeaderValue(place) => SigningError::InvalidHeaderValue(*place),
            SigningError::MissingHost => SigningError::MissingHost,
            SigningError::InvalidTokenName => SigningError::InvalidTokenName,
            SigningError::MissingExpires => SigningError::MissingExpires,
            SigningError::UnsupportedIdentityType => SigningError::UnsupportedIdentityType,
            SigningError::FailedToEncodeMessage(error) => {
                SigningError::FailedToEncodeMessage(error.try_clone()?)
            }
            SigningError::MomentOutOfRange(moment) => SigningError::MomentOutOfRange(*moment),
            SigningError::SignerNotWired => SigningError::SignerNotWired,
            SigningError::NoMemory => SigningError::NoMemory,
        })
    }
}

impl fmt::Display for ValuePlace {
    ghost use Rattle.std.specs.Prelude.{Some};
    ghost use Rattle.sigv4.specs.Error.{place_text};

    ghost output = { λ place. Some (place_text place) };

    fn fmt<W: fmt::Write>(&self, f: &mut fmt::Formatter<W>) -> fmt::Result {
        match self {
            ValuePlace::Header(place) => write!(f, "header {place}"),
            ValuePlace::Host => f.write_str("the host"),
            ValuePlace::Token => f.write_str("the session token"),
            ValuePlace::PayloadHash => f.write_str("the payload's digest"),
            ValuePlace::Authorization => f.write_str("the authorization"),
        }
    }
}

impl fmt::Display for SigningError {
    ghost use Rattle.std.specs.Prelude.{Some};
    ghost use Rattle.sigv4.specs.Error.{error_text};

    ghost output = { λ error. Some (error_text error) };

    fn fmt<W: fmt::Write>(&self, f: &mut fmt::Formatter<W>) -> fmt::Result {
        match self {
            SigningError::InvalidUri => f.write_str("invalid target"),
            SigningError::InvalidHeaderName(place) => {
                write!(f, "invalid name of header {place}")
            }
            SigningError::InvalidHeaderValue(place) => write!(f, "invalid value of {place}"),
            SigningError::MissingHost => f.write_str("missing host"),
            SigningError::InvalidTokenName => f.write_str("invalid name of the session token"),
            SigningError::MissingExpires => f.write_str("missing expiry"),
            SigningError::UnsupportedIdentityType => {
                f.write_str("only AWS credentials are supported for signing")
            }
            SigningError::FailedToEncodeMessage(error) => {
                write!(f, "failed to encode message: {error}")
            }
            SigningError::MomentOutOfRange(moment) => {
                let secs = moment.secs();
                write!(f, "moment {secs} is outside the years 0 to 9999")
            }
            SigningError::SignerNotWired => f.write_str("the signer isn't wired"),
            SigningError::NoMemory => f.write_str("no memory"),
        }
    }
}

impl std::error::Error for SigningError {}

impl From<eventstream::Error> for SigningError {
    ghost use Rattle.sigv4.specs.Error.{encoding_error};

    ghost from_gives = { λ inner error. error ≡ encoding_error inner };

    fn from(inner: eventstream::Error) -> SigningError {
        match inner.kind() {
            ErrorKind::NoMemory => SigningError::NoMemory,
            _ => SigningError::FailedToEncodeMessage(inner),
        }
    }
}

impl From<UriFault> for SigningError {
    ghost use Rattle.sigv4.specs.Error.{target_error};

    ghost from_gives = { λ inner error. error ≡ target_error inner };

    fn from(inner: UriFault) -> SigningError {
        match inner {
            UriFault::InvalidUri => SigningError::InvalidUri,
            UriFault::NoMemory => SigningError::NoMemory,
        }
    }
}

impl From<AllocError> for SigningError {
    ghost from_gives = { λ _ error. error ≡ NoMemory };

    fn from(_e: AllocError) -> SigningError {
        SigningError::NoMemory
    }
}
