ghost use Rattle.std.specs.Prelude.{◌≡◌};
ghost use Rattle.firuvaik_c.specs.Faults.{fault_numbered, frame_fault, no_memory, fault_of_signing, value_fault};

use eventstream::{Error, ErrorKind};
use sigv4::{SigningError, ValuePlace};
use std::alloc::{AllocError, AllocFailed};

/// Why a call wrote nothing, as a number, and where: the place of a header, counted from 1, or else 0.
#[derive(Clone, Copy, Debug, PartialEq, Eq)]
pub struct Fault {
    /// The status.
    pub status: u32,
    /// The place.
    pub place: usize,
}

/// A fault without a place.
pub(crate) fn plain(status: u32) -> Fault
    ensures { result ≡ fault_numbered status 0 }
{
    Fault { status, place: 0 }
}

/// A fault at a place.
pub(crate) fn placed(status: u32, place: usize) -> Fault
    ensures { result ≡ fault_numbered status place }
{
    Fault { status, place }
}

impl From<AllocError> for Fault {
    ghost use Rattle.std.specs.Prelude.{◌≡◌};
    ghost use Rattle.firuvaik_c.specs.Faults.{no_memory};

    ghost from_gives = { λ _ fault. fault ≡ no_memory };

    fn from(_e: AllocError) -> Fault {
        plain(2)
    }
}

impl<T: Drop> From<AllocFailed<T>> for Fault {
    ghost use Rattle.std.specs.Prelude.{◌≡◌};
    ghost use Rattle.firuvaik_c.specs.Faults.{no_memory};

    ghost from_gives = { λ _ fault. fault ≡ no_memory };

    fn from(_e: AllocFailed<T>) -> Fault {
        plain(2)
    }
}

impl From<SigningError> for Fault {
    ghost use Rattle.std.specs.Prelude.{◌≡◌};
    ghost use Rattle.firuvaik_c.specs.Faults.{fault_of_signing};

    ghost from_gives = { λ error fault. fault ≡ fault_of_signing error };

    fn from(error: SigningError) -> Fault {
        fault_of(&error)
    }
}

// The fault of an error of signing.
fn fault_of(error: &SigningError) -> Fault
    ensures { result ≡ fault_of_signing error.now }
{
    match error {
        SigningError::NoMemory => plain(2),
        SigningError::MomentOutOfRange(_) => plain(5),
        SigningError::InvalidUri => plain(6),
        SigningError::InvalidHeaderName(place) => placed(7, *place),
        SigningError::InvalidHeaderValue(place) => value_fault(*place),
        SigningError::MissingHost => plain(13),
        SigningError::InvalidTokenName => plain(14),
        SigningError::MissingExpires => plain(15),
        SigningError::FailedToEncodeMessage(error) => kind_fault(error.kind()),
        _ => plain(16),
    }
}

// The fault of a text that is no header's value.
fn value_fault(place: ValuePlace) -> Fault
    ensures { result ≡ value_fault place }
{
    match place {
        ValuePlace::Header(place) => placed(8, place),
        ValuePlace::Host => plain(9),
        ValuePlace::Token => plain(10),
        ValuePlace::PayloadHash => plain(11),
        ValuePlace::Authorization => plain(12),
    }
}

impl From<Error> for Fault {
    ghost use Rattle.std.specs.Prelude.{◌≡◌};
    ghost use Rattle.eventstream.specs.Error.{error_kind};
    ghost use Rattle.firuvaik_c.specs.Faults.{frame_fault};

    ghost from_gives = { λ error fault. fault ≡ frame_fault (error_kind error) };

    fn from(error: Error) -> Fault {
        kind_fault(error.kind())
    }
}

// The fault of a message that has no frame, or of bytes that are none.
fn kind_fault(kind: &ErrorKind) -> Fault
    ensures { result ≡ frame_fault kind.now }
{
    match kind {
        ErrorKind::NoMemory => plain(2),
        ErrorKind::InvalidHeaderNameLength => plain(20),
        ErrorKind::HeaderValueTooLong => plain(21),
        ErrorKind::TimestampValueTooLarge(_) => plain(22),
        ErrorKind::HeadersTooLong => plain(23),
        ErrorKind::PayloadTooLong => plain(24),
        ErrorKind::MessageTooLong => plain(25),
        ErrorKind::InvalidHeaderValue => plain(31),
        ErrorKind::InvalidHeaderValueType(_) => plain(32),
        ErrorKind::InvalidHeadersLength => plain(33),
        ErrorKind::InvalidMessageLength => plain(34),
        ErrorKind::InvalidUtf8String => plain(35),
        ErrorKind::MessageChecksumMismatch(_, _) => plain(36),
        ErrorKind::PreludeChecksumMismatch(_, _) => plain(37),
        ErrorKind::Marshalling(_) | ErrorKind::Unmarshalling(_) => plain(26),
    }
}
