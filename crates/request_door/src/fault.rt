use presign_check::PresignPart;
use smithy_http::UriFault;
use std::alloc::AllocError;
use std::fmt;

/// Why a request isn't let in: the first test of [`admit`](crate::admit) that is met. It holds no text of the request's, and no
/// signature.
#[derive(Clone, Copy, Debug, PartialEq, Eq)]
pub enum DoorFault {
    /// The target isn't accepted.
    InvalidTarget,
    /// A header is outside its grammar, or the request has no host.
    InvalidHeader,
    /// There is an `authorization` header, and a parameter of a signature too.
    BothForms,
    /// There is neither.
    NoForm,
    /// The parameter isn't there, or the `x-amz-date` header.
    Missing(PresignPart),
    /// The parameter is there more than once, or the `authorization` header (by the name of the signature), or the `x-amz-date`
    /// header.
    Repeated(PresignPart),
    /// The signature is of another algorithm than `AWS4-HMAC-SHA256`.
    OtherAlgorithm,
    /// The `authorization` header isn't of credential, names and signature, or a signature hasn't 64 lower-case digits.
    Malformed,
    /// The date isn't a moment's, as `YYYYMMDDTHHMMSSZ`.
    BadDate,
    /// The credential doesn't end with `/aws4_request`.
    BadCredential,
    /// The credential isn't for this service.
    OtherService,
    /// The credential isn't for this region.
    OtherRegion,
    /// The credential isn't of the date's day.
    OtherDay,
    /// The expiry isn't a number of 64 bits.
    BadExpiry,
    /// The expiry is over the limit.
    LongExpiry,
    /// There are more names of signed headers than the limit.
    TooManyNames,
    /// The names aren't in lower case, sorted and without repeats, or one is empty.
    BadNames,
    /// A header that is named isn't there.
    AbsentHeader,
    /// `host` isn't among the names.
    UnsignedHost,
    /// An `x-amz-` header of the request isn't among the names.
    UnsignedHeader,
    /// The request comes too early.
    TooEarly,
    /// The request comes too late.
    TooLate,
    /// There is more than one `x-amz-content-sha256` header.
    RepeatedPayload,
    /// The `x-amz-content-sha256` header is neither a digest nor one of the words for a payload that isn't signed as a whole.
    BadPayload,
    /// The key isn't known.
    UnknownKey,
    /// The `x-amz-content-sha256` header isn't the digest of the body.
    OtherPayload,
    /// The request has another signature than the one that it carries.
    Mismatch,
    /// Memory ran out.
    NoMemory,
}

impl fmt::Display for DoorFault {
    ghost use Rattle.std.specs.Prelude.{Some};
    ghost use Rattle.request_door.specs.DoorFaults.{door_fault_text};

    ghost output = { λ fault. Some (door_fault_text fault) };

    fn fmt<W: fmt::Write>(&self, f: &mut fmt::Formatter<W>) -> fmt::Result {
        match self {
            DoorFault::InvalidTarget => f.write_str("the target isn't accepted"),
            DoorFault::InvalidHeader => f.write_str("a header or the host isn't fit for signing"),
            DoorFault::BothForms => f.write_str("a signature in headers and in parameters"),
            DoorFault::NoForm => f.write_str("no signature"),
            DoorFault::Missing(part) => write!(f, "missing {part}"),
            DoorFault::Repeated(part) => write!(f, "repeated {part}"),
            DoorFault::OtherAlgorithm => f.write_str("another algorithm"),
            DoorFault::Malformed => f.write_str("a malformed signature"),
            DoorFault::BadDate => f.write_str("the date is no date"),
            DoorFault::BadCredential => f.write_str("a malformed credential"),
            DoorFault::OtherService => f.write_str("a credential for another service"),
            DoorFault::OtherRegion => f.write_str("a credential for another region"),
            DoorFault::OtherDay => f.write_str("a credential of another day"),
            DoorFault::BadExpiry => f.write_str("the expiry is no number"),
            DoorFault::LongExpiry => f.write_str("an expiry over the limit"),
            DoorFault::TooManyNames => f.write_str("too many signed headers"),
            DoorFault::BadNames => f.write_str("the signed headers aren't in order"),
            DoorFault::AbsentHeader => f.write_str("a signed header isn't there"),
            DoorFault::UnsignedHost => f.write_str("the host isn't signed"),
            DoorFault::UnsignedHeader => f.write_str("a header isn't signed"),
            DoorFault::TooEarly => f.write_str("too early"),
            DoorFault::TooLate => f.write_str("too late"),
            DoorFault::RepeatedPayload => f.write_str("repeated x-amz-content-sha256"),
            DoorFault::BadPayload => f.write_str("invalid x-amz-content-sha256"),
            DoorFault::UnknownKey => f.write_str("unknown key"),
            DoorFault::OtherPayload => f.write_str("another payload"),
            DoorFault::Mismatch => f.write_str("another signature than its own"),
            DoorFault::NoMemory => f.write_str("no memory"),
        }
    }
}

impl std::error::Error for DoorFault {}

impl From<AllocError> for DoorFault {
    ghost use Rattle.std.specs.Prelude.{◌≡◌};
    ghost use Rattle.request_door.specs.declared.fault.DoorFault.TheVariants.{NoMemory};

    ghost from_gives = { λ _ fault. fault ≡ NoMemory };

    fn from(_e: AllocError) -> DoorFault {
        DoorFault::NoMemory
    }
}

impl From<UriFault> for DoorFault {
    ghost use Rattle.std.specs.Prelude.{◌≡◌};
    ghost use Rattle.request_door.specs.DoorFaults.{door_target_fault};

    ghost from_gives = { λ inner fault. fault ≡ door_target_fault inner };

    fn from(inner: UriFault) -> DoorFault {
        match inner {
            UriFault::InvalidUri => DoorFault::InvalidTarget,
            UriFault::NoMemory => DoorFault::NoMemory,
        }
    }
}
