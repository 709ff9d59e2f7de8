ghost use Rattle.std.specs.Prelude.{IfOk};
ghost use Rattle.presign_check.specs.Faults.{IsSamePresignFault};

use crate::part::PresignPart;
use sigv4::SigningError;
use smithy_core::Mem;
use smithy_http::UriFault;
use std::alloc::AllocError;
use std::fmt;

/// Why a presigned request isn't accepted: the first test of [`check_presigned`](crate::check_presigned) that it doesn't pass.
///
/// The signature that was computed again signs the request for whoever has it: [`Debug`](std::fmt::Debug) and
/// [`Display`](std::fmt::Display) leave it out, and don't show it to whoever sent the request.
#[derive(Drop)]
pub enum PresignFault {
    /// The request has an `authorization` header.
    HeaderForm,
    /// The target's query lacks this parameter.
    Missing(PresignPart),
    /// The target's query has this parameter more than once.
    Repeated(PresignPart),
    /// The parameter's value is outside its form.
    BadPart(PresignPart),
    /// The credential is that of another key's id.
    UnknownKey,
    /// The request comes before it was signed.
    TooEarly {
        /// The second in which it was signed.
        date: i64,
    },
    /// The request comes too late.
    Expired {
        /// The first second in which it isn't good any more.
        until: i128,
    },
    /// The request has another signature than the one that it carries.
    Mismatch {
        /// The signature that it carries.
        carried: String,
        /// Its own, computed again.
        recomputed: String,
    },
    /// The request can't be signed: its target isn't accepted, or a header is outside its grammar, or it has no host.
    Signing(SigningError),
    /// Memory ran out.
    NoMemory,
}

impl PresignFault {
    /// An equal fault.
    pub fn try_clone(&self) -> Mem<PresignFault>
        ensures { IfOk result (IsSamePresignFault self.now) }
    {
        Ok(match self {
            PresignFault::HeaderForm => PresignFault::HeaderForm,
            PresignFault::Missing(part) => PresignFault::Missing(*part),
            PresignFault::Repeated(part) => PresignFault::Repeated(*part),
            PresignFault::BadPart(part) => PresignFault::BadPart(*part),
            PresignFault::UnknownKey => PresignFault::UnknownKey,
            PresignFault::TooEarly { date } => PresignFault::TooEarly { date: *date },
            PresignFault::Expired { until } => PresignFault::Expired { until: *until },
            PresignFault::Mismatch {
                carried,
                recomputed,
            } => PresignFault::Mismatch {
                carried: carried.clone()?,
                recomputed: recomputed.clone()?,
            },
            PresignFault::Signing(error) => PresignFault::Signing(error.try_clone()?),
            PresignFault::NoMemory => PresignFault::NoMemory,
        })
    }
}

impl fmt::Display for PresignFault {
    ghost use Rattle.std.specs.Prelude.{Some};
    ghost use Rattle.presign_check.specs.Faults.{presign_fault_text};

    ghost output = { λ fault. Some (presign_fault_text fault) };

    fn fmt<W: fmt::Write>(&self, f: &mut fmt::Formatter<W>) -> fmt::Result {
        match self {
            PresignFault::HeaderForm => f.write_str("authorization header"),
            PresignFault::Missing(part) => write!(f, "missing {part}"),
            PresignFault::Repeated(part) => write!(f, "repeated {part}"),
            PresignFault::BadPart(part) => write!(f, "invalid {part}"),
            PresignFault::UnknownKey => f.write_str("unknown key"),
            PresignFault::TooEarly { date } => write!(f, "not valid before {date}"),
            PresignFault::Expired { until } => write!(f, "not valid from {until} on"),
            PresignFault::Mismatch { .. } => f.write_str("another signature than its own"),
            PresignFault::Signing(error) => write!(f, "{error}"),
            PresignFault::NoMemory => f.write_str("no memory"),
        }
    }
}

// The recomputed signature isn't printed: a log that holds it hands out a valid signature for a request that was forged.
impl fmt::Debug for PresignFault {
    ghost use Rattle.std.specs.Prelude.{Some};
    ghost use Rattle.presign_check.specs.Faults.{presign_fault_shown};

    ghost debug_output = { λ fault. Some (presign_fault_shown fault) };

    fn fmt<W: fmt::Write>(&self, f: &mut fmt::Formatter<W>) -> fmt::Result {
        match self {
            PresignFault::HeaderForm => f.write_str("HeaderForm"),
            PresignFault::Missing(part) => {
                let name = part.name();
                write!(f, "Missing({name})")
            }
            PresignFault::Repeated(part) => {
                let name = part.name();
                write!(f, "Repeated({name})")
            }
            PresignFault::BadPart(part) => {
                let name = part.name();
                write!(f, "BadPart({name})")
            }
            PresignFault::UnknownKey => f.write_str("UnknownKey"),
            PresignFault::TooEarly { date } => write!(f, "TooEarly {{ date: {date} }}"),
            PresignFault::Expired { until } => write!(f, "Expired {{ until: {until} }}"),
            PresignFault::Mismatch { .. } => f.write_str("Mismatch { .. }"),
            PresignFault::Signing(error) => write!(f, "Signing({error})"),
            PresignFault::NoMemory => f.write_str("NoMemory"),
        }
    }
}

impl std::error::Error for PresignFault {}

impl From<AllocError> for PresignFault {
    ghost use Rattle.std.specs.Prelude.{◌≡◌};
    ghost use Rattle.presign_check.specs.declared.fault.PresignFault.TheVariants.{NoMemory};

    ghost from_gives = { λ _ fault. fault ≡ NoMemory };

    fn from(_e: AllocError) -> PresignFault {
        PresignFault::NoMemory
    }
}

impl From<UriFault> for PresignFault {
    ghost use Rattle.std.specs.Prelude.{◌≡◌};
    ghost use Rattle.presign_check.specs.Faults.{presign_target_fault};

    ghost from_gives = { λ inner fault. fault ≡ presign_target_fault inner };

    fn from(inner: UriFault) -> PresignFault {
        match inner {
            UriFault::InvalidUri => PresignFault::Signing(SigningError::InvalidUri),
            UriFault::NoMemory => PresignFault::NoMemory,
        }
    }
}
