ghost use Rattle.smithy_http.specs.declared.uri_fault.UriFault.TheVariants.{NoMemory};

use http_uri::UriError;
use std::alloc::AllocError;
use std::fmt;

/// Why a target isn't built.
#[derive(Clone, Copy, Debug, PartialEq, Eq)]
pub enum UriFault {
    /// The text isn't accepted as a target, or passes 65,534 bytes, or has an authority without a scheme.
    InvalidUri,
    /// Memory ran out.
    NoMemory,
}

impl fmt::Display for UriFault {
    ghost use Rattle.std.specs.Prelude.{Some};
    ghost use Rattle.smithy_http.specs.UriFault.{uri_fault_text};

    ghost output = { λ fault. Some (uri_fault_text fault) };

    fn fmt<W: fmt::Write>(&self, f: &mut fmt::Formatter<W>) -> fmt::Result {
        match self {
            UriFault::InvalidUri => f.write_str("invalid target"),
            UriFault::NoMemory => f.write_str("no memory"),
        }
    }
}

impl std::error::Error for UriFault {}

impl From<AllocError> for UriFault {
    ghost use Rattle.std.specs.Prelude.{◌≡◌};

    ghost from_gives = { λ _ fault. fault ≡ NoMemory };

    fn from(_e: AllocError) -> UriFault {
        UriFault::NoMemory
    }
}

impl From<UriError> for UriFault {
    ghost use Rattle.std.specs.Prelude.{◌≡◌};
    ghost use Rattle.smithy_http.specs.UriFault.{uri_fault_of};

    ghost from_gives = { λ e fault. fault ≡ uri_fault_of e };

    fn from(e: UriError) -> UriFault {
        match e {
            UriError::Invalid(_) => UriFault::InvalidUri,
            UriError::OutOfMemory => UriFault::NoMemory,
        }
    }
}
