ghost use Rattle.smithy_http.specs.Merge.{Merges};

use http_header::{HeaderMap, HeaderMapError, HeaderValue};
use std::alloc::{AllocError, Global};
use std::fmt;

/// Why header maps aren't merged.
#[derive(Clone, Copy, Debug, PartialEq, Eq)]
pub enum MergeFault {
    /// The map has no room for a name or a value more.
    MaxSizeReached,
    /// Memory ran out.
    NoMemory,
}

impl fmt::Display for MergeFault {
    ghost use Rattle.std.specs.Prelude.{Some};
    ghost use Rattle.smithy_http.specs.Merge.{merge_fault_text};

    ghost output = { λ fault. Some (merge_fault_text fault) };

    fn fmt<W: fmt::Write>(&self, f: &mut fmt::Formatter<W>) -> fmt::Result {
        match self {
            MergeFault::MaxSizeReached => f.write_str("too many headers"),
            MergeFault::NoMemory => f.write_str("no memory"),
        }
    }
}

impl std::error::Error for MergeFault {}

impl From<AllocError> for MergeFault {
    ghost use Rattle.std.specs.Prelude.{◌≡◌};
    ghost use Rattle.smithy_http.specs.declared.merge.MergeFault.TheVariants.{NoMemory};

    ghost from_gives = { λ _ fault. fault ≡ NoMemory };

    fn from(_e: AllocError) -> MergeFault {
        MergeFault::NoMemory
    }
}

impl From<HeaderMapError> for MergeFault {
    ghost use Rattle.std.specs.Prelude.{◌≡◌};
    ghost use Rattle.smithy_http.specs.Merge.{merge_fault_of};

    ghost from_gives = { λ error fault. fault ≡ merge_fault_of error };

    fn from(e: HeaderMapError) -> MergeFault {
        match e {
            HeaderMapError::MaxSizeReached => MergeFault::MaxSizeReached,
            HeaderMapError::OutOfMemory => MergeFault::NoMemory,
        }
    }
}

/// The first map with each value of the second appended under its name, in order.
///
/// # Errors
///
/// [`MergeFault::MaxSizeReached`] exactly where the map is full before all values are in.
pub fn append_merge_header_maps(
    _alloc: Global,
    lhs: HeaderMap<HeaderValue>,
    rhs: HeaderMap<HeaderValue>,
) -> Result<HeaderMap<HeaderValue>, MergeFault>
    ensures { Merges lhs rhs result }
{
    let mut merged = lhs;
    for (name, value) in rhs.iter() {
        merged.append(name, value.clone()?)?;
    }
    Ok(merged)
}
