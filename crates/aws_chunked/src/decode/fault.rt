ghost use Rattle.std.specs.Prelude.{◌≡◌, length};
ghost use Rattle.aws_chunked.specs.declared.decode.fault.PartFault.TheVariants.{Bad};

use std::alloc::{AllocError, AllocFailed};

// Why a part of a text isn't read.
#[derive(Drop)]
pub(crate) enum PartFault {
    // No text goes on with the bytes of which so many are left.
    Bad { left: usize },
    // Memory ran out.
    NoMemory,
}

// No text goes on with these bytes.
pub(crate) fn bad_at(rest: &[u8]) -> PartFault
    ensures { result ≡ Bad (length rest.now) }
{
    PartFault::Bad { left: rest.len() }
}

impl From<AllocError> for PartFault {
    ghost use Rattle.std.specs.Prelude.{◌≡◌};
    ghost use Rattle.aws_chunked.specs.declared.decode.fault.PartFault.TheVariants.{NoMemory};

    ghost from_gives = { λ _ fault. fault ≡ NoMemory };

    fn from(_e: AllocError) -> PartFault {
        PartFault::NoMemory
    }
}

impl<T: Drop> From<AllocFailed<T>> for PartFault {
    ghost use Rattle.std.specs.Prelude.{◌≡◌};
    ghost use Rattle.aws_chunked.specs.declared.decode.fault.PartFault.TheVariants.{NoMemory};

    ghost from_gives = { λ _ fault. fault ≡ NoMemory };

    fn from(_e: AllocFailed<T>) -> PartFault {
        PartFault::NoMemory
    }
}
