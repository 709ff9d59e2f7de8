ghost use Rattle.std.specs.Prelude.{◌≡◌};
ghost use Rattle.aws_intercept.specs.declared.id_fault.IdFault.TheVariants.{NoMemory};

use std::alloc::AllocError;
use std::fmt;

/// Why no id is given.
#[derive(Clone, Copy, Debug, PartialEq, Eq)]
pub enum IdFault {
    /// All ids were given.
    UsedUp,
    /// Memory ran out.
    NoMemory,
}

impl fmt::Display for IdFault {
    ghost use Rattle.std.specs.Prelude.{Some};
    ghost use Rattle.aws_intercept.specs.IdFault.{id_fault_text};

    ghost output = { λ fault. Some (id_fault_text fault) };

    fn fmt<W: fmt::Write>(&self, f: &mut fmt::Formatter<W>) -> fmt::Result {
        match self {
            IdFault::UsedUp => f.write_str("all invocation ids were given"),
            IdFault::NoMemory => f.write_str("no memory"),
        }
    }
}

impl std::error::Error for IdFault {}

impl From<AllocError> for IdFault {
    ghost from_gives = { λ _ fault. fault ≡ NoMemory };

    fn from(_e: AllocError) -> IdFault {
        IdFault::NoMemory
    }
}
