ghost use Rattle.std.specs.Prelude.{◌≡◌};
ghost use Rattle.job_text.specs.Fault.{placed};

use std::alloc::{AllocError, AllocFailed};
use std::fmt;

/// Why bytes aren't a job, profile texts or a record; places count from 1.
#[derive(Clone, Copy, Debug, PartialEq, Eq)]
pub enum JobFault {
    /// The line at this place is bad.
    BadLine(usize),
    /// Memory ran out.
    NoMemory,
}

impl fmt::Display for JobFault {
    ghost use Rattle.std.specs.Prelude.{Some};
    ghost use Rattle.job_text.specs.Fault.{job_fault_text};

    ghost output = { λ fault. Some (job_fault_text fault) };

    fn fmt<W: fmt::Write>(&self, f: &mut fmt::Formatter<W>) -> fmt::Result {
        match self {
            JobFault::BadLine(place) => write!(f, "bad line {place}"),
            JobFault::NoMemory => f.write_str("no memory"),
        }
    }
}

impl std::error::Error for JobFault {}

impl From<AllocError> for JobFault {
    ghost use Rattle.std.specs.Prelude.{◌≡◌};
    ghost use Rattle.job_text.specs.declared.fault.JobFault.TheVariants.{NoMemory};

    ghost from_gives = { λ _ fault. fault ≡ NoMemory };

    fn from(_e: AllocError) -> JobFault {
        JobFault::NoMemory
    }
}

/// Why a line can't be taken.
#[derive(Clone, Copy, Debug, PartialEq, Eq)]
pub enum LineFault {
    Bad,
    NoMemory,
}

impl LineFault {
    /// The fault of the line at this place.
    pub fn at(self, place: usize) -> JobFault
        ensures { result ≡ placed place self }
    {
        match self {
            LineFault::Bad => JobFault::BadLine(place),
            LineFault::NoMemory => JobFault::NoMemory,
        }
    }
}

impl From<AllocError> for LineFault {
    ghost use Rattle.std.specs.Prelude.{◌≡◌};
    ghost use Rattle.job_text.specs.declared.fault.LineFault.TheVariants.{NoMemory};

    ghost from_gives = { λ _ fault. fault ≡ NoMemory };

    fn from(_e: AllocError) -> LineFault {
        LineFault::NoMemory
    }
}

impl<T: Drop> From<AllocFailed<T>> for LineFault {
    ghost use Rattle.std.specs.Prelude.{◌≡◌};
    ghost use Rattle.job_text.specs.declared.fault.LineFault.TheVariants.{NoMemory};

    ghost from_gives = { λ _ fault. fault ≡ NoMemory };

    fn from(_e: AllocFailed<T>) -> LineFault {
        LineFault::NoMemory
    }
}
