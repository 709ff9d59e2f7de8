ghost use Rattle.std.specs.Prelude.{◌≡◌, IfOk};
ghost use Rattle.operation_run.specs.declared.fault.OperationFault.TheVariants.{NoMemory};

use crate::transport::SendFault;
use aws_auth::SigV4SigningError;
use aws_intercept::{IdFault, UserAgentFault};
use smithy_core::Mem;
use std::alloc::AllocError;
use std::fmt;

/// Why an operation has no reply.
#[derive(Debug, Drop)]
pub enum OperationFault {
    /// The generator gave no id.
    Id(IdFault),
    /// The user agent isn't sent.
    Agent(UserAgentFault),
    /// The request isn't signed.
    Sign(SigV4SigningError),
    /// The transport failed.
    TransportFault,
    /// Memory ran out.
    NoMemory,
}

impl OperationFault {
    ghost use Rattle.operation_run.specs.Fault.{IsSameOperationFault};

    /// An equal fault.
    pub fn try_clone(&self) -> Mem<OperationFault>
        ensures { IfOk result (IsSameOperationFault self.now) }
    {
        Ok(match self {
            OperationFault::Id(fault) => OperationFault::Id(*fault),
            OperationFault::Agent(fault) => OperationFault::Agent(*fault),
            OperationFault::Sign(error) => OperationFault::Sign(error.try_clone()?),
            OperationFault::TransportFault => OperationFault::TransportFault,
            OperationFault::NoMemory => OperationFault::NoMemory,
        })
    }
}

impl fmt::Display for OperationFault {
    ghost use Rattle.std.specs.Prelude.{Some};
    ghost use Rattle.operation_run.specs.Fault.{operation_fault_text};

    ghost output = { λ fault. Some (operation_fault_text fault) };

    fn fmt<W: fmt::Write>(&self, f: &mut fmt::Formatter<W>) -> fmt::Result {
        match self {
            OperationFault::Id(fault) => write!(f, "{fault}"),
            OperationFault::Agent(fault) => write!(f, "{fault}"),
            OperationFault::Sign(error) => write!(f, "{error}"),
            OperationFault::TransportFault => f.write_str("transport fault"),
            OperationFault::NoMemory => f.write_str("no memory"),
        }
    }
}

impl std::error::Error for OperationFault {}

impl From<IdFault> for OperationFault {
    ghost use Rattle.operation_run.specs.Fault.{no_id};

    ghost from_gives = { λ inner fault. fault ≡ no_id inner };

    fn from(inner: IdFault) -> OperationFault {
        match inner {
            IdFault::NoMemory => OperationFault::NoMemory,
            _ => OperationFault::Id(inner),
        }
    }
}

impl From<UserAgentFault> for OperationFault {
    ghost use Rattle.operation_run.specs.Fault.{no_agent};

    ghost from_gives = { λ inner fault. fault ≡ no_agent inner };

    fn from(inner: UserAgentFault) -> OperationFault {
        match inner {
            UserAgentFault::NoMemory => OperationFault::NoMemory,
            _ => OperationFault::Agent(inner),
        }
    }
}

impl From<SigV4SigningError> for OperationFault {
    ghost use Rattle.operation_run.specs.Fault.{not_signed};

    ghost from_gives = { λ inner fault. fault ≡ not_signed inner };

    fn from(inner: SigV4SigningError) -> OperationFault {
        match inner {
            SigV4SigningError::NoMemory => OperationFault::NoMemory,
            _ => OperationFault::Sign(inner),
        }
    }
}

impl From<SendFault> for OperationFault {
    ghost use Rattle.operation_run.specs.Fault.{not_sent};

    ghost from_gives = { λ inner fault. fault ≡ not_sent inner };

    fn from(inner: SendFault) -> OperationFault {
        match inner {
            SendFault::Failed => OperationFault::TransportFault,
            SendFault::NoMemory => OperationFault::NoMemory,
        }
    }
}

impl From<AllocError> for OperationFault {
    ghost from_gives = { λ _ fault. fault ≡ NoMemory };

    fn from(_e: AllocError) -> OperationFault {
        OperationFault::NoMemory
    }
}
