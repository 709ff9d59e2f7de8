//! How a run ends.
use awsign_run::{Fault, Status};
use env_config::EnvConfigFileLoadError;
use request_door::DoorFault;
use smithy_core::{ReadFault, SinkError};
use std::alloc::AllocError;

/// How a run ended.
#[derive(Debug, Drop)]
pub enum VerifyStatus {
    /// As a run of the other commands ends. Where it is done, the request is good, and who signed it was printed.
    Ended(Status),
    /// The line of the input at this place is bad, or missing; places count from 1.
    BadLine(usize),
    /// The input couldn't be read.
    InputFault,
    /// The input has over 64 MiB.
    TooLarge,
    /// The request has this fault, the first in the order of [`admit`](request_door::admit).
    Wrong(DoorFault),
}

impl VerifyStatus {
    ghost use Rattle.std.specs.Prelude.{◌≡◌};
    ghost use Rattle.awsign_verify.specs.VerifySaying.{verify_code};

    /// The number that the process ends with: 0, 1 where the request isn't good or there is nothing to check it with, 3 where a file, the
    /// input, the output or memory failed.
    pub fn code(&self) -> u8
        ensures { result ≡ verify_code self.now }
    {
        match self {
            VerifyStatus::Ended(status) => status.code(),
            VerifyStatus::BadLine(_) | VerifyStatus::Wrong(_) => 1,
            VerifyStatus::InputFault | VerifyStatus::TooLarge => 3,
        }
    }
}

impl From<AllocError> for VerifyStatus {
    ghost use Rattle.std.specs.Prelude.{◌≡◌};
    ghost use Rattle.awsign_run.specs.declared.status.Status.TheVariants.{NoMemory};
    ghost use Rattle.awsign_verify.specs.declared.status.VerifyStatus.TheVariants.{Ended};

    ghost from_gives = { λ _ status. status ≡ Ended NoMemory };

    fn from(_e: AllocError) -> VerifyStatus {
        VerifyStatus::Ended(Status::NoMemory)
    }
}

impl From<ReadFault> for VerifyStatus {
    ghost use Rattle.std.specs.Prelude.{◌≡◌};
    ghost use Rattle.awsign_verify.specs.VerifyRun.{read_verify_status};

    ghost from_gives = { λ fault status. status ≡ read_verify_status fault };

    fn from(fault: ReadFault) -> VerifyStatus {
        match fault {
            ReadFault::Failed => VerifyStatus::InputFault,
            ReadFault::TooLarge => VerifyStatus::TooLarge,
            ReadFault::NoMemory => VerifyStatus::Ended(Status::NoMemory),
        }
    }
}

impl From<EnvConfigFileLoadError> for VerifyStatus {
    ghost use Rattle.std.specs.Prelude.{◌≡◌};
    ghost use Rattle.awsign_run.specs.Status.{load_status};
    ghost use Rattle.awsign_verify.specs.declared.status.VerifyStatus.TheVariants.{Ended};

    ghost from_gives = { λ fault status. status ≡ Ended (load_status fault) };

    fn from(fault: EnvConfigFileLoadError) -> VerifyStatus {
        VerifyStatus::Ended(Status::from(fault))
    }
}

impl From<Fault> for VerifyStatus {
    ghost use Rattle.std.specs.Prelude.{◌≡◌};
    ghost use Rattle.awsign_run.specs.Status.{fault_status};
    ghost use Rattle.awsign_verify.specs.declared.status.VerifyStatus.TheVariants.{Ended};

    ghost from_gives = { λ fault status. status ≡ Ended (fault_status fault) };

    fn from(fault: Fault) -> VerifyStatus {
        VerifyStatus::Ended(Status::from(fault))
    }
}

impl From<SinkError> for VerifyStatus {
    ghost use Rattle.std.specs.Prelude.{◌≡◌};
    ghost use Rattle.awsign_run.specs.Status.{sink_status};
    ghost use Rattle.awsign_verify.specs.declared.status.VerifyStatus.TheVariants.{Ended};

    ghost from_gives = { λ fault status. status ≡ Ended (sink_status fault) };

    fn from(fault: SinkError) -> VerifyStatus {
        VerifyStatus::Ended(Status::from(fault))
    }
}

impl From<DoorFault> for VerifyStatus {
    ghost use Rattle.std.specs.Prelude.{◌≡◌};
    ghost use Rattle.awsign_verify.specs.Verify.{door_verify_status};

    ghost from_gives = { λ fault status. status ≡ door_verify_status fault };

    fn from(fault: DoorFault) -> VerifyStatus {
        match fault {
            DoorFault::NoMemory => VerifyStatus::Ended(Status::NoMemory),
            fault => VerifyStatus::Wrong(fault),
        }
    }
}
