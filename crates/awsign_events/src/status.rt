//! How a run ends.
use awsign_run::{Fault, Status};
use chain_watch::ChainFault;
use env_config::EnvConfigFileLoadError;
use eventstream::Error;
use job_text::JobFault;
use smithy_core::{ReadFault, SinkError};
use std::alloc::AllocError;

/// How a run ended. Places count from 1.
#[derive(Debug, Drop)]
pub enum EventsStatus {
    /// As a run of the other commands ends.
    Ended(Status),
    /// The frame at this place is none, for this reason.
    WrongFrame(u64, Error),
    /// The bytes end within the frame at this place.
    CutShort(u64),
    /// Lines can't spell a header of the frame at this place.
    Unspelled(u64),
    /// A frame isn't the next one of the chain, or the chain isn't whole.
    Unverified(ChainFault),
    /// The line of the input at this place is bad.
    BadLine(usize),
    /// The event at this place has no frame, for this reason.
    Unframed(usize, Error),
    /// The input couldn't be read.
    InputFault,
    /// The input has over 64 MiB, and isn't read frame by frame.
    TooLarge,
}

impl EventsStatus {
    ghost use Rattle.std.specs.Prelude.{◌≡◌};
    ghost use Rattle.awsign_events.specs.EventsStatus.{events_code};

    /// The number that the process ends with: 0, 1 where the input is refused or there is nothing to verify it with, 3 where a file, the
    /// input, the output or memory failed.
    pub fn code(&self) -> u8
        ensures { result ≡ events_code self.now }
    {
        match self {
            EventsStatus::Ended(status) => status.code(),
            EventsStatus::WrongFrame(_, _)
            | EventsStatus::CutShort(_)
            | EventsStatus::Unspelled(_)
            | EventsStatus::Unverified(_)
            | EventsStatus::BadLine(_)
            | EventsStatus::Unframed(_, _) => 1,
            EventsStatus::InputFault | EventsStatus::TooLarge => 3,
        }
    }
}

impl From<AllocError> for EventsStatus {
    ghost use Rattle.std.specs.Prelude.{◌≡◌};
    ghost use Rattle.awsign_run.specs.declared.status.Status.TheVariants.{NoMemory};
    ghost use Rattle.awsign_events.specs.declared.status.EventsStatus.TheVariants.{Ended};

    ghost from_gives = { λ _ status. status ≡ Ended NoMemory };

    fn from(_e: AllocError) -> EventsStatus {
        EventsStatus::Ended(Status::NoMemory)
    }
}

impl From<SinkError> for EventsStatus {
    ghost use Rattle.std.specs.Prelude.{◌≡◌};
    ghost use Rattle.awsign_run.specs.Status.{sink_status};
    ghost use Rattle.awsign_events.specs.declared.status.EventsStatus.TheVariants.{Ended};

    ghost from_gives = { λ fault status. status ≡ Ended (sink_status fault) };

    fn from(fault: SinkError) -> EventsStatus {
        EventsStatus::Ended(Status::from(fault))
    }
}

impl From<ReadFault> for EventsStatus {
    ghost use Rattle.std.specs.Prelude.{◌≡◌};
    ghost use Rattle.awsign_events.specs.EventsStatus.{read_events_status};

    ghost from_gives = { λ fault status. status ≡ read_events_status fault };

    fn from(fault: ReadFault) -> EventsStatus {
        match fault {
            ReadFault::Failed => EventsStatus::InputFault,
            ReadFault::TooLarge => EventsStatus::TooLarge,
            ReadFault::NoMemory => EventsStatus::Ended(Status::NoMemory),
        }
    }
}

impl From<JobFault> for EventsStatus {
    ghost use Rattle.std.specs.Prelude.{◌≡◌};
    ghost use Rattle.awsign_events.specs.EventsStatus.{line_status};

    ghost from_gives = { λ fault status. status ≡ line_status fault };

    fn from(fault: JobFault) -> EventsStatus {
        match fault {
            JobFault::BadLine(place) => EventsStatus::BadLine(place),
            JobFault::NoMemory => EventsStatus::Ended(Status::NoMemory),
        }
    }
}

impl From<EnvConfigFileLoadError> for EventsStatus {
    ghost use Rattle.std.specs.Prelude.{◌≡◌};
    ghost use Rattle.awsign_run.specs.Status.{load_status};
    ghost use Rattle.awsign_events.specs.declared.status.EventsStatus.TheVariants.{Ended};

    ghost from_gives = { λ fault status. status ≡ Ended (load_status fault) };

    fn from(fault: EnvConfigFileLoadError) -> EventsStatus {
        EventsStatus::Ended(Status::from(fault))
    }
}

impl From<Fault> for EventsStatus {
    ghost use Rattle.std.specs.Prelude.{◌≡◌};
    ghost use Rattle.awsign_run.specs.Status.{fault_status};
    ghost use Rattle.awsign_events.specs.declared.status.EventsStatus.TheVariants.{Ended};

    ghost from_gives = { λ fault status. status ≡ Ended (fault_status fault) };

    fn from(fault: Fault) -> EventsStatus {
        EventsStatus::Ended(Status::from(fault))
    }
}

impl From<ChainFault> for EventsStatus {
    ghost use Rattle.std.specs.Prelude.{◌≡◌};
    ghost use Rattle.awsign_events.specs.EventsStatus.{chain_status};

    ghost from_gives = { λ fault status. status ≡ chain_status fault };

    fn from(fault: ChainFault) -> EventsStatus {
        match fault {
            ChainFault::NoMemory => EventsStatus::Ended(Status::NoMemory),
            fault => EventsStatus::Unverified(fault),
        }
    }
}
