//! How a run ends.
ghost use Rattle.std.specs.Prelude.{◌≡◌};

use crate::fault::Fault;
use env_config::EnvConfigFileLoadError;
use job_text::WordsFault;
use smithy_core::{ReadFault, SinkError};
use std::alloc::AllocError;

/// How a run ended.
#[derive(Debug, Drop)]
pub enum Status {
    /// All was printed.
    Done,
    /// The word at this place is bad, or missing; places count from 1.
    BadWord(usize),
    /// The profile file at this path, which an option names, is absent, or the disk failed.
    CouldNotReadFile(String),
    /// The data couldn't be read.
    DataFault,
    /// Nothing is signed.
    Refused(Fault),
    /// The output failed; it holds a prefix of the text.
    OutputFault,
    /// Memory ran out; the output holds a prefix of the text.
    NoMemory,
}

impl Status {
    ghost use Rattle.awsign_run.specs.Status.{status_code};

    /// The number that the process ends with: 0, 1 where nothing is signed, 2 for a bad word, 3 where a file, the output or memory failed.
    pub fn code(&self) -> u8
        ensures { result ≡ status_code self.now }
    {
        match self {
            Status::Done => 0,
            Status::Refused(_) => 1,
            Status::BadWord(_) => 2,
            Status::CouldNotReadFile(_)
            | Status::DataFault
            | Status::OutputFault
            | Status::NoMemory => 3,
        }
    }
}

impl From<AllocError> for Status {
    ghost use Rattle.std.specs.Prelude.{◌≡◌};
    ghost use Rattle.awsign_run.specs.declared.status.Status.TheVariants.{NoMemory};

    ghost from_gives = { λ _ status. status ≡ NoMemory };

    fn from(_e: AllocError) -> Status {
        Status::NoMemory
    }
}

impl From<WordsFault> for Status {
    ghost use Rattle.std.specs.Prelude.{◌≡◌};
    ghost use Rattle.awsign_run.specs.Status.{words_status};

    ghost from_gives = { λ fault status. status ≡ words_status fault };

    fn from(fault: WordsFault) -> Status {
        match fault {
            WordsFault::BadWord(place) => Status::BadWord(place),
            WordsFault::NoMemory => Status::NoMemory,
        }
    }
}

impl From<EnvConfigFileLoadError> for Status {
    ghost use Rattle.std.specs.Prelude.{◌≡◌};
    ghost use Rattle.awsign_run.specs.Status.{load_status};

    ghost from_gives = { λ fault status. status ≡ load_status fault };

    fn from(fault: EnvConfigFileLoadError) -> Status {
        match fault {
            EnvConfigFileLoadError::ParseError(error) => Status::Refused(Fault::Profile(error)),
            EnvConfigFileLoadError::CouldNotReadFile(fault) => Status::CouldNotReadFile(fault.path),
            EnvConfigFileLoadError::NoMemory => Status::NoMemory,
        }
    }
}

impl From<ReadFault> for Status {
    ghost use Rattle.std.specs.Prelude.{◌≡◌};
    ghost use Rattle.awsign_run.specs.Status.{read_status};

    ghost from_gives = { λ fault status. status ≡ read_status fault };

    fn from(fault: ReadFault) -> Status {
        match fault {
            ReadFault::Failed | ReadFault::TooLarge => Status::DataFault,
            ReadFault::NoMemory => Status::NoMemory,
        }
    }
}

impl From<Fault> for Status {
    ghost use Rattle.std.specs.Prelude.{◌≡◌};
    ghost use Rattle.awsign_run.specs.Status.{fault_status};

    ghost from_gives = { λ fault status. status ≡ fault_status fault };

    fn from(fault: Fault) -> Status {
        match fault {
            Fault::NoMemory => Status::NoMemory,
            fault => Status::Refused(fault),
        }
    }
}

impl From<SinkError> for Status {
    ghost use Rattle.std.specs.Prelude.{◌≡◌};
    ghost use Rattle.awsign_run.specs.Status.{sink_status};

    ghost from_gives = { λ fault status. status ≡ sink_status fault };

    fn from(fault: SinkError) -> Status {
        match fault {
            SinkError::Failed => Status::OutputFault,
            SinkError::NoMemory => Status::NoMemory,
        }
    }
}
