ghost use Rattle.std.specs.Prelude.{◌≡◌, IfOk};

use signed_stream::{SelectFault, SharedStatus, StreamFault};
use smithy_core::Mem;
use std::alloc::AllocError;

/// How a run ended.
#[derive(Debug, PartialEq, Eq, Drop)]
pub enum OperationStatus {
    /// All was written.
    Done,
    /// The word at this place is bad; places count from 1.
    BadWords(usize),
    /// The input has over 67,108,864 bytes.
    JobTooLarge,
    /// The line at this place is bad; places count from 1.
    BadJob(usize),
    /// The input failed.
    ReadFault,
    /// The file at this path, which a word names, is absent, or the disk failed.
    CouldNotReadFile(String),
    /// Nothing is selected, or an attempt's request isn't signed; nothing was written.
    Refused(StreamFault),
    /// The output failed; it holds a prefix of the text.
    OutputFault,
    /// Memory ran out; the output holds a prefix of the text.
    NoMemory,
    /// The replies are used up, and each is worth one attempt more; nothing was written.
    TransportFault,
}

impl OperationStatus {
    ghost use Rattle.operation_program.specs.Status.{operation_code, operation_ending};

    /// The number that the process ends with.
    pub fn code(&self) -> u8
        ensures { result ≡ operation_code (operation_ending self.now) }
    {
        match self {
            OperationStatus::Done => 0,
            OperationStatus::BadWords(place) => SharedStatus::BadWords(*place).code(),
            OperationStatus::JobTooLarge => SharedStatus::JobTooLarge.code(),
            OperationStatus::BadJob(place) => SharedStatus::BadJob(*place).code(),
            OperationStatus::ReadFault => SharedStatus::ReadFault.code(),
            OperationStatus::CouldNotReadFile(path) => {
                SharedStatus::CouldNotReadFile(path.as_str()).code()
            }
            OperationStatus::Refused(fault) => SharedStatus::Refused(fault).code(),
            OperationStatus::OutputFault => SharedStatus::OutputFault.code(),
            OperationStatus::NoMemory => SharedStatus::NoMemory.code(),
            OperationStatus::TransportFault => 12,
        }
    }

    /// An equal status.
    pub fn try_clone(&self) -> Mem<OperationStatus>
        ensures { IfOk result (λ copy. operation_ending copy ≡ operation_ending self.now) }
    {
        Ok(match self {
            OperationStatus::Done => OperationStatus::Done,
            OperationStatus::BadWords(place) => OperationStatus::BadWords(*place),
            OperationStatus::JobTooLarge => OperationStatus::JobTooLarge,
            OperationStatus::BadJob(place) => OperationStatus::BadJob(*place),
            OperationStatus::ReadFault => OperationStatus::ReadFault,
            OperationStatus::CouldNotReadFile(path) => {
                OperationStatus::CouldNotReadFile(path.clone()?)
            }
            OperationStatus::Refused(fault) => OperationStatus::Refused(fault.try_clone()?),
            OperationStatus::OutputFault => OperationStatus::OutputFault,
            OperationStatus::NoMemory => OperationStatus::NoMemory,
            OperationStatus::TransportFault => OperationStatus::TransportFault,
        })
    }
}

impl From<AllocError> for OperationStatus {
    ghost use Rattle.std.specs.Prelude.{◌≡◌};
    ghost use Rattle.operation_program.specs.declared.status.OperationStatus.TheVariants.{NoMemory};

    ghost from_gives = { λ _ status. status ≡ NoMemory };

    fn from(_e: AllocError) -> OperationStatus {
        OperationStatus::NoMemory
    }
}

impl From<SelectFault> for OperationStatus {
    ghost use Rattle.std.specs.Prelude.{◌≡◌};
    ghost use Rattle.signed_stream.specs.Selecting.{selection_ending};
    ghost use Rattle.operation_program.specs.Status.{operation_ending, usual};

    ghost from_gives = { λ fault status. operation_ending status ≡ usual (selection_ending fault) };

    fn from(fault: SelectFault) -> OperationStatus {
        match fault {
            SelectFault::CouldNotReadFile(path) => OperationStatus::CouldNotReadFile(path),
            SelectFault::ParseError(error) => {
                OperationStatus::Refused(StreamFault::ParseError(error))
            }
            SelectFault::MissingCredentials => {
                OperationStatus::Refused(StreamFault::MissingCredentials)
            }
            SelectFault::MissingSigningRegion => {
                OperationStatus::Refused(StreamFault::MissingSigningRegion)
            }
            SelectFault::NoMemory => OperationStatus::NoMemory,
        }
    }
}

impl From<StreamFault> for OperationStatus {
    ghost use Rattle.std.specs.Prelude.{◌≡◌};
    ghost use Rattle.signed_stream.specs.Status.{stream_ending};
    ghost use Rattle.operation_program.specs.Status.{operation_ending, usual};

    ghost from_gives = { λ fault status. operation_ending status ≡ usual (stream_ending fault) };

    fn from(fault: StreamFault) -> OperationStatus {
        match fault {
            StreamFault::SinkFault => OperationStatus::OutputFault,
            StreamFault::NoMemory => OperationStatus::NoMemory,
            fault => OperationStatus::Refused(fault),
        }
    }
}
