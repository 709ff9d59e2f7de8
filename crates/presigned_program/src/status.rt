ghost use Rattle.std.specs.Prelude.{◌≡◌, IfOk};

use presign_check::PresignFault;
use signed_stream::{SelectFault, SharedStatus, StreamFault};
use smithy_core::Mem;

/// How a check of a presigned URL ended. [`Debug`](std::fmt::Debug) prints no signature.
#[derive(Debug, Drop)]
pub enum PresignStatus {
    /// The URL is good, and until when was written.
    Done,
    /// The word at this place is bad; places count from 1.
    BadWords(usize),
    /// The input has over 67,108,864 bytes.
    JobTooLarge,
    /// The line at this place is bad; places count from 1.
    BadJob(usize),
    /// The input failed.
    ReadFault,
    /// The file at this path, which a word names, is absent, or the disk failed.
    CouldNotReadFile(String),
    /// The texts or the variables lack what is needed for a check: one of the first three faults of a stream.
    Refused(StreamFault),
    /// The request meets this test first.
    CheckFailed(PresignFault),
    /// The output failed; it holds a prefix of the text.
    OutputFault,
    /// Memory ran out; the output holds a prefix of the text.
    NoMemory,
}

impl PresignStatus {
    ghost use Rattle.presigned_program.specs.PresignStatus.{IsSamePresignStatus, presign_code, presign_ending};

    /// The number that the process ends with.
    pub fn code(&self) -> u8
        ensures { result ≡ presign_code (presign_ending self.now) }
    {
        match self {
            PresignStatus::Done => 0,
            PresignStatus::BadWords(place) => SharedStatus::BadWords(*place).code(),
            PresignStatus::JobTooLarge => SharedStatus::JobTooLarge.code(),
            PresignStatus::BadJob(place) => SharedStatus::BadJob(*place).code(),
            PresignStatus::ReadFault => SharedStatus::ReadFault.code(),
            PresignStatus::CouldNotReadFile(path) => {
                SharedStatus::CouldNotReadFile(path.as_str()).code()
            }
            PresignStatus::Refused(fault) => SharedStatus::Refused(fault).code(),
            PresignStatus::CheckFailed(_) => 8,
            PresignStatus::OutputFault => SharedStatus::OutputFault.code(),
            PresignStatus::NoMemory => SharedStatus::NoMemory.code(),
        }
    }

    /// An equal status.
    pub fn try_clone(&self) -> Mem<PresignStatus>
        ensures { IfOk result (IsSamePresignStatus self.now) }
    {
        Ok(match self {
            PresignStatus::Done => PresignStatus::Done,
            PresignStatus::BadWords(place) => PresignStatus::BadWords(*place),
            PresignStatus::JobTooLarge => PresignStatus::JobTooLarge,
            PresignStatus::BadJob(place) => PresignStatus::BadJob(*place),
            PresignStatus::ReadFault => PresignStatus::ReadFault,
            PresignStatus::CouldNotReadFile(path) => PresignStatus::CouldNotReadFile(path.clone()?),
            PresignStatus::Refused(fault) => PresignStatus::Refused(fault.try_clone()?),
            PresignStatus::CheckFailed(fault) => PresignStatus::CheckFailed(fault.try_clone()?),
            PresignStatus::OutputFault => PresignStatus::OutputFault,
            PresignStatus::NoMemory => PresignStatus::NoMemory,
        })
    }
}

impl From<PresignFault> for PresignStatus {
    ghost use Rattle.std.specs.Prelude.{◌≡◌};
    ghost use Rattle.presigned_program.specs.PresignStatus.{fault_ending, presign_ending};

    ghost from_gives = { λ fault status. presign_ending status ≡ fault_ending fault };

    fn from(fault: PresignFault) -> PresignStatus {
        match fault {
            PresignFault::NoMemory => PresignStatus::NoMemory,
            fault => PresignStatus::CheckFailed(fault),
        }
    }
}

impl From<SelectFault> for PresignStatus {
    ghost use Rattle.std.specs.Prelude.{◌≡◌};
    ghost use Rattle.presigned_program.specs.PresignStatus.{ends, presign_ending};
    ghost use Rattle.signed_stream.specs.Selecting.{selection_ending};

    ghost from_gives = { λ fault status. presign_ending status ≡ ends (selection_ending fault) };

    fn from(fault: SelectFault) -> PresignStatus {
        match fault {
            SelectFault::CouldNotReadFile(path) => PresignStatus::CouldNotReadFile(path),
            SelectFault::ParseError(error) => {
                PresignStatus::Refused(StreamFault::ParseError(error))
            }
            SelectFault::MissingCredentials => {
                PresignStatus::Refused(StreamFault::MissingCredentials)
            }
            SelectFault::MissingSigningRegion => {
                PresignStatus::Refused(StreamFault::MissingSigningRegion)
            }
            SelectFault::NoMemory => PresignStatus::NoMemory,
        }
    }
}
