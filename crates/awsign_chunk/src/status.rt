//! How a run ends.
ghost use Rattle.std.specs.Prelude.{◌≡◌};

use aws_chunked::AnnounceFault;
use awsign_run::{Fault, Status};
use sigv4::SigningError;
use smithy_core::{ReadFault, SinkError};
use std::alloc::AllocError;

/// How a run ended.
#[derive(Debug, Drop)]
pub enum ChunkStatus {
    /// As a run of the other commands ends.
    Ended(Status),
    /// A trailer is outside the grammar of headers.
    UnfitTrailer(SigningError),
    /// The body can't be announced.
    Unannounced(AnnounceFault),
    /// Data that has to be held has over 4,294,967,295 bytes.
    DataTooLong,
    /// The data has another length than was announced; the file holds a prefix of the body.
    DataChanged,
    /// The file of the body failed; it holds a prefix of the body.
    FileFault,
}

impl ChunkStatus {
    ghost use Rattle.awsign_chunk.specs.ChunkSaying.{chunk_status_code};

    /// The number that the process ends with: 0, 1 where nothing is signed, 3 where a file, the output or memory failed.
    pub fn code(&self) -> u8
        ensures { result ≡ chunk_status_code self.now }
    {
        match self {
            ChunkStatus::Ended(status) => status.code(),
            ChunkStatus::UnfitTrailer(_) | ChunkStatus::Unannounced(_) => 1,
            ChunkStatus::DataTooLong | ChunkStatus::DataChanged | ChunkStatus::FileFault => 3,
        }
    }
}

impl From<AllocError> for ChunkStatus {
    ghost use Rattle.std.specs.Prelude.{◌≡◌};
    ghost use Rattle.awsign_chunk.specs.ChunkRun.{no_memory_left};

    ghost from_gives = { λ _ status. status ≡ no_memory_left };

    fn from(_e: AllocError) -> ChunkStatus {
        ChunkStatus::Ended(Status::NoMemory)
    }
}

impl From<ReadFault> for ChunkStatus {
    ghost use Rattle.std.specs.Prelude.{◌≡◌};
    ghost use Rattle.awsign_chunk.specs.ChunkRun.{unread_status};

    ghost from_gives = { λ fault status. status ≡ unread_status fault };

    fn from(fault: ReadFault) -> ChunkStatus {
        match fault {
            ReadFault::Failed => ChunkStatus::Ended(Status::DataFault),
            ReadFault::TooLarge => ChunkStatus::DataTooLong,
            ReadFault::NoMemory => ChunkStatus::Ended(Status::NoMemory),
        }
    }
}

impl From<SinkError> for ChunkStatus {
    ghost use Rattle.std.specs.Prelude.{◌≡◌};
    ghost use Rattle.awsign_chunk.specs.ChunkRun.{unwritten_status};

    ghost from_gives = { λ fault status. status ≡ unwritten_status fault };

    fn from(fault: SinkError) -> ChunkStatus {
        match fault {
            SinkError::Failed => ChunkStatus::FileFault,
            SinkError::NoMemory => ChunkStatus::Ended(Status::NoMemory),
        }
    }
}

impl From<AnnounceFault> for ChunkStatus {
    ghost use Rattle.std.specs.Prelude.{◌≡◌};
    ghost use Rattle.awsign_chunk.specs.Sent.{unannounced_status};

    ghost from_gives = { λ fault status. status ≡ unannounced_status fault };

    fn from(fault: AnnounceFault) -> ChunkStatus {
        match fault {
            AnnounceFault::NoMemory => ChunkStatus::Ended(Status::NoMemory),
            fault => ChunkStatus::Unannounced(fault),
        }
    }
}

impl From<Fault> for ChunkStatus {
    ghost use Rattle.std.specs.Prelude.{◌≡◌};
    ghost use Rattle.awsign_run.specs.Status.{fault_status};
    ghost use Rattle.awsign_chunk.specs.declared.status.ChunkStatus.TheVariants.{Ended};

    ghost from_gives = { λ fault status. status ≡ Ended (fault_status fault) };

    fn from(fault: Fault) -> ChunkStatus {
        ChunkStatus::Ended(Status::from(fault))
    }
}
