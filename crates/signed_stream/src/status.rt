ghost use Rattle.std.specs.Prelude.{◌≡◌, IfOk};
ghost use Rattle.signed_stream.specs.Status.{ended};
ghost use Rattle.signed_stream.specs.Status.{ending_of};

use crate::settings::SettingsFault;
use crate::sources::SelectFault;
use chain_watch::ChainFault;
use env_config::EnvConfigParseError;
use sigv4::ValuePlace;
use smithy_core::{Mem, Moment};
use std::alloc::AllocError;

/// Why a stream was refused.
#[derive(Debug, PartialEq, Eq, Drop)]
pub enum StreamFault {
    /// A line of a profile file is outside the grammar: the first one of the first faulty file.
    ParseError(EnvConfigParseError),
    /// The selected profile lacks `aws_access_key_id` or `aws_secret_access_key`.
    MissingCredentials,
    /// No place gives a region.
    MissingSigningRegion,
    /// The moment of the request, of an event or of the closing frame lies outside the years 0 to 9999.
    MomentOutOfRange(Moment),
    /// The target isn't accepted, or has an authority without a scheme; or it is `*`, or passes 65,534 bytes, and the
    /// signature goes into its query.
    InvalidUri,
    /// The name of the request's header at this place is outside the grammar of header names; places count from 1.
    InvalidHeaderName(usize),
    /// The text at this place is outside the grammar of header values.
    InvalidHeaderValue(ValuePlace),
    /// Neither the target nor a header has a host.
    MissingHost,
    /// The name that is asked for the session token is reserved, or is no header name in lower case where it is a
    /// header's.
    InvalidTokenName,
    /// The signature goes into the query, and no expiry is given.
    MissingExpires,
    /// The event at this place has a header name over 255 bytes; places count from 1.
    InvalidHeaderNameLength(usize),
    /// The event at this place has a byte array or a text over 32,767 bytes.
    HeaderValueTooLong(usize),
    /// The event at this place has a timestamp whose floored milliseconds leave i64.
    TimestampValueTooLarge(usize),
    /// The header block of the event at this place passes 4,294,967,295 bytes.
    HeadersTooLong(usize),
    /// The payload of the event at this place, or of its signed message, passes 4,294,967,295 bytes.
    PayloadTooLong(usize),
    /// The frame of the event at this place, or of its signed message, passes 4,294,967,295 bytes.
    MessageTooLong(usize),
    /// The sink failed, and counted it.
    SinkFault,
    /// Memory ran out.
    NoMemory,
}

impl StreamFault {
    ghost use Rattle.signed_stream.specs.Status.{run_fault};

    /// An equal fault.
    pub fn try_clone(&self) -> Mem<StreamFault>
        ensures { IfOk result (λ copy. run_fault copy ≡ run_fault self.now) }
    {
        Ok(match self {
            StreamFault::ParseError(error) => StreamFault::ParseError(error.try_clone()?),
            StreamFault::MissingCredentials => StreamFault::MissingCredentials,
            StreamFault::MissingSigningRegion => StreamFault::MissingSigningRegion,
            StreamFault::MomentOutOfRange(moment) => StreamFault::MomentOutOfRange(*moment),
            StreamFault::InvalidUri => StreamFault::InvalidUri,
            StreamFault::InvalidHeaderName(place) => StreamFault::InvalidHeaderName(*place),
            StreamFault::InvalidHeaderValue(place) => StreamFault::InvalidHeaderValue(*place),
            StreamFault::MissingHost => StreamFault::MissingHost,
            StreamFault::InvalidTokenName => StreamFault::InvalidTokenName,
            StreamFault::MissingExpires => StreamFault::MissingExpires,
            StreamFault::InvalidHeaderNameLength(place) => {
                StreamFault::InvalidHeaderNameLength(*place)
            }
            StreamFault::HeaderValueTooLong(place) => StreamFault::HeaderValueTooLong(*place),
            StreamFault::TimestampValueTooLarge(place) => {
                StreamFault::TimestampValueTooLarge(*place)
            }
            StreamFault::HeadersTooLong(place) => StreamFault::HeadersTooLong(*place),
            StreamFault::PayloadTooLong(place) => StreamFault::PayloadTooLong(*place),
            StreamFault::MessageTooLong(place) => StreamFault::MessageTooLong(*place),
            StreamFault::SinkFault => StreamFault::SinkFault,
            StreamFault::NoMemory => StreamFault::NoMemory,
        })
    }
}

impl From<AllocError> for StreamFault {
    ghost use Rattle.std.specs.Prelude.{◌≡◌};
    ghost use Rattle.signed_stream.specs.declared.status.StreamFault.TheVariants.{NoMemory};

    ghost from_gives = { λ _ fault. fault ≡ NoMemory };

    fn from(_e: AllocError) -> StreamFault {
        StreamFault::NoMemory
    }
}

impl From<SettingsFault> for StreamFault {
    ghost use Rattle.std.specs.Prelude.{◌≡◌};
    ghost use Rattle.signed_stream.specs.Status.{settings_ending, stream_ending};

    ghost from_gives = { λ fault result. stream_ending result ≡ settings_ending fault };

    fn from(fault: SettingsFault) -> StreamFault {
        match fault {
            SettingsFault::ParseError(error) => StreamFault::ParseError(error),
            SettingsFault::MissingCredentials => StreamFault::MissingCredentials,
            SettingsFault::MissingSigningRegion => StreamFault::MissingSigningRegion,
            SettingsFault::NoMemory => StreamFault::NoMemory,
        }
    }
}

/// Why a record isn't what it ought to be.
#[derive(Clone, Copy, Debug, PartialEq, Eq)]
pub enum CheckFault {
    /// The request carries no signature for the region and the service's name.
    NoSignature,
    /// The frames aren't the chain over that signature.
    Chain(ChainFault),
}

/// How a run ended.
#[derive(Debug, PartialEq, Eq, Drop)]
pub enum Status {
    /// All was written.
    Done,
    /// The word at this place is bad; places count from 1.
    BadWords(usize),
    /// The input has over 67,108,864 bytes.
    JobTooLarge,
    /// The line at this place is bad; places count from 1.
    BadJob(usize),
    /// The input failed.
    ReadFault,
    /// The file at this path, which a word names, is absent, or the disk failed.
    CouldNotReadFile(String),
    /// The command can't be done; where an event is at fault, the output holds the head and the frames of the events
    /// before it.
    Refused(StreamFault),
    /// The record doesn't pass the check.
    CheckFailed(CheckFault),
    /// The output failed; it holds a prefix of the text.
    OutputFault,
    /// Memory ran out; the output holds a prefix of the text.
    NoMemory,
}

impl Status {
    ghost use Rattle.signed_stream.specs.Status.{ending_of, exit_code};

    /// The number that the process ends with.
    pub fn code(&self) -> u8
        ensures { result ≡ exit_code (ending_of self.now) }
    {
        match self {
            Status::Done => 0,
            Status::BadWords(_) => 2,
            Status::JobTooLarge => 3,
            Status::BadJob(_) => 4,
            Status::ReadFault => 5,
            Status::CouldNotReadFile(_) => 6,
            Status::Refused(_) => 7,
            Status::CheckFailed(_) => 8,
            Status::OutputFault => 9,
            Status::NoMemory => 10,
        }
    }

    /// An equal status.
    pub fn try_clone(&self) -> Mem<Status>
        ensures { IfOk result (λ copy. ending_of copy ≡ ending_of self.now) }
    {
        Ok(match self {
            Status::Done => Status::Done,
            Status::BadWords(place) => Status::BadWords(*place),
            Status::JobTooLarge => Status::JobTooLarge,
            Status::BadJob(place) => Status::BadJob(*place),
            Status::ReadFault => Status::ReadFault,
            Status::CouldNotReadFile(path) => Status::CouldNotReadFile(path.clone()?),
            Status::Refused(fault) => Status::Refused(fault.try_clone()?),
            Status::CheckFailed(fault) => Status::CheckFailed(*fault),
            Status::OutputFault => Status::OutputFault,
            Status::NoMemory => Status::NoMemory,
        })
    }
}

impl From<AllocError> for Status {
    ghost use Rattle.std.specs.Prelude.{◌≡◌};
    ghost use Rattle.signed_stream.specs.declared.status.Status.TheVariants.{NoMemory};

    ghost from_gives = { λ _ status. status ≡ NoMemory };

    fn from(_e: AllocError) -> Status {
        Status::NoMemory
    }
}

impl From<ChainFault> for Status {
    ghost use Rattle.std.specs.Prelude.{◌≡◌};
    ghost use Rattle.signed_stream.specs.Status.{chain_ending, ending_of};

    ghost from_gives = { λ fault status. ending_of status ≡ chain_ending fault };

    fn from(fault: ChainFault) -> Status {
        match fault {
            ChainFault::NoMemory => Status::NoMemory,
            fault => Status::CheckFailed(CheckFault::Chain(fault)),
        }
    }
}

impl From<StreamFault> for Status {
    ghost use Rattle.std.specs.Prelude.{◌≡◌};
    ghost use Rattle.signed_stream.specs.Status.{ending_of, stream_ending};

    ghost from_gives = { λ fault status. ending_of status ≡ stream_ending fault };

    fn from(fault: StreamFault) -> Status {
        match fault {
            StreamFault::SinkFault => Status::OutputFault,
            StreamFault::NoMemory => Status::NoMemory,
            fault => Status::Refused(fault),
        }
    }
}

impl From<SelectFault> for Status {
    ghost use Rattle.std.specs.Prelude.{◌≡◌};
    ghost use Rattle.signed_stream.specs.Selecting.{selection_ending};
    ghost use Rattle.signed_stream.specs.Status.{ending_of};

    ghost from_gives = { λ fault status. ending_of status ≡ selection_ending fault };

    fn from(fault: SelectFault) -> Status {
        match fault {
            SelectFault::CouldNotReadFile(path) => Status::CouldNotReadFile(path),
            SelectFault::ParseError(error) => Status::Refused(StreamFault::ParseError(error)),
            SelectFault::MissingCredentials => Status::Refused(StreamFault::MissingCredentials),
            SelectFault::MissingSigningRegion => {
                Status::Refused(StreamFault::MissingSigningRegion)
            }
            SelectFault::NoMemory => Status::NoMemory,
        }
    }
}

/// How a run ends with this outcome of a stream.
pub fn status_of<T: Drop>(outcome: Result<T, StreamFault>) -> Status
    ensures { ending_of result ≡ ended outcome }
{
    match outcome {
        Ok(_) => Status::Done,
        Err(fault) => Status::from(fault),
    }
}
