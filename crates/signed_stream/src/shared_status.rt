//! What the statuses of programs have in common.
ghost use Rattle.std.specs.Prelude.{◌≡◌, IfOk};
ghost use Rattle.std.specs.String.{string_bytes};
ghost use Rattle.signed_stream.specs.Saying.{ending_line};
ghost use Rattle.signed_stream.specs.Status.{refused, run_fault};

use crate::status::StreamFault;
use smithy_core::Mem;
use std::alloc::Global;

/// What the statuses of programs have in common, lent: all but that of a run that is done, and one that is a program's own.
#[derive(Clone, Copy, Debug)]
pub enum SharedStatus<'a> {
    /// The word at this place is bad; places count from 1.
    BadWords(usize),
    /// The input has over 67,108,864 bytes.
    JobTooLarge,
    /// The line at this place is bad; places count from 1.
    BadJob(usize),
    /// The input failed.
    ReadFault,
    /// The file at this path, which a word names, is absent, or the disk failed.
    CouldNotReadFile(&'a str),
    /// What is asked for can't be done.
    Refused(&'a StreamFault),
    /// The output failed.
    OutputFault,
    /// Memory ran out.
    NoMemory,
}

impl SharedStatus<'_> {
    ghost use Rattle.std.specs.Prelude.{◌≡◌, IfOk};
    ghost use Rattle.std.specs.String.{string_bytes};
    ghost use Rattle.signed_stream.specs.Saying.{ending_line};
    ghost use Rattle.signed_stream.specs.SharedStatus.{shared_ending};
    ghost use Rattle.signed_stream.specs.Status.{exit_code};

    /// The number that the process ends with.
    pub fn code(self) -> u8
        ensures { result ≡ exit_code (shared_ending self.entry) }
    {
        match self {
            SharedStatus::BadWords(_) => 2,
            SharedStatus::JobTooLarge => 3,
            SharedStatus::BadJob(_) => 4,
            SharedStatus::ReadFault => 5,
            SharedStatus::CouldNotReadFile(_) => 6,
            SharedStatus::Refused(_) => 7,
            SharedStatus::OutputFault => 9,
            SharedStatus::NoMemory => 10,
        }
    }

    /// The line that says it.
    pub fn line(self, alloc: Global) -> Mem<String>
        ensures { IfOk result (λ line. string_bytes line ≡ ending_line (shared_ending self.entry)) }
    {
        match self {
            SharedStatus::BadWords(place) => format!(in alloc; "bad word {place}\n"),
            SharedStatus::JobTooLarge => String::from_str(alloc, "input over 67108864 bytes\n"),
            SharedStatus::BadJob(place) => format!(in alloc; "bad line {place}\n"),
            SharedStatus::ReadFault => String::from_str(alloc, "read fault\n"),
            SharedStatus::CouldNotReadFile(path) => {
                format!(in alloc; "could not read file {path}\n")
            }
            SharedStatus::Refused(fault) => refusal_line(alloc, fault),
            SharedStatus::OutputFault => String::from_str(alloc, "output fault\n"),
            SharedStatus::NoMemory => String::from_str(alloc, "no memory\n"),
        }
    }
}

fn refusal_line(alloc: Global, fault: &StreamFault) -> Mem<String>
    ensures { IfOk result (λ line. string_bytes line ≡ ending_line (refused (run_fault fault.now))) }
{
    let line = match fault {
        StreamFault::ParseError(_) => "refused 1 ParseError\n",
        StreamFault::MissingCredentials => "refused 2 MissingCredentials\n",
        StreamFault::MissingSigningRegion => "refused 3 MissingSigningRegion\n",
        StreamFault::MomentOutOfRange(_) => "refused 4 MomentOutOfRange\n",
        StreamFault::InvalidUri => "refused 5 InvalidUri\n",
        StreamFault::InvalidHeaderName(_) => "refused 6 InvalidHeaderName\n",
        StreamFault::InvalidHeaderValue(_) => "refused 7 InvalidHeaderValue\n",
        StreamFault::MissingHost => "refused 8 MissingHost\n",
        StreamFault::InvalidTokenName => "refused 9 InvalidTokenName\n",
        StreamFault::MissingExpires => "refused 10 MissingExpires\n",
        StreamFault::InvalidHeaderNameLength(_) => "refused 11 InvalidHeaderNameLength\n",
        StreamFault::HeaderValueTooLong(_) => "refused 12 HeaderValueTooLong\n",
        StreamFault::TimestampValueTooLarge(_) => "refused 13 TimestampValueTooLarge\n",
        StreamFault::HeadersTooLong(_) => "refused 14 HeadersTooLong\n",
        StreamFault::PayloadTooLong(_) => "refused 15 PayloadTooLong\n",
        StreamFault::MessageTooLong(_) => "refused 16 MessageTooLong\n",
        StreamFault::SinkFault => "refused 17 SinkFault\n",
        StreamFault::NoMemory => "refused 18 NoMemory\n",
    };
    String::from_str(alloc, line)
}
