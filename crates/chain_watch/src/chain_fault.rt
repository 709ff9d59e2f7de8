ghost use Rattle.std.specs.Prelude.{◌≡◌};
ghost use Rattle.chain_watch.specs.ChainFault.{chain_part_name};

use std::alloc::{AllocError, AllocFailed};
use std::fmt;

/// What of a frame isn't as in a chain.
#[derive(Clone, Copy, Debug, PartialEq, Eq)]
pub enum ChainPart {
    /// The bytes are no frame.
    NotFrame,
    /// The headers aren't exactly `:chunk-signature` with 32 bytes and `:date` with a moment.
    Headers,
    /// The date is no whole second in the years 0 to 9999.
    Date,
    /// The payload isn't empty, and is no frame of a message.
    Inner,
    /// Bytes follow the closing frame.
    AfterClosing,
    /// The bytes end before the closing frame.
    NoClosing,
}

/// Why bytes aren't the chain of events. Frames count from 1. [`Debug`](std::fmt::Debug) and [`Display`](std::fmt::Display)
/// leave the recomputed signature out, since for whoever sent the frame it is the right one.
#[derive(Clone, Copy, PartialEq, Eq)]
pub enum ChainFault {
    /// This frame isn't one of a chain.
    NotChain {
        frame: usize,
        part: ChainPart,
    },
    /// The signature that this frame carries isn't the one that was recomputed.
    Mismatch {
        frame: usize,
        carried: [u8; 32],
        recomputed: [u8; 32],
    },
    /// Memory ran out.
    NoMemory,
}

impl ChainPart {
    /// The name of the part, as the program prints it.
    pub fn name(self) -> &'static str
        ensures { result.now ≡ chain_part_name self }
    {
        match self {
            ChainPart::NotFrame => "NotFrame",
            ChainPart::Headers => "Headers",
            ChainPart::Date => "Date",
            ChainPart::Inner => "Inner",
            ChainPart::AfterClosing => "AfterClosing",
            ChainPart::NoClosing => "NoClosing",
        }
    }
}

impl fmt::Display for ChainPart {
    ghost use Rattle.std.specs.Prelude.{Some};
    ghost use Rattle.chain_watch.specs.ChainFault.{chain_part_text};

    ghost output = { λ part. Some (chain_part_text part) };

    fn fmt<W: fmt::Write>(&self, f: &mut fmt::Formatter<W>) -> fmt::Result {
        f.write_str(match self {
            ChainPart::NotFrame => "isn't a whole frame",
            ChainPart::Headers => "doesn't carry a signature and then a date alone",
            ChainPart::Date => "has no whole second in the years 0 to 9999 as its date",
            ChainPart::Inner => "has a payload that is no frame of a message",
            ChainPart::AfterClosing => "follows the closing frame",
            ChainPart::NoClosing => "is missing: the chain has no closing frame",
        })
    }
}

impl fmt::Display for ChainFault {
    ghost use Rattle.std.specs.Prelude.{Some};
    ghost use Rattle.chain_watch.specs.ChainFault.{chain_fault_text};

    ghost output = { λ fault. Some (chain_fault_text fault) };

    fn fmt<W: fmt::Write>(&self, f: &mut fmt::Formatter<W>) -> fmt::Result {
        match self {
            ChainFault::NotChain { frame, part } => write!(f, "frame {frame} {part}"),
            ChainFault::Mismatch { frame, .. } => {
                write!(f, "frame {frame} carries another signature than its own")
            }
            ChainFault::NoMemory => f.write_str("no memory"),
        }
    }
}

// The recomputed signature isn't printed: a log that holds it hands out a valid signature for a forged frame.
impl fmt::Debug for ChainFault {
    ghost use Rattle.std.specs.Prelude.{Some};
    ghost use Rattle.chain_watch.specs.ChainFault.{chain_fault_shown};

    ghost debug_output = { λ fault. Some (chain_fault_shown fault) };

    fn fmt<W: fmt::Write>(&self, f: &mut fmt::Formatter<W>) -> fmt::Result {
        match self {
            ChainFault::NotChain { frame, part } => {
                let name = part.name();
                write!(f, "NotChain {{ frame: {frame}, part: {name} }}")
            }
            ChainFault::Mismatch { frame, .. } => write!(f, "Mismatch {{ frame: {frame}, .. }}"),
            ChainFault::NoMemory => f.write_str("NoMemory"),
        }
    }
}

impl std::error::Error for ChainFault {}

impl From<AllocError> for ChainFault {
    ghost use Rattle.std.specs.Prelude.{◌≡◌};
    ghost use Rattle.chain_watch.specs.declared.chain_fault.ChainFault.TheVariants.{NoMemory};

    ghost from_gives = { λ _ fault. fault ≡ NoMemory };

    fn from(_e: AllocError) -> ChainFault {
        ChainFault::NoMemory
    }
}

impl<T: Drop> From<AllocFailed<T>> for ChainFault {
    ghost use Rattle.std.specs.Prelude.{◌≡◌};
    ghost use Rattle.chain_watch.specs.declared.chain_fault.ChainFault.TheVariants.{NoMemory};

    ghost from_gives = { λ _ fault. fault ≡ NoMemory };

    fn from(_e: AllocFailed<T>) -> ChainFault {
        ChainFault::NoMemory
    }
}
