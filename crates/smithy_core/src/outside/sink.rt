ghost use Rattle.std.specs.Prelude.{◌≡◌, ℕ, ◌<◌, ◌≤◌, List, [], Option, Some, length, IfOk, IfErr, OnErr, IsErrOf, ◌++◌};
ghost use Rattle.smithy_core.specs.Calls.{FailsAsListed, no_calls};
ghost use Rattle.smithy_core.specs.Sink.{TakesWhole};
ghost use Rattle.smithy_core.specs.Outside.{GainsFront, RoseOrStands};

use crate::memory::Mem;
use crate::outside::calls::Calls;
use std::alloc::Global;
use std::error::Error;
use std::fmt;
use std::marker::Model;

/// Why a sink took nothing.
#[derive(Clone, Copy, Debug, PartialEq, Eq)]
pub enum SinkError {
    /// The sink failed, and counted it.
    Failed,
    /// Memory ran out.
    NoMemory,
}

impl fmt::Display for SinkError {
    ghost use Rattle.std.specs.Prelude.{Some};
    ghost use Rattle.smithy_core.specs.Sink.{sink_error_text};

    ghost output = { λ fault. Some (sink_error_text fault) };

    fn fmt<W: fmt::Write>(&self, f: &mut fmt::Formatter<W>) -> fmt::Result {
        f.write_str(match self {
            SinkError::Failed => "the sink failed",
            SinkError::NoMemory => "no memory",
        })
    }
}

impl Error for SinkError {}

/// A sink for bytes.
pub trait ByteSink {
    // what it holds, if it shows it
    ghost held: { Self → Option (List ℕ) };

    // how often it has failed
    ghost faults: { Self → ℕ };

    /// Takes some bytes of the front of a piece, and answers how many: one at least of a piece that isn't empty.
    ///
    /// # Errors
    ///
    /// [`SinkError::Failed`] where the count of faults rose, or is saturated;
    /// [`SinkError::NoMemory`] where memory runs out. Both leave what is held. Any answer but the
    /// first leaves the count.
    fn write(&mut self, piece: &[u8]) -> Result<usize, SinkError>
        ensures count { faults self.old ≤ faults self.new }
        ensures cause { IsErrOf result SinkError.Failed → RoseOrStands (faults self.old) (faults self.new) }
        ensures steady { (IsErrOf result SinkError.Failed → ⊥) → faults self.new ≡ faults self.old }
        ensures within { IfOk result (λ n. n ≤ length piece.now) }
        ensures progress { IfOk result (λ n. 0 < length piece.now → 0 < n) }
        ensures gains { IfOk result (λ n. GainsFront n piece.now (held self.old) (held self.new)) }
        ensures kept { OnErr result (held self.new ≡ held self.old) };
}

/// Holds bytes in memory, with the calls of `write` that are to fail, counted from 1. It takes each piece whole.
/// There is no [`Debug`](std::fmt::Debug), so that no secret is printed.
///
/// Contracts see a `SinkState`.
#[derive(Drop)]
pub struct FaultySink {
    held: Vec<u8>,
    calls: Calls,
}

impl Model for FaultySink {
    ghost use Rattle.smithy_core.specs.Sink.{SinkState};

    ghost Value = { SinkState };

    ghost view = { λ sink. record { held = sink.held.items; tally = sink.calls } };
}

impl FaultySink {
    /// Nothing is held, and no call was made.
    pub fn new(alloc: Global, fails: Vec<u64>) -> FaultySink
        ensures held { ⟦<FaultySink as ByteSink>⟧.held result ≡ Some [] }
        ensures faults { ⟦<FaultySink as ByteSink>⟧.faults result ≡ 0 }
        ensures calls { result.tally ≡ no_calls fails.items }
    {
        FaultySink {
            held: Vec::new(alloc),
            calls: Calls::new(fails),
        }
    }

    /// What is held.
    pub fn held(&self) -> &[u8]
        ensures { ⟦<FaultySink as ByteSink>⟧.held self.now ≡ Some result.now }
    {
        self.held.as_slice()
    }

    /// A sink that holds the same bytes, after the same calls.
    pub fn try_clone(&self) -> Mem<FaultySink>
        ensures { IfOk result (λ copy. copy ≡ self.now) }
    {
        Ok(FaultySink {
            held: self.held.clone()?,
            calls: self.calls.try_clone()?,
        })
    }
}

impl ByteSink for FaultySink {
    ghost held = { λ sink. Some sink.held };

    ghost faults = { λ sink. sink.tally.faults };

    fn write(&mut self, piece: &[u8]) -> Result<usize, SinkError>
        ensures whole { TakesWhole piece.now self.old.held self.new.held result }
        ensures listed { FailsAsListed (IsErrOf result SinkError.Failed) self.old.tally self.new.tally }
    {
        if self.calls.count_one() {
            return Err(SinkError::Failed);
        }
        hold(&mut self.held, piece)
    }
}

/// Holds bytes in memory, and never fails. It takes each piece whole. There is no [`Debug`](std::fmt::Debug), so that no
/// secret is printed.
///
/// Contracts see the bytes that are held.
#[derive(Drop)]
pub struct CalmSink {
    held: Vec<u8>,
}

impl Model for CalmSink {
    ghost use Rattle.std.specs.Prelude.{ℕ, List};

    ghost Value = { List ℕ };

    ghost view = { λ sink. sink.held.items };
}

impl CalmSink {
    /// Nothing is held.
    pub fn new(alloc: Global) -> CalmSink
        ensures held { ⟦<CalmSink as ByteSink>⟧.held result ≡ Some [] }
        ensures faults { ⟦<CalmSink as ByteSink>⟧.faults result ≡ 0 }
    {
        CalmSink {
            held: Vec::new(alloc),
        }
    }

    /// What is held.
    pub fn held(&self) -> &[u8]
        ensures { ⟦<CalmSink as ByteSink>⟧.held self.now ≡ Some result.now }
    {
        self.held.as_slice()
    }

    /// A sink that holds the same bytes.
    pub fn try_clone(&self) -> Mem<CalmSink>
        ensures { IfOk result (λ copy. copy ≡ self.now) }
    {
        Ok(CalmSink {
            held: self.held.clone()?,
        })
    }
}

impl ByteSink for CalmSink {
    ghost held = { λ sink. Some sink };

    ghost faults = { λ _. 0 };

    fn write(&mut self, piece: &[u8]) -> Result<usize, SinkError>
        ensures whole { TakesWhole piece.now self.old self.new result }
        ensures never_fails { IsErrOf result SinkError.Failed → ⊥ }
    {
        hold(&mut self.held, piece)
    }
}

// Takes the piece whole.
fn hold(held: &mut Vec<u8>, piece: &[u8]) -> Result<usize, SinkError>
    ensures ok { IfOk result (λ n. (n ≡ length piece.now) × (held.new.items ≡ held.old.items ++ piece.now)) }
    ensures err { IfErr result (λ e. (e ≡ SinkError.NoMemory) × (held.new.items ≡ held.old.items)) }
{
    match held.extend_from_slice(piece) {
        Ok(()) => Ok(piece.len()),
        Err(_) => Err(SinkError::NoMemory),
    }
}
