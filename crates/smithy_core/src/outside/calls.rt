ghost use Rattle.std.specs.Prelude.{◌≡◌, IfOk, IsTrue};
ghost use Rattle.smithy_core.specs.Calls.{FailsAsListed, no_calls};

use crate::memory::Mem;
use std::marker::Model;

/// The calls of an object in memory, counted from 1, with those that are to fail.
///
/// Contracts see a `Tally`.
#[derive(Drop)]
pub struct Calls {
    fails: Vec<u64>,
    made: u64,
    faults: u64,
}

impl Model for Calls {
    ghost use Rattle.smithy_core.specs.Calls.{Tally};

    ghost Value = { Tally };

    ghost view = { λ calls. record { fails = calls.fails.items; calls = calls.made; faults = calls.faults } };
}

impl Calls {
    /// No call was made.
    pub fn new(fails: Vec<u64>) -> Calls
        ensures { result ≡ no_calls fails.items }
    {
        Calls {
            fails,
            made: 0,
            faults: 0,
        }
    }

    /// Counts a call, and answers whether it is to fail, which counts as a fault.
    pub fn count_one(&mut self) -> bool
        ensures { FailsAsListed (IsTrue result) self.old self.new }
    {
        self.made = self.made.saturating_add(1);
        let fails = self.fails.contains(&self.made);
        if fails {
            self.faults = self.faults.saturating_add(1);
        }
        fails
    }

    /// How many calls were made.
    pub fn made(&self) -> u64
        ensures { result ≡ self.now.calls }
    {
        self.made
    }

    /// Equal calls.
    pub fn try_clone(&self) -> Mem<Calls>
        ensures { IfOk result (λ copy. copy ≡ self.now) }
    {
        Ok(Calls {
            fails: self.fails.clone()?,
            made: self.made,
            faults: self.faults,
        })
    }
}
