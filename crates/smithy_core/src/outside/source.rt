ghost use Rattle.std.specs.Prelude.{◌≡◌, ℕ, ◌<◌, ◌≤◌, List, [], Option, Some, drop, length, Ok, IfOk, OnOk, OnErr, IsErr, IsOk};
ghost use Rattle.smithy_core.specs.Calls.{FailsAsListed, no_calls};
ghost use Rattle.smithy_core.specs.Outside.{IsAtEnd, RoseOrStands, TakesFront};

use crate::memory::Mem;
use crate::outside::calls::Calls;
use std::error::Error;
use std::fmt;
use std::marker::Model;

/// An I/O call failed.
#[derive(Clone, Copy, Debug, PartialEq, Eq)]
pub struct Failed;

impl fmt::Display for Failed {
    ghost use Rattle.std.specs.Prelude.{Some, codes};

    ghost output = { λ _. Some (codes "a source of the outside failed") };

    fn fmt<W: fmt::Write>(&self, f: &mut fmt::Formatter<W>) -> fmt::Result {
        f.write_str("a source of the outside failed")
    }
}

impl Error for Failed {}

/// A source of bytes.
pub trait ByteSource {
    // what is left, if it shows it
    ghost left: { Self → Option (List ℕ) };

    // how often it has failed
    ghost faults: { Self → ℕ };

    /// Reads some of the next bytes to the front of a buffer, and answers how many.
    ///
    /// For a buffer that isn't empty, 0 means the end.
    ///
    /// # Errors
    ///
    /// [`Failed`] where the count of faults rose, or is saturated; nothing is taken. Any other
    /// answer leaves the count.
    fn read(&mut self, into: &mut [u8]) -> Result<usize, Failed>
        ensures count { faults self.old ≤ faults self.new }
        ensures cause { OnErr result (RoseOrStands (faults self.old) (faults self.new)) }
        ensures steady { OnOk result (faults self.new ≡ faults self.old) }
        ensures within { IfOk result (λ n. n ≤ length into.old) }
        ensures taken { IfOk result (λ n. TakesFront n into.new (left self.old) (left self.new)) }
        ensures at_end { result ≡ Ok 0 → 0 < length into.old → IsAtEnd (left self.new) }
        ensures kept { OnErr result (left self.new ≡ left self.old) };
}

/// Bytes in memory, with the calls of `read` that are to fail, counted from 1. [`Debug`](std::fmt::Debug) isn't there,
/// so that no secret is printed.
///
/// Contracts see a `SourceState`.
#[derive(Drop)]
pub struct FaultySource {
    content: Vec<u8>,
    at: usize,
    calls: Calls,
}

impl Model for FaultySource {
    ghost use Rattle.std.specs.Prelude.{◌≤◌, drop, length};
    ghost use Rattle.smithy_core.specs.Source.{SourceState};

    ghost Value = { SourceState };

    ghost view = { λ source. record { left = drop source.at source.content.items; tally = source.calls } };

    ghost invariant = { λ source. source.at ≤ length source.content.items };
}

impl FaultySource {
    /// All of the content is left, and no call was made.
    pub fn new(content: Vec<u8>, fails: Vec<u64>) -> FaultySource
        ensures left { ⟦<FaultySource as ByteSource>⟧.left result ≡ Some content.items }
        ensures faults { ⟦<FaultySource as ByteSource>⟧.faults result ≡ 0 }
        ensures calls { result.tally ≡ no_calls fails.items }
    {
        FaultySource {
            content,
            at: 0,
            calls: Calls::new(fails),
        }
    }

    /// What is left.
    pub fn left(&self) -> &[u8]
        ensures { ⟦<FaultySource as ByteSource>⟧.left self.now ≡ Some result.now }
    {
        &self.content[self.at..]
    }

    /// A source with the same bytes left, after the same calls.
    pub fn try_clone(&self) -> Mem<FaultySource>
        ensures { IfOk result (λ copy. copy ≡ self.now) }
    {
        Ok(FaultySource {
            content: self.content.clone()?,
            at: self.at,
            calls: self.calls.try_clone()?,
        })
    }
}

impl ByteSource for FaultySource {
    ghost left = { λ source. Some source.left };

    ghost faults = { λ source. source.tally.faults };

    fn read(&mut self, into: &mut [u8]) -> Result<usize, Failed>
        ensures within { IfOk result (λ n. n ≤ length into.old) }
        ensures taken { IfOk result (λ n. TakesFront n into.new (Some self.old.left) (Some self.new.left)) }
        ensures at_end { result ≡ Ok 0 → 0 < length into.old → IsAtEnd (Some self.new.left) }
        ensures kept { OnErr result (Some self.new.left ≡ Some self.old.left) }
        ensures buffer { OnErr result (into.new ≡ into.old) }
        ensures listed { FailsAsListed (IsErr result) self.old.tally self.new.tally }
    {
        if self.calls.count_one() {
            return Err(Failed);
        }
        let n = copy_front(&self.content[self.at..], into);
        self.at += n;
        Ok(n)
    }
}

/// Bytes in memory that never fail. There is no [`Debug`](std::fmt::Debug), so that no secret is printed.
///
/// Contracts see the bytes that are left.
#[derive(Drop)]
pub struct CalmSource {
    content: Vec<u8>,
    at: usize,
}

impl Model for CalmSource {
    ghost use Rattle.std.specs.Prelude.{ℕ, ◌≤◌, List, drop, length};

    ghost Value = { List ℕ };

    ghost view = { λ source. drop source.at source.content.items };

    ghost invariant = { λ source. source.at ≤ length source.content.items };
}

impl CalmSource {
    /// All of the content is left.
    pub fn new(content: Vec<u8>) -> CalmSource
        ensures left { ⟦<CalmSource as ByteSource>⟧.left result ≡ Some content.items }
        ensures faults { ⟦<CalmSource as ByteSource>⟧.faults result ≡ 0 }
    {
        CalmSource { content, at: 0 }
    }

    /// What is left.
    pub fn left(&self) -> &[u8]
        ensures { ⟦<CalmSource as ByteSource>⟧.left self.now ≡ Some result.now }
    {
        &self.content[self.at..]
    }

    /// A source with the same bytes left.
    pub fn try_clone(&self) -> Mem<CalmSource>
        ensures { IfOk result (λ copy. copy ≡ self.now) }
    {
        Ok(CalmSource {
            content: self.content.clone()?,
            at: self.at,
        })
    }
}

impl ByteSource for CalmSource {
    ghost left = { λ source. Some source };

    ghost faults = { λ _. 0 };

    fn read(&mut self, into: &mut [u8]) -> Result<usize, Failed>
        ensures within { IfOk result (λ n. n ≤ length into.old) }
        ensures taken { IfOk result (λ n. TakesFront n into.new (Some self.old) (Some self.new)) }
        ensures at_end { result ≡ Ok 0 → 0 < length into.old → IsAtEnd (Some self.new) }
        ensures never_fails { IsOk result }
    {
        let n = copy_front(&self.content[self.at..], into);
        self.at += n;
        Ok(n)
    }
}

// Copies as much as fits.
fn copy_front(from: &[u8], into: &mut [u8]) -> usize
    ensures taken { TakesFront result into.new (Some from.now) (Some (drop result from.now)) }
    ensures within { result ≤ length into.old }
    ensures at_end { result ≡ 0 → 0 < length into.old → from.now ≡ [] }
{
    let n = from.len().min(into.len());
    into[..n].copy_from_slice(&from[..n]);
    n
}
