ghost use Rattle.std.specs.Prelude.{◌≡◌, ◌≤◌, [], ◌++◌, drop, length, OnOk, OnErr};

use smithy_core::Mem;
use std::alloc::Global;
use std::marker::Model;

// The bytes that are left over: those behind a place.
//
// Contracts see these bytes.
#[derive(Drop)]
pub(crate) struct Left {
    bytes: Vec<u8>,
    begin: usize,
}

impl Model for Left {
    ghost use Rattle.std.specs.Prelude.{ℕ, List, ◌≤◌, drop, length};

    ghost Value = { List ℕ };

    ghost view = { λ left. drop left.begin left.bytes.items };

    ghost invariant = { λ left. left.begin ≤ length left.bytes.items };
}

impl Left {
    // No bytes.
    pub(crate) fn new(alloc: Global) -> Left
        ensures { result ≡ [] }
    {
        Left {
            bytes: Vec::new(alloc),
            begin: 0,
        }
    }

    // The bytes.
    pub(crate) fn as_slice(&self) -> &[u8]
        ensures { result.now ≡ self.now }
    {
        &self.bytes.as_slice()[self.begin..]
    }

    // Puts bytes behind those that are left over.
    pub(crate) fn push(&mut self, piece: &[u8]) -> Mem<()>
        ensures ok { OnOk result (self.new ≡ self.old ++ piece.now) }
        ensures err { OnErr result (self.new ≡ self.old) }
    {
        self.close_up();
        self.bytes.extend_from_slice(piece)
    }

    // Leaves so many of the first bytes behind.
    pub(crate) fn advance(&mut self, n: usize)
        requires { n ≤ length self.old }
        ensures { self.new ≡ drop n self.old }
    {
        self.begin += n;
    }

    // Moves the bytes to the front of their memory.
    #[tactic(auto, using(crate::proofs::LeftLemmas::closed_up))]
    fn close_up(&mut self)
        ensures { self.new ≡ self.old }
    {
        if self.begin > 0 {
            let kept = self.bytes.len() - self.begin;
            self.bytes.rotate_left(self.begin);
            self.bytes.truncate(kept);
            self.begin = 0;
        }
    }
}
