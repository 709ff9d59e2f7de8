ghost use Rattle.std.specs.Prelude.{◌≡◌, ◌+◌, ◌^◌, ◌<◌, ◌≤◌, drop, length, string_bytes, Err};
ghost use Rattle.chain_watch.specs.Position.{ClosesAt, FindsFrame, open_at};
ghost use Rattle.chain_watch.specs.Walk.{ending};
ghost use Rattle.chain_watch.specs.Watch.{frame_wants};

use crate::chain_fault::{ChainFault, ChainPart};
use crate::chain_signer::ChainSigner;
use crate::frame::{CheckedFrame, fault_of, test_frame};
use eventstream::peek_message;
use seg_buf::{PRELUDE, SegBuf};
use std::alloc::Global;

// Where the walk of a watch is: at a position, right behind the closing frame, or at the first fault.
#[derive(Clone, Copy)]
pub(crate) enum Phase {
    Open,
    Closed,
    Failed(ChainFault),
}

// Where a walk is that goes on: over a signature, behind the frames that passed, with bytes left over.
pub(crate) struct Position {
    pub(crate) signature: String,
    pub(crate) passed: usize,
    pub(crate) left: SegBuf,
}

// Written out: a derived drop would be taken apart in the proof of each function that drops one.
impl Drop for Position {
    fn drop(self) {
        let Position {
            signature,
            passed: _,
            left,
        } = self;
        drop(signature);
        drop(left);
    }
}

impl Position {
    // The next frame, tested, and its length, once it is there whole. Its bytes stay left over.
    #[tactic(auto, using(crate::proofs::WatchLemmas::fronts))]
    pub(crate) fn front(
        &self,
        alloc: Global,
        signer: &mut ChainSigner,
    ) -> Result<Option<(CheckedFrame, usize)>, ChainFault>
        requires { self.now.passed + 1 < 2 ^ 64 }
        ensures finds { FindsFrame signer.old self.now result }
        ensures signer { signer.new ≡ signer.old }
    {
        let place = self.passed + 1;
        match peek_message(alloc, &self.left) {
            Ok(None) => Ok(None),
            Ok(Some((message, len))) => {
                let frame = test_frame(alloc, &message, place, self.signature.as_str(), signer)?;
                Ok(Some((frame, len)))
            }
            Err(error) => Err(fault_of(&error, place, ChainPart::NotFrame)),
        }
    }

    // Where the walk is behind a closing frame of so many bytes.
    #[tactic(auto, using(crate::proofs::WatchLemmas::closing))]
    pub(crate) fn phase_behind(&self, len: usize) -> Phase
        requires there { len ≤ length self.now.left.bytes }
        requires fits { self.now.passed + 2 < 2 ^ 64 }
        ensures { ClosesAt self.now len result }
    {
        if self.left.remaining() == len {
            return Phase::Closed;
        }
        Phase::Failed(ChainFault::NotChain {
            frame: self.passed + 2,
            part: ChainPart::AfterClosing,
        })
    }

    // How many bytes more the next frame has at least.
    #[tactic(auto, unfolding(eventstream::specs::Read::big_endian))]
    pub(crate) fn wanted(&self) -> usize
        ensures { result ≡ frame_wants self.now.left.bytes }
    {
        let there = self.left.remaining();
        if there < PRELUDE {
            return PRELUDE - there;
        }
        let [first, second, third, fourth, ..] = self.left.peek_prelude();
        let total = u32::from_be_bytes([first, second, third, fourth]) as usize;
        total.saturating_sub(there)
    }

    // Why the chain can't end here.
    pub(crate) fn missing(&self) -> ChainFault
        requires { self.now.passed + 1 < 2 ^ 64 }
        ensures { ending (open_at self.now) ≡ Err result }
    {
        let part = if self.left.remaining() == 0 {
            ChainPart::NoClosing
        } else {
            ChainPart::NotFrame
        };
        ChainFault::NotChain {
            frame: self.passed + 1,
            part,
        }
    }

    // Moves behind a frame of so many bytes that has this signature.
    pub(crate) fn move_behind(&mut self, len: usize, signature: String)
        requires there { len ≤ length self.old.left.bytes }
        requires fits { self.old.passed + 1 < 2 ^ 64 }
        ensures signature { string_bytes self.new.signature ≡ string_bytes signature }
        ensures passed { self.new.passed ≡ self.old.passed + 1 }
        ensures left { self.new.left.bytes ≡ drop len self.old.left.bytes }
    {
        self.signature = signature;
        self.passed += 1;
        self.left.advance(len);
    }
}
