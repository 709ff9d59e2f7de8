ghost use Rattle.std.specs.Prelude.{◌≡◌, ◌+◌, ◌^◌, ◌<◌, ◌⊎◌, length, IfOk};
ghost use Rattle.eventstream.specs.Frame.{most_frame};
ghost use Rattle.chain_watch.specs.Watch.{AnswersState, Feeds, EndsWatch, WalksOn, Puts, StepsOn, left_over, new_watch, state, wanted};

use crate::chain_fault::{ChainFault, ChainPart};
use crate::chain_signer::ChainSigner;
use crate::frame::CheckedFrame;
use crate::position::{Phase, Position};
use bytes::Bytes;
use seg_buf::SegBuf;
use smithy_core::{Mem, Message};
use std::alloc::{AllocError, Global};
use std::fmt;
use std::marker::Model;

/// What a watch says of the chain that it was fed so far.
#[derive(Clone, Copy, Debug, PartialEq, Eq)]
pub enum Watched {
    /// It may go on.
    Open,
    /// Its closing frame passed, and nothing follows.
    Closed,
}

/// Checks a chain of signed frames that comes in pieces, and hands out each event as soon as its frame is there and passed:
/// no event before its own signature, and all before it, were recomputed and compared.
///
/// It keeps less than a frame between calls, which has at most 16,777,216 bytes, while memory suffices. The signing key is
/// derived once for frames of one day. [`Debug`](std::fmt::Debug) shows how many bytes it took, and nothing of who signs or
/// of a signature.
///
/// ```rust
/// let mut watch = ChainWatch::new(alloc, seed, secret, "us-east-1", "transcribe")?;
/// let mut events = Vec::new(alloc);
/// for piece in pieces {
///     let watched = watch.feed(piece, &mut events);
///     for event in events.drain(..) {
///         act_on(event)?;
///     }
///     let _ = watched?;
/// }
/// watch.finish(&mut events)?;
/// ```
///
/// Contracts see how many bytes it took, who signs, for which region and service, and the point that its walk is at
/// (`specs/Walk.antt`, `specs/Watch.antt`).
pub struct ChainWatch {
    alloc: Global,
    signer: ChainSigner,
    fed: u64,
    phase: Phase,
    position: Position,
}

// Written out: a derived drop would be taken apart in the proof of each function that drops one.
impl Drop for ChainWatch {
    fn drop(self) {
        let ChainWatch {
            alloc: _,
            signer,
            fed: _,
            phase: _,
            position,
        } = self;
        drop(signer);
        drop(position);
    }
}

impl Model for ChainWatch {
    ghost use Rattle.chain_watch.specs.Position.{IsWithin, point_of};
    ghost use Rattle.chain_watch.specs.Watch.{Watching};

    ghost Value = { Watching };

    ghost view = { λ watch. record { fed = watch.fed; signer = watch.signer; at = point_of watch.phase watch.position } };

    ghost invariant = { λ watch. IsWithin watch.fed watch.position };
}

impl ChainWatch {
    /// A watch of the chain whose first frame is signed over the seed, in lower-case hexadecimal: over the signature of the
    /// request that began it.
    ///
    /// # Errors
    ///
    /// Memory ran out.
    pub fn new(alloc: Global, seed: &str, secret: &str, region: &str, name: &str) -> Mem<ChainWatch>
        ensures { IfOk result (λ watch. watch ≡ new_watch (record { secret = secret.now; region = region.now; name = name.now }) seed.now) }
    {
        Ok(ChainWatch {
            alloc,
            signer: ChainSigner::new(alloc, secret, region, name)?,
            fed: 0,
            phase: Phase::Open,
            position: Position {
                signature: String::from_str(alloc, seed)?,
                passed: 0,
                left: SegBuf::new(alloc),
            },
        })
    }

    /// How many bytes were taken.
    pub fn fed(&self) -> u64
        ensures { result ≡ self.now.fed }
    {
        self.fed
    }

    /// How many bytes more the next frame has at least: those of its prelude, or those that its prelude announces. It is 0
    /// behind the closing frame and after a fault. Whoever reads pieces of a few bytes may gather so many before
    /// [`ChainWatch::feed`]: no event comes out of fewer.
    pub fn wanted(&self) -> usize
        ensures { result ≡ wanted self.now.at }
    {
        match self.phase {
            Phase::Open => self.position.wanted(),
            Phase::Closed | Phase::Failed(_) => 0,
        }
    }

    /// Takes a piece of the chain, of any length, and appends the events of the frames that are there whole then and pass.
    /// The number of all bytes has to fit 64 bits.
    ///
    /// # Errors
    ///
    /// The first test that a frame fails, as [`check_chain`](crate::check_chain) has them: of frames that aren't there
    /// whole only what their preludes say. The events before it are appended. Each later call answers the same fault, takes
    /// nothing and appends nothing.
    ///
    /// [`ChainFault::NoMemory`] where memory runs out. Where the piece had no room, it isn't taken, which
    /// [`ChainWatch::fed`] shows, and nothing has changed; and else some of the events are appended, the first ones. The
    /// next call goes on, also with an empty piece: no event is lost, and none comes twice.
    #[tactic(auto, using(crate::proofs::WatchLemmas::feeds))]
    pub fn feed(&mut self, piece: Bytes, events: &mut Vec<Message>) -> Result<Watched, ChainFault>
        requires { self.old.fed + length piece < 2 ^ 64 }
        ensures feeds { Feeds self.old piece events.old.items self.new events.new.items result }
        ensures bounded { (length (left_over self.new.at) < most_frame) ⊎ (result ≡ Err ChainFault.NoMemory) }
    {
        self.take(piece)?;
        self.go_on(events)
    }

    /// Ends the chain behind the bytes that were taken, and appends the events that weren't yet, where memory had run out.
    /// With those of the calls of [`ChainWatch::feed`] the answer is that of [`check_chain`](crate::check_chain) on all bytes.
    ///
    /// # Errors
    ///
    /// The fault that was met, or [`ChainFault::NotChain`] at the next frame: with [`ChainPart::NoClosing`] where no byte is
    /// left over, and with [`ChainPart::NotFrame`] where it isn't whole. [`ChainFault::NoMemory`] where memory runs out:
    /// some of the events are appended then, the first ones.
    #[tactic(auto, using(crate::proofs::WatchLemmas::finishes))]
    pub fn finish(mut self, events: &mut Vec<Message>) -> Result<(), ChainFault>
        ensures { EndsWatch self events.old.items events.new.items result }
    {
        match self.go_on(events)? {
            Watched::Closed => Ok(()),
            Watched::Open => Err(self.position.missing()),
        }
    }

    // Takes the piece, where there is room for it.
    fn take(&mut self, piece: Bytes) -> Result<(), ChainFault>
        requires { self.old.fed + length piece < 2 ^ 64 }
        ensures { Puts self.old piece self.new result }
    {
        let len = piece.len();
        match self.phase {
            Phase::Failed(fault) => return Err(fault),
            Phase::Closed if len == 0 => {}
            Phase::Closed => {
                self.phase = Phase::Failed(ChainFault::NotChain {
                    frame: self.position.passed + 1,
                    part: ChainPart::AfterClosing,
                });
            }
            Phase::Open => {
                self.position.left.reserve_one()?;
                self.position.left.push(piece);
            }
        }
        self.fed += len as u64;
        Ok(())
    }

    // Walks over the frames that are there whole, and returns the state then.
    #[tactic(auto, using(crate::proofs::WatchLemmas::goes))]
    fn go_on(&mut self, events: &mut Vec<Message>) -> Result<Watched, ChainFault>
        ensures goes { WalksOn self.old events.old.items self.new events.new.items }
        ensures answer { AnswersState self.new result }
        ensures bounded { (length (left_over self.new.at) < most_frame) ⊎ (result ≡ Err ChainFault.NoMemory) }
    {
        'frames: while self.step(events)? {}
        self.state()
    }

    // What is said of the chain.
    fn state(&self) -> Result<Watched, ChainFault>
        ensures { result ≡ state self.now.at }
    {
        match self.phase {
            Phase::Open => Ok(Watched::Open),
            Phase::Closed => Ok(Watched::Closed),
            Phase::Failed(fault) => Err(fault),
        }
    }

    // Walks over one frame more, where it is there whole, and returns whether there may be another. The event has its room
    // before the frame is left behind.
    fn step(&mut self, events: &mut Vec<Message>) -> Mem<bool>
        ensures { StepsOn self.old events.old.items self.new events.new.items result }
    {
        let Phase::Open = self.phase else {
            return Ok(false);
        };
        let (frame, len) = match self.position.front(self.alloc, &mut self.signer) {
            Ok(Some(found)) => found,
            Ok(None) => return Ok(false),
            Err(ChainFault::NoMemory) => return Err(AllocError),
            Err(fault) => {
                self.phase = Phase::Failed(fault);
                return Ok(true);
            }
        };
        let CheckedFrame { event, signature } = frame;
        match event {
            Some(event) => events.push(event)?,
            None => self.phase = self.position.phase_behind(len),
        }
        self.position.move_behind(len, signature);
        Ok(true)
    }
}

// Shows neither who signs nor a signature.
impl fmt::Debug for ChainWatch {
    ghost use Rattle.std.specs.Prelude.{Some};
    ghost use Rattle.chain_watch.specs.Watch.{shown_watch};

    ghost debug_output = { λ watch. Some (shown_watch watch) };

    fn fmt<W: fmt::Write>(&self, f: &mut fmt::Formatter<W>) -> fmt::Result {
        let fed = self.fed;
        write!(f, "ChainWatch({fed} bytes)")
    }
}
