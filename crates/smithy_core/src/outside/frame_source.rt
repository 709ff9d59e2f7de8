ghost use Rattle.std.specs.Prelude.{◌≡◌, ℕ, ◌≤◌, ◌↔◌, List, [], Option, Some, IfOk, IfSome, IsSome, IsTrue, true, false};
ghost use Rattle.smithy_core.specs.FrameSource.{AreShort, GivesCalmly, GivesFrame, GivesShort, IsShort, PollsAsListed};
ghost use Rattle.smithy_core.specs.Calls.{no_calls};
ghost use Rattle.smithy_core.specs.Outside.{RoseOrStands};
ghost use Rattle.smithy_core.specs.declared.outside.frame_part.FramePart.{FramePart as Part};
ghost use Rattle.smithy_core.specs.declared.outside.frame_part.Polled.TheVariants as polled;

use crate::memory::Mem;
use crate::outside::calls::Calls;
use crate::outside::frame_part::{FramePart, Polled};
use std::collections::VecDeque;
use std::marker::Model;

/// How many bytes a piece of data has at most.
pub const MOST_PIECE: usize = 4_294_967_295;

/// Gives the frames of a body one by one.
pub trait FrameSource {
    // the frames that are left, if it shows them
    ghost left: { Self → Option (List Part) };

    // how often it has answered that nothing has come yet
    ghost waits: { Self → ℕ };

    // how often it has failed
    ghost faults: { Self → ℕ };

    // that it has answered the end
    ghost ended: { Self → Type 0 };

    /// The next frame.
    ///
    /// [`Polled::NotYet`] comes only where the count of waits rose, or is saturated, and
    /// [`Polled::Failed`] only where the count of faults did. Any answer but the last leaves the count of faults. After
    /// [`Polled::End`] each call answers it again. A piece of data has at most 4,294,967,295 bytes.
    fn poll_frame(&mut self) -> Polled
        ensures count { faults self.old ≤ faults self.new }
        ensures cause { result ≡ polled.Failed → RoseOrStands (faults self.old) (faults self.new) }
        ensures steady { (result ≡ polled.Failed → ⊥) → faults self.new ≡ faults self.old }
        ensures waits { waits self.old ≤ waits self.new }
        ensures waited { result ≡ polled.NotYet → RoseOrStands (waits self.old) (waits self.new) }
        ensures gives { GivesFrame (left self.old) (left self.new) result }
        ensures short { GivesShort result }
        ensures ends { result ≡ polled.End → ended self.new }
        ensures again { ended self.old → result ≡ polled.End };
}

/// Frames in memory, with the calls of `poll_frame` that are to fail and those that are to wait, counted from 1. A call
/// in both lists fails. After the end was answered it is answered again, and no call is counted.
/// There is no [`Debug`](std::fmt::Debug), so that no secret is printed.
///
/// Contracts see a `FramesState`.
#[derive(Drop)]
pub struct FaultyFrames {
    left: VecDeque<FramePart>,
    calls: Calls,
    waiting: Vec<u64>,
    waits: u64,
    ended: bool,
}

impl Model for FaultyFrames {
    ghost use Rattle.std.specs.Prelude.{◌≡◌, [], true};
    ghost use Rattle.smithy_core.specs.FrameSource.{AreShort, FramesState};

    ghost Value = { FramesState };

    ghost view = { λ frames. record { left = frames.left.items; tally = frames.calls; waiting = frames.waiting.items; waits = frames.waits; ended = frames.ended } };

    ghost invariant = { λ frames. AreShort frames.left.items × (frames.ended ≡ true → frames.left.items ≡ []) };
}

impl FaultyFrames {
    /// All of the frames are left, and no call was made. Each piece of data has to have at most 4,294,967,295 bytes.
    pub fn new(frames: Vec<FramePart>, fails: Vec<u64>, waits: Vec<u64>) -> FaultyFrames
        requires { AreShort frames.items }
        ensures left { ⟦<FaultyFrames as FrameSource>⟧.left result ≡ Some frames.items }
        ensures faults { ⟦<FaultyFrames as FrameSource>⟧.faults result ≡ 0 }
        ensures waits { ⟦<FaultyFrames as FrameSource>⟧.waits result ≡ 0 }
        ensures calls { (result.tally ≡ no_calls fails.items) × (result.waiting ≡ waits.items) }
        ensures open { result.ended ≡ false }
    {
        FaultyFrames {
            left: VecDeque::from(frames),
            calls: Calls::new(fails),
            waiting: waits,
            waits: 0,
            ended: false,
        }
    }

    /// A source with the same frames left, after the same calls.
    pub fn try_clone(&self) -> Mem<FaultyFrames>
        ensures { IfOk result (λ copy. copy ≡ self.now) }
    {
        Ok(FaultyFrames {
            left: copied_frames(&self.left)?,
            calls: self.calls.try_clone()?,
            waiting: self.waiting.clone()?,
            waits: self.waits,
            ended: self.ended,
        })
    }
}

impl FrameSource for FaultyFrames {
    ghost left = { λ frames. Some frames.left };

    ghost waits = { λ frames. frames.waits };

    ghost faults = { λ frames. frames.tally.faults };

    ghost ended = { λ frames. frames.ended ≡ true };

    fn poll_frame(&mut self) -> Polled
        ensures gives { GivesFrame (Some self.old.left) (Some self.new.left) result }
        ensures short { GivesShort result }
        ensures again { self.old.ended ≡ true → result ≡ polled.End }
        ensures polls { self.old.ended ≡ false → PollsAsListed self.old result self.new }
        ensures over { self.old.ended ≡ true → self.new ≡ self.old }
    {
        if self.ended {
            return Polled::End;
        }
        if self.calls.count_one() {
            return Polled::Failed;
        }
        if self.waiting.contains(&self.calls.made()) {
            self.waits = self.waits.saturating_add(1);
            return Polled::NotYet;
        }
        let answer = next_frame(&mut self.left);
        self.ended = matches!(answer, Polled::End);
        answer
    }
}

/// Frames in memory that neither fail nor wait. There is no [`Debug`](std::fmt::Debug), so that no secret is printed.
///
/// Contracts see the frames that are left.
#[derive(Drop)]
pub struct CalmFrames {
    left: VecDeque<FramePart>,
}

impl Model for CalmFrames {
    ghost use Rattle.std.specs.Prelude.{List};
    ghost use Rattle.smithy_core.specs.FrameSource.{AreShort};
    ghost use Rattle.smithy_core.specs.declared.outside.frame_part.FramePart.{FramePart as Part};

    ghost Value = { List Part };

    ghost view = { λ frames. frames.left.items };

    ghost invariant = { λ frames. AreShort frames.left.items };
}

impl CalmFrames {
    /// All of the frames are left. Each piece of data has to have at most 4,294,967,295 bytes.
    pub fn new(frames: Vec<FramePart>) -> CalmFrames
        requires { AreShort frames.items }
        ensures left { ⟦<CalmFrames as FrameSource>⟧.left result ≡ Some frames.items }
        ensures faults { ⟦<CalmFrames as FrameSource>⟧.faults result ≡ 0 }
        ensures waits { ⟦<CalmFrames as FrameSource>⟧.waits result ≡ 0 }
    {
        CalmFrames {
            left: VecDeque::from(frames),
        }
    }

    /// All of the frames are left, or none exactly where a piece of data has more than 4,294,967,295 bytes.
    pub fn checked(frames: Vec<FramePart>) -> Option<CalmFrames>
        ensures frames { IfSome result (λ source. source ≡ frames.items) }
        ensures short { IsSome result ↔ AreShort frames.items }
    {
        if are_short(frames.as_slice()) {
            Some(CalmFrames::new(frames))
        } else {
            None
        }
    }

    /// A source with the same frames left.
    pub fn try_clone(&self) -> Mem<CalmFrames>
        ensures { IfOk result (λ copy. copy ≡ self.now) }
    {
        Ok(CalmFrames {
            left: copied_frames(&self.left)?,
        })
    }
}

impl FrameSource for CalmFrames {
    ghost left = { λ frames. Some frames };

    ghost waits = { λ _. 0 };

    ghost faults = { λ _. 0 };

    ghost ended = { λ frames. frames ≡ [] };

    fn poll_frame(&mut self) -> Polled
        ensures gives { GivesFrame (Some self.old) (Some self.new) result }
        ensures calm { GivesCalmly result }
        ensures short { GivesShort result }
        ensures ends { result ≡ polled.End → self.new ≡ [] }
        ensures again { self.old ≡ [] → result ≡ polled.End }
    {
        next_frame(&mut self.left)
    }
}

// Whether each piece of data has at most 4,294,967,295 bytes.
fn are_short(frames: &[FramePart]) -> bool
    ensures { IsTrue result ↔ AreShort frames.now }
{
    frames.iter().all(is_short)
}

// Whether a frame has at most 4,294,967,295 bytes of data.
fn is_short(frame: &FramePart) -> bool
    ensures { IsTrue result ↔ IsShort frame.now }
{
    match frame {
        FramePart::Data(piece) => piece.len() <= MOST_PIECE,
        FramePart::Trailers(_) => true,
    }
}

// The first frame, or the end.
fn next_frame(left: &mut VecDeque<FramePart>) -> Polled
    requires { AreShort left.old.items }
    ensures gives { GivesFrame (Some left.old.items) (Some left.new.items) result }
    ensures calm { GivesCalmly result }
    ensures short { GivesShort result }
    ensures rest { AreShort left.new.items }
{
    match left.pop_front() {
        Some(frame) => Polled::from(frame),
        None => Polled::End,
    }
}

// Equal frames.
fn copied_frames(frames: &VecDeque<FramePart>) -> Mem<VecDeque<FramePart>>
    ensures { IfOk result (λ copies. copies.items ≡ frames.now.items) }
{
    let mut copies = VecDeque::new(*frames.allocator());
    for frame in frames {
        copies.push_back(frame.try_clone()?)?;
    }
    Ok(copies)
}
