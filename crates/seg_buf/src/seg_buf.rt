ghost use Rattle.std.specs.Prelude.{◌≡◌, ◌+◌, ◌-◌, ◌^◌, ◌<◌, ◌≤◌, [], ◌++◌, length, take, drop, slice_index, min, option_copied, IsOk, IfOk, IfSome, OnOk, OnErr};
ghost use Rattle.seg_buf.specs.Segments.{LieIn, cut, first_segment, prelude_len, with_segment};

use bytes::Bytes;
use std::alloc::{AllocError, Global};
use std::collections::VecDeque;
use std::fmt;
use std::marker::Model;

/// The bytes of a prelude, with which a frame of the event stream encoding begins: two lengths and their checksum.
pub const PRELUDE: usize = 12;

/// For how many pieces the first allocation has room.
const FIRST_ROOM: usize = 4;

/// Shared pieces of bytes, read as one list. [`Debug`](std::fmt::Debug) prints how many bytes there are, and none of them,
/// since they may hold a secret.
///
/// Contracts see it as its `Segments`: its bytes in one flat list, the segments in which they lie, and for how many
/// pieces more it has room.
#[derive(Drop)]
pub struct SegBuf {
    // The pieces that aren't used up, in order.
    pieces: VecDeque<Bytes>,
    // How many bytes of the first piece were taken.
    taken: usize,
    // How many bytes are left in all.
    len: usize,
}

impl Model for SegBuf {
    ghost use Rattle.std.specs.Prelude.{◌-◌};
    ghost use Rattle.std.specs.VecDeque.{deque_len, deque_capacity};
    ghost use Rattle.seg_buf.specs.Segments.{Segments, flat, left_of, IsKept};

    ghost Value = { Segments };

    ghost view = { λ b. record { bytes = flat b.pieces.items b.taken; segments = left_of b.pieces.items b.taken; spare = deque_capacity b.pieces - deque_len b.pieces } };

    ghost invariant = { λ b. IsKept b.pieces.items b.taken b.len };
}

impl SegBuf {
    /// A buffer without bytes. Its capacity isn't specified.
    pub fn new(alloc: Global) -> SegBuf
        ensures bytes { result.bytes ≡ [] }
        ensures segments { result.segments ≡ [] }
    {
        SegBuf {
            pieces: VecDeque::new(alloc),
            taken: 0,
            len: 0,
        }
    }

    /// Makes room for one piece, where there is none.
    ///
    /// # Errors
    ///
    /// Memory ran out. Nothing has changed then.
    pub fn reserve_one(&mut self) -> Result<(), AllocError>
        ensures bytes { self.new.bytes ≡ self.old.bytes }
        ensures segments { self.new.segments ≡ self.old.segments }
        ensures ok { OnOk result (1 ≤ self.new.spare) }
        ensures kept { self.old.spare ≤ self.new.spare }
        ensures at_hand { 1 ≤ self.old.spare → IsOk result }
        ensures err { OnErr result (self.new ≡ self.old) }
    {
        if self.pieces.len() == self.pieces.capacity() {
            // `reserve` doesn't promise that a refusal leaves the room as it was.
            let more = self.pieces.len().max(FIRST_ROOM);
            self.pieces.reserve_exact(more)?;
        }
        Ok(())
    }

    /// Appends the bytes of the piece, without copying them. It takes no memory: there has to be room for a piece, which
    /// [`reserve_one`](Self::reserve_one) makes. The number of all bytes has to fit 64 bits.
    #[tactic(auto, using(crate::proofs::SegmentLemmas::pushes))]
    pub fn push(&mut self, piece: Bytes)
        requires room { 1 ≤ self.old.spare }
        requires fits { length self.old.bytes + length piece < 2 ^ 64 }
        ensures bytes { self.new.bytes ≡ self.old.bytes ++ piece }
        ensures segments { self.new.segments ≡ with_segment self.old.segments piece }
        ensures spare { self.old.spare ≤ self.new.spare + 1 }
    {
        if !piece.is_empty() {
            self.len += piece.len();
            self.pieces.push_back_reserved(piece);
        }
    }

    /// Appends a copy of the bytes, and makes the room for it. The number of all bytes has to fit 64 bits.
    ///
    /// # Errors
    ///
    /// Memory ran out. Nothing has changed then.
    pub fn push_slice(&mut self, bytes: &[u8]) -> Result<(), AllocError>
        requires fits { length self.old.bytes + length bytes.now < 2 ^ 64 }
        ensures bytes { OnOk result (self.new.bytes ≡ self.old.bytes ++ bytes.now) }
        ensures segments { OnOk result (self.new.segments ≡ with_segment self.old.segments bytes.now) }
        ensures err { OnErr result (self.new ≡ self.old) }
    {
        let piece = Bytes::copy_from_slice(*self.pieces.allocator(), bytes)?;
        self.reserve_one()?;
        self.push(piece);
        Ok(())
    }

    /// The first segment, lent without copying it, and nothing exactly where no byte remains.
    #[tactic(auto, using(crate::proofs::SegmentLemmas::lie))]
    pub fn first(&self) -> Option<&[u8]>
        ensures first { option_copied result ≡ first_segment self.now.segments }
        ensures lie { LieIn self.now.bytes self.now.segments }
    {
        let first = self.pieces.front()?;
        Some(&first.as_slice()[self.taken..])
    }

    /// The number of bytes.
    pub fn remaining(&self) -> usize
        ensures { result ≡ length self.now.bytes }
    {
        self.len
    }

    /// Drops the first `n` bytes, which have to be there. It takes no memory.
    #[tactic(auto, using(crate::proofs::SegmentLemmas::cuts))]
    pub fn advance(&mut self, n: usize)
        requires { n ≤ length self.old.bytes }
        ensures bytes { self.new.bytes ≡ drop n self.old.bytes }
        ensures segments { self.new.segments ≡ cut n self.old.segments }
        ensures spare { self.old.spare ≤ self.new.spare }
    {
        let mut left = n;
        while left > 0 {
            left -= self.advance_first(left);
        }
    }

    // Drops up to `n` bytes of the first piece, and returns how many.
    #[tactic(auto, using(crate::proofs::SegmentLemmas::cuts))]
    fn advance_first(&mut self, n: usize) -> usize
        requires some { 0 < n }
        requires within { n ≤ length self.old.bytes }
        ensures some { 0 < result }
        ensures bound { result ≤ n }
        ensures bytes { self.new.bytes ≡ drop result self.old.bytes }
        ensures segments { cut (n - result) self.new.segments ≡ cut n self.old.segments }
        ensures spare { self.old.spare ≤ self.new.spare }
    {
        let Some(first) = self.pieces.front() else {
            unreachable!()
        };
        let live = first.len() - self.taken;
        if n < live {
            self.taken += n;
            self.len -= n;
            return n;
        }
        let _used_up = self.pieces.pop_front();
        self.taken = 0;
        self.len -= live;
        live
    }

    /// The byte at the place, counted from 0, which has to be there.
    pub fn peek(&self, at: usize) -> u8
        requires { at < length self.now.bytes }
        ensures { result ≡ slice_index self.now.bytes at }
    {
        let mut left = at;
        let mut taken = self.taken;
        for piece in &self.pieces {
            let live = piece.len() - taken;
            if left < live {
                return piece.as_slice()[taken + left];
            }
            left -= live;
            taken = 0;
        }
        unreachable!()
    }

    // Fills the slice with the first bytes.
    fn copy_into(&self, into: &mut [u8])
        requires { length into.old ≤ length self.now.bytes }
        ensures { into.new ≡ take (length into.old) self.now.bytes }
    {
        let mut filled = 0;
        let mut taken = self.taken;
        for piece in &self.pieces {
            filled += put_at(into, filled, &piece.as_slice()[taken..]);
            if filled == into.len() {
                return;
            }
            taken = 0;
        }
    }

    /// The bytes of a prelude, which come first, have to be there, and stay. It takes no memory.
    pub fn peek_prelude(&self) -> [u8; PRELUDE]
        requires { prelude_len ≤ length self.now.bytes }
        ensures { result ≡ take prelude_len self.now.bytes }
    {
        match self.first_prelude() {
            Some(prelude) => prelude,
            None => self.joined_prelude(),
        }
    }

    // The bytes of a prelude, where they lie in the first segment.
    fn first_prelude(&self) -> Option<[u8; PRELUDE]>
        ensures { IfSome result (λ prelude. prelude ≡ take prelude_len self.now.bytes) }
    {
        let (prelude, _) = self.first()?.split_first_chunk::<PRELUDE>()?;
        let prelude = *prelude;
        Some(prelude)
    }

    // The bytes of a prelude, joined from the segments in which they lie.
    fn joined_prelude(&self) -> [u8; PRELUDE]
        requires { prelude_len ≤ length self.now.bytes }
        ensures { result ≡ take prelude_len self.now.bytes }
    {
        let mut prelude = [0; PRELUDE];
        self.copy_into(&mut prelude);
        prelude
    }

    /// Takes the bytes of a prelude, which come first and have to be there. It takes no memory.
    pub fn take_prelude(&mut self) -> [u8; PRELUDE]
        requires { prelude_len ≤ length self.old.bytes }
        ensures bytes { self.old.bytes ≡ result ++ self.new.bytes }
        ensures front { result ≡ take prelude_len self.old.bytes }
        ensures rest { self.new.bytes ≡ drop prelude_len self.old.bytes }
        ensures segments { self.new.segments ≡ cut prelude_len self.old.segments }
        ensures spare { self.old.spare ≤ self.new.spare }
    {
        let prelude = self.peek_prelude();
        self.advance(PRELUDE);
        prelude
    }

    /// The first `n` bytes, which have to be there, and stay. They are shared where they lie in the first piece, and else
    /// copied.
    ///
    /// # Errors
    ///
    /// Memory ran out.
    pub fn copy_front(&self, n: usize) -> Result<Bytes, AllocError>
        requires { n ≤ length self.now.bytes }
        ensures { IfOk result (λ front. front ≡ take n self.now.bytes) }
    {
        match self.pieces.front() {
            Some(first) if n <= first.len() - self.taken => first.slice(self.taken..self.taken + n),
            _ => self.joined_front(n),
        }
    }

    // A copy of the first `n` bytes.
    fn joined_front(&self, n: usize) -> Result<Bytes, AllocError>
        requires { n ≤ length self.now.bytes }
        ensures { IfOk result (λ front. front ≡ take n self.now.bytes) }
    {
        let mut front = Vec::with_capacity(*self.pieces.allocator(), n)?;
        self.push_front_to(n, &mut front)?;
        Ok(Bytes::from_vec(front)?)
    }

    // Appends the first `n` bytes to a vector, which has to be empty.
    fn push_front_to(&self, n: usize, front: &mut Vec<u8>) -> Result<(), AllocError>
        requires within { n ≤ length self.now.bytes }
        requires none { front.old.items ≡ [] }
        ensures { OnOk result (front.new.items ≡ take n self.now.bytes) }
    {
        let mut taken = self.taken;
        for piece in &self.pieces {
            push_up_to(front, n, &piece.as_slice()[taken..])?;
            if front.len() == n {
                return Ok(());
            }
            taken = 0;
        }
        Ok(())
    }

    /// Takes the first `n` bytes, which have to be there. They are shared where they lie in the first piece, and else copied.
    ///
    /// # Errors
    ///
    /// Memory ran out. Nothing was taken then.
    pub fn copy_to_bytes(&mut self, n: usize) -> Result<Bytes, AllocError>
        requires { n ≤ length self.old.bytes }
        ensures front { IfOk result (λ front. front ≡ take n self.old.bytes) }
        ensures rest { OnOk result (self.new.bytes ≡ drop n self.old.bytes) }
        ensures segments { OnOk result (self.new.segments ≡ cut n self.old.segments) }
        ensures spare { self.old.spare ≤ self.new.spare }
        ensures err { OnErr result (self.new ≡ self.old) }
    {
        let front = self.copy_front(n)?;
        self.advance(n);
        Ok(front)
    }

    /// An equal buffer, with room for as many pieces more. It shares the bytes.
    ///
    /// # Errors
    ///
    /// Memory ran out.
    pub fn try_clone(&self) -> Result<SegBuf, AllocError>
        ensures { IfOk result (λ copy. copy ≡ self.now) }
    {
        let alloc = *self.pieces.allocator();
        let mut pieces = VecDeque::with_capacity(alloc, self.pieces.capacity())?;
        for piece in &self.pieces {
            pieces.push_back(piece.clone()?)?;
        }
        Ok(SegBuf {
            pieces,
            taken: self.taken,
            len: self.len,
        })
    }
}

impl fmt::Debug for SegBuf {
    ghost use Rattle.std.specs.Prelude.{Some, length};
    ghost use Rattle.seg_buf.specs.Segments.{buffer_size};

    ghost debug_output = { λ buffer. Some (buffer_size (length buffer.bytes)) };

    fn fmt<W: fmt::Write>(&self, f: &mut fmt::Formatter<W>) -> fmt::Result {
        let count = self.len;
        write!(f, "SegBuf({count} bytes)")
    }
}

// Appends a prefix of the bytes, so that there are up to `most` in all.
fn push_up_to(front: &mut Vec<u8>, most: usize, bytes: &[u8]) -> Result<(), AllocError>
    requires { length front.old.items ≤ most }
    ensures { OnOk result (front.new.items ≡ front.old.items ++ take (most - length front.old.items) bytes.now) }
{
    let count = bytes.len().min(most - front.len());
    front.extend_from_slice(&bytes[..count])
}

// Writes a prefix of the bytes at the place, as many as there is room for, and returns how many.
fn put_at(into: &mut [u8], at: usize, bytes: &[u8]) -> usize
    requires { at ≤ length into.old }
    ensures count { result ≡ min (length bytes.now) (length into.old - at) }
    ensures put { take (at + result) into.new ≡ take at into.old ++ take result bytes.now }
{
    let count = bytes.len().min(into.len() - at);
    into[at..at + count].copy_from_slice(&bytes[..count]);
    count
}
