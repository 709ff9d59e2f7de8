ghost use Rattle.std.specs.Prelude.{◌≡◌, ℕ, List, ◌+◌, ◌≤◌, ◌<◌, ◌++◌, length, take, drop, None, Some, Ok, IfOk, IfSome};
ghost use Rattle.seg_buf.specs.Segments.{prelude_len};
ghost use Rattle.eventstream.specs.Decode.{DecodesAll, Finishes, DecodesFrame, IsReadPrelude, appended_messages, end_of, undecoded_bytes};
ghost use Rattle.eventstream.specs.Frame.{most_frame};
ghost use Rattle.eventstream.specs.Read.{AreFit, read_prelude};
ghost use Rattle.eventstream.specs.Reading.{first_of};
ghost use Rattle.eventstream.specs.declared.decode.DecodedFrame.TheVariants.{Incomplete};

use crate::error::{Error, ErrorKind};
use crate::kept_prelude::KeptPrelude;
use crate::peek::read_front;
use crate::read::{Lengths, read_frame, read_prelude};
use seg_buf::{PRELUDE, SegBuf};
use smithy_core::{Mem, Message};
use std::alloc::Global;
use std::marker::Model;

/// What a [`MessageFrameDecoder`] answers.
#[derive(Debug, Drop)]
pub enum DecodedFrame {
    /// Less than a frame is there.
    Incomplete,
    /// The message of a frame.
    Complete(Message),
}

impl DecodedFrame {
    /// An equal answer.
    pub fn try_clone(&self) -> Mem<DecodedFrame>
        ensures { IfOk result (λ copy. copy ≡ self.now) }
    {
        Ok(match self {
            DecodedFrame::Incomplete => DecodedFrame::Incomplete,
            DecodedFrame::Complete(message) => DecodedFrame::Complete(message.try_clone()?),
        })
    }
}

/// Reads frames from bytes that come in pieces.
///
/// Contracts see it as the prelude that it has taken from a frame that isn't there yet.
#[derive(Clone, Debug, Drop)]
pub struct MessageFrameDecoder {
    prelude: Option<KeptPrelude>,
}

impl Model for MessageFrameDecoder {
    ghost use Rattle.std.specs.Prelude.{ℕ, List, Option, IfSome, option_map};
    ghost use Rattle.eventstream.specs.Decode.{IsReadPrelude};

    ghost Value = { Option (List ℕ) };

    ghost view = { λ decoder. option_map (λ kept. kept.bytes) decoder.prelude };

    ghost invariant = { λ decoder. IfSome decoder.prelude IsReadPrelude };
}

/// How a stream ends.
#[derive(Clone, Copy, Debug, PartialEq, Eq)]
pub enum StreamEnd {
    /// After a whole frame: no byte is left.
    Clean,
    /// Within a frame, of which so many bytes came.
    Leftover(usize),
    /// A frame or a fault is there, which wasn't decoded yet.
    Undecoded,
}

impl MessageFrameDecoder {
    /// A decoder at the start of a stream.
    pub fn new() -> Self
        ensures { result ≡ None }
    {
        MessageFrameDecoder { prelude: None }
    }

    /// The prelude that was taken and not yet used.
    pub fn prelude(&self) -> Option<[u8; PRELUDE]>
        ensures { result ≡ self.now }
    {
        match self.prelude {
            Some(kept) => Some(kept.bytes),
            None => None,
        }
    }

    /// Takes the next frame from the buffer, once it is there. Until then the decoder keeps its prelude.
    ///
    /// ```rust
    /// buffer.push_slice(piece)?;
    /// match decoder.decode_frame(alloc, &mut buffer)? {
    ///     DecodedFrame::Complete(message) => println!(rt; "{message:?}")?,
    ///     DecodedFrame::Incomplete => println!(rt; "more bytes are needed")?,
    /// }
    /// ```
    ///
    /// # Errors
    ///
    /// Those of [`read_message_from`](crate::read_message_from) for the bytes of the frame, which is taken
    /// whole. A fault of the prelude is answered as soon as its twelve bytes are there, now and at each later call,
    /// and nothing more is taken. After [`ErrorKind::NoMemory`] nothing has changed.
    pub fn decode_frame(
        &mut self,
        alloc: Global,
        buffer: &mut SegBuf,
    ) -> Result<DecodedFrame, Error>
        ensures step { DecodesFrame self.old buffer.old self.new buffer.new result }
        ensures short { result ≡ Ok Incomplete → length (undecoded_bytes self.new buffer.new.bytes) < most_frame }
        ensures spare { buffer.old.spare ≤ buffer.new.spare }
    {
        match self.prelude {
            Some(kept) => self.decode_rest(alloc, kept, buffer),
            None => self.decode_whole(alloc, buffer),
        }
    }

    /// Takes all messages that are there, and appends them.
    ///
    /// ```rust
    /// let mut messages = Vec::new(alloc);
    /// for piece in pieces {
    ///     buffer.push_slice(piece)?;
    ///     decoder.decode_all(alloc, &mut buffer, &mut messages)?;
    /// }
    /// if let StreamEnd::Leftover(count) = decoder.end(&buffer) {
    ///     println!(rt; "the stream breaks off, {count} bytes after its last message")?;
    /// }
    /// ```
    ///
    /// # Errors
    ///
    /// Those of [`decode_frame`](MessageFrameDecoder::decode_frame). The messages before a fault are
    /// appended. After [`ErrorKind::NoMemory`] each message is appended or still in the buffer.
    #[tactic(auto, using(crate::proofs::DecodeAllLemmas::taken))]
    pub fn decode_all(
        &mut self,
        alloc: Global,
        buffer: &mut SegBuf,
        messages: &mut Vec<Message>,
    ) -> Result<(), Error>
        ensures appended { messages.new.items ≡ messages.old.items ++ appended_messages messages.old.items messages.new.items }
        ensures decoded { DecodesAll (appended_messages messages.old.items messages.new.items) self.old buffer.old self.new buffer.new result }
        ensures spare { buffer.old.spare ≤ buffer.new.spare }
    {
        loop {
            // A message that left the buffer is lost where it has no place.
            messages.reserve(1)?;
            match self.decode_frame(alloc, buffer)? {
                DecodedFrame::Incomplete => return Ok(()),
                DecodedFrame::Complete(message) => messages.push_reserved(message),
            }
        }
    }

    /// How the stream ends, where no byte follows those of the buffer.
    #[tactic(auto, using(crate::proofs::FrontLemmas::short_is, crate::proofs::DecodeLemmas::kept_first))]
    pub fn end(&self, buffer: &SegBuf) -> StreamEnd
        ensures { result ≡ end_of (first_of (undecoded_bytes self.now buffer.now.bytes)) }
    {
        let left = buffer.remaining();
        match self.prelude {
            Some(kept) => end_behind(kept.lengths(), PRELUDE, left),
            None if left == 0 => StreamEnd::Clean,
            None if left < PRELUDE => StreamEnd::Leftover(left),
            None => end_behind(read_prelude(&buffer.peek_prelude()), 0, left),
        }
    }

    // Takes the rest of a frame whose prelude is kept.
    fn decode_rest(
        &mut self,
        alloc: Global,
        kept: KeptPrelude,
        buffer: &mut SegBuf,
    ) -> Result<DecodedFrame, Error>
        requires kept { self.old ≡ Some kept.bytes }
        requires read { IsReadPrelude kept }
        ensures step { DecodesFrame self.old buffer.old self.new buffer.new result }
        ensures short { result ≡ Ok Incomplete → length (undecoded_bytes self.new buffer.new.bytes) < most_frame }
        ensures spare { buffer.old.spare ≤ buffer.new.spare }
    {
        let lengths = kept.lengths()?;
        let left = lengths.total - PRELUDE;
        if buffer.remaining() < left {
            return Ok(DecodedFrame::Incomplete);
        }
        let rest = buffer.copy_front(left)?;
        let read = read_frame(alloc, lengths, kept.bytes, rest);
        self.finish(buffer, left, read)
    }

    // Takes a frame that is there whole, or else its prelude.
    fn decode_whole(&mut self, alloc: Global, buffer: &mut SegBuf) -> Result<DecodedFrame, Error>
        requires { self.old ≡ None }
        ensures step { DecodesFrame self.old buffer.old self.new buffer.new result }
        ensures short { result ≡ Ok Incomplete → length (undecoded_bytes self.new buffer.new.bytes) < most_frame }
        ensures spare { buffer.old.spare ≤ buffer.new.spare }
    {
        let there = buffer.remaining();
        if there < PRELUDE {
            return Ok(DecodedFrame::Incomplete);
        }
        let prelude = buffer.peek_prelude();
        let lengths = match read_prelude(&prelude) {
            Ok(lengths) => lengths,
            Err(kind) => {
                self.take_prelude(buffer, prelude, None);
                return Err(Error::from(kind));
            }
        };
        if there < lengths.total {
            self.take_prelude(buffer, prelude, Some(lengths));
            return Ok(DecodedFrame::Incomplete);
        }
        let read = read_front(alloc, lengths, prelude, buffer);
        self.finish(buffer, lengths.total, read)
    }

    // Takes the prelude at the front of the buffer, which has these lengths or is a fault, and keeps it.
    fn take_prelude(&mut self, buffer: &mut SegBuf, bytes: [u8; PRELUDE], lengths: Option<Lengths>)
        requires there { prelude_len ≤ length buffer.old.bytes }
        requires told { IfSome lengths (λ lengths. read_prelude bytes ≡ Ok lengths) }
        requires fit { IfSome lengths AreFit }
        ensures prelude { self.new ≡ Some bytes }
        ensures bytes { buffer.new.bytes ≡ drop prelude_len buffer.old.bytes }
        ensures spare { buffer.old.spare ≤ buffer.new.spare }
    {
        buffer.advance(PRELUDE);
        self.prelude = Some(KeptPrelude { bytes, lengths });
    }

    // Takes the bytes of a frame that was read, whatever came of it, unless memory ran out.
    fn finish(
        &mut self,
        buffer: &mut SegBuf,
        len: usize,
        read: Result<Message, Error>,
    ) -> Result<DecodedFrame, Error>
        requires { len ≤ length buffer.old.bytes }
        ensures taken { Finishes len read self.old buffer.old self.new buffer.new result }
        ensures spare { buffer.old.spare ≤ buffer.new.spare }
    {
        match read {
            Ok(message) => {
                self.drop_frame(buffer, len);
                Ok(DecodedFrame::Complete(message))
            }
            Err(error) => {
                if !matches!(error.kind(), ErrorKind::NoMemory) {
                    self.drop_frame(buffer, len);
                }
                Err(error)
            }
        }
    }

    // Forgets the prelude, and drops so many bytes of the buffer.
    fn drop_frame(&mut self, buffer: &mut SegBuf, len: usize)
        requires { len ≤ length buffer.old.bytes }
        ensures prelude { self.new ≡ None }
        ensures bytes { buffer.new.bytes ≡ drop len buffer.old.bytes }
        ensures spare { buffer.old.spare ≤ buffer.new.spare }
    {
        buffer.advance(len);
        self.prelude = None;
    }
}

// How a stream ends with `kept` and then `left` bytes, of which the first are a prelude that was read as this.
#[tactic(auto, using(crate::proofs::EndLemmas::end_bad, crate::proofs::EndLemmas::end_whole, crate::proofs::EndLemmas::end_leftover))]
fn end_behind(read: Result<Lengths, ErrorKind>, kept: usize, left: usize) -> StreamEnd
    requires within { kept ≤ prelude_len }
    requires fit { IfOk read AreFit }
    ensures { (bytes : List ℕ) → length bytes ≡ kept + left → prelude_len ≤ length bytes → read_prelude (take prelude_len bytes) ≡ read → result ≡ end_of (first_of bytes) }
{
    let Ok(lengths) = read else {
        return StreamEnd::Undecoded;
    };
    if lengths.total - kept <= left {
        return StreamEnd::Undecoded;
    }
    StreamEnd::Leftover(kept + left)
}
