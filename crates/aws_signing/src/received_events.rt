ghost use Rattle.std.specs.Prelude.{◌≡◌, [], IfErr, IfOk};
ghost use Rattle.std.specs.List.{flat_map};
ghost use Rattle.eventstream.specs.Decode.{IsUnfinished};
ghost use Rattle.eventstream.specs.Reading.{first_of};
ghost use Rattle.aws_signing.specs.Received.{AnswersMessage, EndsReceived, GivesNextMessage, TakesMessageFront, FeedsReceived, RefusesBytes, messages_of_bytes};

use crate::fault::AwsSigningError;
use bytes::Bytes;
use eventstream::{Error, peek_message};
use seg_buf::SegBuf;
use smithy_core::Message;
use std::alloc::Global;
use std::fmt;
use std::marker::Model;

/// The messages of a stream of events that comes in pieces, however they are cut. Their signatures aren't looked at: for those
/// there is [`WatchedEvents`](crate::WatchedEvents).
///
/// ```rust
/// let mut received = ReceivedEvents::new(alloc);
/// for piece in pieces {
///     received.feed(piece)?;
///     while let Some(message) = received.next()? {
///         act_on(message)?;
///     }
/// }
/// received.finish()?;
/// ```
///
/// Contracts see the bytes that came, without those of the messages that were answered.
#[derive(Drop)]
pub struct ReceivedEvents {
    alloc: Global,
    buffer: SegBuf,
}

impl Model for ReceivedEvents {
    ghost use Rattle.std.specs.Prelude.{ℕ, List};

    ghost Value = { List ℕ };

    ghost view = { λ received. received.buffer.bytes };
}

impl ReceivedEvents {
    /// No piece has come yet.
    pub fn new(alloc: Global) -> ReceivedEvents
        ensures { result ≡ [] }
    {
        ReceivedEvents {
            alloc,
            buffer: SegBuf::new(alloc),
        }
    }

    /// Takes a piece, of any length, without copying it.
    ///
    /// # Errors
    ///
    /// [`AwsSigningError::StreamTooLong`] where the bytes at hand would be 18,446,744,073,709,551,616 or more. Nothing is taken
    /// then, nor where memory runs out.
    pub fn feed(&mut self, piece: Bytes) -> Result<(), AwsSigningError>
        ensures { FeedsReceived self.old piece self.new result }
    {
        if piece.len() > usize::MAX - self.buffer.remaining() {
            return Err(AwsSigningError::StreamTooLong);
        }
        self.buffer.reserve_one()?;
        self.buffer.push(piece);
        Ok(())
    }

    /// The next message, once its frame is there whole.
    ///
    /// # Errors
    ///
    /// [`AwsSigningError::Frame`] where the bytes at hand begin with no frame, for a reason that its first twelve bytes show or
    /// else the whole frame: now and at each later call. Nothing is lost where memory runs out.
    pub fn next(&mut self) -> Result<Option<Message>, AwsSigningError>
        ensures { GivesNextMessage self.old self.new result }
    {
        match self.take_front()? {
            Some(message) => Ok(Some(message)),
            None => Ok(None),
        }
    }

    // The message at the front, which is taken once its frame is there whole.
    fn take_front(&mut self) -> Result<Option<Message>, Error>
        ensures { TakesMessageFront self.old self.new result }
    {
        match peek_message(self.alloc, &self.buffer)? {
            Some((message, len)) => {
                self.buffer.advance(len);
                Ok(Some(message))
            }
            None => Ok(None),
        }
    }

    /// Ends the stream, whose messages were answered.
    ///
    /// # Errors
    ///
    /// [`AwsSigningError::CutOff`] where bytes are left over: the stream ended within a frame, or behind a message that wasn't
    /// asked for.
    pub fn finish(self) -> Result<(), AwsSigningError>
        ensures { EndsReceived self result }
    {
        if self.buffer.remaining() > 0 {
            return Err(AwsSigningError::CutOff);
        }
        Ok(())
    }
}

// Shows how many bytes are at hand, and none of them: an event may hold a secret.
impl fmt::Debug for ReceivedEvents {
    ghost use Rattle.std.specs.Prelude.{Some};
    ghost use Rattle.aws_signing.specs.Received.{shown_received};

    ghost debug_output = { λ received. Some (shown_received received) };

    fn fmt<W: fmt::Write>(&self, f: &mut fmt::Formatter<W>) -> fmt::Result {
        let count = self.buffer.remaining();
        write!(f, "ReceivedEvents({count} bytes)")
    }
}

/// The messages of pieces that came, one after another: an iterator, whose last item is an error where the bytes aren't frames.
///
/// Contracts see the bytes without those of the messages that were answered, and whether no more are.
#[derive(Drop)]
pub struct ReceivedMessages {
    received: ReceivedEvents,
    is_over: bool,
}

impl Model for ReceivedMessages {
    ghost use Rattle.aws_signing.specs.Received.{MessagesLeft};

    ghost Value = { MessagesLeft };

    ghost view = { λ messages. record { bytes = messages.received; is_over = messages.is_over } };
}

/// After an error there is no item: [`AwsSigningError::Frame`] where the bytes are no frame, [`AwsSigningError::CutOff`] where they
/// end within one, and [`AwsSigningError::NoMemory`].
impl Iterator for ReceivedMessages {
    ghost use Rattle.std.specs.Iterator.{at_most};
    ghost use Rattle.aws_signing.specs.Received.{YieldsMessage, most_answers};

    type Item = Result<Message, AwsSigningError>;

    ghost next_gives = { λ old answer new. YieldsMessage old answer new };

    ghost remaining = { λ messages. at_most (most_answers messages) };

    #[tactic(auto, using(eventstream::proofs::ReadingLemmas::shorter))]
    fn next(&mut self) -> Option<Result<Message, AwsSigningError>> {
        if self.is_over {
            return None;
        }
        let answer = self.answer();
        self.is_over = !matches!(answer, Some(Ok(_)));
        answer
    }
}

impl ReceivedMessages {
    // The next message, or why there is none.
    fn answer(&mut self) -> Option<Result<Message, AwsSigningError>>
        ensures answers { AnswersMessage self.old.bytes self.new.bytes result }
        ensures over { self.new.is_over ≡ self.old.is_over }
    {
        match self.received.next() {
            Ok(Some(message)) => Some(Ok(message)),
            Ok(None) => self.end(),
            Err(fault) => Some(Err(fault)),
        }
    }

    // The end, or that bytes are left.
    fn end(&self) -> Option<Result<Message, AwsSigningError>>
        requires { IsUnfinished (first_of self.now.bytes) }
        ensures { AnswersMessage self.now.bytes self.now.bytes result }
    {
        if self.received.buffer.remaining() > 0 {
            Some(Err(AwsSigningError::CutOff))
        } else {
            None
        }
    }
}

/// The messages of pieces that came.
///
/// ```rust
/// for message in received(alloc, pieces)? {
///     act_on(message?)?;
/// }
/// ```
///
/// # Errors
///
/// Those of [`ReceivedEvents::feed`].
pub fn received(alloc: Global, pieces: Vec<Bytes>) -> Result<ReceivedMessages, AwsSigningError>
    ensures ok { IfOk result (λ messages. messages ≡ messages_of_bytes (flat_map (λ piece. piece) pieces.items)) }
    ensures err { IfErr result (RefusesBytes (flat_map (λ piece. piece) pieces.items)) }
{
    Ok(ReceivedMessages {
        received: fed(alloc, pieces)?,
        is_over: false,
    })
}

// All pieces, fed.
fn fed(alloc: Global, pieces: Vec<Bytes>) -> Result<ReceivedEvents, AwsSigningError>
    ensures ok { IfOk result (λ received. received ≡ flat_map (λ piece. piece) pieces.items) }
    ensures err { IfErr result (RefusesBytes (flat_map (λ piece. piece) pieces.items)) }
{
    let mut received = ReceivedEvents::new(alloc);
    for piece in pieces {
        received.feed(piece)?;
    }
    Ok(received)
}
