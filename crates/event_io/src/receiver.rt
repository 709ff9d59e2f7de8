ghost use Rattle.std.specs.Prelude.{◌≡◌, ◌<◌, ◌||◌, length, IfErr, IfOk, None};
ghost use Rattle.smithy_core.specs.declared.outside.frame_part.FramePart.TheVariants.{Data};
ghost use Rattle.eventstream.specs.Frame.{most_frame};
ghost use Rattle.event_io.specs.Frames.{one_if_idle};
ghost use Rattle.event_io.specs.Receiver.{Comes, Cuts, IsNew, HoldsFrame, KeepsOthers, LacksFrame, Makes, NamesMadeWant, NamesWantOfMemory, PullsFront, PullsOne, Receives, Settles, Unmarshals, ends_reading, is_terminated, kept_message, recv_stop, rest_of, taken_bytes, terminates, unmarshaller_of};
ghost use Rattle.event_io.specs.Stop.{IsEnd, NamesStopWant};

use crate::coming::{Coming, Front, Made};
use crate::received::Received;
use crate::response_fault::{ReceiveError, ResponseFault, is_want};
use crate::stop::Stop;
use bytes::Bytes;
use eventstream::{UnmarshallMessage, UnmarshalledMessage, peek_message};
use seg_buf::SegBuf;
use smithy_core::{FrameSource, Message, Polled, RawMessage, SdkError};
use std::alloc::Global;

/// How many frames without data a call takes at most.
const MOST_IDLE: u32 = 65_536;

/// Makes events of the frames of a source, however these cut the stream.
pub struct Receiver<F, U> {
    alloc: Global,
    unmarshaller: U,
    source: F,
    // What was taken of the source and not yet answered.
    buffer: SegBuf,
    // The first message, where it was looked at and isn't the one that begins the stream.
    kept: Option<Message>,
    // Nothing more is read.
    pub(crate) over: bool,
}

// Written out: a derived drop would be taken apart in the proof of each function that drops one.
impl<F: Drop, U: Drop> Drop for Receiver<F, U> {
    fn drop(self) {
        let Receiver {
            alloc: _,
            unmarshaller,
            source,
            buffer,
            kept,
            over: _,
        } = self;
        drop(unmarshaller);
        drop(source);
        drop(buffer);
        drop(kept);
    }
}

impl<F, U> Receiver<F, U> {
    /// A receiver of the messages of a body, which has taken nothing of it.
    pub fn new(alloc: Global, unmarshaller: U, body: F) -> Receiver<F, U>
        ensures { IsNew unmarshaller body result }
    {
        Receiver {
            alloc,
            unmarshaller,
            source: body,
            buffer: SegBuf::new(alloc),
            kept: None,
            over: false,
        }
    }
}

impl<F: FrameSource, U: UnmarshallMessage> Receiver<F, U> {
    /// The next event: that of the kept message, where one is kept, or else of the next message of the stream.
    ///
    /// # Errors
    ///
    /// [`SdkError::ServiceError`] with the error that the service sent, or [`SdkError::ResponseError`]: the unmarshaller
    /// refused the message, the bytes are no frame, or the stream ended within a frame, after the bytes that are named. After
    /// these each call answers the end. After [`SdkError::DispatchFailure`], where the source failed, and after
    /// [`SdkError::NoMemory`] the next call goes on, and nothing is lost.
    pub fn recv(
        &mut self,
    ) -> Result<Received<U::Output>, SdkError<U::Error, ResponseFault, RawMessage>>
        ensures receives { Receives F.FrameSource U.UnmarshallMessage (kept_message self.old) (is_terminated self.old) self.old self.new result }
        ensures any_cut { kept_message self.old ≡ None → Cuts (recv_stop result) (terminates result) (λ message. Unmarshals U.UnmarshallMessage (unmarshaller_of self.old) message result)
            (rest_of F.FrameSource self.old) (rest_of F.FrameSource self.new) }
        ensures terminated { is_terminated self.new ≡ (is_terminated self.old || terminates result) }
        ensures others { KeepsOthers F.FrameSource self.old self.new }
        ensures want { NamesWantOfMemory result }
    {
        let answer = self.receive();
        self.over |= is_last(&answer);
        answer
    }

    // As `recv`, but the receiver isn't terminated: the caller does that.
    fn receive(&mut self) -> Result<Received<U::Output>, ReceiveError<U::Error>>
        ensures receives { Receives F.FrameSource U.UnmarshallMessage (kept_message self.old) (is_terminated self.old) self.old self.new result }
        ensures open { is_terminated self.new ≡ is_terminated self.old }
        ensures others { KeepsOthers F.FrameSource self.old self.new }
        ensures want { NamesWantOfMemory result }
    {
        match self.come() {
            Ok(Coming { message, len }) => {
                let made = self.hand(message);
                self.settle(len, made)
            }
            Err(stop) => stop.received(),
        }
    }

    // The message that comes next, which stays in the buffer unless it was kept.
    pub(crate) fn come(&mut self) -> Result<Coming, Stop>
        ensures comes { Comes F.FrameSource (kept_message self.old) (is_terminated self.old) self.old self.new result }
        ensures within { IfOk result (λ coming. HoldsFrame coming.len (taken_bytes self.new)) }
        ensures kept { kept_message self.new ≡ None }
        ensures open { is_terminated self.new ≡ is_terminated self.old }
        ensures others { KeepsOthers F.FrameSource self.old self.new }
        ensures want { IfErr result NamesStopWant }
    {
        match self.kept.take() {
            Some(message) => Ok(Coming { message, len: None }),
            None if self.over => Err(Stop::End),
            None => {
                let Front { message, len } = self.find()?;
                Ok(Coming {
                    message,
                    len: Some(len),
                })
            }
        }
    }

    // Answers what was made of the message that came: it is taken, and kept where it is to be. Where memory ran out it is
    // where it was.
    pub(crate) fn settle<A>(
        &mut self,
        len: Option<usize>,
        made: Made<A, U::Error>,
    ) -> Result<A, ReceiveError<U::Error>>
        requires within { HoldsFrame len (taken_bytes self.old) }
        requires none { kept_message self.old ≡ None }
        requires want { NamesMadeWant made }
        ensures settles { Settles len made self.old self.new result }
        ensures open { is_terminated self.new ≡ is_terminated self.old }
        ensures others { KeepsOthers F.FrameSource self.old self.new }
        ensures want { NamesWantOfMemory result }
    {
        match made {
            Made::Answer(answer, kept) => {
                if let Some(len) = len {
                    self.buffer.advance(len);
                }
                self.kept = kept;
                answer
            }
            Made::Back(message) => {
                if len.is_none() {
                    self.kept = Some(message);
                }
                Err(SdkError::NoMemory)
            }
        }
    }

    // Hands a message to the unmarshaller.
    fn hand(&self, message: Message) -> Made<Received<U::Output>, U::Error>
        ensures hands { Makes (Unmarshals U.UnmarshallMessage (unmarshaller_of self.now)) (λ message answer. None) message result }
        ensures want { NamesMadeWant result }
    {
        match self.unmarshaller.unmarshall(&message) {
            Ok(UnmarshalledMessage::Event(event)) => Made::Answer(Ok(Received::Event(event)), None),
            Ok(UnmarshalledMessage::Error(source)) => Made::Answer(
                Err(SdkError::ServiceError {
                    source,
                    raw: RawMessage::Decoded(message),
                }),
                None,
            ),
            Err(error) if is_want(&error) => Made::Back(message),
            Err(error) => Made::Answer(
                Err(SdkError::ResponseError {
                    source: ResponseFault::Unmarshall(error),
                    raw: RawMessage::Decoded(message),
                }),
                None,
            ),
        }
    }

    // Takes a frame of the source, once there is room for it, and returns how many frames without data it took: one or none.
    fn pull(&mut self) -> Result<u32, Stop>
        requires { length (taken_bytes self.old) < most_frame }
        ensures { PullsOne F.FrameSource self.old self.new result }
    {
        self.buffer.reserve_one()?;
        match self.source.poll_frame() {
            Polled::Data(piece) => {
                let idle = idle_turns(&piece);
                self.buffer.push(piece);
                Ok(idle)
            }
            Polled::Trailers(_) => Ok(1),
            Polled::NotYet => Err(Stop::NotYet),
            Polled::End => Err(self.end()),
            Polled::Failed => Err(Stop::Failed),
            Polled::NoMemory => Err(Stop::NoMemory),
        }
    }

    // How the stream ends, as no frame follows.
    fn end(&self) -> Stop
        ensures lacks { LacksFrame (taken_bytes self.now) result }
        ensures ends { IsEnd result }
    {
        if self.buffer.remaining() == 0 {
            return Stop::End;
        }
        match self.buffer.copy_front(self.buffer.remaining()) {
            Ok(left) => Stop::CutOff(left),
            Err(_) => Stop::NoMemory,
        }
    }

    // Takes frames until a whole message is at the front of the buffer, where it stays.
    fn find(&mut self) -> Result<Front, Stop>
        ensures { PullsFront F.FrameSource self.old self.new result }
    {
        let mut idle = 0;
        'frames: while idle < MOST_IDLE {
            match peek_message(self.alloc, &self.buffer)? {
                Some((message, len)) => return Ok(Front { message, len }),
                None => idle += self.pull()?,
            }
        }
        Err(Stop::OutOfTurns)
    }
}

// Whether nothing more is read after this answer.
pub(crate) fn is_last<A, E>(answer: &Result<A, ReceiveError<E>>) -> bool
    ensures { result ≡ terminates answer.now }
{
    match answer {
        Err(SdkError::ServiceError { .. }) => true,
        Err(SdkError::ResponseError { source, .. }) => is_end(source),
        _ => false,
    }
}

// Whether nothing more is read after a fault.
fn is_end(fault: &ResponseFault) -> bool
    ensures { result ≡ ends_reading fault.now }
{
    !matches!(fault, ResponseFault::Preprocessor(_))
}

// How many frames without data a piece is: one where it is empty.
fn idle_turns(piece: &Bytes) -> u32
    ensures { result ≡ one_if_idle (Data piece.now) }
{
    if piece.is_empty() { 1 } else { 0 }
}
