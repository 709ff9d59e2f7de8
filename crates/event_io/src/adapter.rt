ghost use Rattle.std.specs.Prelude.{◌≡◌, ◌≤◌, IfOk, OnErr};
ghost use Rattle.event_io.specs.Adapter.{Frames, FramesMessage, IsAdapterCopy, IsOpen, KeepsMarshallers, Marshals, Polls, PollsOpen, TakesMoment, NamesSendWant, item_source_of, left_by, new_adapter, adapter_parts};

use crate::adapter_fault::{AdapterFault, SendError};
use crate::event_source::{EventPolled, EventSource};
use bytes::Bytes;
use eventstream::{Error, MarshallMessage, SignMessage, SignMessageError, write_message_to};
use smithy_core::{Clock, Mem, Message, Moment, RawMessage, SdkError};
use std::alloc::Global;
use std::fmt;

/// What a poll of an adapter answers. [`Debug`](std::fmt::Debug) prints how long a frame is, since an event may hold a secret.
#[derive(Drop)]
pub enum Next {
    /// The next frame.
    Frame(Bytes),
    /// Nothing has come yet.
    NotYet,
    /// No frame follows.
    End,
}

impl Next {
    /// An equal answer.
    pub fn try_clone(&self) -> Mem<Next>
        ensures { IfOk result (λ copy. copy ≡ self.now) }
    {
        Ok(match self {
            Next::Frame(bytes) => Next::Frame(bytes.clone()?),
            Next::NotYet => Next::NotYet,
            Next::End => Next::End,
        })
    }
}

impl fmt::Debug for Next {
    ghost use Rattle.std.specs.Prelude.{Some};
    ghost use Rattle.event_io.specs.Adapter.{next_size};

    ghost debug_output = { λ next. Some (next_size next) };

    fn fmt<W: fmt::Write>(&self, f: &mut fmt::Formatter<W>) -> fmt::Result {
        match self {
            Next::Frame(bytes) => {
                let count = bytes.len();
                write!(f, "Frame({count} bytes)")
            }
            Next::NotYet => f.write_str("NotYet"),
            Next::End => f.write_str("End"),
        }
    }
}

// Whether an adapter goes on.
#[derive(Clone, Copy, Debug, PartialEq, Eq)]
pub(crate) enum Phase {
    // More items may come.
    Open,
    // The items ended, and the empty message was asked for.
    Ended,
    // Memory ran out.
    Closed,
}

/// Makes frames of the items of a source: each is marshalled, signed at a moment of its own, and framed. At the end of the
/// items the signer is asked for the message that ends the stream, once.
#[derive(Drop)]
pub struct MessageStreamAdapter<S, M, EM, G> {
    alloc: Global,
    marshaller: M,
    error_marshaller: EM,
    signer: G,
    source: S,
    phase: Phase,
}

impl<S, M, EM, G> MessageStreamAdapter<S, M, EM, G> {
    /// An adapter of the items of a source, which has sent none.
    pub fn new(
        alloc: Global,
        marshaller: M,
        error_marshaller: EM,
        signer: G,
        stream: S,
    ) -> MessageStreamAdapter<S, M, EM, G>
        ensures { result ≡ new_adapter alloc marshaller error_marshaller signer stream }
    {
        MessageStreamAdapter {
            alloc,
            marshaller,
            error_marshaller,
            signer,
            source: stream,
            phase: Phase::Open,
        }
    }

    /// The marshallers, the signer and the source.
    pub fn into_parts(self) -> (M, EM, G, S)
        ensures { result ≡ adapter_parts self }
    {
        (
            self.marshaller,
            self.error_marshaller,
            self.signer,
            self.source,
        )
    }
}

impl<S: Clone + Drop, M: Clone + Drop, EM: Clone + Drop, G: Clone + Drop> MessageStreamAdapter<
    S,
    M,
    EM,
    G,
> {
    /// An adapter of copies of the same parts, which goes on where this one does.
    pub fn try_clone(&self) -> Mem<MessageStreamAdapter<S, M, EM, G>>
        ensures { IfOk result (IsAdapterCopy S.is_clone M.is_clone EM.is_clone G.is_clone self.now) }
    {
        Ok(MessageStreamAdapter {
            alloc: self.alloc,
            marshaller: self.marshaller.clone()?,
            error_marshaller: self.error_marshaller.clone()?,
            signer: self.signer.clone()?,
            source: self.source.clone()?,
            phase: self.phase,
        })
    }
}

impl<S, M, EM, G> MessageStreamAdapter<S, M, EM, G>
where
    S: EventSource,
    M: MarshallMessage<Input = S::Item>,
    EM: MarshallMessage<Input = S::Error>,
    G: SignMessage,
{
    /// The frame of the next item: its message, signed at a moment of the clock that `moments` gains. After the last item the
    /// frame of the message that ends the stream, where the signer has one; and then the end, again and again.
    ///
    /// # Errors
    ///
    /// [`SdkError::ConstructionFailure`] with the refusal of the marshaller, of the signer or of the writer. The next call
    /// goes on with the next item. A message that the writer refused was signed, so what follows is signed over it; for the
    /// others the signer stays. After [`SdkError::NoMemory`] each call answers the end.
    pub fn poll_next<C: Clock>(
        &mut self,
        clock: &mut C,
        moments: &mut Vec<Moment>,
    ) -> Result<Next, SdkError<AdapterFault, AdapterFault, RawMessage>>
        ensures polls { Polls S.EventSource M.MarshallMessage EM.MarshallMessage G.SignMessage C.Clock clock.old clock.new moments.old.items moments.new.items self.old self.new result }
        ensures waits { S.EventSource.waits (item_source_of self.old) ≤ S.EventSource.waits (item_source_of self.new) }
        ensures kept { KeepsMarshallers self.old self.new }
        ensures want { NamesSendWant result }
    {
        if self.phase != Phase::Open {
            return Ok(Next::End);
        }
        let answer = self.poll_open(clock, moments);
        if matches!(answer, Err(SdkError::NoMemory)) {
            self.phase = Phase::Closed;
        }
        answer
    }

    // Polls an adapter that goes on, and leaves it open or ended: the caller closes it once memory ran out.
    #[tactic(auto, using(crate::proofs::AdapterLemmas::asked, crate::proofs::AdapterLemmas::refused))]
    fn poll_open<C: Clock>(
        &mut self,
        clock: &mut C,
        moments: &mut Vec<Moment>,
    ) -> Result<Next, SendError>
        requires { IsOpen self.old }
        ensures polls { PollsOpen S.EventSource M.MarshallMessage EM.MarshallMessage G.SignMessage C.Clock clock.old clock.new moments.old.items moments.new.items self.old (left_by result self.new) result }
        ensures waits { S.EventSource.waits (item_source_of self.old) ≤ S.EventSource.waits (item_source_of self.new) }
        ensures kept { KeepsMarshallers self.old self.new }
        ensures want { NamesSendWant result }
    {
        match self.source.poll_event() {
            EventPolled::Item(item) => {
                let message = match self.message_of(item) {
                    Ok(message) => message,
                    Err(error) => return Err(SdkError::from(AdapterFault::Marshall(error))),
                };
                let now = take_moment(clock, moments)?;
                let signed = self.signer.sign(message, now);
                self.framed(signed)
            }
            EventPolled::NotYet => Ok(Next::NotYet),
            EventPolled::End => {
                let now = take_moment(clock, moments)?;
                self.phase = Phase::Ended;
                match self.signer.sign_empty(now) {
                    Some(signed) => self.framed(signed),
                    None => Ok(Next::End),
                }
            }
        }
    }

    // The message of an item.
    fn message_of(&self, item: Result<S::Item, S::Error>) -> Result<Message, Error>
        ensures { Marshals M.MarshallMessage EM.MarshallMessage self.now item result }
    {
        match item {
            Ok(event) => self.marshaller.marshall(event),
            Err(error) => self.error_marshaller.marshall(error),
        }
    }

    // The frame of what the signer answered.
    fn framed(&self, signed: Result<Message, SignMessageError>) -> Result<Next, SendError>
        ensures frames { Frames signed result }
        ensures want { NamesSendWant result }
    {
        let message = match signed {
            Ok(message) => message,
            Err(error) => return Err(SdkError::from(AdapterFault::Sign(error))),
        };
        match frame_bytes(self.alloc, &message) {
            Ok(bytes) => Ok(Next::Frame(bytes)),
            Err(error) => Err(SdkError::from(AdapterFault::Write(error))),
        }
    }
}

// The frame of a message.
fn frame_bytes(alloc: Global, message: &Message) -> Result<Bytes, Error>
    ensures { FramesMessage message.now result }
{
    let mut bytes = Vec::new(alloc);
    write_message_to(alloc, message, &mut bytes)?;
    Ok(Bytes::from_vec(bytes)?)
}

/// Asks the clock for a moment, which `moments` gains. Room for it is made first, so running out of memory leaves both as they
/// were.
pub fn take_moment<C: Clock>(clock: &mut C, moments: &mut Vec<Moment>) -> Mem<Moment>
    ensures ok { IfOk result (λ t. TakesMoment C.Clock clock.old clock.new moments.old.items moments.new.items t) }
    ensures err { OnErr result ((clock.new ≡ clock.old) × (moments.new.items ≡ moments.old.items)) }
{
    moments.reserve(1)?;
    let at = clock.now();
    moments.push(at).unwrap();
    Ok(at)
}
