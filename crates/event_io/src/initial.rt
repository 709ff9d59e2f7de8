ghost use Rattle.std.specs.Prelude.{◌≡◌, IfOk};
ghost use Rattle.event_io.specs.Initial.{IsSameEvent, inner_of, marshaller_over};

use eventstream::{Error, MarshallMessage};
use smithy_core::{Mem, Message};

/// An event of a stream, or the message that begins the stream.
#[derive(Debug, Drop)]
pub enum EventOrInitial<T> {
    /// An event.
    Event(T),
    /// The message that begins the stream, which isn't marshalled.
    InitialMessage(Message),
}

impl<T: Clone + Drop> EventOrInitial<T> {
    /// The same message, or a copy of the event.
    pub fn try_clone(&self) -> Mem<EventOrInitial<T>>
        ensures { IfOk result (IsSameEvent T.is_clone self.now) }
    {
        Ok(match self {
            EventOrInitial::Event(event) => EventOrInitial::Event(event.clone()?),
            EventOrInitial::InitialMessage(message) => {
                EventOrInitial::InitialMessage(message.try_clone()?)
            }
        })
    }
}

/// Marshalls events by another marshaller, and passes on the message that begins the stream.
#[derive(Debug, Drop)]
pub struct EventOrInitialMarshaller<M> {
    inner: M,
}

impl<M> EventOrInitialMarshaller<M> {
    /// A marshaller that hands events to this one.
    pub fn new(inner: M) -> EventOrInitialMarshaller<M>
        ensures { result ≡ marshaller_over inner }
    {
        EventOrInitialMarshaller { inner }
    }
}

impl<M: Clone + Drop> EventOrInitialMarshaller<M> {
    /// A marshaller that hands events to a copy.
    pub fn try_clone(&self) -> Mem<EventOrInitialMarshaller<M>>
        ensures { IfOk result (λ copy. M.is_clone (inner_of self.now) (inner_of copy)) }
    {
        Ok(EventOrInitialMarshaller {
            inner: self.inner.clone()?,
        })
    }
}

impl<M: MarshallMessage> MarshallMessage for EventOrInitialMarshaller<M> {
    ghost use Rattle.event_io.specs.Initial.{MarshalsOrPasses};

    type Input = EventOrInitial<M::Input>;

    ghost answers = { MarshalsOrPasses M.MarshallMessage };

    fn marshall(&self, input: EventOrInitial<M::Input>) -> Result<Message, Error> {
        match input {
            EventOrInitial::Event(event) => self.inner.marshall(event),
            EventOrInitial::InitialMessage(message) => Ok(message),
        }
    }
}
