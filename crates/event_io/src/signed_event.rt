ghost use Rattle.std.specs.Prelude.{◌≡◌, IfOk};
ghost use Rattle.eventstream.specs.Error.{error_kind};
ghost use Rattle.eventstream.specs.Link.{carried_date};
ghost use Rattle.eventstream.specs.Texts.{Tells};
ghost use Rattle.event_io.specs.SignedEvent.{IsSignedEventCopy, TakesHeld, UnwrapsHeld, dated, signed_date};

use eventstream::{Error, UnmarshallMessage, UnmarshalledMessage, read_held_message};
use smithy_core::{Header, HeaderValue, Mem, Message, Moment};
use std::alloc::Global;
use std::marker::Model;

/// What a signed message holds.
#[derive(Debug, Drop)]
pub enum SignedEvent<T> {
    /// An event.
    Event {
        /// What the message in the payload was made.
        event: T,
        /// When it was signed, as the message says.
        date: Moment,
    },
    /// Nothing: the signed stream ends. The bytes behind such a message, if any, belong to no stream.
    Closing {
        /// When the end was signed, as the message says.
        date: Moment,
    },
}

impl<T: Clone + Drop> SignedEvent<T> {
    /// The same, with a copy of the event.
    pub fn try_clone(&self) -> Mem<SignedEvent<T>>
        ensures { IfOk result (IsSignedEventCopy T.is_clone self.now) }
    {
        Ok(match self {
            SignedEvent::Event { event, date } => SignedEvent::Event {
                event: event.clone()?,
                date: *date,
            },
            SignedEvent::Closing { date } => SignedEvent::Closing { date: *date },
        })
    }
}

/// Takes the message out of each signed one, and hands it to another unmarshaller. No signature is computed, so that nothing says who
/// signed, nor that the stream came whole: `ChainWatch` of `chain_watch` says that.
///
/// ```rust
/// let unmarshaller = SignedUnmarshaller::new(alloc, IdentityUnmarshaller);
/// let receiver = Receiver::new(alloc, unmarshaller, body);
/// ```
///
/// Contracts see the other unmarshaller.
#[derive(Drop)]
pub struct SignedUnmarshaller<U> {
    alloc: Global,
    unmarshaller: U,
}

impl<U> Model for SignedUnmarshaller<U> {
    ghost Value = { U };

    ghost view = { λ it. it.unmarshaller };
}

impl<U> SignedUnmarshaller<U> {
    /// One that hands the messages to this unmarshaller.
    pub fn new(alloc: Global, unmarshaller: U) -> SignedUnmarshaller<U>
        ensures { result ≡ unmarshaller }
    {
        SignedUnmarshaller {
            alloc,
            unmarshaller,
        }
    }
}

impl<U: UnmarshallMessage> UnmarshallMessage for SignedUnmarshaller<U> {
    ghost use Rattle.event_io.specs.SignedEvent.{Unwraps};

    type Output = SignedEvent<U::Output>;

    type Error = U::Error;

    ghost answers = { λ it. Unwraps (U.answers it) };

    /// The event that a signed message holds, with its moment, or the end of the stream, where it has no payload.
    ///
    /// # Errors
    ///
    /// [`ErrorKind::Unmarshalling`](eventstream::ErrorKind::Unmarshalling) where no header `:date` holds a moment, and where bytes
    /// follow the frame in the payload; the fault of that frame, where there is none; and the other unmarshaller's own.
    #[tactic(auto, using(crate::proofs::SignedEventLemmas::undated, crate::proofs::SignedEventLemmas::closing, crate::proofs::SignedEventLemmas::filled))]
    fn unmarshall(
        &self,
        message: &Message,
    ) -> Result<UnmarshalledMessage<SignedEvent<U::Output>, U::Error>, Error> {
        let Some(date) = signed_date(message.headers()) else {
            let text = "expected a signed message to include the `:date` header with a timestamp";
            return Err(refused(self.alloc, text));
        };
        if message.payload().is_empty() {
            return Ok(UnmarshalledMessage::Event(SignedEvent::Closing { date }));
        }
        self.unwrap_held(message, date)
    }
}

impl<U: UnmarshallMessage> SignedUnmarshaller<U> {
    // What the other unmarshaller makes of the message that a payload holds.
    fn unwrap_held(
        &self,
        message: &Message,
        date: Moment,
    ) -> Result<UnmarshalledMessage<SignedEvent<U::Output>, U::Error>, Error>
        ensures { UnwrapsHeld (U.answers self.now) date message.now.payload result }
    {
        let held = held_message(self.alloc, message)?;
        let made = self.unmarshaller.unmarshall(&held)?;
        Ok(dated(date, made))
    }
}

// What was made of the message that a signed one holds, with the moment of that one.
fn dated<T, E>(
    date: Moment,
    made: UnmarshalledMessage<T, E>,
) -> UnmarshalledMessage<SignedEvent<T>, E>
    ensures { result ≡ dated date made }
{
    match made {
        UnmarshalledMessage::Event(event) => {
            UnmarshalledMessage::Event(SignedEvent::Event { event, date })
        }
        UnmarshalledMessage::Error(error) => UnmarshalledMessage::Error(error),
    }
}

// The message whose frame a payload is.
fn held_message(alloc: Global, message: &Message) -> Result<Message, Error>
    ensures { TakesHeld message.now.payload result }
{
    let (held, len) = read_held_message(alloc, message)?;
    if len == message.payload().len() {
        Ok(held)
    } else {
        let text = "expected the payload of a signed message to be one frame";
        Err(refused(alloc, text))
    }
}

// The error of this text, or that memory ran out.
fn refused(alloc: Global, text: &str) -> Error
    ensures { Tells text.now (error_kind result) }
{
    match String::from_str(alloc, text) {
        Ok(text) => Error::unmarshalling(text),
        Err(e) => Error::from(e),
    }
}

// The moment of the first header `:date` that holds one.
fn signed_date(headers: &[Header]) -> Option<Moment>
    ensures { result ≡ signed_date headers.now }
{
    for header in headers {
        if let Some(date) = carried_date(header) {
            return Some(date);
        }
    }
    None
}

// The moment of a header, where it is `:date` and holds one.
fn carried_date(header: &Header) -> Option<Moment>
    ensures { result ≡ carried_date header.now }
{
    match header.value() {
        HeaderValue::Timestamp(date) if header.name().as_str() == ":date" => Some(*date),
        _ => None,
    }
}
