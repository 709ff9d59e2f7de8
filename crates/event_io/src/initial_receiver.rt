ghost use Rattle.std.specs.Prelude.{◌≡◌, ◌||◌, None, option_copied};
ghost use Rattle.event_io.specs.Received.{first_named, is_initial, is_text};
ghost use Rattle.event_io.specs.Receiver.{Cuts, KeepsOthers, LeavesMessage, Makes, NamesMadeWant, NamesWantOfMemory, Tries, TriesFirst, TriesMessage, is_terminated, kept_by, kept_message, rest_of, terminates, tried_stop};

use crate::coming::{Coming, Made};
use crate::received::{InitialMessageType, Tried};
use crate::receiver::{Receiver, is_last};
use crate::response_fault::{ReceiveError, ResponseFault, is_want};
use eventstream::{Error, UnmarshallMessage};
use smithy_core::{FrameSource, Header, HeaderValue, Message, RawMessage, SdkError};

impl<F: FrameSource, U: UnmarshallMessage> Receiver<F, U> {
    /// The first message, where it begins the stream, as its first header `:event-type` says. Else it is kept, and comes first
    /// at the next call.
    ///
    /// # Errors
    ///
    /// As [`Receiver::recv`] has them, but for those of the unmarshaller, which isn't asked.
    pub fn try_recv_initial(
        &mut self,
        message_type: InitialMessageType,
    ) -> Result<Tried<()>, SdkError<U::Error, ResponseFault, RawMessage>>
        ensures tries { TriesFirst F.FrameSource LeavesMessage message_type (kept_message self.old) (is_terminated self.old) self.old self.new result }
        ensures any_cut { kept_message self.old ≡ None → Cuts (tried_stop result) (terminates result) (λ message. Tries LeavesMessage message_type message (kept_message self.new) result)
            (rest_of F.FrameSource self.old) (rest_of F.FrameSource self.new) }
        ensures terminated { is_terminated self.new ≡ (is_terminated self.old || terminates result) }
        ensures others { KeepsOthers F.FrameSource self.old self.new }
        ensures want { NamesWantOfMemory result }
    {
        self.try_recv_initial_with_preprocessor(message_type, left_as_it_is)
    }

    /// What the preprocessor makes of the first message, where that begins the stream, as its first header `:event-type`
    /// says. Else the message itself is kept, and comes first at the next call. The preprocessor has to be one that may be called
    /// on every message.
    ///
    /// # Errors
    ///
    /// As [`Receiver::recv`] has them, but for those of the unmarshaller, which isn't asked, and [`SdkError::ResponseError`]
    /// with the preprocessor's refusal. The message is dropped then, and the next call goes on.
    pub fn try_recv_initial_with_preprocessor<P, M: Drop>(
        &mut self,
        message_type: InitialMessageType,
        preprocessor: P,
    ) -> Result<Tried<M>, SdkError<U::Error, ResponseFault, RawMessage>>
    where
        P: FnOnce(Message) -> Result<(Message, M), Error>,
        requires { P.IsAlwaysCallable preprocessor }
        ensures tries { TriesFirst F.FrameSource (λ message answer. P.post preprocessor message answer) message_type (kept_message self.old) (is_terminated self.old) self.old self.new result }
        ensures any_cut { kept_message self.old ≡ None → Cuts (tried_stop result) (terminates result)
            (λ message. Tries (λ first answer. P.post preprocessor first answer) message_type message (kept_message self.new) result) (rest_of F.FrameSource self.old) (rest_of F.FrameSource self.new) }
        ensures terminated { is_terminated self.new ≡ (is_terminated self.old || terminates result) }
        ensures others { KeepsOthers F.FrameSource self.old self.new }
        ensures want { NamesWantOfMemory result }
    {
        let answer = self.try_first(message_type, preprocessor);
        self.over |= is_last(&answer);
        answer
    }

    // As the call above, but the receiver isn't terminated: the caller does that.
    fn try_first<P, M: Drop>(
        &mut self,
        message_type: InitialMessageType,
        preprocessor: P,
    ) -> Result<Tried<M>, ReceiveError<U::Error>>
    where
        P: FnOnce(Message) -> Result<(Message, M), Error>,
        requires { P.IsAlwaysCallable preprocessor }
        ensures tries { TriesFirst F.FrameSource (λ message answer. P.post preprocessor message answer) message_type (kept_message self.old) (is_terminated self.old) self.old self.new result }
        ensures open { is_terminated self.new ≡ is_terminated self.old }
        ensures others { KeepsOthers F.FrameSource self.old self.new }
        ensures want { NamesWantOfMemory result }
    {
        match self.come() {
            Ok(Coming { message, len }) => {
                let made = try_message(message_type, preprocessor, message);
                self.settle(len, made)
            }
            Err(stop) => stop.tried(),
        }
    }
}

// A preprocessor that leaves messages as they are, and makes nothing along with them.
fn left_as_it_is(message: Message) -> Result<(Message, ()), Error>
    ensures { LeavesMessage message result }
{
    Ok((message, ()))
}

// What the preprocessor makes of a copy of the message, which is kept where it doesn't begin the stream.
fn try_message<P, M: Drop, E>(
    message_type: InitialMessageType,
    preprocessor: P,
    message: Message,
) -> Made<Tried<M>, E>
where
    P: FnOnce(Message) -> Result<(Message, M), Error>,
    requires { P.IsAlwaysCallable preprocessor }
    ensures tries { Makes (TriesMessage (λ first answer. P.post preprocessor first answer) message_type) kept_by message result }
    ensures want { NamesMadeWant result }
{
    let Ok(copy) = message.try_clone() else {
        return Made::Back(message);
    };
    match preprocessor(copy) {
        Ok((first, made)) if is_initial(&first, message_type) => {
            Made::Answer(Ok(Tried::Initial(first, made)), None)
        }
        Ok(_) => Made::Answer(Ok(Tried::Other), Some(message)),
        Err(error) if is_want(&error) => Made::Back(message),
        Err(error) => Made::Answer(
            Err(SdkError::ResponseError {
                source: ResponseFault::Preprocessor(error),
                raw: RawMessage::Invalid(None),
            }),
            None,
        ),
    }
}

// Whether a message begins a stream.
fn is_initial(message: &Message, message_type: InitialMessageType) -> bool
    ensures { result ≡ is_initial message_type message.now }
{
    match first_named(message.headers(), ":event-type") {
        Some(value) => is_text(value, message_type.text()),
        None => false,
    }
}

// The value of the first header of the name.
fn first_named<'a>(headers: &'a [Header], name: &str) -> Option<&'a HeaderValue>
    ensures { option_copied result ≡ first_named name.now headers.now }
{
    headers
        .iter()
        .find(|header| header.name().as_str() == name)
        .map(Header::value)
}

// Whether a value is this text.
fn is_text(value: &HeaderValue, text: &str) -> bool
    ensures { result ≡ is_text text.now value.now }
{
    match value.as_string() {
        Ok(string) => string.as_str() == text,
        Err(_) => false,
    }
}
