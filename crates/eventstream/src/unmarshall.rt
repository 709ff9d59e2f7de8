ghost use Rattle.std.specs.Prelude.{IfOk};
ghost use Rattle.eventstream.specs.Unmarshall.{IsUnmarshalledCopy};

use smithy_core::{Mem, Message};

/// What an unmarshaller makes of a message.
#[derive(Debug, Drop)]
pub enum UnmarshalledMessage<T, E> {
    /// An event.
    Event(T),
    /// The error that the service sent in place of an event.
    Error(E),
}

impl<T: Clone + Drop, E: Clone + Drop> UnmarshalledMessage<T, E> {
    /// A copy of the event, or of the error.
    pub fn try_clone(&self) -> Mem<UnmarshalledMessage<T, E>>
        ensures { IfOk result (IsUnmarshalledCopy T.is_clone E.is_clone self.now) }
    {
        Ok(match self {
            UnmarshalledMessage::Event(event) => UnmarshalledMessage::Event(event.clone()?),
            UnmarshalledMessage::Error(error) => UnmarshalledMessage::Error(error.clone()?),
        })
    }
}

/// Makes events of messages. `answers` relates an unmarshaller, a message and its answer.
pub trait UnmarshallMessage {
    ghost use Rattle.std.specs.Prelude.{Result};
    ghost use Rattle.smithy_core.specs.Message.{Parts};
    ghost use Rattle.eventstream.specs.declared.error.Error.{Error as Refusal};
    ghost use Rattle.eventstream.specs.declared.unmarshall.UnmarshalledMessage.{UnmarshalledMessage as Made};

    type Output;

    type Error;

    // the answer for a message, if more is known of it than that there is one
    ghost answers: { Self → Parts → Result (Made Self.Output Self.Error) Refusal → Type 0 } = { λ _ _ _. Unit {0} };

    /// The event of a message, or the error that the service sent.
    ///
    /// # Errors
    ///
    /// The unmarshaller's own, where the message is neither.
    fn unmarshall(
        &self,
        message: &Message,
    ) -> Result<UnmarshalledMessage<Self::Output, Self::Error>, crate::error::Error>
        ensures { answers self.now message.now result };
}

/// Takes messages as they are.
#[derive(Clone, Copy, Debug, PartialEq, Eq)]
pub struct IdentityUnmarshaller;

impl UnmarshallMessage for IdentityUnmarshaller {
    ghost use Rattle.eventstream.specs.Unmarshall.{PassesMessage};

    type Output = Message;

    type Error = crate::error::Error;

    ghost answers = { λ _. PassesMessage };

    fn unmarshall(
        &self,
        message: &Message,
    ) -> Result<UnmarshalledMessage<Message, crate::error::Error>, crate::error::Error> {
        Ok(UnmarshalledMessage::Event(message.try_clone()?))
    }
}
