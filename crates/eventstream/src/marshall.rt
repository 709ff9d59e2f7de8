use crate::error::Error;
use smithy_core::Message;

/// Makes messages of events. `answers` relates a marshaller, an event and its answer.
pub trait MarshallMessage {
    ghost use Rattle.std.specs.Prelude.{Result};
    ghost use Rattle.smithy_core.specs.Message.{Parts};
    ghost use Rattle.eventstream.specs.declared.error.Error.{Error};

    type Input;

    // the answer for an event, if more is known of it than that there is one
    ghost answers: { Self → Self.Input → Result Parts Error → Type 0 } = { λ _ _ _. Unit {0} };

    /// The message of an event.
    ///
    /// # Errors
    ///
    /// The marshaller's own, where the event is no message.
    fn marshall(&self, input: Self::Input) -> Result<Message, Error>
        ensures { answers self.now input result };
}

/// Takes messages as they are.
#[derive(Clone, Copy, Debug, PartialEq, Eq)]
pub struct IdentityMarshaller;

impl MarshallMessage for IdentityMarshaller {
    ghost use Rattle.std.specs.Prelude.{◌≡◌, Ok};

    type Input = Message;

    ghost answers = { λ _ input result. result ≡ Ok input };

    fn marshall(&self, input: Message) -> Result<Message, Error> {
        Ok(input)
    }
}
