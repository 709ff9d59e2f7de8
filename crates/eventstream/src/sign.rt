use crate::sign_error::SignMessageError;
use smithy_core::{Message, Moment};

/// Signs the messages of a stream, each over the signature before it. Contracts see of a signer what `told` says; `signs` and
/// `closes` relate a signer before a call, what it was handed, its answer, and the signer after it.
pub trait SignMessage: Drop {
    ghost use Rattle.std.specs.Prelude.{Option, Result};
    ghost use Rattle.smithy_core.specs.Message.{Parts};
    ghost use Rattle.smithy_core.specs.Moment.{Instant};
    ghost use Rattle.eventstream.specs.Told.{Signs, SignsEmpty, Told};
    ghost use Rattle.eventstream.specs.declared.sign_error.SignMessageError.{SignMessageError};

    // what contracts know of it
    ghost told: { Self → Told };

    // the signing of a message, if more is known of it than the clauses below say
    ghost signs: { Self → Parts → Instant → Result Parts SignMessageError → Self → Type 0 } = { λ _ _ _ _ _. Unit {0} };

    // the signing of the empty message, likewise
    ghost closes: { Self → Instant → Option (Result Parts SignMessageError) → Self → Type 0 } = { λ _ _ _ _. Unit {0} };

    /// The message that goes out in place of this one, signed at a moment.
    ///
    /// # Errors
    ///
    /// Of a signer that signs over a running signature, which a refusal leaves: [`SignMessageError::FailedToEncodeMessage`]
    /// where the message has no frame, [`SignMessageError::UnsupportedIdentityType`] where the identity has no secret and
    /// [`SignMessageError::MomentOutOfRange`] where the moment lies outside the years 0 to 9999, in this order.
    fn sign(&mut self, message: Message, now: Moment) -> Result<Message, SignMessageError>
        ensures told { Signs (told self.old) message now result (told self.new) }
        ensures signs { signs self.old message now result self.new };

    /// The message without bytes that ends a stream, signed at a moment, where the signer ends a stream by one.
    ///
    /// # Errors
    ///
    /// As [`SignMessage::sign`] has them, but for the first.
    fn sign_empty(&mut self, now: Moment) -> Option<Result<Message, SignMessageError>>
        ensures told { SignsEmpty (told self.old) now result (told self.new) }
        ensures closes { closes self.old now result self.new };
}

/// Leaves messages as they are, and ends a stream without one.
#[derive(Clone, Copy, Debug, PartialEq, Eq)]
pub struct NoOpSigner;

impl SignMessage for NoOpSigner {
    ghost use Rattle.std.specs.Prelude.{◌≡◌, Ok, None};
    ghost use Rattle.eventstream.specs.Told.{plain};

    ghost told = { λ _. plain };

    ghost signs = { λ _ message _ result _. result ≡ Ok message };

    ghost closes = { λ _ _ result _. result ≡ None };

    fn sign(&mut self, message: Message, _now: Moment) -> Result<Message, SignMessageError> {
        Ok(message)
    }

    fn sign_empty(&mut self, _now: Moment) -> Option<Result<Message, SignMessageError>> {
        None
    }
}
