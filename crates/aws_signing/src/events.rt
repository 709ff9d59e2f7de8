ghost use Rattle.std.specs.Prelude.{◌≡◌, [], None, IfOk};
ghost use Rattle.eventstream.specs.Frame.{frame, unframed};
ghost use Rattle.event_io.specs.Adapter.{FramesMessage};
ghost use Rattle.sigv4.specs.Output.{output_signature, signed_output};
ghost use Rattle.aws_signing.specs.EventFrames.{ClosesEvents, FramesAll, FramesEvent, FramesLink, GoesOnBy, begun_events};

use crate::fault::AwsSigningError;
use crate::key_holder::KeyHolder;
use crate::signer::Signer;
use bytes::Bytes;
use eventstream::{Error, write_message_to};
use sigv4::event_stream::{sign_empty_message_with_key, sign_message_with_key};
use sigv4::{SigningError, SigningOutput};
use smithy_core::{Mem, Message, Moment};
use std::alloc::Global;
use std::fmt;
use std::marker::Model;

/// A stream of events that is signed: each frame over the signature before it, the first over that of the request.
///
/// Contracts see the last signature, and the kept key with who signs.
pub struct SignedEvents {
    holder: KeyHolder,
    signature: String,
}

// Written out: a derived drop would be taken apart in the proof of each function that drops one.
impl Drop for SignedEvents {
    fn drop(self) {
        let SignedEvents { holder, signature } = self;
        drop(holder);
        drop(signature);
    }
}

impl Model for SignedEvents {
    ghost use Rattle.std.specs.Prelude.{string_bytes};
    ghost use Rattle.aws_signing.specs.EventFrames.{EventsState};

    ghost Value = { EventsState };

    ghost view = { λ events. record { signature = string_bytes events.signature; holder = events.holder } };
}

impl Signer {
    /// The stream of events that goes on from the signature of a request, which [`Signer::sign`] answered.
    ///
    /// ```rust
    /// let signature = signer.sign(&mut request, clock.now())?;
    /// let mut events = signer.events(signature.as_str())?;
    /// for message in messages {
    ///     send(events.frame(&message, clock.now())?)?;
    /// }
    /// send(events.close(clock.now())?)?;
    /// ```
    ///
    /// # Errors
    ///
    /// Memory ran out.
    pub fn events(&self, signature: &str) -> Mem<SignedEvents>
        ensures { IfOk result (λ events. events ≡ begun_events self.now signature.now) }
    {
        Ok(SignedEvents {
            holder: self.holder.try_clone()?,
            signature: String::from_str(self.holder.allocator(), signature)?,
        })
    }
}

impl SignedEvents {
    /// The frame of a message, signed at a moment over the last signature, in whose place its own comes: the bytes to send.
    ///
    /// ```rust
    /// let message = Message::new(alloc, Bytes::from_static(b"hello"));
    /// let frame = events.frame(&message, clock.now())?;
    /// ```
    ///
    /// # Errors
    ///
    /// [`AwsSigningError::Signing`] with the first of these, and the last signature stays: the message has no frame; the moment
    /// lies outside the years 0 to 9999; the signed message has no frame.
    pub fn frame(&mut self, message: &Message, at: Moment) -> Result<Bytes, AwsSigningError>
        ensures { FramesEvent self.old message.now at result self.new }
    {
        Ok(self.frame_event(message, at)?)
    }

    /// The frame that ends the stream, signed at a moment over the last signature: the bytes to send.
    ///
    /// # Errors
    ///
    /// [`AwsSigningError::Signing`] where the moment lies outside the years 0 to 9999.
    pub fn close(mut self, at: Moment) -> Result<Bytes, AwsSigningError>
        ensures { ClosesEvents self at result }
    {
        Ok(self.frame_end(at)?)
    }

    /// All frames of a stream whose messages are at hand: one for each, and the one that ends the stream, all signed at a moment,
    /// and each over the signature before it. They are to be sent in order.
    ///
    /// ```rust
    /// for frame in signer.events(signature.as_str())?.all_frames(&messages, clock.now())? {
    ///     send(frame)?;
    /// }
    /// ```
    ///
    /// # Errors
    ///
    /// Those of [`SignedEvents::frame`] for the first message that has one.
    #[tactic(auto, using(crate::proofs::EventFramesLemmas::frames))]
    pub fn all_frames(
        mut self,
        messages: &[Message],
        at: Moment,
    ) -> Result<Vec<Bytes>, AwsSigningError>
        ensures { FramesAll self messages.now at result }
    {
        let mut frames = Vec::new(self.holder.allocator());
        for message in messages {
            frames.push(self.frame(message, at)?)?;
        }
        frames.push(self.close(at)?)?;
        Ok(frames)
    }

    // The frame of a message, signed over the last signature.
    fn frame_event(&mut self, message: &Message, at: Moment) -> Result<Bytes, SigningError>
        ensures { FramesLink (unframed message.now) self.old (frame message.now) at result self.new }
    {
        let alloc = self.holder.allocator();
        let key = self.holder.key_at(at)?;
        let params = self.holder.params(at, ());
        let signed = sign_message_with_key(alloc, message, self.signature.as_str(), &params, &key)?;
        self.go_on(alloc, signed)
    }

    // The frame that ends the stream, signed over the last signature.
    fn frame_end(&mut self, at: Moment) -> Result<Bytes, SigningError>
        ensures { FramesLink None self.old [] at result self.new }
    {
        let alloc = self.holder.allocator();
        let key = self.holder.key_at(at)?;
        let params = self.holder.params(at, ());
        let signed = sign_empty_message_with_key(alloc, self.signature.as_str(), &params, &key)?;
        self.go_on(alloc, signed)
    }

    // The frame of a signed message, whose signature comes in place of the last one where it has a frame.
    fn go_on(
        &mut self,
        alloc: Global,
        signed: SigningOutput<Message>,
    ) -> Result<Bytes, SigningError>
        ensures { GoesOnBy (signed_output signed) (output_signature signed) self.old result self.new }
    {
        let (message, signature) = signed.into_parts();
        let bytes = frame_bytes(alloc, &message)?;
        self.signature = signature;
        Ok(bytes)
    }
}

// The frame of a message.
fn frame_bytes(alloc: Global, message: &Message) -> Result<Bytes, Error>
    ensures { FramesMessage message.now result }
{
    let mut bytes = Vec::new(alloc);
    write_message_to(alloc, message, &mut bytes)?;
    Ok(Bytes::from_vec(bytes)?)
}

// Shows neither who signs nor a signature.
impl fmt::Debug for SignedEvents {
    ghost use Rattle.std.specs.Prelude.{Some, codes};

    ghost debug_output = { λ _. Some (codes "SignedEvents") };

    fn fmt<W: fmt::Write>(&self, f: &mut fmt::Formatter<W>) -> fmt::Result {
        f.write_str("SignedEvents")
    }
}
