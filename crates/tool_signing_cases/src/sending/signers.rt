//! Signers, each by its name.
use crate::parts::{identity_of, message_signer};
use aws_auth::SigV4MessageSigner;
use bytes::Bytes;
use eventstream::{DeferredSigner, NoOpSigner, SignMessage, SignMessageError, write_message_to};
use mac_core::sha256_hex;
use smithy_core::{Header, HeaderValue, Identity, Mem, Message, Moment, StrBytes};
use std::alloc::Global;

/// Puts the frame of a message into a message that is marked as signed.
#[derive(Clone, Copy)]
pub struct MarkSigner {
    alloc: Global,
}

impl MarkSigner {
    pub fn new(alloc: Global) -> MarkSigner {
        MarkSigner { alloc }
    }
}

impl SignMessage for MarkSigner {
    ghost use Rattle.eventstream.specs.Told.{untold};

    ghost told = { λ _. untold };

    fn sign(&mut self, message: Message, _now: Moment) -> Result<Message, SignMessageError> {
        let mut frame = Vec::new(self.alloc);
        write_message_to(self.alloc, &message, &mut frame)?;
        let payload = Bytes::copy_from_slice(self.alloc, frame.as_slice())?;
        Ok(marked(self.alloc, payload)?)
    }

    fn sign_empty(&mut self, _now: Moment) -> Option<Result<Message, SignMessageError>> {
        Some(marked_empty(self.alloc))
    }
}

/// Leaves messages as they are, and ends a stream with one that has neither headers nor a payload.
#[derive(Clone, Copy)]
pub struct PlainSigner {
    alloc: Global,
}

impl PlainSigner {
    pub fn new(alloc: Global) -> PlainSigner {
        PlainSigner { alloc }
    }
}

impl SignMessage for PlainSigner {
    ghost use Rattle.eventstream.specs.Told.{untold};

    ghost told = { λ _. untold };

    fn sign(&mut self, message: Message, _now: Moment) -> Result<Message, SignMessageError> {
        Ok(message)
    }

    fn sign_empty(&mut self, _now: Moment) -> Option<Result<Message, SignMessageError>> {
        Some(Ok(Message::new(self.alloc, Bytes::new())))
    }
}

fn marked(alloc: Global, payload: Bytes) -> Mem<Message> {
    let mark = Header::new(StrBytes::from_static("signed"), HeaderValue::Bool(true));
    Message::new(alloc, payload).add_header(mark)
}

fn marked_empty(alloc: Global) -> Result<Message, SignMessageError> {
    Ok(marked(alloc, Bytes::from_static(b""))?)
}

/// What tells the last signature, where it has one.
pub trait LastSignature {
    fn last_signature(&self) -> &str {
        "none"
    }
}

impl LastSignature for NoOpSigner {}

impl LastSignature for MarkSigner {}

impl LastSignature for PlainSigner {}

impl LastSignature for DeferredSigner {}

impl LastSignature for SigV4MessageSigner<()> {
    fn last_signature(&self) -> &str {
        self.running_signature()
    }
}

/// The signer by the credentials of AWS's examples.
pub fn sigv4(alloc: Global) -> Mem<SigV4MessageSigner<()>> {
    sigv4_of(alloc, identity_of(alloc, &[])?)
}

/// A signer by a token, which signs nothing.
pub fn bearer(alloc: Global) -> Mem<SigV4MessageSigner<()>> {
    sigv4_of(alloc, Identity::Token(String::from_str(alloc, "t")?))
}

// The signer that goes on from the SHA-256 of `last message sts`, for `us-east-1` and `testservice`.
fn sigv4_of(alloc: Global, identity: Identity) -> Mem<SigV4MessageSigner<()>> {
    let signature = sha256_hex(alloc, b"last message sts")?;
    let time = Moment::new(1_440_938_160, 0);
    message_signer(alloc, identity, signature.as_str(), "testservice", time, ())
}
