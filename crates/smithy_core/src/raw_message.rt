ghost use Rattle.std.specs.Prelude.{◌≡◌, IfOk};

use crate::memory::Mem;
use crate::message::Message;
use bytes::Bytes;
use std::fmt;

/// What an error of an event stream says of the bytes behind it. [`Debug`](std::fmt::Debug) prints how many there are,
/// and none of them, since they may hold a secret (the SDK's type prints them).
#[derive(Drop)]
pub enum RawMessage {
    /// The message that was read.
    Decoded(Message),
    /// No message was read: the bytes that were left over, if they are known.
    Invalid(Option<Bytes>),
}

impl RawMessage {
    /// An equal message, or equal bytes.
    pub fn try_clone(&self) -> Mem<RawMessage>
        ensures { IfOk result (λ copy. copy ≡ self.now) }
    {
        Ok(match self {
            RawMessage::Decoded(message) => RawMessage::Decoded(message.try_clone()?),
            RawMessage::Invalid(Some(bytes)) => RawMessage::Invalid(Some(bytes.clone()?)),
            RawMessage::Invalid(None) => RawMessage::Invalid(None),
        })
    }
}

impl Clone for RawMessage {
    ghost is_clone = { λ raw copy. copy ≡ raw };

    fn clone(&self) -> Mem<RawMessage> {
        self.try_clone()
    }
}

impl fmt::Debug for RawMessage {
    ghost use Rattle.std.specs.Prelude.{Some};
    ghost use Rattle.smithy_core.specs.RawMessage.{raw_sizes};

    ghost debug_output = { λ raw. Some (raw_sizes raw) };

    fn fmt<W: fmt::Write>(&self, f: &mut fmt::Formatter<W>) -> fmt::Result {
        match self {
            RawMessage::Decoded(message) => write!(f, "Decoded({message:?})"),
            RawMessage::Invalid(Some(bytes)) => {
                let count = bytes.len();
                write!(f, "Invalid({count} bytes)")
            }
            RawMessage::Invalid(None) => f.write_str("Invalid"),
        }
    }
}
