ghost use Rattle.std.specs.Prelude.{◌≡◌, ◌+◌, ◌-◌, ◌^◌, min, None, length, sum_by};
ghost use Rattle.smithy_core.specs.Message.{Parts};
ghost use Rattle.eventstream.specs.Frame.{frame, unframed};
ghost use Rattle.eventstream.specs.SizeHint.{header_width, size_hint, value_width};

use crate::write::{LEAST_FRAME, MOST_HEADER_NAME};
use smithy_core::{Header, HeaderValue, Message};

/// How many bytes a frame is expected to take.
///
/// Contracts see the message that is framed.
pub trait MessageSizeHint {
    ghost framed: { Self → Parts };

    /// The bytes of the frame where the message has one: sixteen, the headers and the payload.
    ///
    /// A name counts up to 255 bytes, and the sum stops at [`usize::MAX`].
    fn size_hint(&self) -> usize
        ensures hint { result ≡ size_hint (framed self.now) }
        ensures exact { unframed (framed self.now) ≡ None → result ≡ length (frame (framed self.now)) };
}

impl MessageSizeHint for Message {
    ghost framed = { λ message. message };

    #[tactic(auto, unfolding(crate::specs::SizeHint::size_hint), using(crate::proofs::SizeHintLemmas::length_framed))]
    fn size_hint(&self) -> usize {
        LEAST_FRAME
            .saturating_add(headers_width(self.headers()))
            .saturating_add(self.payload().len())
    }
}

/// The bytes of the headers, up to [`usize::MAX`].
pub(crate) fn headers_width(headers: &[Header]) -> usize
    ensures { result ≡ min (sum_by header_width headers.now) (2 ^ 64 - 1) }
{
    let mut width: usize = 0;
    for header in headers {
        width = width.saturating_add(header_width(header));
    }
    width
}

// The bytes of a header.
fn header_width(header: &Header) -> usize
    ensures { result ≡ min (header_width header.now) (2 ^ 64 - 1) }
{
    let name = header.name().as_bytes().len().min(MOST_HEADER_NAME);
    value_width(header.value()).saturating_add(1 + name + 1)
}

// The bytes of a value after its kind.
fn value_width(value: &HeaderValue) -> usize
    ensures { result ≡ min (value_width value.now) (2 ^ 64 - 1) }
{
    match value {
        HeaderValue::Bool(_) => 0,
        HeaderValue::Byte(_) => 1,
        HeaderValue::Int16(_) => 2,
        HeaderValue::Int32(_) => 4,
        HeaderValue::Int64(_) | HeaderValue::Timestamp(_) => 8,
        HeaderValue::ByteArray(bytes) => bytes.len().saturating_add(2),
        HeaderValue::String(text) => text.as_bytes().len().saturating_add(2),
        HeaderValue::Uuid(_) => 16,
    }
}
