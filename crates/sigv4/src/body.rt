ghost use Rattle.std.specs.Prelude.{◌≡◌, [], Some, IfOk, string_bytes};
ghost use Rattle.sigv4.specs.Body.{IsSameBody, body_bytes, payload_text};

use mac_core::sha256_hex;
use smithy_core::Mem;
use std::alloc::Global;
use std::fmt;

/// A request's body as it is signed.
#[derive(Drop, PartialEq, Eq)]
pub enum SignableBody<'a> {
    /// These bytes.
    Bytes(&'a [u8]),
    /// The body isn't signed.
    UnsignedPayload,
    /// A body with this digest, in hexadecimal.
    Precomputed(String),
    /// A body in unsigned chunks, with trailers.
    StreamingUnsignedPayloadTrailer,
    /// A body in signed chunks, with trailers. Signed chunks without trailers have no variant here: their text is
    /// `STREAMING-AWS4-HMAC-SHA256-PAYLOAD`, which [`SignableBody::Precomputed`] takes as it takes a digest.
    StreamingSignedPayloadTrailer,
}

impl<'a> SignableBody<'a> {
    /// No bytes.
    pub fn empty() -> SignableBody<'static>
        ensures { body_bytes result ≡ Some [] }
    {
        SignableBody::Bytes(b"".as_slice())
    }

    /// An equal body, over the same bytes.
    pub fn try_clone(&self) -> Mem<SignableBody<'a>>
        ensures { IfOk result (IsSameBody self.now) }
    {
        Ok(match self {
            SignableBody::Bytes(bytes) => SignableBody::Bytes(bytes),
            SignableBody::UnsignedPayload => SignableBody::UnsignedPayload,
            SignableBody::Precomputed(text) => SignableBody::Precomputed(text.clone()?),
            SignableBody::StreamingUnsignedPayloadTrailer => {
                SignableBody::StreamingUnsignedPayloadTrailer
            }
            SignableBody::StreamingSignedPayloadTrailer => {
                SignableBody::StreamingSignedPayloadTrailer
            }
        })
    }
}

// Shows how many bytes there are, and none of them: a body may hold secrets.
impl fmt::Debug for SignableBody<'_> {
    ghost use Rattle.std.specs.Prelude.{Some};
    ghost use Rattle.sigv4.specs.Body.{shown_body};

    ghost debug_output = { λ body. Some (shown_body body) };

    fn fmt<W: fmt::Write>(&self, f: &mut fmt::Formatter<W>) -> fmt::Result {
        match self {
            SignableBody::Bytes(bytes) => {
                let length = bytes.len();
                write!(f, "Bytes({length} bytes)")
            }
            SignableBody::UnsignedPayload => f.write_str("UnsignedPayload"),
            SignableBody::Precomputed(digest) => write!(f, "Precomputed({digest})"),
            SignableBody::StreamingUnsignedPayloadTrailer => {
                f.write_str("StreamingUnsignedPayloadTrailer")
            }
            SignableBody::StreamingSignedPayloadTrailer => {
                f.write_str("StreamingSignedPayloadTrailer")
            }
        }
    }
}

/// The payload's text of a body: bytes are hashed.
pub fn payload_text(alloc: Global, body: &SignableBody<'_>) -> Mem<String>
    ensures { IfOk result (λ text. string_bytes text ≡ payload_text body.now) }
{
    match body {
        SignableBody::Bytes(bytes) => sha256_hex(alloc, bytes),
        SignableBody::UnsignedPayload => String::from_str(alloc, "UNSIGNED-PAYLOAD"),
        SignableBody::Precomputed(text) => text.clone(),
        SignableBody::StreamingUnsignedPayloadTrailer => {
            String::from_str(alloc, "STREAMING-UNSIGNED-PAYLOAD-TRAILER")
        }
        SignableBody::StreamingSignedPayloadTrailer => {
            String::from_str(alloc, "STREAMING-AWS4-HMAC-SHA256-PAYLOAD-TRAILER")
        }
    }
}
