ghost use Rattle.std.specs.Prelude.{◌≡◌, IfOk, codes};
ghost use Rattle.sigv4.specs.Body.{payload_text};
ghost use Rattle.aws_auth.specs.Payload.{IsSameOverride, signed_in_place};
ghost use Rattle.aws_auth.specs.declared.payload.PayloadSigningOverride.TheVariants.{UnsignedPayload};

use sigv4::SignableBody;
use smithy_core::Mem;
use std::alloc::Global;

/// What is signed in place of the bytes of a request's body.
#[derive(Debug, Drop, PartialEq, Eq)]
pub enum PayloadSigningOverride {
    /// The payload isn't signed.
    UnsignedPayload,
    /// A payload with this digest: its SHA-256, in lower-case hexadecimal.
    Precomputed(String),
    /// A payload in unsigned chunks, with trailers.
    StreamingUnsignedPayloadTrailer,
    /// A payload in signed chunks, with trailers. Signed chunks without trailers have no variant here, but
    /// [`PayloadSigningOverride::streaming_signed_payload`].
    StreamingSignedPayloadTrailer,
}

impl PayloadSigningOverride {
    /// The payload isn't signed.
    pub fn unsigned_payload() -> PayloadSigningOverride
        ensures { result ≡ UnsignedPayload }
    {
        PayloadSigningOverride::UnsignedPayload
    }

    /// A payload in signed chunks, without trailers: its text, `STREAMING-AWS4-HMAC-SHA256-PAYLOAD`, stands in a digest's place.
    pub fn streaming_signed_payload(alloc: Global) -> Mem<PayloadSigningOverride>
        ensures { IfOk result (λ payload. payload_text (signed_in_place payload) ≡ codes "STREAMING-AWS4-HMAC-SHA256-PAYLOAD") }
    {
        let text = String::from_str(alloc, "STREAMING-AWS4-HMAC-SHA256-PAYLOAD")?;
        Ok(PayloadSigningOverride::Precomputed(text))
    }

    /// The body that is signed.
    pub fn to_signable_body(self) -> SignableBody<'static>
        ensures { result ≡ signed_in_place self }
    {
        match self {
            PayloadSigningOverride::UnsignedPayload => SignableBody::UnsignedPayload,
            PayloadSigningOverride::Precomputed(digest) => SignableBody::Precomputed(digest),
            PayloadSigningOverride::StreamingUnsignedPayloadTrailer => {
                SignableBody::StreamingUnsignedPayloadTrailer
            }
            PayloadSigningOverride::StreamingSignedPayloadTrailer => {
                SignableBody::StreamingSignedPayloadTrailer
            }
        }
    }

    /// An equal override.
    pub fn try_clone(&self) -> Mem<PayloadSigningOverride>
        ensures { IfOk result (IsSameOverride self.now) }
    {
        Ok(match self {
            PayloadSigningOverride::UnsignedPayload => PayloadSigningOverride::UnsignedPayload,
            PayloadSigningOverride::Precomputed(digest) => {
                PayloadSigningOverride::Precomputed(digest.clone()?)
            }
            PayloadSigningOverride::StreamingUnsignedPayloadTrailer => {
                PayloadSigningOverride::StreamingUnsignedPayloadTrailer
            }
            PayloadSigningOverride::StreamingSignedPayloadTrailer => {
                PayloadSigningOverride::StreamingSignedPayloadTrailer
            }
        })
    }
}

/// What makes a client leave the payloads of its requests unsigned.
#[derive(Clone, Copy, Debug)]
pub struct PayloadSigningOverrideRuntimePlugin;

impl PayloadSigningOverrideRuntimePlugin {
    /// Payloads aren't signed.
    pub fn unsigned() -> PayloadSigningOverrideRuntimePlugin {
        PayloadSigningOverrideRuntimePlugin
    }

    /// The override for the requests.
    pub fn override_value(&self) -> PayloadSigningOverride
        ensures { result ≡ UnsignedPayload }
    {
        PayloadSigningOverride::UnsignedPayload
    }
}
