//! Signed messages of an event stream: each is signed over the signature before it.

ghost use Rattle.std.specs.Prelude.{◌≡◌, ◌⊎◌, [], ◌∷◌, codes, IfOk, None, Some, MatchResult, option_map};
ghost use Rattle.hex.specs.Hex.{encode_lower};
ghost use Rattle.mac_core.specs.Crc.{after_bytes, before_any};
ghost use Rattle.smithy_core.specs.Moment.{floor_secs};
ghost use Rattle.eventstream.specs.Frame.{frame, unframed};
ghost use Rattle.eventstream.specs.Link.{date_header, link_code};
ghost use Rattle.sigv4.specs.Output.{output_signature, signed_output};
ghost use Rattle.sigv4.specs.Params.{signer_of, v4_identity, v4_time};
ghost use Rattle.sigv4.specs.EventStream.{IsKeyOf, Links, failed_encoding, message_refusal, unsignable};

use crate::credentials::test_signing;
use crate::error::SigningError;
use crate::key::signing_key_of;
use crate::output::SigningOutput;
use crate::second_hasher::{SecondHasher, date_header};
use bytes::Bytes;
use eventstream::write_summed_message_to;
use mac_core::{Crc, HmacSha256};
use smithy_core::{Header, HeaderValue, Mem, Message, Moment, StrBytes};
use std::alloc::Global;

/// The parameters of a signed message, which have no settings.
pub type SigningParams<'a> = crate::v4::SigningParams<'a, ()>;

/// Signs a message over the signature before it: a message with the frame of the given one as its
/// payload, and the new signature. The first message of a stream is signed over the signature of its request.
///
/// ```rust
/// let params = event_stream::SigningParams::new(&identity, "us-east-1", "transcribe", at, ());
/// let (_, mut signature) = sign(alloc, request, &request_params)?.into_parts();
/// for event in events {
///     let (signed, next) = sign_message(alloc, event, signature.as_str(), &params)?.into_parts();
///     write_message_to(alloc, &signed, &mut frames)?;
///     signature = next;
/// }
/// let (closing, _) = sign_empty_message(alloc, signature.as_str(), &params)?.into_parts();
/// write_message_to(alloc, &closing, &mut frames)?;
/// ```
///
/// # Errors
///
/// [`SigningError::FailedToEncodeMessage`] where the message has no frame,
/// [`SigningError::UnsupportedIdentityType`] where the identity has no secret and
/// [`SigningError::MomentOutOfRange`] where the moment lies outside the years 0 to 9999, in this order.
pub fn sign_message(
    alloc: Global,
    message: &Message,
    last_signature: &str,
    params: &SigningParams<'_>,
) -> Result<SigningOutput<Message>, SigningError>
    ensures { Links (message_refusal message.now (v4_identity params.now) (v4_time params.now))
        params.now last_signature.now (frame message.now) result }
{
    let SummedFrame { bytes, checksum } = framed(alloc, message)?;
    let key = signing_key_of(params)?;
    sign_summed_bytes_with_key(alloc, bytes, checksum, last_signature, params, &key)
}

/// Signs a message as [`sign_message`] does, under a signing key that is at hand.
///
/// Where the identity is credentials and the moment lies in the years 0 to 9999, the key has to be the signing key of the
/// parameters; elsewhere it may be any. A key holds for the day, and to derive it takes 16 blocks of SHA-256: as many as 1,024
/// bytes do.
///
/// # Errors
///
/// Those of [`sign_message`].
pub fn sign_message_with_key(
    alloc: Global,
    message: &Message,
    last_signature: &str,
    params: &SigningParams<'_>,
    key: &[u8; 32],
) -> Result<SigningOutput<Message>, SigningError>
    requires { IsKeyOf params.now key.now }
    ensures { Links (message_refusal message.now (v4_identity params.now) (v4_time params.now))
        params.now last_signature.now (frame message.now) result }
{
    let SummedFrame { bytes, checksum } = framed(alloc, message)?;
    sign_summed_bytes_with_key(alloc, bytes, checksum, last_signature, params, key)
}

/// Signs no bytes over the signature before them: the message that ends a stream, and the new signature.
///
/// # Errors
///
/// [`SigningError::UnsupportedIdentityType`] where the identity has no secret and
/// [`SigningError::MomentOutOfRange`] where the moment lies outside the years 0 to 9999, in this order.
pub fn sign_empty_message(
    alloc: Global,
    last_signature: &str,
    params: &SigningParams<'_>,
) -> Result<SigningOutput<Message>, SigningError>
    ensures { Links (unsignable (v4_identity params.now) (v4_time params.now))
        params.now last_signature.now [] result }
{
    let key = signing_key_of(params)?;
    sign_bytes_with_key(alloc, Vec::new(alloc), last_signature, params, &key)
}

/// Signs no bytes as [`sign_empty_message`] does, under a signing key that is at hand.
///
/// Where the identity is credentials and the moment lies in the years 0 to 9999, the key has to be the signing key of the
/// parameters; elsewhere it may be any.
///
/// # Errors
///
/// Those of [`sign_empty_message`].
pub fn sign_empty_message_with_key(
    alloc: Global,
    last_signature: &str,
    params: &SigningParams<'_>,
    key: &[u8; 32],
) -> Result<SigningOutput<Message>, SigningError>
    requires { IsKeyOf params.now key.now }
    ensures { Links (unsignable (v4_identity params.now) (v4_time params.now))
        params.now last_signature.now [] result }
{
    sign_bytes_with_key(alloc, Vec::new(alloc), last_signature, params, key)
}

/// Signs the bytes of a frame over the signature before them, under a signing key that is at hand: a message with these bytes
/// as its payload, and the new signature. The SDK has no such public call.
///
/// This is for a caller that needs to know that there is a frame before it derives a key. The condition on the key is that of
/// [`sign_message_with_key`].
///
/// # Errors
///
/// Those of [`sign_empty_message`].
pub fn sign_bytes_with_key(
    alloc: Global,
    bytes: Vec<u8>,
    last_signature: &str,
    params: &SigningParams<'_>,
    key: &[u8; 32],
) -> Result<SigningOutput<Message>, SigningError>
    requires { IsKeyOf params.now key.now }
    ensures { Links (unsignable (v4_identity params.now) (v4_time params.now))
        params.now last_signature.now bytes.items result }
{
    let code = link_code_with_key(alloc, bytes.as_slice(), last_signature, params, key)?;
    Ok(link(alloc, bytes, params.time(), code.as_slice())?)
}

/// Signs the bytes of a frame as [`sign_bytes_with_key`] does, whose checksum is at hand, so that they aren't summed again when the
/// signed message is written. The SDK has no such public call.
///
/// The checksum has to be the one that took the bytes alone, as
/// [`write_summed_message_to`](eventstream::write_summed_message_to) answers it. The condition on the key is that of
/// [`sign_message_with_key`].
///
/// # Errors
///
/// Those of [`sign_empty_message`].
pub fn sign_summed_bytes_with_key(
    alloc: Global,
    bytes: Vec<u8>,
    checksum: Crc,
    last_signature: &str,
    params: &SigningParams<'_>,
    key: &[u8; 32],
) -> Result<SigningOutput<Message>, SigningError>
    requires key { IsKeyOf params.now key.now }
    requires checksum { checksum ≡ after_bytes before_any bytes.items }
    ensures { Links (unsignable (v4_identity params.now) (v4_time params.now))
        params.now last_signature.now bytes.items result }
{
    let signed = sign_bytes_with_key(alloc, bytes, last_signature, params, key)?;
    Ok(summed(signed, checksum))
}

/// The HMAC that [`sign_bytes_with_key`] signs the bytes of a frame with, alone. The SDK has no such public call.
///
/// This is for a caller that compares it with one that came, which needs no message. The condition on the key is that of
/// [`sign_message_with_key`].
///
/// # Errors
///
/// Those of [`sign_empty_message`].
pub fn link_code_with_key(
    alloc: Global,
    bytes: &[u8],
    last_signature: &str,
    params: &SigningParams<'_>,
    key: &[u8; 32],
) -> Result<[u8; 32], SigningError>
    requires { IsKeyOf params.now key.now }
    ensures { MatchResult result
        (λ code. (unsignable (v4_identity params.now) (v4_time params.now) ≡ None)
        × (code ≡ link_code (signer_of params.now) last_signature.now bytes.now (v4_time params.now)))
        (λ error. (unsignable (v4_identity params.now) (v4_time params.now) ≡ Some error) ⊎ (error ≡ SigningError.NoMemory)) }
{
    let at = params.time();
    test_signing(params.identity(), at)?;
    let keyed = HmacSha256::new(key.as_slice());
    let hasher = SecondHasher::new(alloc, keyed, at, params.region(), params.name())?;
    Ok(hasher.link_code(bytes, last_signature)?)
}

// The bytes of a frame, and the checksum that took them alone.
#[derive(Drop)]
struct SummedFrame {
    bytes: Vec<u8>,
    checksum: Crc,
}

// The frame of a message.
fn framed(alloc: Global, message: &Message) -> Result<SummedFrame, SigningError>
    ensures { MatchResult result
        (λ framed. (unframed message.now ≡ None) × (framed.bytes.items ≡ frame message.now) × (framed.checksum ≡ after_bytes before_any (frame message.now)))
        (λ error. (option_map failed_encoding (unframed message.now) ≡ Some error) ⊎ (error ≡ SigningError.NoMemory)) }
{
    let mut bytes = Vec::new(alloc);
    let checksum = write_summed_message_to(alloc, message, &mut bytes)?;
    Ok(SummedFrame { bytes, checksum })
}

/// The message of bytes that were signed with this HMAC, and the HMAC as a signature.
pub(crate) fn link(
    alloc: Global,
    bytes: Vec<u8>,
    time: Moment,
    code: &[u8],
) -> Mem<SigningOutput<Message>>
    ensures message { IfOk result (λ output. signed_output output ≡ record {
      headers = record { name = codes ":chunk-signature"; value = HeaderValue.ByteArray code.now } ∷ date_header (floor_secs time) ∷ [];
      payload = bytes.items;
    }) }
    ensures signature { IfOk result (λ output. output_signature output ≡ encode_lower code.now) }
{
    let signature = hex::encode(alloc, code)?;
    let mut headers = Vec::with_capacity(alloc, 2)?;
    headers.push(code_header(alloc, code)?)?;
    headers.push(date_header(time))?;
    let message = Message::new_from_parts(headers, Bytes::from_vec(bytes)?);
    Ok(SigningOutput::new(message, signature))
}

/// The signed message, of whose payload the checksum is known from now on.
pub(crate) fn summed(signed: SigningOutput<Message>, checksum: Crc) -> SigningOutput<Message>
    requires { checksum ≡ after_bytes before_any (signed_output signed).payload }
    ensures message { signed_output result ≡ signed_output signed }
    ensures signature { output_signature result ≡ output_signature signed }
{
    let (message, signature) = signed.into_parts();
    let message = message.with_checksums(Crc::new(), checksum);
    SigningOutput::new(message, signature)
}

fn code_header(alloc: Global, code: &[u8]) -> Mem<Header>
    ensures { IfOk result (λ header. header ≡ record { name = codes ":chunk-signature"; value = HeaderValue.ByteArray code.now }) }
{
    Ok(Header::new(
        StrBytes::from_static(":chunk-signature"),
        HeaderValue::ByteArray(Bytes::copy_from_slice(alloc, code)?),
    ))
}
