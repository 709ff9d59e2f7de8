ghost use Rattle.std.specs.Prelude.{◌≡◌, Some, option_copied};
ghost use Rattle.request_door.specs.DoorPayloads.{MakesPayload, ReadsPayload, is_signed_chunks, payload_form, shown_payload, usual_form};
ghost use Rattle.request_door.specs.declared.payload.DoorPayload.TheVariants.{Digest as IsDigest};

use crate::carried::{first_header, is_several};
use crate::fault::DoorFault;
use mac_core::sha256_hex;
use sigv4::parts::is_signature;
use sigv4::{PayloadChecksumKind, SignatureLocation};
use smithy_core::Headers;
use std::alloc::Global;

/// What was signed of a request's payload.
#[derive(Clone, Copy, Debug, PartialEq, Eq)]
pub enum DoorPayload {
    /// The digest of the body, which is that of the body that came.
    Digest,
    /// Nothing of it: the body is whatever came.
    Unsigned,
    /// Nothing of it: the body is in unsigned chunks, with trailers.
    UnsignedChunks,
    /// Chunks or messages, each signed after the one before it, from the request's signature on.
    SignedChunks,
}

/// What was signed of the payload of a request with these headers.
pub(crate) fn read_payload(
    place: SignatureLocation,
    kind: PayloadChecksumKind,
    headers: &Headers,
) -> Result<DoorPayload, DoorFault>
    ensures { ReadsPayload place kind headers.now result }
{
    if is_several(headers, "x-amz-content-sha256") {
        return Err(DoorFault::RepeatedPayload);
    }
    match shown_payload(headers) {
        Some(text) => payload_form(text).ok_or(DoorFault::BadPayload),
        None => Ok(usual_form(place, kind)),
    }
}

// What was signed where no header says it.
fn usual_form(place: SignatureLocation, kind: PayloadChecksumKind) -> DoorPayload
    ensures { result ≡ usual_form place kind }
{
    match (place, kind) {
        (SignatureLocation::QueryParams, PayloadChecksumKind::XAmzSha256) => DoorPayload::Unsigned,
        _ => DoorPayload::Digest,
    }
}

// What was signed by the text of a payload.
fn payload_form(text: &str) -> Option<DoorPayload>
    ensures { result ≡ payload_form text.now }
{
    if is_signature(text) {
        Some(DoorPayload::Digest)
    } else if text == "UNSIGNED-PAYLOAD" {
        Some(DoorPayload::Unsigned)
    } else if text == "STREAMING-UNSIGNED-PAYLOAD-TRAILER" {
        Some(DoorPayload::UnsignedChunks)
    } else if is_signed_chunks(text) {
        Some(DoorPayload::SignedChunks)
    } else {
        None
    }
}

// Whether the text says that chunks or messages are signed.
fn is_signed_chunks(text: &str) -> bool
    ensures { result ≡ is_signed_chunks text.now }
{
    text == "STREAMING-AWS4-HMAC-SHA256-PAYLOAD"
        || text == "STREAMING-AWS4-HMAC-SHA256-PAYLOAD-TRAILER"
        || text == "STREAMING-AWS4-HMAC-SHA256-EVENTS"
}

/// The value of the payload's header.
pub(crate) fn shown_payload(headers: &Headers) -> Option<&str>
    ensures { option_copied result ≡ shown_payload headers.now }
{
    first_header(headers, "x-amz-content-sha256")
}

/// The payload's text that was signed. Only a digest takes a hash.
pub(crate) fn signed_payload(
    alloc: Global,
    shown: Option<&str>,
    form: DoorPayload,
    body: &[u8],
) -> Result<String, DoorFault>
    ensures { MakesPayload (option_copied shown.entry) form body.now result }
{
    match (shown, form) {
        (None, DoorPayload::Digest) => Ok(sha256_hex(alloc, body)?),
        (None, _) => Ok(String::from_str(alloc, "UNSIGNED-PAYLOAD")?),
        (Some(text), DoorPayload::Digest) => compared_digest(alloc, text, body),
        (Some(text), _) => Ok(String::from_str(alloc, text)?),
    }
}

// The digest of the body, where the text is that.
fn compared_digest(alloc: Global, text: &str, body: &[u8]) -> Result<String, DoorFault>
    ensures { MakesPayload (Some text.now) IsDigest body.now result }
{
    let digest = sha256_hex(alloc, body)?;
    if digest.as_str() == text {
        Ok(digest)
    } else {
        Err(DoorFault::OtherPayload)
    }
}
