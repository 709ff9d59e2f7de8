ghost use Rattle.std.specs.Prelude.{◌≡◌, ◌++◌, ℕ, List, map, None, Some, IfOk, OnOk, MatchResult};
ghost use Rattle.std.specs.List.{flat_map};
ghost use Rattle.hex.specs.Hex.{encode_lower};
ghost use Rattle.mac_core.specs.Mac.{mac};
ghost use Rattle.smithy_core.specs.Civil.{stamp};
ghost use Rattle.smithy_core.specs.Text.{line};
ghost use Rattle.eventstream.specs.Key.{scope, signing_key};
ghost use Rattle.eventstream.specs.Link.{begun_lines};
ghost use Rattle.sigv4.specs.Chunk.{SignsPart, borrowed_pair, by_name, chunk_signature, chunk_string_to_sign, canonical_trailer_line, trailer_lines, trailer_signature, trailer_text};
ghost use Rattle.sigv4.specs.EventStream.{unsignable};
ghost use Rattle.sigv4.specs.Output.{output_signature};
ghost use Rattle.sigv4.specs.Params.{signer_of, v4_identity, v4_time};

use crate::credentials::signer_at;
use crate::digest::sha256_digits;
use crate::error::SigningError;
use crate::output::SigningOutput;
use crate::params::SigningParams;
use crate::signature::{PAYLOAD_ALGORITHM, begun_string_to_sign, calculate_signature};
use crate::signing_time::SigningTime;
use bytes::Bytes;
use smithy_core::{Headers, Mem, push_line};
use std::alloc::Global;

/// Signs a chunk of an upload over the signature before it: that of the chunk before, or for the first chunk that of the request.
/// An upload ends with the empty chunk.
///
/// # Errors
///
/// [`SigningError::UnsupportedIdentityType`] where the identity has no secret and
/// [`SigningError::MomentOutOfRange`] where the moment lies outside the years 0 to 9999, in this order.
pub fn sign_chunk<S>(
    alloc: Global,
    chunk: &Bytes,
    running_signature: &str,
    params: &SigningParams<'_, S>,
) -> Result<SigningOutput<()>, SigningError>
    ensures { SignsPart (unsignable (v4_identity params.now) (v4_time params.now))
        (chunk_signature chunk.now (signer_of params.now) (v4_time params.now) running_signature.now) result }
{
    let (key, time) = key_at(params)?;
    let text = chunk_string_to_sign(alloc, chunk.as_slice(), &time, running_signature, params)?;
    Ok(sign_text(alloc, &key, text.as_slice())?)
}

/// Signs the trailers of an upload over the signature of its empty chunk. Their names and values are taken as they are: that
/// they are those of headers isn't tested here, so that CR and LF in them pass into what is signed.
///
/// # Errors
///
/// Those of [`sign_chunk`].
pub fn sign_trailer<S>(
    alloc: Global,
    headers: &Headers,
    running_signature: &str,
    params: &SigningParams<'_, S>,
) -> Result<SigningOutput<()>, SigningError>
    ensures { SignsPart (unsignable (v4_identity params.now) (v4_time params.now))
        (trailer_signature headers.now (signer_of params.now) (v4_time params.now) running_signature.now) result }
{
    let (key, time) = key_at(params)?;
    let (region, name) = (params.region(), params.name());
    let text = trailer_text(alloc, headers, &time, running_signature, region, name)?;
    Ok(sign_text(alloc, &key, text.as_slice())?)
}

// The signing key and the time of the parameters, or why their identity doesn't sign at their moment.
fn key_at<S>(params: &SigningParams<'_, S>) -> Result<([u8; 32], SigningTime), SigningError>
    ensures { MatchResult result
        (λ parts. (unsignable (v4_identity params.now) (v4_time params.now) ≡ None) × (parts.0 ≡ signing_key (signer_of params.now) (v4_time params.now))
        × (parts.1 ≡ v4_time params.now))
        (λ error. unsignable (v4_identity params.now) (v4_time params.now) ≡ Some error) }
{
    let (credentials, time) = signer_at(params.identity(), params.time())?;
    let secret = credentials.secret_access_key();
    let key = time.signing_key(secret, params.region(), params.name());
    Ok((key, time))
}

// The signature of a string to sign.
fn sign_text(alloc: Global, key: &[u8; 32], text: &[u8]) -> Mem<SigningOutput<()>>
    ensures { IfOk result (λ output. output_signature output ≡ encode_lower (mac key.now text.now)) }
{
    let signature = calculate_signature(alloc, key.as_slice(), text)?;
    Ok(SigningOutput::new((), signature))
}

// The string to sign of a chunk, where the time is that of the parameters.
#[tactic(auto, unfolding(crate::specs::Chunk::chunk_string_to_sign))]
fn chunk_string_to_sign<S>(
    alloc: Global,
    chunk: &[u8],
    time: &SigningTime,
    running_signature: &str,
    params: &SigningParams<'_, S>,
) -> Mem<Vec<u8>>
    ensures { IfOk result (λ text. text.items ≡ chunk_string_to_sign chunk.now (signer_of params.now) time.now running_signature.now) }
{
    let algorithm = PAYLOAD_ALGORITHM.as_bytes();
    let (region, name) = (params.region(), params.name());
    let mut text = begun_text(alloc, algorithm, time, running_signature, region, name)?;
    push_line(&mut text, sha256_digits(b"").as_slice())?;
    text.extend_from_slice(sha256_digits(chunk).as_slice())?;
    Ok(text)
}

/// The string to sign of trailers, for a region and a name.
#[tactic(auto, unfolding(crate::specs::Chunk::trailer_text))]
pub(crate) fn trailer_text(
    alloc: Global,
    headers: &Headers,
    time: &SigningTime,
    running_signature: &str,
    region: &str,
    name: &str,
) -> Mem<Vec<u8>>
    ensures { (secret : List ℕ) → IfOk result (λ text. text.items
        ≡ trailer_text headers.now (record { secret = secret; region = region.now; name = name.now }) time.now running_signature.now) }
{
    let lines = trailer_lines(alloc, headers)?;
    let algorithm = b"AWS4-HMAC-SHA256-TRAILER";
    let mut text = begun_text(alloc, algorithm, time, running_signature, region, name)?;
    text.extend_from_slice(sha256_digits(lines.as_slice()).as_slice())?;
    Ok(text)
}

// The lines with which a string to sign begins, and the signature before.
fn begun_text(
    alloc: Global,
    algorithm: &[u8],
    time: &SigningTime,
    running_signature: &str,
    region: &str,
    name: &str,
) -> Mem<Vec<u8>>
    ensures { IfOk result (λ text. text.items
        ≡ begun_lines algorithm.now (stamp time.now) (scope time.now region.now name.now) ++ line running_signature.now) }
{
    let stamp = time.stamp();
    let scope = time.scope_bytes(alloc, region, name)?;
    let mut text = begun_string_to_sign(alloc, algorithm, stamp.as_slice(), scope.as_slice())?;
    push_line(&mut text, running_signature.as_bytes())?;
    Ok(text)
}

// The lines of the trailers by name.
#[tactic(auto, unfolding(crate::specs::Chunk::trailer_lines))]
fn trailer_lines(alloc: Global, headers: &Headers) -> Mem<Vec<u8>>
    ensures { IfOk result (λ lines. lines.items ≡ trailer_lines headers.now) }
{
    let mut trailers = listed(alloc, headers)?;
    sort_by_name(&mut trailers)?;
    joined_lines(alloc, trailers.as_slice())
}

// The trailers in order.
fn listed<'a>(alloc: Global, headers: &'a Headers) -> Mem<Vec<(&'a str, &'a str)>>
    ensures { IfOk result (λ trailers. map borrowed_pair trailers.items ≡ headers.now) }
{
    let mut trailers = Vec::with_capacity(alloc, headers.len())?;
    for (name, value) in headers.iter() {
        trailers.push((name, value))?;
    }
    Ok(trailers)
}

// Sorts trailers by the bytes of their names, and leaves those of one name in order.
fn sort_by_name(trailers: &mut Vec<(&str, &str)>) -> Mem<()>
    ensures { OnOk result (map borrowed_pair trailers.new.items ≡ by_name (map borrowed_pair trailers.old.items)) }
{
    trailers.sort_by_key(|trailer| trailer.0)?;
    Ok(())
}

// The lines of the trailers in order.
fn joined_lines(alloc: Global, trailers: &[(&str, &str)]) -> Mem<Vec<u8>>
    ensures { IfOk result (λ lines. lines.items ≡ flat_map canonical_trailer_line (map borrowed_pair trailers.now)) }
{
    let mut lines = Vec::new(alloc);
    for (name, value) in trailers {
        push_trailer(&mut lines, *name, *value)?;
    }
    Ok(lines)
}

// Appends the line of a trailer.
fn push_trailer(lines: &mut Vec<u8>, name: &str, value: &str) -> Mem<()>
    ensures { OnOk result (lines.new.items ≡ lines.old.items ++ canonical_trailer_line (name.now, value.now)) }
{
    lines.extend_from_slice(name.as_bytes())?;
    lines.push(b':')?;
    push_line(lines, value.trim().as_bytes())
}
