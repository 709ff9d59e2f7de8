//! The signed frames of an event stream.
ghost use Rattle.std.specs.Prelude.{◌≡◌, ◌⊎◌, Some, Result, MatchResult, option_map};
ghost use Rattle.eventstream.specs.Frame.{unframed};
ghost use Rattle.eventstream.specs.Link.{link_message, link_signature};
ghost use Rattle.sigv4.specs.EventStream.{failed_encoding};
ghost use Rattle.firuvaik_c.specs.Answers.{LendsSigned};
ghost use Rattle.firuvaik_c.specs.Events.{GivesLink, GivesNextFrame};
ghost use Rattle.firuvaik_c.specs.declared.answer.Made.{Made};
ghost use Rattle.firuvaik_c.specs.declared.fault.Fault.{Fault};

use crate::answer::{Answer, Made, lend_signed};
use crate::fault::Fault;
use crate::lent::Signer;
use crate::link::Link;
use crate::sign::code_of;
use eventstream::write_message_to;
use sigv4::{SigningError, event_stream, v4};
use std::alloc::Global;

/// Writes the next frame of a stream: the bytes of an event's frame, signed over the signature before it; no bytes end the stream.
///
/// The signature is that of the request that opened the stream, or of the frame before; the frame's own takes its place where the
/// frame fits the room, and else nothing is written.
#[unsafe(no_mangle)]
pub extern "C" fn firuvaik_next_frame(
    alloc: Global,
    signer: &Signer<'_>,
    seconds: i64,
    event: &[u8],
    signature: &mut [u8; 64],
    out: &mut [u8],
) -> Answer
    ensures { (made : Result Made Fault) × GivesNextFrame signer.now seconds event.now signature.old made
        × LendsSigned made signature.old signature.new out.old out.new result }
{
    let made = next_frame(alloc, signer, seconds, event, signature);
    lend_signed(made, signature, out)
}

// The next frame, and its signature.
fn next_frame(
    alloc: Global,
    signer: &Signer<'_>,
    seconds: i64,
    event: &[u8],
    signature: &[u8; 64],
) -> Result<Made, Fault>
    ensures { GivesNextFrame signer.now seconds event.now signature.now result }
{
    let link = Link::new(alloc, signer, seconds, signature)?;
    match linked(alloc, event, &link) {
        Ok(made) => Ok(made),
        Err(error) => Err(Fault::from(error)),
    }
}

// The frame of the signed message of bytes, over the signature before it.
fn linked(alloc: Global, event: &[u8], link: &Link<'_>) -> Result<Made, SigningError>
    ensures { MatchResult result
        (λ made. GivesLink (link_message link.now.signer link.now.previous_signature event.now link.now.at)
        (link_signature link.now.signer link.now.previous_signature event.now link.now.at) made)
        (λ error. (option_map failed_encoding (unframed (link_message link.now.signer link.now.previous_signature event.now link.now.at)) ≡ Some error)
        ⊎ (error ≡ SigningError.NoMemory)) }
{
    let params = link.params();
    let key = v4::signing_key_of(&params)?;
    let mut bytes = Vec::new(alloc);
    bytes.extend_from_slice(event)?;
    let signed = event_stream::sign_bytes_with_key(
        alloc,
        bytes,
        link.previous_signature(),
        &params,
        &key,
    )?;
    let signature = code_of(&signed);
    let (message, _) = signed.into_parts();
    let mut text = Vec::new(alloc);
    write_message_to(alloc, &message, &mut text)?;
    Ok(Made { text, signature })
}
