ghost use Rattle.std.specs.Prelude.{◌≡◌, ◌+◌, ◌-◌, ◌≤◌, ◌<◌, ◌^◌, ◌++◌, length, take, drop, IfOk, IfSome, OnOk};
ghost use Rattle.mac_core.specs.Crc.{after_bytes, before_any, remainder};
ghost use Rattle.eventstream.specs.Frame.{least_frame};
ghost use Rattle.seg_buf.specs.Segments.{prelude_len};
ghost use Rattle.eventstream.specs.Read.{AreFit, IsSumOf, announced, checked_message, read, read_frame, u32_at, GivesRead, GivesMessage, TakesMessage};

mod header;
mod headers;
mod lengths;

use crate::error::{Error, ErrorKind};
use crate::read::headers::read_block;
use crate::read::lengths::u32_at;
pub(crate) use crate::read::lengths::{Lengths, read_prelude};
use crate::write::LEAST_FRAME;
use bytes::Bytes;
use mac_core::Crc;
use seg_buf::PRELUDE;
use smithy_core::{Header, Message};
use std::alloc::Global;

/// Takes the message of one frame from the front.
///
/// # Errors
///
/// The first fault decides, in this order: fewer bytes than a prelude, [`ErrorKind::InvalidMessageLength`]; a frame under 16
/// or over 16,777,216 bytes, [`ErrorKind::InvalidMessageLength`]; a header block of one byte, of over 131,072 bytes, or longer
/// than the frame, [`ErrorKind::InvalidHeadersLength`]; [`ErrorKind::PreludeChecksumMismatch`]; fewer bytes than the frame
/// announces, [`ErrorKind::InvalidMessageLength`]; the headers in order, each read from all bytes that are there;
/// [`ErrorKind::MessageChecksumMismatch`]. A refused call takes nothing.
#[tactic(auto, using(crate::proofs::FrontLemmas::announced_prelude), unfolding(crate::specs::Read::read, crate::specs::Read::read_after))]
pub fn read_message_from(alloc: Global, buffer: &mut Bytes) -> Result<Message, Error>
    ensures { TakesMessage (read buffer.old) buffer.old buffer.new result }
{
    let Some((prelude, _)) = buffer.as_slice().split_first_chunk::<PRELUDE>() else {
        return Err(Error::from(ErrorKind::InvalidMessageLength));
    };
    let prelude = *prelude;
    let lengths = read_prelude(&prelude)?;
    let rest = buffer.slice(PRELUDE..)?;
    let message = read_frame(alloc, lengths, prelude, rest)?;
    buffer.advance(lengths.total);
    Ok(message)
}

/// The message whose frame the payload of another message begins with, and the length of that frame: as
/// [`read_message_from`] reads the payload, and where the payload is this frame alone, without summing its bytes again.
///
/// # Errors
///
/// Those of [`read_message_from`].
#[tactic(auto, using(crate::proofs::FrontLemmas::announced_prelude), unfolding(crate::specs::Read::read, crate::specs::Read::read_after))]
pub fn read_held_message(alloc: Global, message: &Message) -> Result<(Message, usize), Error>
    ensures read { GivesRead (read message.now.payload) result }
    ensures len { IfOk result (λ held. held.1 ≡ announced message.now.payload) }
    ensures there { IfOk result (λ held. held.1 ≤ length message.now.payload) }
{
    let payload = message.payload();
    let Some((prelude, _)) = payload.as_slice().split_first_chunk::<PRELUDE>() else {
        return Err(Error::from(ErrorKind::InvalidMessageLength));
    };
    let prelude = *prelude;
    let lengths = read_prelude(&prelude)?;
    let rest = payload.slice(PRELUDE..)?;
    let whole = checksum_of_payload(message, lengths.total);
    let held = read_summed_frame(alloc, lengths, prelude, rest, whole)?;
    Ok((held, lengths.total))
}

// The checksum of the payload, where it has this length.
fn checksum_of_payload(message: &Message, len: usize) -> Option<Crc>
    ensures { IfSome result (λ whole. (length message.now.payload ≡ len) × (whole ≡ after_bytes before_any message.now.payload)) }
{
    if message.payload().len() != len {
        return None;
    }
    let mut whole = Crc::new();
    message.sum_payload(&mut whole);
    Some(whole)
}

/// The message of the frame of these lengths, with its prelude and the bytes after it.
///
/// # Errors
///
/// Those of [`read_message_from`] behind the prelude's own.
#[tactic(auto, unfolding(crate::specs::Read::read_frame))]
pub fn read_frame(
    alloc: Global,
    lengths: Lengths,
    prelude: [u8; PRELUDE],
    rest: Bytes,
) -> Result<Message, Error>
    requires fit { AreFit lengths }
    ensures read { GivesMessage (read_frame lengths prelude rest) lengths.total result }
    ensures there { OnOk result (lengths.total ≤ prelude_len + length rest) }
{
    read_summed_frame(alloc, lengths, prelude, rest, None)
}

// The same, where the checksum of the whole frame may be known.
#[tactic(auto, unfolding(crate::specs::Read::read_frame))]
fn read_summed_frame(
    alloc: Global,
    lengths: Lengths,
    prelude: [u8; PRELUDE],
    rest: Bytes,
    whole: Option<Crc>,
) -> Result<Message, Error>
    requires fit { AreFit lengths }
    requires known { IfSome whole (IsSumOf lengths.total prelude rest) }
    ensures read { GivesMessage (read_frame lengths prelude rest) lengths.total result }
    ensures there { OnOk result (lengths.total ≤ prelude_len + length rest) }
{
    if PRELUDE + rest.len() < lengths.total {
        return Err(Error::from(ErrorKind::InvalidMessageLength));
    }
    let headers = read_block(alloc, lengths.headers, &rest)?;
    read_message(lengths, prelude, rest, headers, whole)
}

// The message of these headers and the payload behind them, where the closing checksum is right. The bytes become the payload.
#[tactic(auto, unfolding(crate::specs::Read::checked_message))]
fn read_message(
    lengths: Lengths,
    prelude: [u8; PRELUDE],
    mut rest: Bytes,
    headers: Vec<Header>,
    whole: Option<Crc>,
) -> Result<Message, Error>
    requires fit { AreFit lengths }
    requires there { lengths.total ≤ prelude_len + length rest }
    requires known { IfSome whole (IsSumOf lengths.total prelude rest) }
    ensures { GivesRead (checked_message lengths prelude rest headers.items) result }
{
    let end = lengths.total - LEAST_FRAME;
    let (before, after) = sum_around(lengths, prelude.as_slice(), rest.as_slice(), whole);
    let computed = after.value();
    let carried = u32_at(rest.as_slice(), end);
    if computed != carried {
        return Err(Error::from(ErrorKind::MessageChecksumMismatch(computed, carried)));
    }
    rest.advance(lengths.headers);
    rest.truncate(end - lengths.headers);
    Ok(Message::new_from_parts(headers, rest).with_checksums(before, after))
}

// The checksums before and after the payload of a frame, with its prelude and the bytes after it.
#[tactic(auto, using(crate::proofs::SumLemmas::before_closing, crate::proofs::SumLemmas::two_below))]
fn sum_around(lengths: Lengths, prelude: &[u8], rest: &[u8], whole: Option<Crc>) -> (Crc, Crc)
    requires fit { AreFit lengths }
    requires there { lengths.total ≤ prelude_len + length rest.now }
    requires known { IfSome whole (IsSumOf lengths.total prelude.now rest.now) }
    ensures payload { result.1 ≡ after_bytes result.0 (take (lengths.total - least_frame - lengths.headers) (drop lengths.headers rest.now)) }
    ensures closing { remainder (prelude.now ++ take (lengths.total - least_frame) rest.now) ≡ 0xFFFFFFFF - result.1 }
{
    let end = lengths.total - LEAST_FRAME;
    let carried = u32_at(rest, end);
    let before = before_payload(prelude, &rest[..lengths.headers]);
    let payload = &rest[lengths.headers..end];
    let after = after_payload(before, payload, &rest[end..end + 4], carried, whole);
    (before, after)
}

// The checksum of what is before a payload.
fn before_payload(prelude: &[u8], headers: &[u8]) -> Crc
    ensures { result ≡ after_bytes (after_bytes before_any prelude.now) headers.now }
{
    let mut checksum = Crc::new();
    checksum.update(prelude);
    checksum.update(headers);
    checksum
}

// The checksum behind a payload, where it was this before. If is known what it is behind the closing checksum too, and this is the
// one carried, then the payload isn't looked at: there is but one checksum that the last four bytes bring there.
#[tactic(auto, using(mac_core::proofs::InjectiveLemmas::bytes_once, mac_core::proofs::CrcLemmas::bytes_below))]
fn after_payload(
    before: Crc,
    payload: &[u8],
    closing: &[u8],
    carried: u32,
    whole: Option<Crc>,
) -> Crc
    requires below { before < 2 ^ 32 }
    requires known { IfSome whole (λ whole. whole ≡ after_bytes (after_bytes before payload.now) closing.now) }
    ensures { result ≡ after_bytes before payload.now }
{
    if let Some(whole) = whole {
        let right = Crc::of_value(carried);
        let mut closed = right;
        closed.update(closing);
        if closed == whole {
            return right;
        }
    }
    let mut after = before;
    after.update(payload);
    after
}
