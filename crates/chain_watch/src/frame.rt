ghost use Rattle.std.specs.Prelude.{◌≡◌, ◌==◌, ◌<◌, length, Ok, Some, None, if◌then◌else◌, option_map};
ghost use Rattle.eventstream.specs.Error.{error_kind};
ghost use Rattle.eventstream.specs.Link.{carried_date};
ghost use Rattle.eventstream.specs.Read.{announced, read};
ghost use Rattle.chain_watch.specs.Frame.{HoldsEvent, HoldsThis, ReadsEvent, TestsFrame, carried_parts, part_fault};
ghost use Rattle.chain_watch.specs.Walk.{carried, carried_code, frame_test, signed_moment};

use crate::chain_fault::{ChainFault, ChainPart};
use crate::chain_signer::ChainSigner;
use bytes::Bytes;
use eventstream::{Error, ErrorKind, read_held_message, write_message_to};
use mac_core::constant_time_eq;
use smithy_core::{Header, HeaderValue, Message, Moment, is_in_years};
use std::alloc::Global;

// A frame that passed: its event, which the closing one lacks, and its signature.
#[derive(Drop)]
pub(crate) struct CheckedFrame {
    pub(crate) event: Option<Message>,
    pub(crate) signature: String,
}

// The tests of the message of the frame at a place, over the signature before it.
#[tactic(auto, unfolding(crate::specs::Walk::frame_test))]
pub(crate) fn test_frame(
    alloc: Global,
    message: &Message,
    frame: usize,
    signature: &str,
    signer: &mut ChainSigner,
) -> Result<CheckedFrame, ChainFault>
    ensures tests { TestsFrame (frame_test signer.old signature.now frame message.now) result }
    ensures signer { signer.new ≡ signer.old }
{
    let Some(link) = carried(message.headers()) else {
        return Err(ChainFault::NotChain {
            frame,
            part: ChainPart::Headers,
        });
    };
    let carried = link.code;
    let date = link.date;
    if !is_signed_moment(date) {
        return Err(ChainFault::NotChain {
            frame,
            part: ChainPart::Date,
        });
    }
    let event = held_event(alloc, message, frame)?;
    let recomputed = signer.link_code(message.payload().as_slice(), signature, date)?;
    if !constant_time_eq(&carried, &recomputed) {
        return Err(ChainFault::Mismatch {
            frame,
            carried,
            recomputed,
        });
    }
    let signature = hex::encode(alloc, recomputed.as_slice())?;
    Ok(CheckedFrame { event, signature })
}

// The signature and the moment that headers carry, which are exactly these two.
#[derive(Clone, Copy)]
struct LinkHeaders {
    code: [u8; 32],
    date: Moment,
}

fn carried(headers: &[Header]) -> Option<LinkHeaders>
    ensures { option_map carried_parts result ≡ carried headers.now }
{
    let [first, second] = headers else {
        return None;
    };
    let code = carried_code(first)?;
    let date = carried_date(second)?;
    Some(LinkHeaders { code, date })
}

fn carried_code(header: &Header) -> Option<[u8; 32]>
    ensures { result ≡ carried_code header.now }
{
    match header.value() {
        HeaderValue::ByteArray(code) if header.name().as_str() == ":chunk-signature" => {
            code_of(code.as_slice())
        }
        _ => None,
    }
}

#[tactic(auto, using(crate::proofs::FrameLemmas::whole_code))]
fn code_of(bytes: &[u8]) -> Option<[u8; 32]>
    ensures { result ≡ (if length bytes.now == 32 then Some bytes.now else None) }
{
    if bytes.len() != 32 {
        return None;
    }
    let (code, _) = bytes.split_first_chunk::<32>()?;
    let code = *code;
    Some(code)
}

fn carried_date(header: &Header) -> Option<Moment>
    ensures { result ≡ carried_date header.now }
{
    match header.value() {
        HeaderValue::Timestamp(date) if header.name().as_str() == ":date" => Some(*date),
        _ => None,
    }
}

// A whole second in the years 0 to 9999.
fn is_signed_moment(date: Moment) -> bool
    ensures { signed_moment date ≡ (if result then Some date else None) }
{
    date.subsec_nanos() == 0 && is_in_years(date)
}

// The event whose frame the payload of the frame at a place is. An empty one holds none.
fn held_event(alloc: Global, message: &Message, frame: usize) -> Result<Option<Message>, ChainFault>
    ensures { HoldsEvent frame message.now.payload result }
{
    if message.payload().is_empty() {
        return Ok(None);
    }
    let event = read_event(alloc, message, frame)?;
    test_again(alloc, &event, message.payload(), frame)?;
    Ok(Some(event))
}

// The message that a payload begins with.
#[tactic(auto, using(crate::proofs::FrameLemmas::unread_fault))]
fn read_event(alloc: Global, message: &Message, frame: usize) -> Result<Message, ChainFault>
    requires { 0 < length message.now.payload }
    ensures { ReadsEvent frame message.now.payload result }
{
    match read_held_message(alloc, message) {
        Ok((event, _)) => Ok(event),
        Err(error) => Err(fault_of(&error, frame, ChainPart::Inner)),
    }
}

// Tests that the message that was read of a payload has the payload as its frame, when it is written again.
#[tactic(auto, using(crate::proofs::FrameLemmas::again))]
fn test_again(
    alloc: Global,
    event: &Message,
    payload: &Bytes,
    frame: usize,
) -> Result<(), ChainFault>
    requires filled { 0 < length payload.now }
    requires read { read payload.now ≡ Ok (event.now, announced payload.now) }
    ensures { HoldsThis frame payload.now event.now result }
{
    let mut again = Vec::new(alloc);
    if let Err(error) = write_message_to(alloc, event, &mut again) {
        return Err(fault_of(&error, frame, ChainPart::Inner));
    }
    if again.as_slice() != payload.as_slice() {
        return Err(ChainFault::NotChain {
            frame,
            part: ChainPart::Inner,
        });
    }
    Ok(())
}

// The fault of the frame at a place whose part isn't read or written.
pub(crate) fn fault_of(error: &Error, frame: usize, part: ChainPart) -> ChainFault
    ensures { result ≡ part_fault frame part (error_kind error.now) }
{
    match error.kind() {
        ErrorKind::NoMemory => ChainFault::NoMemory,
        _ => ChainFault::NotChain { frame, part },
    }
}
