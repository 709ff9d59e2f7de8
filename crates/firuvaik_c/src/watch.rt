//! A frame of a chain that is checked.
ghost use Rattle.std.specs.Prelude.{◌≡◌, ◌⊎◌, [], IfOk, MatchResult, Ok, length, option_copied};
ghost use Rattle.hex.specs.Hex.{encode_lower};
ghost use Rattle.smithy_core.specs.Message.{Parts};
ghost use Rattle.eventstream.specs.Read.{read};
ghost use Rattle.eventstream.specs.Reading.{begins, first_of};
ghost use Rattle.chain_watch.specs.Walk.{frame_test};
ghost use Rattle.firuvaik_c.specs.Faults.{no_memory};
ghost use Rattle.firuvaik_c.specs.Watching.{ChecksFrame, HasCode, LacksCode, PassesFrame, ReadsAlone, DescribesPayload, TestsOne, chain_fault, first_code, part_numbered};

use crate::answer::{Answer, refuse};
use crate::fault::{Fault, plain};
use crate::frames::FrameParts;
use crate::lent::Signer;
use crate::link::{ScopeTexts, scope_texts};
use crate::texts::text_of;
use bytes::Bytes;
use chain_watch::{ChainFault, ChainPart, ChainWatch};
use eventstream::read_message_from;
use smithy_core::{Header, HeaderValue, Mem, Message};
use std::alloc::Global;

/// Checks that bytes are the next frame of a chain, whose signature over the one before it is the signer's own, and tells where its
/// payload stands in the bytes: the bytes of the event's frame, and none in the frame that ends the chain.
///
/// The signature is that of the request that opened the stream, or of the frame before; with the status 0 the frame's own takes its
/// place, and else nothing is written.
#[unsafe(no_mangle)]
pub extern "C" fn firuvaik_check_frame(
    alloc: Global,
    signer: &Signer<'_>,
    frame: &[u8],
    signature: &mut [u8; 64],
    parts: &mut FrameParts,
) -> Answer
    ensures { ChecksFrame signer.now frame.now signature.old signature.new parts.old parts.new result }
{
    match checked_frame(alloc, signer, frame, signature) {
        Ok(checked) => {
            let (own, found) = (checked.signature, checked.parts);
            *signature = own;
            *parts = found;
            Answer {
                status: 0,
                place: 0,
                length: found.length,
            }
        }
        Err(fault) => refuse(fault),
    }
}

// The signature of a frame that passed, and its parts.
#[derive(Clone, Copy)]
struct CheckedFrame {
    signature: [u8; 64],
    parts: FrameParts,
}

// The frame, where it passes.
fn checked_frame(
    alloc: Global,
    signer: &Signer<'_>,
    frame: &[u8],
    signature: &[u8; 64],
) -> Result<CheckedFrame, Fault>
    ensures { PassesFrame signer.now frame.now signature.now result }
{
    let texts = scope_texts(signer)?;
    let previous_signature = text_of(signature.as_slice())?;
    let bytes = Bytes::copy_from_slice(alloc, frame)?;
    let message = one_message(alloc, &bytes)?;
    test_link(alloc, &texts, previous_signature, bytes)?;
    let signature = carried_signature(alloc, &message)?;
    let parts = parts_of(frame, &message);
    Ok(CheckedFrame { signature, parts })
}

// The parts of bytes that are the frame of the message alone.
fn parts_of(frame: &[u8], message: &Message) -> FrameParts
    requires { read frame.now ≡ Ok (message.now, length frame.now) }
    ensures { DescribesPayload frame.now (read frame.now) result }
{
    let payload_length = message.payload().len();
    FrameParts {
        length: frame.len(),
        payload: frame.len() - 4 - payload_length,
        payload_length,
    }
}

// The message of bytes that are one frame.
fn one_message(alloc: Global, bytes: &Bytes) -> Result<Message, Fault>
    ensures { ReadsAlone bytes.now (read bytes.now) result }
{
    let mut rest = bytes.clone()?;
    let message = read_message_from(alloc, &mut rest)?;
    if !rest.is_empty() {
        return Err(plain(50));
    }
    Ok(message)
}

// Tests bytes that are one frame, over the signature before it.
fn test_link(
    alloc: Global,
    texts: &ScopeTexts<'_>,
    previous_signature: &str,
    frame: Bytes,
) -> Result<(), Fault>
    ensures { (message : Parts) → first_of frame ≡ begins message [] → TestsOne (frame_test
        (record { secret = texts.now.secret.now; region = texts.now.region.now; name = texts.now.service.now }) previous_signature.now 1 message) result }
{
    let mut watch = ChainWatch::new(
        alloc,
        previous_signature,
        texts.secret,
        texts.region,
        texts.service,
    )?;
    let mut events = Vec::new(alloc);
    match watch.feed(frame, &mut events) {
        Ok(_) => Ok(()),
        Err(fault) => Err(fault_of_chain(fault)),
    }
}

// The signature that the first header of a message carries.
fn carried_signature(alloc: Global, message: &Message) -> Result<[u8; 64], Fault>
    ensures { MatchResult result
        (λ digits. HasCode message.now.headers digits)
        (λ fault. LacksCode message.now.headers ⊎ (fault ≡ no_memory)) }
{
    match carried_code(message.headers()) {
        Some(code) if code.len() == 32 => Ok(digits_of(alloc, code.as_slice())?),
        _ => Err(plain(51)),
    }
}

// The bytes of the first header's value.
fn carried_code(headers: &[Header]) -> Option<&Bytes>
    ensures { option_copied result ≡ first_code headers.now }
{
    match headers {
        [first, ..] => match first.value() {
            HeaderValue::ByteArray(code) => Some(code),
            _ => None,
        },
        [] => None,
    }
}

// The digits of a code.
fn digits_of(alloc: Global, code: &[u8]) -> Mem<[u8; 64]>
    requires { length code.now ≡ 32 }
    ensures { IfOk result (λ digits. digits ≡ encode_lower code.now) }
{
    let text = hex::encode(alloc, code)?;
    let mut digits = [0; 64];
    digits.copy_from_slice(text.as_bytes());
    Ok(digits)
}

// The fault of a frame that isn't the next one of a chain.
fn fault_of_chain(fault: ChainFault) -> Fault
    ensures { result ≡ chain_fault fault }
{
    match fault {
        ChainFault::NotChain { part, .. } => fault_of_part(part),
        ChainFault::Mismatch { .. } => plain(54),
        ChainFault::NoMemory => plain(2),
    }
}

fn fault_of_part(part: ChainPart) -> Fault
    ensures { result ≡ part_numbered part }
{
    match part {
        ChainPart::NotFrame => plain(50),
        ChainPart::Headers => plain(51),
        ChainPart::Date => plain(52),
        ChainPart::Inner => plain(53),
        ChainPart::AfterClosing => plain(55),
        ChainPart::NoClosing => plain(56),
    }
}
