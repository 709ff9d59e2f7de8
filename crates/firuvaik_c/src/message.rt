//! The frame of a message.
ghost use Rattle.std.specs.Prelude.{◌≡◌, ◌⊎◌, ◌++◌, ◌∷◌, ℕ, [], true, false, map, option_map, OnOk, Result, MatchResult, Vec, Ok, Err};
ghost use Rattle.std.specs.List.{list_all};
ghost use Rattle.std.specs.Int.{w8, w16, w32};
ghost use Rattle.std.specs.declared.alloc.Global.{Global};
ghost use Rattle.smithy_core.specs.declared.header.HeaderValue.TheVariants.{Byte as IsByte, Int16 as IsInt16, Int32 as IsInt32};
ghost use Rattle.eventstream.specs.Read.{big_endian};
ghost use Rattle.job_text.specs.Numbers.{if_fits};
ghost use Rattle.firuvaik_c.specs.Answers.{LendsMade};
ghost use Rattle.firuvaik_c.specs.Asked.{is_text_field};
ghost use Rattle.firuvaik_c.specs.Faults.{no_memory, not_text};
ghost use Rattle.firuvaik_c.specs.Messages.{FramesHeaders, FramesTexts, GivesLentHeader, GivesLentValue, first_unlent, lent_header_of, lent_text, lent_uuid, lent_value, narrowed, text_header, text_pair_header};
ghost use Rattle.firuvaik_c.specs.declared.fault.Fault.{Fault};

use crate::answer::{Answer, lend_made};
use crate::fault::{Fault, plain};
use crate::lent::{EventHeader, Field};
use crate::texts::text_of;
use bytes::Bytes;
use eventstream::write_message_to;
use smithy_core::{DateTime, Header, HeaderValue, Mem, Message, StrBytes};
use std::alloc::Global;

/// Writes the frame of a message: of headers whose values are texts, in order, and of a payload.
#[unsafe(no_mangle)]
pub extern "C" fn firuvaik_event(
    alloc: Global,
    headers: &[Field<'_>],
    payload: &[u8],
    out: &mut [u8],
) -> Answer
    ensures { (made : Result (Vec ℕ Global) Fault) × FramesTexts headers.now payload.now made × LendsMade made out.old out.new result }
{
    let made = event_frame(alloc, headers, payload);
    lend_made(made, out)
}

fn event_frame(alloc: Global, headers: &[Field<'_>], payload: &[u8]) -> Result<Vec<u8>, Fault>
    ensures { FramesTexts headers.now payload.now result }
{
    let headers = text_headers(alloc, headers)?;
    let payload = Bytes::copy_from_slice(alloc, payload)?;
    let message = Message::new_from_parts(headers, payload);
    let mut frame = Vec::new(alloc);
    write_message_to(alloc, &message, &mut frame)?;
    Ok(frame)
}

// The headers of fields that are texts.
#[tactic(auto, using(std::proofs::lemmas::List::Folds::list_all_more, std::proofs::lemmas::List::Folds::list_all_at))]
fn text_headers(alloc: Global, fields: &[Field<'_>]) -> Result<Vec<Header>, Fault>
    ensures { MatchResult result
        (λ headers. (list_all is_text_field fields.now ≡ true) × (headers.items ≡ map text_header fields.now))
        (λ fault. ((list_all is_text_field fields.now ≡ false) × (fault ≡ not_text)) ⊎ (fault ≡ no_memory)) }
{
    let mut headers = Vec::new(alloc);
    for field in fields {
        let name = text_of(field.name)?;
        let value = text_of(field.value)?;
        push_header(&mut headers, name, value)?;
    }
    Ok(headers)
}

fn push_header(headers: &mut Vec<Header>, name: &str, value: &str) -> Mem<()>
    ensures { OnOk result (headers.new.items ≡ headers.old.items ++ text_pair_header name.now value.now ∷ []) }
{
    let alloc = *headers.allocator();
    let name = StrBytes::copy_from_str(alloc, name)?;
    let value = StrBytes::copy_from_str(alloc, value)?;
    headers.push(Header::new(name, HeaderValue::String(value)))?;
    Ok(())
}

/// Writes the frame of a message: of headers of every kind, in order, and of a payload.
#[unsafe(no_mangle)]
pub extern "C" fn firuvaik_frame(
    alloc: Global,
    headers: &[EventHeader<'_>],
    payload: &[u8],
    out: &mut [u8],
) -> Answer
    ensures { (made : Result (Vec ℕ Global) Fault) × FramesHeaders headers.now payload.now made × LendsMade made out.old out.new result }
{
    let made = message_frame(alloc, headers, payload);
    lend_made(made, out)
}

fn message_frame(
    alloc: Global,
    headers: &[EventHeader<'_>],
    payload: &[u8],
) -> Result<Vec<u8>, Fault>
    ensures { FramesHeaders headers.now payload.now result }
{
    let headers = lent_headers(alloc, headers)?;
    let payload = Bytes::copy_from_slice(alloc, payload)?;
    let message = Message::new_from_parts(headers, payload);
    let mut frame = Vec::new(alloc);
    write_message_to(alloc, &message, &mut frame)?;
    Ok(frame)
}

// The headers that were lent, in order.
fn lent_headers(alloc: Global, lent: &[EventHeader<'_>]) -> Result<Vec<Header>, Fault>
    ensures { MatchResult result
        (λ headers. (first_unlent lent.now ≡ None) × (headers.items ≡ map lent_header_of lent.now))
        (λ fault. (first_unlent lent.now ≡ Some fault) ⊎ (fault ≡ no_memory)) }
{
    let mut headers = Vec::new(alloc);
    for header in lent {
        headers.push(lent_header(alloc, header)?)?;
    }
    Ok(headers)
}

// The header of a name, a kind, a number and bytes.
fn lent_header(alloc: Global, lent: &EventHeader<'_>) -> Result<Header, Fault>
    ensures { GivesLentHeader lent.now result }
{
    let name = text_of(lent.name)?;
    let name = StrBytes::copy_from_str(alloc, name)?;
    let value = lent_value(alloc, lent.kind, lent.number, lent.value)?;
    Ok(Header::new(name, value))
}

// The value of a kind that a number and bytes spell.
#[tactic(auto, unfolding(crate::specs::Messages::lent_value))]
fn lent_value(alloc: Global, kind: u32, number: i64, bytes: &[u8]) -> Result<HeaderValue, Fault>
    ensures { GivesLentValue (lent_value kind number bytes.now) result }
{
    match kind {
        0 => Ok(HeaderValue::Bool(true)),
        1 => Ok(HeaderValue::Bool(false)),
        2 => byte_value(number),
        3 => int16_value(number),
        4 => int32_value(number),
        5 => Ok(HeaderValue::Int64(number)),
        6 => Ok(HeaderValue::ByteArray(Bytes::copy_from_slice(alloc, bytes)?)),
        7 => text_value(alloc, bytes),
        8 => Ok(HeaderValue::Timestamp(DateTime::from_millis(number))),
        9 => uuid_value(bytes),
        _ => Err(plain(40)),
    }
}

// A number of 8 bits.
fn byte_value(number: i64) -> Result<HeaderValue, Fault>
    ensures { result ≡ narrowed (option_map IsByte (if_fits w8 number)) }
{
    match i8::try_from(number) {
        Ok(number) => Ok(HeaderValue::Byte(number)),
        Err(_) => Err(plain(41)),
    }
}

// A number of 16 bits.
fn int16_value(number: i64) -> Result<HeaderValue, Fault>
    ensures { result ≡ narrowed (option_map IsInt16 (if_fits w16 number)) }
{
    match i16::try_from(number) {
        Ok(number) => Ok(HeaderValue::Int16(number)),
        Err(_) => Err(plain(41)),
    }
}

// A number of 32 bits.
fn int32_value(number: i64) -> Result<HeaderValue, Fault>
    ensures { result ≡ narrowed (option_map IsInt32 (if_fits w32 number)) }
{
    match i32::try_from(number) {
        Ok(number) => Ok(HeaderValue::Int32(number)),
        Err(_) => Err(plain(41)),
    }
}

// A UTF-8 text.
fn text_value(alloc: Global, bytes: &[u8]) -> Result<HeaderValue, Fault>
    ensures { GivesLentValue (lent_text bytes.now) result }
{
    let text = text_of(bytes)?;
    Ok(HeaderValue::String(StrBytes::copy_from_str(alloc, text)?))
}

// The bits of a UUID, the highest first.
#[tactic(auto, unfolding(eventstream::specs::Read::big_endian))]
fn uuid_value(bytes: &[u8]) -> Result<HeaderValue, Fault>
    ensures { result ≡ lent_uuid bytes.now }
{
    if bytes.len() != 16 {
        return Err(plain(42));
    }
    match bytes.split_first_chunk::<16>() {
        Some((bits, _)) => Ok(HeaderValue::Uuid(u128::from_be_bytes(*bits))),
        None => Err(plain(42)),
    }
}
