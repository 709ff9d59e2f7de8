//! Messages in JSON.
ghost use Rattle.std.specs.Prelude.{◌≡◌, ◌++◌, ◌∷◌, [], OnOk, codes};
ghost use Rattle.hex.specs.Hex.{encode_lower};
ghost use Rattle.std.specs.List.{flat_map};
ghost use Rattle.awsign_events.specs.EventText.{json_byte, json_message, json_payload, json_string, json_triple, json_triples};

use crate::lines::{kind_word, spelled_value};
use smithy_core::{Header, Mem, Message};
use std::alloc::Global;

/// Appends a message in JSON, as an object on a line.
#[tactic(auto, unfolding(crate::specs::EventText::json_message))]
pub(crate) fn push_json(alloc: Global, text: &mut Vec<u8>, message: &Message) -> Mem<()>
    ensures { OnOk result (text.new.items ≡ text.old.items ++ json_message message.now) }
{
    text.extend_from_slice(b"{\"headers\":[")?;
    push_triples(alloc, text, message.headers())?;
    push_payload(alloc, text, message.payload().as_slice())?;
    Ok(())
}

#[tactic(auto, unfolding(crate::specs::EventText::json_payload))]
fn push_payload(alloc: Global, text: &mut Vec<u8>, payload: &[u8]) -> Mem<()>
    ensures { OnOk result (text.new.items ≡ text.old.items ++ json_payload payload.now) }
{
    let digits = hex::encode(alloc, payload)?;
    push_member(alloc, text, b"],\"payload\":", digits.as_str())?;
    text.extend_from_slice(b"}\n")?;
    Ok(())
}

fn push_triples(alloc: Global, text: &mut Vec<u8>, headers: &[Header]) -> Mem<()>
    ensures { OnOk result (text.new.items ≡ text.old.items ++ json_triples headers.now) }
{
    let mut lead: &[u8] = b"";
    for header in headers {
        push_triple(alloc, text, lead, header)?;
        lead = b",";
    }
    Ok(())
}

fn push_triple(alloc: Global, text: &mut Vec<u8>, lead: &[u8], header: &Header) -> Mem<()>
    ensures { OnOk result (text.new.items ≡ text.old.items ++ (lead.now ++ json_triple header.now)) }
{
    text.extend_from_slice(lead)?;
    push_list(alloc, text, header)
}

#[tactic(auto, unfolding(crate::specs::EventText::json_triple))]
fn push_list(alloc: Global, text: &mut Vec<u8>, header: &Header) -> Mem<()>
    ensures { OnOk result (text.new.items ≡ text.old.items ++ json_triple header.now) }
{
    push_member(alloc, text, b"[", header.name().as_str())?;
    push_member(alloc, text, b",", kind_word(header.value()))?;
    let value = spelled_value(alloc, header.value())?;
    push_member(alloc, text, b",", value.as_str())?;
    text.extend_from_slice(b"]")?;
    Ok(())
}

// Appends a string behind a lead.
fn push_member(alloc: Global, text: &mut Vec<u8>, lead: &[u8], content: &str) -> Mem<()>
    ensures { OnOk result (text.new.items ≡ text.old.items ++ (lead.now ++ json_string content.now)) }
{
    text.extend_from_slice(lead)?;
    push_string(alloc, text, content)
}

#[tactic(auto, unfolding(crate::specs::EventText::json_string))]
fn push_string(alloc: Global, text: &mut Vec<u8>, content: &str) -> Mem<()>
    ensures { OnOk result (text.new.items ≡ text.old.items ++ json_string content.now) }
{
    text.extend_from_slice(b"\"")?;
    push_bytes(alloc, text, content.as_bytes())?;
    text.extend_from_slice(b"\"")?;
    Ok(())
}

fn push_bytes(alloc: Global, text: &mut Vec<u8>, bytes: &[u8]) -> Mem<()>
    ensures { OnOk result (text.new.items ≡ text.old.items ++ flat_map json_byte bytes.now) }
{
    for byte in bytes {
        push_byte(alloc, text, *byte)?;
    }
    Ok(())
}

#[tactic(auto, unfolding(crate::specs::EventText::json_byte))]
fn push_byte(alloc: Global, text: &mut Vec<u8>, byte: u8) -> Mem<()>
    ensures { OnOk result (text.new.items ≡ text.old.items ++ json_byte byte) }
{
    match byte {
        b'"' => text.extend_from_slice(b"\\\"")?,
        b'\\' => text.extend_from_slice(b"\\\\")?,
        0..=31 => push_control(alloc, text, byte)?,
        _ => text.push(byte)?,
    }
    Ok(())
}

fn push_control(alloc: Global, text: &mut Vec<u8>, byte: u8) -> Mem<()>
    ensures { OnOk result (text.new.items ≡ text.old.items ++ (codes "\\u00" ++ encode_lower (byte ∷ []))) }
{
    let digits = hex::encode(alloc, [byte].as_slice())?;
    text.extend_from_slice(b"\\u00")?;
    text.extend_from_slice(digits.as_bytes())?;
    Ok(())
}
