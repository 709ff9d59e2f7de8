//! The head of a request as it goes over the wire.
ghost use Rattle.std.specs.Prelude.{◌≡◌, ◌==◌, [], ◌++◌, IfOk, OnOk, option_copied};
ghost use Rattle.std.specs.List.{before_first, flat_map};
ghost use Rattle.std.specs.String.{string_bytes};
ghost use Rattle.awsign_text.specs.Head.{target_host_line, behind_authority, field_line, from_path, wire_head, number_sign, origin_form, start_line, wire_line, with_path};

use smithy_core::{Headers, HttpRequest, Mem, push_line};
use std::alloc::Global;

/// The head of the request as it goes over the wire. The host of its target has a line, where no header gives it; the body's length has
/// one only where a header gives that.
#[tactic(auto, unfolding(crate::specs::Head::wire_head))]
pub(crate) fn head_of(alloc: Global, request: &HttpRequest, host: Option<&str>) -> Mem<Vec<u8>>
    ensures { IfOk result (λ text. text.items
        ≡ wire_head (string_bytes request.now.method) (string_bytes request.now.target) request.now.headers (option_copied host.entry)) }
{
    let mut text = Vec::new(alloc);
    push_start_line(&mut text, request.method.as_str(), request.target.as_str())?;
    push_host(&mut text, &request.headers, host)?;
    push_fields(&mut text, &request.headers)?;
    push_wire_line(&mut text, b"")?;
    Ok(text)
}

#[tactic(auto, unfolding(crate::specs::Head::origin_form, crate::specs::Head::start_line))]
fn push_start_line(text: &mut Vec<u8>, method: &str, target: &str) -> Mem<()>
    ensures { OnOk result (text.new.items ≡ text.old.items ++ start_line method.now target.now) }
{
    text.extend_from_slice(method.as_bytes())?;
    text.extend_from_slice(b" ")?;
    push_path(text, behind_authority(before_fragment(target).as_bytes()))?;
    push_wire_line(text, b" HTTP/1.1")
}

// A target without its fragment.
fn before_fragment(target: &str) -> &str
    ensures { result.now ≡ before_first (λ byte. byte == number_sign) target.now }
{
    match target.split_once('#') {
        Some((front, _)) => front,
        None => target,
    }
}

// A target behind its scheme and its authority.
#[tactic(auto, unfolding(crate::specs::Head::behind_authority))]
fn behind_authority(target: &[u8]) -> &[u8]
    ensures { result.now ≡ behind_authority target.now }
{
    if target.first() == Some(&b'/') {
        return target;
    }
    match from_path(target) {
        [b'/', b'/', text @ ..] => from_path(text),
        _ => target,
    }
}

// A text from its first slash or question mark on.
fn from_path(text: &[u8]) -> &[u8]
    ensures { result.now ≡ from_path text.now }
{
    let mut rest = text;
    while let [byte, others @ ..] = rest {
        if *byte == b'/' || *byte == b'?' {
            return rest;
        }
        rest = others;
    }
    rest
}

// Appends a path and a query, with a slash for an empty path.
fn push_path(text: &mut Vec<u8>, path: &[u8]) -> Mem<()>
    ensures { OnOk result (text.new.items ≡ text.old.items ++ with_path path.now) }
{
    if let [] | [b'?', ..] = path {
        text.extend_from_slice(b"/")?;
    }
    text.extend_from_slice(path)?;
    Ok(())
}

fn push_host(text: &mut Vec<u8>, headers: &Headers, host: Option<&str>) -> Mem<()>
    ensures { OnOk result (text.new.items ≡ text.old.items ++ target_host_line headers.now (option_copied host.entry)) }
{
    if headers.get("host").is_some() {
        return Ok(());
    }
    match host {
        Some(host) => push_field(text, "host", host),
        None => Ok(()),
    }
}

fn push_fields(text: &mut Vec<u8>, headers: &Headers) -> Mem<()>
    ensures { OnOk result (text.new.items ≡ text.old.items ++ flat_map field_line headers.now) }
{
    for (name, value) in headers.iter() {
        push_field(text, name, value)?;
    }
    Ok(())
}

fn push_field(text: &mut Vec<u8>, name: &str, value: &str) -> Mem<()>
    ensures { OnOk result (text.new.items ≡ text.old.items ++ field_line (name.now, value.now)) }
{
    text.extend_from_slice(name.as_bytes())?;
    text.extend_from_slice(b": ")?;
    push_wire_line(text, value.as_bytes())
}

// Appends what is left of a line, with its end.
fn push_wire_line(text: &mut Vec<u8>, rest: &[u8]) -> Mem<()>
    ensures { OnOk result (text.new.items ≡ text.old.items ++ wire_line rest.now) }
{
    text.extend_from_slice(rest)?;
    push_line(text, b"\r")
}
