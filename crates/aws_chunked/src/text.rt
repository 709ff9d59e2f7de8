ghost use Rattle.std.specs.Prelude.{◌≡◌, ◌++◌, option_copied, option_map, IfOk, OnOk, string_bytes};
ghost use Rattle.std.specs.List.{flat_map};
ghost use Rattle.aws_chunked.specs.Body.{listed};
ghost use Rattle.aws_chunked.specs.Text.{crlf, head_text, last_line, signature_text, tail_text, trailer_line};

use crate::X_AMZ_TRAILER_SIGNATURE;
use bytes::Bytes;
use smithy_core::{Headers, Mem};
use std::alloc::Global;

// The end of a line.
pub(crate) const CRLF: &[u8] = b"\r\n";

/// The line before a chunk of this length.
pub fn head_text(alloc: Global, length: usize, signature: Option<&str>) -> Mem<Vec<u8>>
    ensures { IfOk result (λ text. text.items ≡ head_text length (option_copied signature.entry)) }
{
    let mut text = format!(in alloc; "{length:X}")?.into_bytes();
    push_signature(&mut text, signature)?;
    text.extend_from_slice(CRLF)?;
    Ok(text)
}

// The text, shared.
pub(crate) fn shared(text: Vec<u8>) -> Mem<Bytes>
    ensures { IfOk result (λ bytes. bytes ≡ text.items) }
{
    Ok(Bytes::from_vec(text)?)
}

// The text, where there is one.
pub(crate) fn as_text(text: &Option<String>) -> Option<&str>
    ensures { option_copied result ≡ option_map string_bytes text.now }
{
    match text {
        Some(text) => Some(text.as_str()),
        None => None,
    }
}

// Appends the signature of a chunk, where it has one.
fn push_signature(text: &mut Vec<u8>, signature: Option<&str>) -> Mem<()>
    ensures { OnOk result (text.new.items ≡ text.old.items ++ signature_text (option_copied signature.entry)) }
{
    if let Some(signature) = signature {
        text.extend_from_slice(b";chunk-signature=")?;
        text.extend_from_slice(signature.as_bytes())?;
    }
    Ok(())
}

/// The end of a text: the empty chunk, the trailers and their signature, and an empty line.
#[tactic(auto, unfolding(crate::specs::Text::tail_text))]
pub fn tail_text(
    alloc: Global,
    signature: Option<&str>,
    trailers: Option<&Headers>,
    trailer_signature: Option<&str>,
) -> Mem<Vec<u8>>
    ensures { IfOk result (λ text. text.items ≡ tail_text (option_copied signature.entry) (listed (option_copied trailers.entry)) (option_copied trailer_signature.entry)) }
{
    let mut text = head_text(alloc, 0, signature)?;
    push_last_lines(&mut text, trailers, trailer_signature)?;
    Ok(text)
}

/// What stands behind the empty chunk: the trailers and their signature, and an empty line.
pub fn last_lines(
    alloc: Global,
    trailers: Option<&Headers>,
    signature: Option<&str>,
) -> Mem<Vec<u8>>
    ensures { IfOk result (λ text. text.items ≡ flat_map trailer_line (listed (option_copied trailers.entry)) ++ (last_line (option_copied signature.entry) ++ crlf)) }
{
    let mut text = Vec::new(alloc);
    push_last_lines(&mut text, trailers, signature)?;
    Ok(text)
}

// Appends the trailers and their signature, and an empty line.
fn push_last_lines(
    text: &mut Vec<u8>,
    trailers: Option<&Headers>,
    signature: Option<&str>,
) -> Mem<()>
    ensures { OnOk result (text.new.items
        ≡ text.old.items ++ flat_map trailer_line (listed (option_copied trailers.entry)) ++ last_line (option_copied signature.entry) ++ crlf) }
{
    push_trailers(text, trailers)?;
    push_last(text, signature)?;
    text.extend_from_slice(CRLF)
}

// Appends the lines of the trailers, where some came.
fn push_trailers(text: &mut Vec<u8>, trailers: Option<&Headers>) -> Mem<()>
    ensures { OnOk result (text.new.items ≡ text.old.items ++ flat_map trailer_line (listed (option_copied trailers.entry))) }
{
    match trailers {
        Some(trailers) => push_lines(text, trailers),
        None => Ok(()),
    }
}

// Appends the line of the trailers' signature, where they have one.
fn push_last(text: &mut Vec<u8>, signature: Option<&str>) -> Mem<()>
    ensures { OnOk result (text.new.items ≡ text.old.items ++ last_line (option_copied signature.entry)) }
{
    match signature {
        Some(signature) => push_trailer(text, X_AMZ_TRAILER_SIGNATURE, signature),
        None => Ok(()),
    }
}

// Appends the lines of the trailers.
fn push_lines(text: &mut Vec<u8>, trailers: &Headers) -> Mem<()>
    ensures { OnOk result (text.new.items ≡ text.old.items ++ flat_map trailer_line trailers.now) }
{
    for (name, value) in trailers.iter() {
        push_trailer(text, name, value)?;
    }
    Ok(())
}

// Appends `name:value` as a line.
fn push_trailer(text: &mut Vec<u8>, name: &str, value: &str) -> Mem<()>
    ensures { OnOk result (text.new.items ≡ text.old.items ++ trailer_line (name.now, value.now)) }
{
    text.extend_from_slice(name.as_bytes())?;
    text.extend_from_slice(b":")?;
    text.extend_from_slice(value.as_bytes())?;
    text.extend_from_slice(CRLF)
}
