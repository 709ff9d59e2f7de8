//! The forms in which a signed request is printed.
ghost use Rattle.std.specs.Prelude.{◌≡◌, ◌++◌, codes, IfOk, OnOk, option_copied};
ghost use Rattle.std.specs.List.{flat_map};
ghost use Rattle.std.specs.String.{string_bytes};
ghost use Rattle.smithy_core.specs.Text.{line};
ghost use Rattle.awsign_text.specs.Curl.{quoted};
ghost use Rattle.awsign_text.specs.Forms.{plain_header_line, json_header, json_headers, json_text, text_in_form};

use crate::curl::{curl_config, push_quoted};
use crate::head::head_of;
use smithy_core::{Headers, HttpRequest, Mem, push_line};
use std::alloc::Global;

/// A form in which a signed request is printed.
#[derive(Clone, Copy, Debug, PartialEq, Eq)]
pub enum Form {
    /// A config that curl reads by `curl -K -`: method, target, every header, and the body's file.
    Curl,
    /// Every header, as a line `name: value`.
    Headers,
    /// An object with `method`, `url` and `headers`, a list of pairs.
    Json,
    /// The head as it goes over the wire: a host that no header gives goes before the others.
    Http,
    /// The target alone.
    Url,
}

/// A request in a form; the host is that of its target, and the body is the file at a path.
pub fn text_of(
    alloc: Global,
    form: Form,
    request: &HttpRequest,
    host: Option<&str>,
    file: Option<&str>,
) -> Mem<Vec<u8>>
    ensures { IfOk result (λ text. text.items
        ≡ text_in_form form (string_bytes request.now.method) (string_bytes request.now.target) request.now.headers (option_copied host.entry) (option_copied file.entry)) }
{
    match form {
        Form::Curl => curl_config(alloc, request, file),
        Form::Headers => header_lines(alloc, &request.headers),
        Form::Json => json_of(alloc, request),
        Form::Http => head_of(alloc, request, host),
        Form::Url => line_of(alloc, request.target.as_str()),
    }
}

fn line_of(alloc: Global, text: &str) -> Mem<Vec<u8>>
    ensures { IfOk result (λ made. made.items ≡ line text.now) }
{
    let mut made = Vec::new(alloc);
    push_line(&mut made, text.as_bytes())?;
    Ok(made)
}

fn header_lines(alloc: Global, headers: &Headers) -> Mem<Vec<u8>>
    ensures { IfOk result (λ text. text.items ≡ flat_map plain_header_line headers.now) }
{
    let mut text = Vec::new(alloc);
    for (name, value) in headers.iter() {
        push_header_line(&mut text, name, value)?;
    }
    Ok(text)
}

fn push_header_line(text: &mut Vec<u8>, name: &str, value: &str) -> Mem<()>
    ensures { OnOk result (text.new.items ≡ text.old.items ++ plain_header_line (name.now, value.now)) }
{
    text.extend_from_slice(name.as_bytes())?;
    text.extend_from_slice(b": ")?;
    push_line(text, value.as_bytes())
}

#[tactic(auto, unfolding(crate::specs::Forms::json_text))]
fn json_of(alloc: Global, request: &HttpRequest) -> Mem<Vec<u8>>
    ensures { IfOk result (λ text. text.items ≡ json_text (string_bytes request.now.method) (string_bytes request.now.target) request.now.headers) }
{
    let mut text = Vec::new(alloc);
    push_member(&mut text, b"{", "method")?;
    push_quoted(&mut text, request.method.as_str())?;
    push_member(&mut text, b",", "url")?;
    push_quoted(&mut text, request.target.as_str())?;
    push_member(&mut text, b",", "headers")?;
    text.extend_from_slice(b"[")?;
    push_json_headers(&mut text, &request.headers)?;
    push_line(&mut text, b"]}")?;
    Ok(text)
}

// Appends the name of a member behind a lead, up to its value.
fn push_member(text: &mut Vec<u8>, lead: &[u8], name: &str) -> Mem<()>
    ensures { OnOk result (text.new.items ≡ text.old.items ++ (lead.now ++ (quoted name.now ++ codes ":"))) }
{
    text.extend_from_slice(lead)?;
    push_quoted(text, name)?;
    text.extend_from_slice(b":")?;
    Ok(())
}

fn push_json_headers(text: &mut Vec<u8>, headers: &Headers) -> Mem<()>
    ensures { OnOk result (text.new.items ≡ text.old.items ++ json_headers headers.now) }
{
    let mut lead: &[u8] = b"";
    for (name, value) in headers.iter() {
        push_json_header(text, lead, name, value)?;
        lead = b",";
    }
    Ok(())
}

#[tactic(auto, unfolding(crate::specs::Forms::json_header))]
fn push_json_header(text: &mut Vec<u8>, lead: &[u8], name: &str, value: &str) -> Mem<()>
    ensures { OnOk result (text.new.items ≡ text.old.items ++ (lead.now ++ json_header (name.now, value.now))) }
{
    text.extend_from_slice(lead)?;
    text.extend_from_slice(b"[")?;
    push_quoted(text, name)?;
    text.extend_from_slice(b",")?;
    push_quoted(text, value)?;
    text.extend_from_slice(b"]")?;
    Ok(())
}
