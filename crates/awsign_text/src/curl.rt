//! A request as a config of curl.
ghost use Rattle.std.specs.Prelude.{◌≡◌, [], ◌∷◌, ◌++◌, map, IfOk, OnOk, option_copied};
ghost use Rattle.std.specs.List.{flat_map};
ghost use Rattle.std.specs.String.{string_bytes};
ghost use Rattle.awsign_text.specs.Curl.{body_settings, curl_config_text, escape, file_settings, flag, header_setting, is_blank_value, is_uploaded, method_setting, names_remote_file, no_content_type, quoted, request_settings, sent_settings, setting_line, valued};

use smithy_core::{Headers, HttpRequest, Mem, push_line};
use std::alloc::Global;

/// A config of curl (curl(1), `--config`) that sends the request, with the file at a path as its body: `curl -K -` reads it.
///
/// A body goes piece by piece where the method is `PUT` and the target names a file; curl takes any other body into memory first.
pub fn curl_config(alloc: Global, request: &HttpRequest, file: Option<&str>) -> Mem<Vec<u8>>
    ensures { IfOk result (λ text. text.items
        ≡ curl_config_text (request_settings (string_bytes request.now.method) (string_bytes request.now.target) request.now.headers (option_copied file.entry))) }
{
    let mut text = Vec::new(alloc);
    push_flag(&mut text, "path-as-is")?;
    push_flag(&mut text, "globoff")?;
    push_method(&mut text, request.method.as_str())?;
    push_setting(&mut text, "url", "", request.target.as_str())?;
    push_headers(&mut text, &request.headers)?;
    push_file(&mut text, request, file)?;
    Ok(text)
}

fn push_method(text: &mut Vec<u8>, method: &str) -> Mem<()>
    ensures { OnOk result (text.new.items ≡ text.old.items ++ setting_line (method_setting method.now)) }
{
    match method {
        "HEAD" => push_flag(text, "head"),
        _ => push_setting(text, "request", "", method),
    }
}

fn push_headers(text: &mut Vec<u8>, headers: &Headers) -> Mem<()>
    ensures { OnOk result (text.new.items ≡ text.old.items ++ curl_config_text (map header_setting headers.now)) }
{
    for (name, value) in headers.iter() {
        push_header(text, name, value)?;
    }
    Ok(())
}

#[tactic(auto, unfolding(crate::specs::Curl::quoted, crate::specs::Curl::setting_line))]
fn push_header(text: &mut Vec<u8>, name: &str, value: &str) -> Mem<()>
    ensures { OnOk result (text.new.items ≡ text.old.items ++ setting_line (header_setting (name.now, value.now))) }
{
    push_name(text, "header")?;
    push_escaped(text, name.as_bytes())?;
    if is_blank_value(value) {
        push_escaped(text, b";")?;
    } else {
        push_escaped(text, b": ")?;
        push_escaped(text, value.as_bytes())?;
    }
    push_line(text, b"\"")
}

// Whether a value has spaces and tabs alone.
fn is_blank_value(value: &str) -> bool
    ensures { result ≡ is_blank_value value.now }
{
    value
        .as_bytes()
        .iter()
        .all(|byte| *byte == b' ' || *byte == b'\t')
}

fn push_file(text: &mut Vec<u8>, request: &HttpRequest, file: Option<&str>) -> Mem<()>
    ensures { OnOk result (text.new.items ≡ text.old.items
        ++ curl_config_text (file_settings (string_bytes request.now.method) (string_bytes request.now.target) request.now.headers (option_copied file.entry))) }
{
    match file {
        Some(path) => push_body(text, request, path),
        None => Ok(()),
    }
}

fn push_body(text: &mut Vec<u8>, request: &HttpRequest, path: &str) -> Mem<()>
    ensures { OnOk result (text.new.items ≡ text.old.items
        ++ curl_config_text (body_settings (string_bytes request.now.method) (string_bytes request.now.target) request.now.headers path.now)) }
{
    if is_uploaded(request.method.as_str(), request.target.as_str()) {
        push_setting(text, "upload-file", "", path)
    } else {
        push_sent(text, &request.headers, path)
    }
}

// Appends the options of a body that curl takes into memory.
#[tactic(auto, using(crate::proofs::CurlLemmas::sent_line))]
fn push_sent(text: &mut Vec<u8>, headers: &Headers, path: &str) -> Mem<()>
    ensures { OnOk result (text.new.items ≡ text.old.items ++ curl_config_text (sent_settings headers.now path.now)) }
{
    push_no_content_type(text, headers)?;
    push_setting(text, "data-binary", "@", path)
}

#[tactic(auto, unfolding(crate::specs::Curl::no_content_type))]
fn push_no_content_type(text: &mut Vec<u8>, headers: &Headers) -> Mem<()>
    ensures { OnOk result (text.new.items ≡ text.old.items ++ curl_config_text (no_content_type headers.now)) }
{
    if headers.get("content-type").is_some() {
        Ok(())
    } else {
        push_setting(text, "header", "", "content-type:")
    }
}

// Whether curl reads the body piece by piece.
#[tactic(auto, unfolding(crate::specs::Curl::is_uploaded))]
fn is_uploaded(method: &str, target: &str) -> bool
    ensures { result ≡ is_uploaded method.now target.now }
{
    method == "PUT" && names_remote_file(target.as_bytes())
}

// Whether a target has a path that doesn't end in a slash.
#[tactic(auto, unfolding(crate::specs::Curl::names_remote_file))]
fn names_remote_file(target: &[u8]) -> bool
    ensures { result ≡ names_remote_file target.now }
{
    let slashes = target.iter().filter(|byte| **byte == b'/').count();
    slashes > 2 && target.last() != Some(&b'/')
}

// Appends the line of an option alone.
#[tactic(auto, unfolding(crate::specs::Curl::setting_line))]
fn push_flag(text: &mut Vec<u8>, name: &str) -> Mem<()>
    ensures { OnOk result (text.new.items ≡ text.old.items ++ setting_line (flag name.now)) }
{
    push_line(text, name.as_bytes())
}

// Appends the line of an option whose value is a text behind a lead.
#[tactic(auto, unfolding(crate::specs::Curl::quoted, crate::specs::Curl::setting_line))]
fn push_setting(text: &mut Vec<u8>, name: &str, lead: &str, value: &str) -> Mem<()>
    ensures { OnOk result (text.new.items ≡ text.old.items ++ setting_line (valued name.now (lead.now ++ value.now))) }
{
    push_name(text, name)?;
    push_escaped(text, lead.as_bytes())?;
    push_escaped(text, value.as_bytes())?;
    push_line(text, b"\"")
}

// Appends the name of an option, up to its value.
fn push_name(text: &mut Vec<u8>, name: &str) -> Mem<()>
    ensures { OnOk result (text.new.items ≡ text.old.items ++ (name.now ++ (32 ∷ 61 ∷ 32 ∷ 34 ∷ []))) }
{
    text.extend_from_slice(name.as_bytes())?;
    text.extend_from_slice(b" = \"")?;
    Ok(())
}

/// Appends a value in quotes, its quotes, backslashes and control characters behind backslashes.
#[tactic(auto, unfolding(crate::specs::Curl::quoted))]
pub fn push_quoted(text: &mut Vec<u8>, value: &str) -> Mem<()>
    ensures { OnOk result (text.new.items ≡ text.old.items ++ quoted value.now) }
{
    text.push(b'"')?;
    push_escaped(text, value.as_bytes())?;
    text.push(b'"')?;
    Ok(())
}

fn push_escaped(text: &mut Vec<u8>, bytes: &[u8]) -> Mem<()>
    ensures { OnOk result (text.new.items ≡ text.old.items ++ flat_map escape bytes.now) }
{
    for byte in bytes {
        push_escape(text, *byte)?;
    }
    Ok(())
}

#[tactic(auto, unfolding(crate::specs::Curl::escape))]
fn push_escape(text: &mut Vec<u8>, byte: u8) -> Mem<()>
    ensures { OnOk result (text.new.items ≡ text.old.items ++ escape byte) }
{
    let letter = match byte {
        b'"' | b'\\' => byte,
        b'\t' => b't',
        b'\n' => b'n',
        b'\r' => b'r',
        _ => return Ok(text.push(byte)?),
    };
    text.push(b'\\')?;
    text.push(letter)?;
    Ok(())
}
