use crate::shown::{Shown, copy_shown, debugged, digits, labelled, quoted};
use crate::words::{
    bytes_of, header_of, message_of, parted, shared, unless_empty, word, words_from,
};
use smithy_core::{
    AppName, Blob, Env, ErrorMetadata, Header, Mem, Message, RawMessage, Region, SigningName,
    StrBytes, is_header_name, is_header_value, is_lower_of, push_line,
};
use std::alloc::Global;
use tool_case_lines::{unknown, with_repeats};

pub fn answer(alloc: Global, call: &str, words: &[&str]) -> Mem<String> {
    let first = word(words, 0);
    match call {
        "is_header_name" => is_name(alloc, first),
        "is_header_value" => is_header_value(first).to_string(alloc),
        "is_lower_of" => is_lower_of(first, word(words, 1)).to_string(alloc),
        "push_line" => pushed(alloc, first, words_from(words, 1)),
        "push_lines" => pushed(alloc, "", words),
        "static_text" => StrBytes::from_static("text").to_string(alloc),
        "text_of_bytes" => text_of_bytes(alloc, first),
        "variable" => variable(alloc, words),
        "shown_variables" => shown_variables(alloc, variables_of(alloc, words)?),
        _ => copied(alloc, call, words),
    }
}

// What the copy of a value shows.
fn copied(alloc: Global, call: &str, words: &[&str]) -> Mem<String> {
    match call {
        "copied_header" => copied_header(alloc, header_of(alloc, word(words, 0))?),
        "copied_message" => copied_message(alloc, words),
        "copied_decoded" => copied_raw(alloc, RawMessage::Decoded(message_of(alloc, words)?)),
        "copied_unread" => copied_raw(alloc, RawMessage::Invalid(None)),
        "copied_metadata" => copied_metadata(alloc, word(words, 0), word(words, 1)),
        _ => copied_text(alloc, call, word(words, 0)),
    }
}

// The same of a value that a text or bytes make up; a region and a name of a service show themselves before.
fn copied_text(alloc: Global, call: &str, text: &str) -> Mem<String> {
    match call {
        "copied_blob" => copied_blob(alloc, Blob::new(shared(alloc, text)?)),
        "copied_invalid" => copied_raw(alloc, RawMessage::Invalid(Some(shared(alloc, text)?))),
        "copied_text" => copied_str(alloc, StrBytes::copy_from_str(alloc, text)?),
        "region" => region(alloc, Region::new(String::from_str(alloc, text)?)),
        "signing_name" => signing_name(alloc, SigningName::new(String::from_str(alloc, text)?)),
        "app_name" => app_name(alloc, text),
        _ => unknown(alloc),
    }
}

fn copied_header(alloc: Global, header: Header) -> Mem<String> {
    copy_shown(alloc, header.try_clone())
}

fn copied_str(alloc: Global, text: StrBytes) -> Mem<String> {
    text.try_clone()?.to_string(alloc)
}

fn copied_blob(alloc: Global, blob: Blob) -> Mem<String> {
    let copy = blob.try_clone()?;
    quoted(alloc, copy.as_ref())
}

fn region(alloc: Global, region: Region) -> Mem<String> {
    let copy = region.try_clone()?;
    format!(in alloc; "{} {}", region.as_str(), copy.as_str())
}

fn signing_name(alloc: Global, name: SigningName) -> Mem<String> {
    let copy = name.try_clone()?;
    format!(in alloc; "{} {}", name.as_str(), copy.as_str())
}

fn app_name(alloc: Global, text: &str) -> Mem<String> {
    match AppName::new(String::from_str(alloc, text)?) {
        Ok(name) => String::from_str(alloc, name.try_clone()?.as_str()),
        Err(fault) => debugged(alloc, &fault),
    }
}

fn is_name(alloc: Global, word: &str) -> Mem<String> {
    let name = with_repeats(alloc, word)?;
    is_header_name(name.as_str()).to_string(alloc)
}

fn text_of_bytes(alloc: Global, bytes: &str) -> Mem<String> {
    match StrBytes::try_from_bytes(shared(alloc, bytes)?) {
        Ok(text) => text.to_string(alloc),
        Err(bytes) => labelled(alloc, "refused", digits(alloc, bytes.as_slice())),
    }
}

// A copy of a message to which the headers were added one by one.
fn copied_message(alloc: Global, words: &[&str]) -> Mem<String> {
    let (headers, payload) = parted(words);
    let mut built = Message::new(alloc, shared(alloc, payload)?);
    for header in headers {
        built = with_header(built, header_of(alloc, header))?;
    }
    copy_shown(alloc, built.try_clone())
}

fn with_header(message: Message, header: Mem<Header>) -> Mem<Message> {
    match header {
        Ok(header) => message.add_header(header),
        Err(fault) => Err(fault),
    }
}

fn copied_raw(alloc: Global, raw: RawMessage) -> Mem<String> {
    copy_shown(alloc, raw.try_clone())
}

impl Shown for RawMessage {
    fn shown(&self, alloc: Global) -> Mem<String> {
        match self {
            RawMessage::Decoded(message) => message.shown(alloc),
            RawMessage::Invalid(Some(bytes)) => labelled(alloc, "invalid", bytes.shown(alloc)),
            RawMessage::Invalid(None) => String::from_str(alloc, "invalid"),
        }
    }
}

fn copied_metadata(alloc: Global, code: &str, message: &str) -> Mem<String> {
    let code = unless_empty(alloc, code)?;
    let message = unless_empty(alloc, message)?;
    metadata_copy(alloc, &ErrorMetadata { code, message })
}

fn metadata_copy(alloc: Global, error: &ErrorMetadata) -> Mem<String> {
    let copy = error.try_clone()?;
    format!(in alloc; "{:?}, {:?}", copy.code, copy.message)
}

// The value of a name, which is the last word, in a copy of the variables that were set.
fn variable(alloc: Global, words: &[&str]) -> Mem<String> {
    let (sets, name) = parted(words);
    let env = variables_of(alloc, sets)?.try_clone()?;
    debugged(alloc, &env.get(name))
}

fn shown_variables(alloc: Global, env: Env) -> Mem<String> {
    debugged(alloc, &env)
}

fn variables_of(alloc: Global, sets: &[&str]) -> Mem<Env> {
    let mut env = Env::new(alloc);
    for set in sets {
        let (key, value) = set.split_once('=').unwrap_or((set, ""));
        env.set(key, value)?;
    }
    Ok(env)
}

// The lines, pushed to a buffer of bytes.
fn pushed(alloc: Global, front: &str, lines: &[&str]) -> Mem<String> {
    let mut buffer = bytes_of(alloc, front)?;
    for line in lines {
        push_line(&mut buffer, bytes_of(alloc, line)?.as_slice())?;
    }
    digits(alloc, buffer.as_slice())
}
