use percent_encoding::{CONTROLS, utf8_percent_encode};
use smithy_core::{Env, Mem};
use std::alloc::Global;
use std::fmt::{Debug, Display};
use tool_case_lines::unknown;

// The word at a place, and an empty text where there is none.
pub fn word<'a>(words: &[&'a str], place: usize) -> &'a str {
    match words.get(place) {
        Some(word) => word,
        None => "",
    }
}

// The words from a place on.
pub fn rest<'w, 'a>(words: &'w [&'a str], place: usize) -> &'w [&'a str] {
    if place < words.len() {
        &words[place..]
    } else {
        &[]
    }
}

pub fn text(alloc: Global, text: &str) -> Mem<String> {
    String::from_str(alloc, text)
}

// What a word gives, `-` for nothing.
pub fn given<'a>(word: &'a str) -> Option<&'a str> {
    if word == "-" { None } else { Some(word) }
}

// The text that a word gives.
pub fn given_text(alloc: Global, word: &str) -> Mem<Option<String>> {
    match given(word) {
        Some(word) => Ok(Some(text(alloc, word)?)),
        None => Ok(None),
    }
}

// Appends the text, its controls and what is past ASCII as `%XX`.
pub fn push_visible(out: &mut String, text: &str) -> Mem<()> {
    utf8_percent_encode(text, CONTROLS).append_to(out)
}

// The variables `NAME=VALUE`, with blanks between.
pub fn env_of(alloc: Global, variables: &str) -> Mem<Env> {
    let mut env = Env::new(alloc);
    for variable in variables.split(' ') {
        if let Some((name, value)) = variable.split_once('=') {
            env.set(name, value)?;
        }
    }
    Ok(env)
}

// What `Debug` shows of a value.
pub fn debugged<T: Debug + Drop>(alloc: Global, value: Mem<T>) -> Mem<String> {
    let value = value?;
    format!(in alloc; "{value:?}")
}

// What a value prints.
pub fn printed<T: Display + Drop>(alloc: Global, value: Mem<T>) -> Mem<String> {
    let text = value?.to_string(alloc)?;
    let mut out = String::new(alloc);
    push_visible(&mut out, text.as_str())?;
    Ok(out)
}

// The one that `Debug` shows by this name.
pub fn named<T: Debug + Copy>(alloc: Global, all: &[T], name: &str) -> Mem<Option<T>> {
    for one in all {
        if debugged(alloc, Ok(*one))?.as_str() == name {
            return Ok(Some(*one));
        }
    }
    Ok(None)
}

// What the one of these prints that `Debug` shows by this name.
pub fn printed_of<T: Debug + Display + Copy>(alloc: Global, all: &[T], name: &str) -> Mem<String> {
    match named(alloc, all, name)? {
        Some(one) => printed(alloc, Ok(one)),
        None => unknown(alloc),
    }
}
