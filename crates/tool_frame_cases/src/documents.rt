use crate::shown::{copy_debugged, debugged, push};
use crate::words::{parted, word, words_from};
use smithy_core::{Document, Mem};
use std::alloc::Global;
use tool_case_lines::halves;

pub fn answer(alloc: Global, call: &str, words: &[&str]) -> Mem<String> {
    let (front, last) = parted(words);
    match call {
        "get" => values(alloc, object_of(alloc, front)?, last),
        "get_of_array" => values(alloc, array_of(alloc, front)?, last),
        _ => copied(
            alloc,
            word(words, 0),
            array_of(alloc, words_from(words, 1))?,
        ),
    }
}

// The values of the names between spaces.
fn values(alloc: Global, document: Document, keys: &str) -> Mem<String> {
    let mut answers = String::new(alloc);
    for key in keys.split(' ') {
        push(&mut answers, debugged(alloc, &document.get(key)))?;
    }
    Ok(answers)
}

// A copy of an object with one member.
fn copied(alloc: Global, name: &str, value: Document) -> Mem<String> {
    let mut members = Vec::new(alloc);
    push_member(&mut members, name, value)?;
    copy_debugged(alloc, Document::Object(members).try_clone())
}

fn push_member(members: &mut Vec<(String, Document)>, name: &str, value: Document) -> Mem<()> {
    let name = String::from_str(*members.allocator(), name)?;
    Ok(members.push((name, value))?)
}

// Each word is a name and its value.
fn object_of(alloc: Global, words: &[&str]) -> Mem<Document> {
    let mut members = Vec::new(alloc);
    for word in words {
        let (name, value) = halves(word);
        push_member(&mut members, name, document_of(alloc, value)?)?;
    }
    Ok(Document::Object(members))
}

fn array_of(alloc: Global, words: &[&str]) -> Mem<Document> {
    let mut items = Vec::new(alloc);
    for word in words {
        items.push(document_of(alloc, word)?)?;
    }
    Ok(Document::Array(items))
}

fn document_of(alloc: Global, word: &str) -> Mem<Document> {
    match word {
        "null" => Ok(Document::Null),
        "true" => Ok(Document::Bool(true)),
        "false" => Ok(Document::Bool(false)),
        text => Ok(Document::String(String::from_str(alloc, text)?)),
    }
}
