//! What messages are as events.
use eventstream::{Error, UnmarshallMessage, UnmarshalledMessage};
use smithy_core::{Mem, Message};
use std::alloc::Global;
use tool_case_lines::halves;

/// Takes the payloads of messages as texts: as events, but for those that are the service's errors and those that are refused.
#[derive(Drop)]
pub struct Texts {
    alloc: Global,
    errors: Vec<String>,
    refused: Vec<String>,
}

impl Texts {
    /// The texts of `error TEXT` are errors of the service, and those of `refuse TEXT` are refused.
    pub fn of(alloc: Global, words: &[&str]) -> Mem<Texts> {
        Ok(Texts {
            alloc,
            errors: texts_of(alloc, words, "error")?,
            refused: texts_of(alloc, words, "refuse")?,
        })
    }
}

impl UnmarshallMessage for Texts {
    type Output = String;

    type Error = String;

    fn unmarshall(&self, message: &Message) -> Result<UnmarshalledMessage<String, String>, Error> {
        let text = text_of(self.alloc, message)?;
        if holds(&self.refused, text.as_str()) {
            return Err(Error::unmarshalling(text));
        }
        if holds(&self.errors, text.as_str()) {
            return Ok(UnmarshalledMessage::Error(text));
        }
        Ok(UnmarshalledMessage::Event(text))
    }
}

/// Takes the payloads of messages as their hexadecimal digits.
#[derive(Clone, Copy)]
pub struct Payloads {
    alloc: Global,
}

impl Payloads {
    pub fn new(alloc: Global) -> Payloads {
        Payloads { alloc }
    }
}

impl UnmarshallMessage for Payloads {
    type Output = String;

    type Error = String;

    fn unmarshall(&self, message: &Message) -> Result<UnmarshalledMessage<String, String>, Error> {
        let digits = hex::encode(self.alloc, message.payload().as_slice())?;
        Ok(UnmarshalledMessage::Event(digits))
    }
}

fn texts_of(alloc: Global, words: &[&str], key: &str) -> Mem<Vec<String>> {
    let mut texts = Vec::new(alloc);
    for word in words {
        let (first, rest) = halves(word);
        if first == key {
            texts.push(String::from_str(alloc, rest)?)?;
        }
    }
    Ok(texts)
}

fn text_of(alloc: Global, message: &Message) -> Mem<String> {
    String::from_utf8_lossy(alloc, message.payload().as_slice())
}

fn holds(texts: &[String], text: &str) -> bool {
    texts.iter().any(|known| known.as_str() == text)
}
