//! What events are as messages.
use crate::parts::text_header;
use crate::sending::errors::error_of;
use bytes::Bytes;
use event_io::{EventOrInitial, EventOrInitialMarshaller};
use eventstream::{Error, IdentityMarshaller, MarshallMessage};
use smithy_core::{Mem, Message};
use std::alloc::Global;
use tool_case_lines::{halves, with_repeats};

/// Makes messages of the words that tell them.
#[derive(Clone, Copy)]
pub struct Telling {
    alloc: Global,
}

impl Telling {
    pub fn new(alloc: Global) -> Telling {
        Telling { alloc }
    }
}

impl MarshallMessage for Telling {
    type Input = String;

    fn marshall(&self, input: String) -> Result<Message, Error> {
        message_of(self.alloc, input.as_str())
    }
}

/// The message or the refusal that a word tells.
pub fn message_of(alloc: Global, word: &str) -> Result<Message, Error> {
    let (kind, text) = halves(word);
    match kind {
        "refused" => Err(error_of(alloc, text)?),
        "text" => Ok(with_payload(alloc, text)?),
        "initial" => Ok(initial_response(alloc)?),
        _ => Ok(with_long_header(alloc, kind, text)?),
    }
}

fn with_payload(alloc: Global, text: &str) -> Mem<Message> {
    let payload = Bytes::copy_from_slice(alloc, text.as_bytes())?;
    Ok(Message::new(alloc, payload))
}

// The message of a header with a text as its value, or else as its name.
fn with_long_header(alloc: Global, kind: &str, text: &str) -> Mem<Message> {
    let text = with_repeats(alloc, text)?;
    match kind {
        "value" => with_header(alloc, "h", text.as_str()),
        _ => with_header(alloc, text.as_str(), "v"),
    }
}

fn with_header(alloc: Global, name: &str, value: &str) -> Mem<Message> {
    let message = Message::new(alloc, Bytes::from_static(b""));
    message.add_header(text_header(alloc, name, value)?)
}

// The message that begins a response.
fn initial_response(alloc: Global) -> Mem<Message> {
    let message = with_header(alloc, ":message-type", "event")?;
    message.add_header(text_header(alloc, ":event-type", "initial-response")?)
}

/// What the marshaller of a name, or a copy of it, makes of a word.
pub fn marshalled(alloc: Global, name: &str, word: &str) -> Result<Message, Error> {
    match name {
        "Identity" => IdentityMarshaller.marshall(message_of(alloc, word)?),
        _ => {
            let marshaller = EventOrInitialMarshaller::new(Telling::new(alloc)).try_clone()?;
            marshaller.marshall(event_or_initial(alloc, word)?.try_clone()?)
        }
    }
}

/// The initial message, or the event of a word.
pub fn event_or_initial(alloc: Global, word: &str) -> Mem<EventOrInitial<String>> {
    Ok(match word {
        "initial" => EventOrInitial::InitialMessage(initial_response(alloc)?),
        word => EventOrInitial::Event(String::from_str(alloc, word)?),
    })
}
