//! Preprocessors of the first message.
use eventstream::{Error, ErrorKind};
use smithy_core::{Header, HeaderValue, Message, StrBytes};

/// Refuses each message.
pub fn refusing(_message: Message) -> Result<(Message, u8), Error> {
    Err(Error::from(ErrorKind::InvalidHeaderValue))
}

/// Makes each message one that begins a response.
pub fn beginning(message: Message) -> Result<(Message, u8), Error> {
    let name = StrBytes::from_static(":event-type");
    let value = HeaderValue::String(StrBytes::from_static("initial-response"));
    Ok((message.add_header(Header::new(name, value))?, 7))
}

/// Marks each message by a header.
pub fn marking(message: Message) -> Result<(Message, u8), Error> {
    let mark = Header::new(StrBytes::from_static("x"), HeaderValue::Bool(true));
    Ok((message.add_header(mark)?, 7))
}
