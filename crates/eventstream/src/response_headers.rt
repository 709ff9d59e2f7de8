ghost use Rattle.std.specs.Prelude.{◌≡◌, option_copied};
ghost use Rattle.eventstream.specs.ResponseHeaders.{last_named, optional_text, required_text, response_in, response_of, smithy_type_of, text_named};
ghost use Rattle.eventstream.specs.Texts.{Answers};

use crate::error::Error;
use crate::texts::{missing_text, no_text, refusal, unrecognized_text};
use smithy_core::{Header, HeaderValue, Message, StrBytes};
use std::alloc::Global;

/// The headers by which a response says what it is.
#[derive(Debug, Drop)]
pub struct ResponseHeaders<'a> {
    /// The media type of the payload, if there is one.
    pub content_type: Option<&'a StrBytes>,
    /// `event` or `exception`.
    pub message_type: &'a StrBytes,
    /// Which event or which exception it is.
    pub smithy_type: &'a StrBytes,
}

impl ResponseHeaders<'_> {
    /// The media type of the payload, if there is one.
    pub fn content_type(&self) -> Option<&str>
        ensures { option_copied result ≡ option_copied self.now.content_type }
    {
        self.content_type.map(StrBytes::as_str)
    }
}

/// The headers of a response. Of equal names the last one counts.
///
/// # Errors
///
/// [`ErrorKind::Unmarshalling`](crate::ErrorKind::Unmarshalling) with the first of these texts: the
/// header `:message-type` is missing or no text; `:content-type` is no text; `:event-type` of an
/// `event` or `:exception-type` of an `exception` is missing or no text, or the message is neither.
#[tactic(auto, unfolding(crate::specs::ResponseHeaders::response_of, crate::specs::ResponseHeaders::required_text, crate::specs::ResponseHeaders::optional_text))]
pub fn parse_response_headers(
    alloc: Global,
    message: &Message,
) -> Result<ResponseHeaders<'_>, Error>
    ensures { Answers response_in (response_of message.now.headers) result }
{
    let headers = message.headers();
    let message_type = required(alloc, ":message-type", headers)?;
    let content_type = optional(alloc, ":content-type", headers)?;
    let smithy_type = smithy_type(alloc, message_type.as_str(), headers)?;
    Ok(ResponseHeaders {
        content_type,
        message_type,
        smithy_type,
    })
}

// The type of an event or of an exception.
#[tactic(auto, unfolding(crate::specs::ResponseHeaders::smithy_type_of))]
fn smithy_type<'a>(
    alloc: Global,
    message_type: &str,
    headers: &'a [Header],
) -> Result<&'a StrBytes, Error>
    ensures { Answers (λ text. text.now) (smithy_type_of message_type.now headers.now) result }
{
    match message_type {
        "event" => required(alloc, ":event-type", headers),
        "exception" => required(alloc, ":exception-type", headers),
        _ => Err(refusal(unrecognized_text(alloc, message_type))),
    }
}

// The text of the last header of the name, which has to be there.
#[tactic(auto, unfolding(crate::specs::ResponseHeaders::required_text))]
fn required<'a>(alloc: Global, name: &str, headers: &'a [Header]) -> Result<&'a StrBytes, Error>
    ensures { Answers (λ text. text.now) (required_text name.now headers.now) result }
{
    match last_named(headers, name) {
        Some(value) => text_named(alloc, name, value),
        None => Err(refusal(missing_text(alloc, name))),
    }
}

// The text of the last header of the name, where there is one.
#[tactic(auto, unfolding(crate::specs::ResponseHeaders::optional_text))]
fn optional<'a>(
    alloc: Global,
    name: &str,
    headers: &'a [Header],
) -> Result<Option<&'a StrBytes>, Error>
    ensures { Answers option_copied (optional_text name.now headers.now) result }
{
    match last_named(headers, name) {
        Some(value) => Ok(Some(text_named(alloc, name, value)?)),
        None => Ok(None),
    }
}

// The text of the value of a header.
fn text_named<'a>(alloc: Global, name: &str, value: &'a HeaderValue) -> Result<&'a StrBytes, Error>
    ensures { Answers (λ text. text.now) (text_named name.now value.now) result }
{
    match value.as_string() {
        Ok(text) => Ok(text),
        Err(value) => Err(refusal(no_text(alloc, name, value))),
    }
}

// The value of the last header of the name.
fn last_named<'a>(headers: &'a [Header], name: &str) -> Option<&'a HeaderValue>
    ensures { option_copied result ≡ last_named name.now headers.now }
{
    headers
        .iter()
        .rev()
        .find(|header| header.name().as_str() == name)
        .map(Header::value)
}
