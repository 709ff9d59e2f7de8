ghost use Rattle.std.specs.Prelude.{◌≡◌, string_bytes, IfOk, MatchResult};
ghost use Rattle.eventstream.specs.declared.error.ErrorKind.TheVariants.{NoMemory};
ghost use Rattle.eventstream.specs.Texts.{Tells, missing_text, moment_text, no_text, unexpected_text, unrecognized_text, shown_value};

use crate::error::Error;
use smithy_core::{DateTime, HeaderValue, Mem};
use std::alloc::Global;

// The error of this text, or `NoMemory`.
pub(crate) fn refusal(text: Mem<String>) -> Error
    ensures { MatchResult text (λ text. Tells (string_bytes text) result.kind) (λ _. result.kind ≡ NoMemory) }
{
    match text {
        Ok(text) => Error::unmarshalling(text),
        Err(e) => Error::from(e),
    }
}

// The value of a header of this name is of another kind than this one.
#[tactic(auto, unfolding(crate::specs::Texts::unexpected_text))]
pub(crate) fn unexpected_text(alloc: Global, name: &str, kind: &str) -> Mem<String>
    ensures { IfOk result (λ text. string_bytes text ≡ unexpected_text name.now kind.now) }
{
    format!(in alloc; "expected '{name}' header value to be {kind}")
}

// The value of a header of a response is no text.
#[tactic(auto, unfolding(crate::specs::Texts::no_text))]
pub(crate) fn no_text(alloc: Global, name: &str, value: &HeaderValue) -> Mem<String>
    ensures { IfOk result (λ text. string_bytes text ≡ no_text name.now value.now) }
{
    let value = value_text(alloc, value)?;
    format!(in alloc; "expected response {name} header to be string, received {value}")
}

// A response lacks a header of this name.
#[tactic(auto, unfolding(crate::specs::Texts::missing_text))]
pub(crate) fn missing_text(alloc: Global, name: &str) -> Mem<String>
    ensures { IfOk result (λ text. string_bytes text ≡ missing_text name.now) }
{
    format!(in alloc; "expected response to include {name} header, but it was missing")
}

// A response is neither an event nor an exception.
#[tactic(auto, unfolding(crate::specs::Texts::unrecognized_text))]
pub(crate) fn unrecognized_text(alloc: Global, message_type: &str) -> Mem<String>
    ensures { IfOk result (λ text. string_bytes text ≡ unrecognized_text message_type.now) }
{
    format!(in alloc; "unrecognized `:message-type`: {message_type}")
}

// The name of the value's kind and, in round brackets, the value.
#[tactic(auto, unfolding(crate::specs::Texts::shown_value))]
fn value_text(alloc: Global, value: &HeaderValue) -> Mem<String>
    ensures { IfOk result (λ text. string_bytes text ≡ shown_value value.now) }
{
    match value {
        HeaderValue::Bool(value) => format!(in alloc; "Bool({value})"),
        HeaderValue::Byte(value) => format!(in alloc; "Byte({value})"),
        HeaderValue::Int16(value) => format!(in alloc; "Int16({value})"),
        HeaderValue::Int32(value) => format!(in alloc; "Int32({value})"),
        HeaderValue::Int64(value) => format!(in alloc; "Int64({value})"),
        HeaderValue::ByteArray(bytes) => {
            let digits = hex::encode(alloc, bytes.as_slice())?;
            format!(in alloc; "ByteArray({digits})")
        }
        HeaderValue::String(text) => {
            let text = text.as_str();
            format!(in alloc; "String({text})")
        }
        HeaderValue::Timestamp(moment) => {
            let moment = moment_text(alloc, *moment)?;
            format!(in alloc; "Timestamp({moment})")
        }
        HeaderValue::Uuid(value) => format!(in alloc; "Uuid({value})"),
    }
}

// The seconds, one space and the nanoseconds.
fn moment_text(alloc: Global, moment: DateTime) -> Mem<String>
    ensures { IfOk result (λ text. string_bytes text ≡ moment_text moment) }
{
    let (secs, nanos) = (moment.secs(), moment.subsec_nanos());
    format!(in alloc; "{secs} {nanos}")
}
