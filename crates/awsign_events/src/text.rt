//! Messages in a form.
ghost use Rattle.std.specs.Prelude.{◌≡◌, IfOk};
ghost use Rattle.awsign_events.specs.EventText.{is_spelled, message_text};

use crate::json::push_json;
use crate::lines::{are_lined, push_lines};
use awsign_words::EventForm;
use smithy_core::{Mem, Message};
use std::alloc::Global;

/// A message in a form.
pub fn message_text(alloc: Global, form: EventForm, message: &Message) -> Mem<Vec<u8>>
    ensures { IfOk result (λ text. text.items ≡ message_text form message.now) }
{
    let mut text = Vec::new(alloc);
    match form {
        EventForm::Lines => push_lines(alloc, &mut text, message)?,
        EventForm::JsonLines => push_json(alloc, &mut text, message)?,
    }
    Ok(text)
}

/// Whether a form can spell a message.
pub(crate) fn is_spelled(form: EventForm, message: &Message) -> bool
    ensures { result ≡ is_spelled form message.now }
{
    match form {
        EventForm::Lines => are_lined(message.headers()),
        EventForm::JsonLines => true,
    }
}
