ghost use Rattle.std.specs.Prelude.{◌≡◌};
ghost use Rattle.job_text.specs.Job.{event_message};
ghost use Rattle.job_text.specs.Draft.{event_of};

use bytes::Bytes;
use smithy_core::{Header, Message};

/// An event that is read: its headers, and its payload where the line stood.
#[derive(Drop)]
pub struct OpenEvent {
    pub headers: Vec<Header>,
    pub payload: Option<Bytes>,
}

impl OpenEvent {
    /// The message of the event. Its headers take no room for more, which a list of them has as it grows.
    pub fn into_message(mut self) -> Message
        ensures { result ≡ event_message (event_of self) }
    {
        self.headers.shrink_to_fit();
        Message::new_from_parts(self.headers, self.payload.unwrap_or(Bytes::new()))
    }
}
