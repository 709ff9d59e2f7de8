//! The words of the tool `awsign`.
//!
//! The layer above is promised that [`read_command`] answers exactly what the words ask for, or the place of the first one that is bad
//! (`specs/Words.antt`), and that [`encoded_url`] percent-encodes the path of a URL and nothing else (`specs/RawPath.antt`).
#![tactic(auto)]

mod command;
mod events;
mod expiry;
mod raw_path;
mod sources;
mod words;

pub use crate::command::Command;
pub use crate::events::{
    EventForm, EventsAction, EventsAsked, GivenEvents, event_form_named, read_events,
};
pub use crate::expiry::expiry_named;
pub use crate::raw_path::encoded_url;
pub use crate::words::{
    Asked, AskedCommand, Checksum, GivenWords, VerifyAsked, checksum_named, form_named, is_method,
    read_command,
};
