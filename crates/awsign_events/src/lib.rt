//! Prints and writes events, as the tool `awsign events` does.
//!
//! The program is promised of [`decode_events`] that the output gained the texts of the messages whose frames the source's bytes begin
//! with, in order, and what comes behind them: the end, or the first frame that is wrong (`specs/Decode.antt`); and of [`encode_events`]
//! that it gained the frames of the messages that lines spell, or nothing (`specs/Encode.antt`); and of [`verify_events`] that it gained the
//! texts of the first events of a chain, each signed over all before it from the seed on (`specs/VerifyEvents.antt`). A text is lines that a job has too, or an
//! object of JSON (`specs/EventText.antt`).
#![tactic(auto)]

mod decode;
mod encode;
mod hex_input;
mod json;
mod lines;
mod saying;
mod status;
mod text;
mod verify;

pub use crate::decode::decode_events;
pub use crate::encode::encode_events;
pub use crate::hex_input::{HexDraft, read_hex};
pub use crate::saying::say_events;
pub use crate::status::EventsStatus;
pub use crate::text::message_text;
pub use crate::verify::verify_events;
