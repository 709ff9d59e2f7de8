//! Says who signed a request, as the tool `awsign verify` does.
//!
//! The program is promised of [`run_verify`]: where it answers [`VerifyStatus::Done`] the output gained what [`admit`](request_door::admit)
//! answers of the request that the words name or the input spells, head and body, with the one key, the region and the service that options,
//! variables and profile give, at a moment that is named or the clock's; and where the request isn't good it answers the first reason and
//! the output is as it was (`specs/VerifyRun.antt`, and below it `specs/Verify.antt` and `specs/Message.antt`).
#![tactic(auto)]

mod judge;
mod lines;
mod message;
mod run;
mod saying;
mod status;

pub use crate::lines::verified_text;
pub use crate::message::{HeadDraft, message_body, read_message};
pub use crate::run::{ReceivedRequest, run_verify};
pub use crate::saying::say_verify;
pub use crate::status::VerifyStatus;
