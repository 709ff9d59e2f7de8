//! A C library over the crates of this repository: what C, and all that calls C, is offered.
//!
//! Each export calls one function and states its promise again; it takes any bytes and any numbers. What is read is lent, what is
//! written goes into room that the caller lends, and the answer says how it went and how many bytes there are or are wanted
//! (`specs/Answers.antt`). No memory is handed over, and no state lives here: what goes on, as the signature before, is the caller's.
//!
//! `c/firuvaik.h` declares the exports for C.
#![tactic(auto)]

mod answer;
mod asked;
mod chunks;
mod door;
mod events;
mod fault;
mod frames;
mod key;
mod lent;
mod link;
mod message;
mod program;
mod select;
mod sign;
mod status;
mod texts;
mod watch;

pub use crate::answer::{Answer, Made};
pub use crate::chunks::{firuvaik_next_chunk, firuvaik_trailers};
pub use crate::door::{Admission, firuvaik_admit};
pub use crate::events::firuvaik_next_frame;
pub use crate::fault::Fault;
pub use crate::frames::{FrameParts, HeaderPlace, firuvaik_frame_length, firuvaik_read_frame};
pub use crate::key::{firuvaik_signature, firuvaik_signing_key};
pub use crate::lent::{
    EventHeader, Field, Invocation, Key, Request, Service, Settings, Signer, Sources, Text,
};
pub use crate::message::{firuvaik_event, firuvaik_frame};
pub use crate::program::{Outcome, firuvaik_run};
pub use crate::select::{Selection, Span, firuvaik_select};
pub use crate::sign::firuvaik_sign;
pub use crate::status::{firuvaik_status_text, firuvaik_version};
pub use crate::watch::firuvaik_check_frame;
