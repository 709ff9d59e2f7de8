//! Signs a request and streams its events as a chain of signed frames.
//!
//! The program is promised of [`run`]: where it answers [`Status::Done`], the output gained exactly the head of the
//! signed request and then the chain of the events, for `settings` what profile files and variables select, or for
//! `check` the events of a record whose frames are the chain over the signature that its request carries; each other
//! answer comes exactly where words, variables, input and files ask for it, or for an I/O fault, or
//! where memory ran out; and what output and `err` gained after each (`specs/Running.antt`, and below it `specs/Plan.antt`,
//! `specs/Sources.antt`, `specs/Stream.antt`, `specs/ShowSettings.antt` and `specs/CheckRecord.antt`).
//!
//! A program that has a request and its events in memory calls [`sign_and_stream`], which is promised the same of the
//! sink and of the clock's moments, and answers the signed request (`specs/Streaming.antt`).
//!
//! An I/O object need not show its content. Clauses on what the input spells speak if the input shows
//! its bytes, and those on what was gained if the sink shows what it holds; the objects in memory do both.
#![tactic(auto)]

mod chain;
mod check_record;
mod command;
mod event_lines;
mod form;
mod generate;
mod generator;
mod laws;
mod running;
mod saying;
mod settings;
mod shared_status;
mod show_chunked;
mod show_settings;
mod shown;
mod sign;
mod sources;
mod status;
mod stream;
mod streaming;
mod watch_chain;
mod written;

pub use crate::command::{
    NamedFile, ProfileOption, ProfileOptions, RequestWords, read_request_words,
};
pub use crate::form::Form;
pub use crate::laws::{raw_streams_are_accepted, raw_streams_read_back};
pub use crate::running::{MOST_INPUT, run};
pub use crate::saying::say;
pub use crate::settings::{Settings, SettingsFault, read_settings};
pub use crate::shared_status::SharedStatus;
pub use crate::sign::fault_of;
pub use crate::sources::{SelectFault, select};
pub use crate::status::{CheckFault, Status, StreamFault};
pub use crate::streaming::{StreamOptions, StreamedRequest, sign_and_send, sign_and_stream};
pub use crate::written::head_of;
pub use chain_watch::{ChainFault, ChainPart, check_chain};
pub use job_text::{Job, JobFault, read_job};
pub use request_check::{CheckRequestFault, Checked, check_request};
