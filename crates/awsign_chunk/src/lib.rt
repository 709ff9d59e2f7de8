//! Writes a body in chunks, and the head of its request, as the tool `awsign chunk` does.
//!
//! The program is promised of [`make_upload`] and [`write_upload`]: where the first answers a [`ChunkedUpload`], its head is the signed
//! request of the words, which announces data of a length; and what the second writes is the text of all data that a source had left and of
//! the trailers, in chunks that are signed from the request's signature on, or not at all, as the words ask, and then that head; or the
//! first reason why there is none, or a front of the body and why (`specs/ChunkRun.antt`, and below it `specs/Sent.antt`). Data of any
//! length passes in the memory of two chunks (`specs/Sending.antt`); [`held_data`] is for data whose length nobody tells.
#![tactic(auto)]

mod chunks;
mod front;
mod run;
mod saying;
mod send;
mod sent;
mod status;
mod sum;
mod text;
mod trailers;

pub use crate::chunks::ChunkSigner;
pub use crate::run::{held_data, make_upload};
pub use crate::saying::say_chunk;
pub use crate::send::write_upload;
pub use crate::sent::{BodyPlan, ChunkedUpload, Running};
pub use crate::status::ChunkStatus;
pub use crate::sum::RunningSum;
