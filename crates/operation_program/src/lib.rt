//! The operation's program: an operation with its attempts over listed replies.
//!
//! The program is promised of [`run_operation`]: where it answers [`OperationStatus::Done`], the output gained exactly the heads of
//! the requests that the attempts sent, in order, and how many these were; each other answer comes exactly where words, variables,
//! input and files ask for it, or for an I/O fault, or where memory ran out; and what output and `err` gained after each
//! (`specs/Running.antt`, and below it `specs/Attempting.antt` and `specs/Rounds.antt`).
#![tactic(auto)]

mod replies;
mod running;
mod saying;
mod status;
mod text;
mod words;

pub use crate::running::{run_operation, write_text};
pub use crate::saying::say_operation;
pub use crate::status::OperationStatus;
