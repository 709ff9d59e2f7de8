//! Checks presigned URLs as a program does: the request comes as a job, and region and key from profile files and variables.
//!
//! The program is promised of [`run_presigned`]: where it answers [`PresignStatus::Done`] the request meets no test of
//! [`check_presigned`] at the moment of the check, and the output gained until when it is good; [`PresignStatus::CheckFailed`] comes
//! exactly with the first test that it meets; each other answer comes exactly where words, input and files ask for it, or for an I/O
//! fault, or where memory ran out (`specs/PresignRun.antt`).
#![tactic(auto)]

mod run;
mod saying;
mod status;

pub use crate::run::{run_presigned, write_text};
pub use crate::saying::say_presigned;
pub use crate::status::PresignStatus;
pub use presign_check::{PresignFault, PresignPart, check_presigned};
