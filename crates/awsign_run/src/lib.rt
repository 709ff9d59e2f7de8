//! Signs a request that words ask for, as the tool `awsign` does.
//!
//! The program is promised of [`run_signing`]: where it answers [`Status::Done`] the output gained exactly the signed request of the words,
//! in the form that they ask for, under the key, region and service that options, variables and profile give in this order, over the digest
//! of all data that its source had left, at a moment that is named or the clock's; and where nothing is signed it answers the first reason
//! and the output is as it was (`specs/Run.antt`, and below it `specs/Signing.antt`, `specs/Chosen.antt` and `specs/Guess.antt`).
#![tactic(auto)]

mod choosing;
mod chosen;
mod digest;
mod fault;
mod guess;
mod progress;
mod run;
mod saying;
mod signing;
mod status;

pub use crate::choosing::signer_for;
pub use crate::chosen::Chosen;
pub use crate::digest::digest_of;
pub use crate::fault::{Fault, file_paths};
pub use crate::guess::{guessed_service, print_service, url_host};
pub use crate::progress::ProgressSource;
pub use crate::run::{load_source, moment_asked, moment_of, run_signing, write_text};
pub use crate::saying::{fault_line, say, tool_line, write_some};
pub use crate::signing::{
    SignedRequest, is_s3, printed_request, signed_request, signed_text, usual_settings,
};
pub use crate::status::Status;
