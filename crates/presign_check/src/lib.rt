//! Checks presigned URLs: a request whose target carries its signature, with the moment of its signing and for how long it is good.
//!
//! The layer above is promised that [`check_presigned`] answers until when a request is good, or exactly the first of its tests
//! that the request doesn't pass (`specs/Presigned.antt`), and that a request that was presigned is accepted while it is good
//! (`specs/Acceptance.antt`).
#![tactic(auto)]

mod check;
mod fault;
mod laws;
mod parameters;
mod part;
mod terms;

pub use crate::check::check_presigned;
pub use crate::fault::PresignFault;
pub use crate::laws::{presigned_requests_are_accepted, presigned_requests_have_one_answer};
pub use crate::part::PresignPart;
