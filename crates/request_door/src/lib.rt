//! A service's door for signed requests: who signed a request, in header form or in query form, or why it isn't let in.
//!
//! The layer above is promised that [`admit`] says who signed a request that passes each of its tests, and else answers exactly the first
//! that is met (`specs/Doors.antt`).
#![tactic(auto)]

mod admitted;
mod authorization;
mod carried;
mod code;
mod door;
mod fault;
mod keys;
mod laws;
mod limits;
mod names;
mod payload;
mod signature;
mod terms;

pub use crate::admitted::Admitted;
pub use crate::code::ErrorCode;
pub use crate::door::admit;
pub use crate::fault::DoorFault;
pub use crate::keys::{KeyList, Keys};
pub use crate::laws::{
    admitted_requests_are_covered, requests_have_one_answer, signed_requests_are_let_in,
    signed_requests_are_no_mismatch,
};
pub use crate::limits::Limits;
pub use crate::payload::DoorPayload;
