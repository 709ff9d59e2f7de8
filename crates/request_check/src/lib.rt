//! Checks a request that was signed and sent: its signature is computed again, from nothing but the request, its payload, the
//! settings, the region, the service's name and the secret.
//!
//! [`check_request`] answers the signature that a request carries and the one that was computed again, or exactly why there are
//! none (`specs/Recomputed.antt`); of a request that was signed both are the signature of its case (`specs/Recomputation.antt`).
//! [`seal_of`] answers the seal that a request carries in its headers or in its target's query, or that there is none
//! (`specs/Sealed.antt`).
#![tactic(auto)]

mod authorization;
mod check;
mod cuts;
mod header_lines;
mod laws;
mod parameters;
pub mod parts;
mod seal;
mod seal_texts;
mod stamp;
mod target;

pub use crate::check::{CheckRequestFault, Checked, check_request};
pub use crate::laws::{
    payload_texts_are_trimmed, requests_have_one_seal, signed_requests_recompute,
};
pub use crate::seal::{Seal, seal_of};
