//! Checks a chain of signed frames, recorded or while it comes: each signature is computed again, and none is trusted.
//!
//! The walk over the frames is defined from any point on (`specs/Walk.antt`): it has the events of the frames that pass, and
//! ends at the first test that a frame fails, behind the closing frame, or where less than a frame is left over. A
//! [`ChainWatch`] takes the bytes in pieces, and each call hands out the events of the walk that weren't yet, and no other
//! (`specs/Watch.antt`). [`check_chain`] is the watch over all bytes at once. Events are answered exactly where the bytes are
//! their chain, in the words of the chain that is written (`specs/Chain.antt`).
#![tactic(auto)]

mod chain_fault;
mod chain_signer;
mod check;
mod frame;
mod laws;
mod position;
mod watch;

pub use crate::chain_fault::{ChainFault, ChainPart};
pub use crate::check::check_chain;
pub use crate::laws::{
    exactly_chains_are_accepted, walks_join, watches_never_trust_early, written_chains_are_accepted,
};
pub use crate::watch::{ChainWatch, Watched};
