//! Checks a body in signed chunks that comes in pieces (the encoding aws-chunked of Amazon S3), for a service: a [`ChunkWatch`]
//! goes on from the signature of the request that the body belongs to, and hands out a chunk's data once its own signature was
//! computed again (`specs/Walk.antt`, `specs/Watch.antt`), and the trailers once theirs was (`specs/Trailers.antt`).
//!
//! Whatever the cut of the pieces, the same is handed out ([`any_cut_hands_out_the_same`]); what is handed out is the data of
//! chunks that stand in the body and carry their own signatures ([`only_signed_data_is_handed_out`]); and what `aws_chunked` writes
//! is handed out whole ([`written_texts_are_handed_out`]).
//!
//! A body in chunks without signatures (`STREAMING-UNSIGNED-PAYLOAD-TRAILER`) isn't taken: `decode_chunked` of `aws_chunked` reads
//! one whose chunks have one size, and nothing of it is signed.
#![tactic(auto)]

mod fault;
mod front;
mod laws;
mod left;
mod limits;
mod signing;
mod trailers;
mod watch;

pub use crate::fault::ChunkFault;
pub use crate::laws::{
    any_cut_hands_out_the_same, only_signed_data_is_handed_out, written_texts_are_handed_out,
};
pub use crate::limits::ChunkLimits;
pub use crate::watch::ChunkWatch;
