//! Bodies in the encoding aws-chunked: their data in chunks, signed or not, and trailers behind it.
//!
//! The layer above is promised that the frames of [`AwsChunkedBody::poll_frame`] make up the text of the data and the trailers
//! (`specs/Text.antt`), whatever the pieces in which the data comes: each call answers the front of the text that is due and leaves
//! the rest, or says why there is none (`specs/Body.antt`); in the text of a signed body each signature is made over the one before
//! it (`specs/Due.antt`). Those of [`AwsChunkedBody::poll_data`] are the pieces of the form for HTTP 0.x, one by one
//! (`specs/Passing.antt`). A body has an engine for each of the two texts, and one record of what has come of its source, which both
//! read. [`AwsChunkedBodyOptions::encoded_length`] is how long the text is (`specs/Options.antt`).
//! [`AwsChunkedBodyOptions::announce`] announces the body in the headers of its request (`specs/Announcement.antt`).
//! [`decode_chunked`] reads a whole text back, or names the least place where the bytes stop being one (`specs/Decoded.antt`).
#![tactic(auto)]

mod announcement;
mod arrivals;
mod body;
mod chunk_engine;
mod decode;
mod error;
mod laws;
mod made_text;
mod options;
pub mod parts;
mod phase;
mod piece_engine;
mod poll_data;
mod poll_frame;
mod signing;
mod sound;
mod stop;
mod text;
mod trailers;

pub use crate::announcement::AnnounceFault;
pub use crate::body::{AwsChunkedBody, ChunkNext};
pub use crate::decode::{DecodeFault, Decoded, decode_chunked};
pub use crate::error::AwsChunkedBodyError;
pub use crate::laws::{
    frames_make_up_the_text, passed_texts_are_as_long, sealed_texts_are_as_long,
    sealed_texts_are_whole, signed_texts_are_as_long, texts_are_whole, whole_texts_are_decoded,
};
pub use crate::options::AwsChunkedBodyOptions;

/// The header of the trailers' signature.
pub const X_AMZ_TRAILER_SIGNATURE: &str = "x-amz-trailer-signature";

/// The value of `content-encoding` that names the encoding.
pub const AWS_CHUNKED: &str = "aws-chunked";
