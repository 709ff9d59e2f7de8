//! The event stream encoding: messages as frames, and frames as messages.
//!
//! The layer above is promised that [`write_message_to`] appends the frame of the message, or nothing
//! and the first reason why it has none (`specs/Frame.antt`, `specs/Write.antt`); that
//! [`read_message_from`] takes the message of one frame, or nothing and the first fault
//! (`specs/Read.antt`); that [`MessageFrameDecoder`] makes one step of the reading on the bytes that came,
//! or all of them, in whatever pieces (`specs/Reading.antt`, `specs/Decode.antt`); and that a frame, whatever follows
//! it, is read back as its message ([`frame_reads_back`]). [`MessageSizeHint`] says how long a frame
//! will be, [`parse_response_headers`] and the calls that expect a value read headers
//! (`specs/SizeHint.antt`, `specs/ResponseHeaders.antt`, `specs/Expect.antt`). The definitions of the
//! signing key and of the chain of signed frames stand here too (`specs/Key.antt`, `specs/Link.antt`),
//! below all crates that cite them. What a [`SignMessage`] answers is told before it is asked: messages as
//! they are, or the links of a chain (`specs/Told.antt`); a [`DeferredSigner`] is told as the signer that it
//! was handed last. What a [`MarshallMessage`] answers is its own relation, and so is what an
//! [`UnmarshallMessage`] does.
#![tactic(auto)]

mod decode;
mod deferred_signer;
mod error;
mod expect;
mod kept_prelude;
mod kind;
mod laws;
mod marshall;
mod peek;
mod read;
mod response_headers;
mod sign;
mod sign_error;
mod size_hint;
mod texts;
mod unmarshall;
mod write;

pub use crate::decode::{DecodedFrame, MessageFrameDecoder, StreamEnd};
pub use crate::deferred_signer::DeferredSigner;
pub use crate::error::{Error, ErrorKind};
pub use crate::expect::{
    expect_bool, expect_byte, expect_byte_array, expect_int16, expect_int32, expect_int64,
    expect_string, expect_timestamp,
};
pub use crate::laws::{
    first_stays, frame_comes_first, frame_reads_back, frames_read_back, messages_come_first,
    messages_join, no_frame_begins_another, reading_goes_on,
};
pub use crate::marshall::{IdentityMarshaller, MarshallMessage};
pub use crate::peek::peek_message;
pub use crate::read::{read_held_message, read_message_from};
pub use crate::response_headers::{ResponseHeaders, parse_response_headers};
pub use crate::sign::{NoOpSigner, SignMessage};
pub use crate::sign_error::SignMessageError;
pub use crate::size_hint::MessageSizeHint;
pub use crate::unmarshall::{IdentityUnmarshaller, UnmarshallMessage, UnmarshalledMessage};
pub use crate::write::{frame_of, write_headers_to, write_message_to, write_summed_message_to};
