//! AWS Signature Version 4: signing keys, signed requests in header form and in query form, and signed messages.
//!
//! The layer above is promised that [`sign`] answers the headers or the parameters and the signature of a request, and
//! [`canonical_text`] its canonical text (`specs/Canonical.antt`, `specs/Signed.antt`), or exactly the first test that the
//! request fails (`specs/Refusal.antt`), and that [`SigningInstructions::apply_to_request`] puts the signature into the
//! request (`specs/Parameters.antt`).
//!
//! The layer above is promised that [`v4::generate_signing_key`] is the signing key of a secret, a date, a
//! region and a name, and takes no memory, and that [`v4::request_signature`] is the signature of a
//! canonical text (`specs/Signature.antt`). It is promised that [`event_stream::sign_message`] and
//! [`event_stream::sign_empty_message`] answer the next link of a chain, or exactly the first reason why
//! there is none (`specs/EventStream.antt`). A key that is at hand needn't be derived anew: [`sign_with_key`],
//! [`event_stream::sign_message_with_key`] and [`event_stream::sign_empty_message_with_key`] answer the same under it.
//! An upload in chunks goes on from its request's signature: [`v4::sign_chunk`] and [`v4::sign_trailer`] answer the signatures of
//! a chunk and of the trailers (`specs/Chunk.antt`), and a [`SignChunk`] makes one over the other (`specs/ChunkTold.antt`), a
//! [`ChunkDeferredSigner`] once it is wired.
//! What [`sign`] computes on its way stands in [`parts`]; the canonical text of a request that was sent is made by the same lines,
//! for a [`parts::TextDigest`], which keeps no text.
//! A builder gives back its parts or names the first that is missing (`specs/Params.antt`).
#![tactic(auto)]

mod body;
mod canonical;
mod canonical_headers;
mod canonical_query;
mod chunk;
mod chunk_deferred_signer;
mod chunk_signer;
mod credentials;
mod digest;
mod error;
pub mod event_stream;
mod grammar;
mod header;
mod host;
mod instructions;
mod kept_key;
mod key;
mod laws;
mod modes;
mod output;
mod parameters;
mod params;
pub mod parts;
mod path;
mod refusal;
mod request;
mod request_signing;
mod second_hasher;
mod settings;
mod signature;
mod signed;
mod signing_params;
mod signing_scope;
mod signing_texts;
mod signing_time;
mod text_sink;
mod token_name;
mod trim;
pub mod v4;

pub use crate::body::SignableBody;
pub use crate::chunk_deferred_signer::ChunkDeferredSigner;
pub use crate::chunk_signer::SignChunk;
pub use crate::error::{SigningError, ValuePlace};
pub use crate::header::{Header, HeaderPairs};
pub use crate::instructions::SigningInstructions;
pub use crate::kept_key::KeptKey;
pub use crate::laws::{
    instructions_make_the_signed_request, normal_paths_stay, signed_names_ascend,
    signed_requests_sign_alike, trimmed_texts_stay,
};
pub use crate::modes::{PercentEncodingMode, UriPathNormalizationMode};
pub use crate::output::SigningOutput;
pub use crate::path::normalize_uri_path;
pub use crate::request::SignableRequest;
pub use crate::request_signing::{
    canonical_text, sign, sign_request, sign_request_with_key, sign_with_key,
};
pub use crate::settings::{
    PayloadChecksumKind, SessionTokenMode, SignatureLocation, SigningSettings,
};
pub use crate::signing_params::{SignatureVersion, SigningParams};
