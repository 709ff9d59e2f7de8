//! The signer of an operation's requests: AWS Signature Version 4 by options, an endpoint's fields and overrides.
//!
//! The layer above is promised that [`SigV4Signer::sign_http_request`] makes the signed request of its case and two signers that
//! go on from its signature, or leaves the request and answers exactly the first test that fails (`specs/Signer.antt`); the
//! region, the name, the settings, the payload and the moment of the case are chosen as `specs/Inputs.antt` says. The signer of
//! the messages that follow makes the links of the chain from that signature on (`specs/MessageSigner.antt`). The signer of
//! chunks makes the signatures of an upload, each over the one before it (`specs/ChunkSigner.antt`), and so does a
//! [`ChunkDeferredSigner`], which stands in `sigv4`, once it is wired.
//!
//! Which way to sign is for what: [`sigv4::sign`] is for a program that has its settings, region and name at hand, and answers
//! what goes into the request; this crate is for operations, whose endpoint, config and call each say something of these, and for
//! streams and uploads, which go on from the request's signature.
#![tactic(auto)]

mod chunk_signer;
mod endpoint;
mod error;
mod inputs;
mod message_signer;
mod moment;
mod name_override;
mod options;
mod payload;
mod scheme;
mod settings;
mod signer;

pub use crate::endpoint::EndpointField;
pub use crate::error::SigV4SigningError;
pub use crate::inputs::SigningInputs;
pub use crate::message_signer::SigV4MessageSigner;
pub use crate::name_override::{OverrideError, SigV4SessionTokenNameOverride};
pub use crate::options::{HttpSignatureType, SigV4OperationSigningConfig, SigningOptions};
pub use crate::payload::{PayloadSigningOverride, PayloadSigningOverrideRuntimePlugin};
pub use crate::scheme::{SCHEME_ID, SigV4AuthScheme};
pub use crate::signer::{SigV4Signer, Signed};
pub use sigv4::{ChunkDeferredSigner, KeptKey};
