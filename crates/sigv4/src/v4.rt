//! Version 4: signing keys, signatures and their parameters.

pub use crate::chunk::{sign_chunk, sign_trailer};
pub use crate::key::{credential_scope, generate_signing_key, signing_key_of};
pub use crate::params::{BuildError, Builder, SigningParams};
pub use crate::signature::{calculate_signature, request_signature};
