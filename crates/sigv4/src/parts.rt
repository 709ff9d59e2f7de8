//! What [`crate::sign`] computes on its way, for who computes a signature again. The SDK has no such public calls.

pub use crate::body::payload_text;
pub use crate::canonical::{push_head, push_tail};
pub use crate::canonical_query::EscapedPairs;
pub use crate::credentials::test_signing;
pub use crate::digest::TextDigest;
pub use crate::host::host_text;
pub use crate::path::canonical_path;
pub use crate::refusal::{added_host, test_headers, test_host, test_value};
pub use crate::signature::{digest_signature, is_lower_digit, is_signature};
pub use crate::text_sink::TextSink;
pub use crate::token_name::token_parameter;
pub use crate::trim::trimmed;
