ghost use Rattle.std.specs.Prelude.{◌≡◌, codes};

use crate::signer::SigV4Signer;

/// The id of the scheme.
pub const SCHEME_ID: &str = "sigv4";

/// The authentication scheme of AWS Signature Version 4.
#[derive(Clone, Copy, Debug)]
pub struct SigV4AuthScheme {
    signer: SigV4Signer,
}

impl SigV4AuthScheme {
    /// The scheme.
    pub fn new() -> SigV4AuthScheme {
        SigV4AuthScheme {
            signer: SigV4Signer::new(),
        }
    }

    /// The scheme's id.
    pub fn scheme_id(&self) -> &'static str
        ensures { result.now ≡ codes "sigv4" }
    {
        SCHEME_ID
    }

    /// What signs by the scheme.
    pub fn signer(&self) -> &SigV4Signer {
        &self.signer
    }
}
