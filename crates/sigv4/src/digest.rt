ghost use Rattle.std.specs.Prelude.{◌≡◌, ◌++◌, [], ℕ, List};
ghost use Rattle.sha2.specs.Sha256.{sha256};
ghost use Rattle.hex.specs.Hex.{encode_lower};
ghost use Rattle.sigv4.specs.Digest.{HoldsText};

use sha2::{Digest, Sha256};

/// The SHA-256 of the bytes (FIPS 180-4), in lower-case hexadecimal. It takes no memory.
pub(crate) fn sha256_digits(bytes: &[u8]) -> [u8; 64]
    ensures { result ≡ encode_lower (sha256 bytes.now) }
{
    let digest = Sha256::digest(bytes);
    digits_of(&digest)
}

/// The SHA-256 of a text that comes in pieces. It takes no memory, however long the text is.
///
/// Contracts see the text so far, by the relation `HoldsText`.
#[derive(Drop)]
pub struct TextDigest {
    hasher: Sha256,
}

impl TextDigest {
    /// No text yet.
    pub fn new() -> TextDigest
        ensures { HoldsText result [] }
    {
        TextDigest {
            hasher: Sha256::new(),
        }
    }

    /// Takes the next piece of the text.
    pub fn push_str(&mut self, text: &str)
        ensures { (front : List ℕ) → HoldsText self.old front → HoldsText self.new (front ++ text.now) }
    {
        self.hasher.update(text.as_bytes());
    }

    // The digest of the text, in lower-case hexadecimal.
    pub(crate) fn digits(self) -> [u8; 64]
        ensures { (text : List ℕ) → HoldsText self text → result ≡ encode_lower (sha256 text) }
    {
        let digest = self.hasher.finalize();
        digits_of(&digest)
    }
}

// The hexadecimal digits of a digest.
fn digits_of(digest: &[u8; 32]) -> [u8; 64]
    ensures { result ≡ encode_lower digest.now }
{
    let mut digits = [0; 64];
    hex::encode_to_slice(digest.as_slice(), &mut digits).unwrap();
    digits
}
