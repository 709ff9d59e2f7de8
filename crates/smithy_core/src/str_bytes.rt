ghost use Rattle.std.specs.Prelude.{◌≡◌, ℕ, List, true, false, IsUtf8, IfOk, MatchResult};
ghost use Rattle.std.specs.Str.{is_utf8};

use crate::memory::Mem;
use bytes::Bytes;
use std::alloc::Global;
use std::fmt;
use std::marker::Model;

/// UTF-8 text over shared bytes.
///
/// Contracts see it as its bytes.
#[derive(Debug, Drop)]
pub struct StrBytes {
    bytes: Bytes,
}

impl Model for StrBytes {
    ghost use Rattle.std.specs.Prelude.{ℕ, List, IsUtf8};

    ghost Value = { List ℕ };

    ghost view = { λ text. text.bytes };

    ghost invariant = { λ text. IsUtf8 text.bytes };
}

impl StrBytes {
    /// The text of a literal.
    pub fn from_static(text: &'static str) -> StrBytes
        ensures { result ≡ text.now }
    {
        StrBytes {
            bytes: Bytes::from_static(text.as_bytes()),
        }
    }

    /// A copy of the text.
    pub fn copy_from_str(alloc: Global, text: &str) -> Mem<StrBytes>
        ensures { IfOk result (λ copy. copy ≡ text.now) }
    {
        Ok(StrBytes {
            bytes: Bytes::copy_from_slice(alloc, text.as_bytes())?,
        })
    }

    /// The text that the bytes spell.
    ///
    /// # Errors
    ///
    /// The bytes themselves, where they aren't UTF-8.
    #[tactic(auto, using(crate::proofs::TextLemmas::is_text, crate::proofs::TextLemmas::no_text))]
    pub fn try_from_bytes(bytes: Bytes) -> Result<StrBytes, Bytes>
        ensures { MatchResult result (λ text. (text ≡ bytes) × (is_utf8 bytes ≡ true)) (λ refused. (refused ≡ bytes) × (is_utf8 bytes ≡ false)) }
    {
        match std::str::from_utf8(bytes.as_slice()) {
            Ok(_) => Ok(StrBytes { bytes }),
            Err(_) => Err(bytes),
        }
    }

    /// The bytes of the text.
    pub fn as_bytes(&self) -> &Bytes
        ensures value { result.now ≡ self.now }
        ensures utf8 { IsUtf8 self.now }
    {
        &self.bytes
    }

    /// The text.
    pub fn as_str(&self) -> &str
        ensures { result.now ≡ self.now }
    {
        // Proved: the bytes are UTF-8.
        unsafe { std::str::from_utf8_unchecked(self.bytes.as_slice()) }
    }

    /// Another handle of the same text.
    pub fn try_clone(&self) -> Mem<StrBytes>
        ensures { IfOk result (λ copy. copy ≡ self.now) }
    {
        Ok(StrBytes {
            bytes: self.bytes.clone()?,
        })
    }
}

impl From<&'static str> for StrBytes {
    ghost from_gives = { λ text result. result ≡ text.now };

    fn from(text: &'static str) -> StrBytes {
        StrBytes::from_static(text)
    }
}

impl fmt::Display for StrBytes {
    ghost use Rattle.std.specs.Prelude.{Some};

    ghost output = { λ text. Some text };

    fn fmt<W: fmt::Write>(&self, f: &mut fmt::Formatter<W>) -> fmt::Result {
        f.write_str(self.as_str())
    }
}
