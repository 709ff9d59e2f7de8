ghost use Rattle.std.specs.Prelude.{◌≡◌, IfOk, string_bytes};

use crate::memory::Mem;
use std::alloc::Global;
use std::marker::Model;

/// The name of a region, as `us-east-1`. Nothing is tested.
///
/// Contracts see the text.
#[derive(Debug, Drop)]
pub struct Region {
    text: String,
}

impl Model for Region {
    ghost use Rattle.std.specs.Prelude.{ℕ, List, string_bytes};

    ghost Value = { List ℕ };

    ghost view = { λ region. string_bytes region.text };
}

impl Region {
    /// The region of this name.
    pub fn new(text: String) -> Region
        ensures { result ≡ string_bytes text }
    {
        Region { text }
    }

    /// The region of a name that is copied.
    pub fn from_str(alloc: Global, text: &str) -> Mem<Region>
        ensures { IfOk result (λ region. region ≡ text.now) }
    {
        Ok(Region {
            text: String::from_str(alloc, text)?,
        })
    }

    /// The text of the name.
    pub fn as_str(&self) -> &str
        ensures { result.now ≡ self.now }
    {
        self.text.as_str()
    }

    /// An equal region.
    pub fn try_clone(&self) -> Mem<Region>
        ensures { IfOk result (λ copy. copy ≡ self.now) }
    {
        Ok(Region {
            text: self.text.clone()?,
        })
    }
}

/// The name by which requests to a service are signed, as `s3`. Nothing is tested.
///
/// Contracts see the text.
#[derive(Debug, Drop)]
pub struct SigningName {
    text: String,
}

impl Model for SigningName {
    ghost use Rattle.std.specs.Prelude.{ℕ, List, string_bytes};

    ghost Value = { List ℕ };

    ghost view = { λ name. string_bytes name.text };
}

impl SigningName {
    /// The name of this text.
    pub fn new(text: String) -> SigningName
        ensures { result ≡ string_bytes text }
    {
        SigningName { text }
    }

    /// The name of a text that is copied.
    pub fn from_str(alloc: Global, text: &str) -> Mem<SigningName>
        ensures { IfOk result (λ name. name ≡ text.now) }
    {
        Ok(SigningName {
            text: String::from_str(alloc, text)?,
        })
    }

    /// The text of the name.
    pub fn as_str(&self) -> &str
        ensures { result.now ≡ self.now }
    {
        self.text.as_str()
    }

    /// An equal name.
    pub fn try_clone(&self) -> Mem<SigningName>
        ensures { IfOk result (λ copy. copy ≡ self.now) }
    {
        Ok(SigningName {
            text: self.text.clone()?,
        })
    }
}
