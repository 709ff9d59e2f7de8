ghost use Rattle.std.specs.Prelude.{◌≡◌, string_bytes, IfOk, MatchResult};
ghost use Rattle.http_header.specs.Token.{IsToken};

use crate::memory::Mem;
use http_header::is_token;
use std::error::Error;
use std::fmt;
use std::marker::Model;

/// The name of an application, as its user agent names it: letters, digits and marks of
/// ``!#$%&'*+-.^_`|~``.
///
/// Contracts see the text.
#[derive(Debug, Drop)]
pub struct AppName {
    text: String,
}

/// The text is empty, or holds a character that no application's name may hold.
#[derive(Clone, Copy, Debug, PartialEq, Eq)]
pub struct InvalidAppName;

impl fmt::Display for InvalidAppName {
    ghost use Rattle.std.specs.Prelude.{Some, codes};

    ghost output = { λ _. Some (codes "the name of an application is empty or holds a character that no such name may hold") };

    fn fmt<W: fmt::Write>(&self, f: &mut fmt::Formatter<W>) -> fmt::Result {
        f.write_str(
            "the name of an application is empty or holds a character that no such name may hold",
        )
    }
}

impl Error for InvalidAppName {}

impl Model for AppName {
    ghost use Rattle.std.specs.Prelude.{ℕ, List, string_bytes};
    ghost use Rattle.http_header.specs.Token.{IsToken};

    ghost Value = { List ℕ };

    ghost view = { λ name. string_bytes name.text };

    ghost invariant = { λ name. IsToken (string_bytes name.text) };
}

impl AppName {
    /// The name of this text.
    ///
    /// # Errors
    ///
    /// [`InvalidAppName`] exactly where the text isn't a token (RFC 9110, section 5.6.2).
    pub fn new(text: String) -> Result<AppName, InvalidAppName>
        ensures { MatchResult result (λ name. (name ≡ string_bytes text) × IsToken (string_bytes text)) (λ _. IsToken (string_bytes text) → ⊥) }
    {
        if is_token(text.as_bytes()) {
            Ok(AppName { text })
        } else {
            Err(InvalidAppName)
        }
    }

    /// The text of the name.
    pub fn as_str(&self) -> &str
        ensures value { result.now ≡ self.now }
        ensures token { IsToken self.now }
    {
        self.text.as_str()
    }

    /// An equal name.
    pub fn try_clone(&self) -> Mem<AppName>
        ensures { IfOk result (λ copy. copy ≡ self.now) }
    {
        Ok(AppName {
            text: self.text.clone()?,
        })
    }
}
