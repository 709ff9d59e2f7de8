ghost use Rattle.std.specs.Prelude.{◌≡◌, IfOk, string_bytes};
ghost use Rattle.smithy_core.specs.HeaderGrammar.{IsHeaderValue};
ghost use Rattle.aws_intercept.specs.Metadata.{Checks};

use smithy_core::{Mem, is_header_value};
use std::fmt;
use std::marker::Model;

/// The id of an invocation, the same for each attempt: a header's value.
///
/// Contracts see the text.
#[derive(Debug, Drop)]
pub struct InvocationId {
    text: String,
}

/// The text isn't a header's value.
#[derive(Clone, Copy, Debug, PartialEq, Eq)]
pub struct InvalidInvocationId;

impl fmt::Display for InvalidInvocationId {
    ghost use Rattle.std.specs.Prelude.{Some, codes};

    ghost output = { λ _. Some (codes "the invocation's id is no header value") };

    fn fmt<W: fmt::Write>(&self, f: &mut fmt::Formatter<W>) -> fmt::Result {
        f.write_str("the invocation's id is no header value")
    }
}

impl std::error::Error for InvalidInvocationId {}

impl Model for InvocationId {
    ghost use Rattle.std.specs.Prelude.{ℕ, List, string_bytes};
    ghost use Rattle.smithy_core.specs.HeaderGrammar.{IsHeaderValue};

    ghost Value = { List ℕ };

    ghost view = { λ id. string_bytes id.text };

    ghost invariant = { λ id. IsHeaderValue (string_bytes id.text) };
}

impl InvocationId {
    /// The id of this text.
    ///
    /// # Errors
    ///
    /// [`InvalidInvocationId`] exactly where the text isn't a header's value (RFC 9110, section 5.5).
    pub fn new(text: String) -> Result<InvocationId, InvalidInvocationId>
        ensures { Checks (IsHeaderValue (string_bytes text)) (λ id. id ≡ string_bytes text) result }
    {
        if !is_header_value(text.as_str()) {
            return Err(InvalidInvocationId);
        }
        Ok(InvocationId { text })
    }

    // The id of a text that is known to be a header's value.
    pub(crate) fn from_text(text: String) -> InvocationId
        requires { IsHeaderValue (string_bytes text) }
        ensures { result ≡ string_bytes text }
    {
        InvocationId { text }
    }

    /// The text of the id.
    pub fn as_str(&self) -> &str
        ensures text { result.now ≡ self.now }
        ensures value { IsHeaderValue self.now }
    {
        self.text.as_str()
    }

    /// An equal id.
    pub fn try_clone(&self) -> Mem<InvocationId>
        ensures { IfOk result (λ copy. copy ≡ self.now) }
    {
        Ok(InvocationId {
            text: self.text.clone()?,
        })
    }
}

impl PartialEq for InvocationId {
    ghost use Rattle.std.specs.Prelude.{bytes_eq};
    ghost use Rattle.std.proofs.Common.{rules};
    ghost use Rattle.std.specs.Cmp.Rules.{comparing};

    ghost eq = { bytes_eq };

    ghost laws = { Prim.search (comparing, rules) };

    fn eq(&self, other: &InvocationId) -> bool {
        self.text == other.text
    }
}

impl Eq for InvocationId {
    ghost use Rattle.std.specs.Cmp.Lexicographic.{nat_list_eq_equiv};

    ghost laws = { nat_list_eq_equiv };
}
