ghost use Rattle.std.specs.Prelude.{◌≡◌, ◌&&◌, not};
ghost use Rattle.sigv4.specs.Signature.{is_signature};
ghost use Rattle.request_check.specs.Carried.{CutsScope, ReadsAuthorization};
ghost use Rattle.request_check.specs.SealTexts.{has_space};

use crate::cuts::{cut_end, cut_last};
use crate::seal_texts::has_space;
use sigv4::parts::is_signature;

/// The parts of an `authorization` header.
#[derive(Clone, Copy)]
pub struct Authorization<'a> {
    /// The key id and the scope.
    pub credential: &'a str,
    /// The names of the signed headers, with `;` between.
    pub names: &'a str,
    /// The signature.
    pub signature: &'a str,
}

/// The parts of an authorization, which has one space after each comma. The key id may be any text, so they are cut from the end,
/// where they have one reading: the signature has 64 digits, and the names hold no space.
#[tactic(auto, using(crate::proofs::ReadingLemmas::unread_unmarked, crate::proofs::ReadingLemmas::unread_unnamed, crate::proofs::ReadingLemmas::unread_unlabelled, crate::proofs::ReadingLemmas::unread_unfit, crate::proofs::ReadingLemmas::read_so))]
pub fn read_authorization(text: &str) -> Option<Authorization<'_>>
    ensures { ReadsAuthorization text.now result }
{
    let (front, signature) = cut_last(text, ", Signature=")?;
    let (front, names) = cut_last(front, ", SignedHeaders=")?;
    let credential = front.strip_prefix("AWS4-HMAC-SHA256 Credential=")?;
    if are_names_and_signature(names, signature) {
        Some(Authorization {
            credential,
            names,
            signature,
        })
    } else {
        None
    }
}

/// Whether an authorization can have these names and this signature: the signature has 64 digits, and the names hold no space.
pub fn are_names_and_signature(names: &str, signature: &str) -> bool
    ensures { result ≡ (is_signature signature.now && not (has_space names.now)) }
{
    is_signature(signature) && !has_space(names)
}

/// The key id of a credential, which is followed by a slash and the scope.
#[tactic(auto, using(crate::proofs::SealLemmas::scope_uncut, crate::proofs::SealLemmas::slash_uncut, crate::proofs::SealLemmas::scope_cut))]
pub fn key_id_before<'a>(credential: &'a str, scope: &str) -> Option<&'a str>
    ensures { CutsScope scope.now credential.now result }
{
    cut_end(cut_end(credential, scope)?, "/")
}
