ghost use Rattle.std.specs.Prelude.{◌≡◌, false};
ghost use Rattle.std.specs.List.{list_all};
ghost use Rattle.request_door.specs.DoorAuthorization.{CutsFirst, CutsLabel, ReadsDoorAuthorization, ReadsSpaced, begins_blank, is_optional_whitespace};

use request_check::parts::{Authorization, are_names_and_signature, cut_last, read_authorization};

/// The parts of an authorization, as `request_check` reads it, with one space after each comma, and where it reads none, with any
/// number of spaces and tabs there.
#[tactic(auto, using(crate::proofs::DoorReadingLemmas::door_first, crate::proofs::DoorReadingLemmas::door_second))]
pub(crate) fn door_authorization(text: &str) -> Option<Authorization<'_>>
    ensures { ReadsDoorAuthorization text.now result }
{
    match read_authorization(text) {
        Some(read) => Some(read),
        None => spaced_authorization(text),
    }
}

// The parts of an authorization with any blanks after its commas. They are cut from the end, since the key id may be any text:
// neither the names nor the signature hold a comma.
fn spaced_authorization(text: &str) -> Option<Authorization<'_>>
    ensures { ReadsSpaced text.now result }
{
    let (front, signed) = cut_last(text, ",")?;
    let (front, named) = cut_last(front, ",")?;
    let credential = front.strip_prefix("AWS4-HMAC-SHA256 Credential=")?;
    let names = labelled(named, "SignedHeaders=")?;
    let signature = labelled(signed, "Signature=")?;
    if are_names_and_signature(names, signature) {
        Some(Authorization {
            credential,
            names,
            signature,
        })
    } else {
        None
    }
}

// What stands behind blanks and a label.
#[tactic(auto, using(crate::proofs::DoorLabelLemmas::label_absent, crate::proofs::DoorLabelLemmas::label_behind, crate::proofs::DoorLabelLemmas::label_there))]
fn labelled<'a>(text: &'a str, label: &str) -> Option<&'a str>
    requires { begins_blank label.now ≡ false }
    ensures { CutsLabel label.now text.now result }
{
    let (front, labelled) = cut_first(text, label)?;
    if are_blank(front) {
        Some(labelled)
    } else {
        None
    }
}

// The text before and after the first place of a mark.
#[tactic(auto, using(crate::proofs::DoorCutLemmas::cuts_first))]
fn cut_first<'a>(text: &'a str, mark: &str) -> Option<(&'a str, &'a str)>
    ensures { CutsFirst mark.now text.now result }
{
    text.split_once(mark)
}

// Whether the text has spaces and tabs only.
fn are_blank(text: &str) -> bool
    ensures { result ≡ list_all is_optional_whitespace text.now }
{
    text.as_bytes()
        .iter()
        .all(|byte| *byte == b' ' || *byte == b'\t')
}
