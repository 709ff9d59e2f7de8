//! The texts of what a caller lends.
ghost use Rattle.std.specs.Prelude.{◌≡◌, ◌⊎◌, ◌++◌, ◌∷◌, [], true, false, map, OnOk, MatchResult, string_bytes};
ghost use Rattle.std.specs.Str.{is_utf8};
ghost use Rattle.std.specs.List.{list_all};
ghost use Rattle.smithy_core.specs.Civil.{is_in_years};
ghost use Rattle.firuvaik_c.specs.Asked.{is_text_field, lent_header, lent_pair};
ghost use Rattle.firuvaik_c.specs.Faults.{beyond_years, no_memory, not_text};

use crate::fault::{Fault, plain};
use crate::lent::{Field, Text};
use smithy_core::{Env, Headers, Mem, Moment, is_in_years};
use std::alloc::Global;

/// The text of bytes that are UTF-8.
#[tactic(auto, using(smithy_core::proofs::TextLemmas::is_text, smithy_core::proofs::TextLemmas::no_text))]
pub(crate) fn text_of(bytes: &[u8]) -> Result<&str, Fault>
    ensures { MatchResult result (λ text. (is_utf8 bytes.now ≡ true) × (text.now ≡ bytes.now)) (λ fault. (is_utf8 bytes.now ≡ false) × (fault ≡ not_text)) }
{
    match std::str::from_utf8(bytes) {
        Ok(text) => Ok(text),
        Err(_) => Err(plain(3)),
    }
}

/// Whether a moment lies in the years 0 to 9999.
pub(crate) fn test_years(at: Moment) -> Result<(), Fault>
    ensures { MatchResult result (λ _. is_in_years at ≡ true) (λ fault. (is_in_years at ≡ false) × (fault ≡ beyond_years)) }
{
    if !is_in_years(at) {
        return Err(plain(5));
    }
    Ok(())
}

/// The headers of fields that are texts.
#[tactic(auto, using(std::proofs::lemmas::List::Folds::list_all_more, std::proofs::lemmas::List::Folds::list_all_at))]
pub(crate) fn headers_of(alloc: Global, fields: &[Field<'_>]) -> Result<Headers, Fault>
    ensures { MatchResult result
        (λ headers. (list_all is_text_field fields.now ≡ true) × (headers ≡ map lent_header fields.now))
        (λ fault. ((list_all is_text_field fields.now ≡ false) × (fault ≡ not_text)) ⊎ (fault ≡ no_memory)) }
{
    let mut headers = Headers::new(alloc);
    for field in fields {
        let name = text_of(field.name)?;
        let value = text_of(field.value)?;
        headers.append(name, value)?;
    }
    Ok(headers)
}

/// The variables of fields that are texts.
#[tactic(auto, using(std::proofs::lemmas::List::Folds::list_all_more, std::proofs::lemmas::List::Folds::list_all_at))]
pub(crate) fn variables_of(alloc: Global, fields: &[Field<'_>]) -> Result<Env, Fault>
    ensures { MatchResult result
        (λ env. (list_all is_text_field fields.now ≡ true) × (env ≡ map lent_pair fields.now))
        (λ fault. ((list_all is_text_field fields.now ≡ false) × (fault ≡ not_text)) ⊎ (fault ≡ no_memory)) }
{
    let mut env = Env::new(alloc);
    for field in fields {
        let name = text_of(field.name)?;
        let value = text_of(field.value)?;
        env.set(name, value)?;
    }
    Ok(env)
}

/// Copies of the names, where they are texts.
#[tactic(auto, using(std::proofs::lemmas::List::Folds::list_all_more, std::proofs::lemmas::List::Folds::list_all_at))]
pub(crate) fn names_of(alloc: Global, names: &[Text<'_>]) -> Result<Vec<String>, Fault>
    ensures { MatchResult result
        (λ copies. (list_all (λ name. is_utf8 name.bytes.now) names.now ≡ true) × (map string_bytes copies.items ≡ map (λ name. name.bytes.now) names.now))
        (λ fault. ((list_all (λ name. is_utf8 name.bytes.now) names.now ≡ false) × (fault ≡ not_text)) ⊎ (fault ≡ no_memory)) }
{
    let mut copies = Vec::new(alloc);
    for name in names {
        let text = text_of(name.bytes)?;
        push_copy(&mut copies, text)?;
    }
    Ok(copies)
}

fn push_copy(copies: &mut Vec<String>, text: &str) -> Mem<()>
    ensures { OnOk result (map string_bytes copies.new.items ≡ map string_bytes copies.old.items ++ text.now ∷ []) }
{
    let copy = String::from_str(*copies.allocator(), text)?;
    copies.push(copy)?;
    Ok(())
}
