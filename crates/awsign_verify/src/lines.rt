//! What is printed of a request that a service lets in.
ghost use Rattle.std.specs.Prelude.{◌≡◌, ◌++◌, true, false, IfOk, IfSome, IsNone, OnOk};
ghost use Rattle.std.specs.String.{string_bytes};
ghost use Rattle.smithy_core.specs.Civil.{is_in_years};
ghost use Rattle.smithy_core.specs.Format.{formatted};
ghost use Rattle.smithy_core.specs.declared.format.Format.TheVariants.{DateTime};
ghost use Rattle.sigv4.specs.SecondHasher.{at_second};
ghost use Rattle.awsign_run.specs.Chosen.{signs_for_of};
ghost use Rattle.awsign_verify.specs.Verify.{payload_words, place_word, second_text, named_line, verified_text, what_lines, who_lines};

use awsign_run::Chosen;
use request_door::{Admitted, DoorPayload};
use sigv4::SignatureLocation;
use smithy_core::{Format, FormatFault, Mem, Moment, is_in_years, push_line};
use std::alloc::{AllocError, Global};

/// What is printed of a request that the service of a signer lets in: a line for each of key, region, service, place, moment, end, signed
/// headers and payload.
pub fn verified_text(alloc: Global, signer: &Chosen, admitted: &Admitted) -> Mem<Vec<u8>>
    ensures { IfOk result (λ text. text.items ≡ verified_text (signs_for_of signer.now) admitted.now) }
{
    let mut text = Vec::new(alloc);
    push_who(&mut text, signer, admitted)?;
    push_what(alloc, &mut text, admitted)?;
    Ok(text)
}

#[tactic(auto, unfolding(crate::specs::Verify::who_lines))]
fn push_who(text: &mut Vec<u8>, signer: &Chosen, admitted: &Admitted) -> Mem<()>
    ensures { OnOk result (text.new.items ≡ text.old.items ++ who_lines (signs_for_of signer.now) admitted.now) }
{
    push_named(text, "key", admitted.key_id.as_str())?;
    push_named(text, "region", signer.region.as_str())?;
    push_named(text, "service", signer.service.as_str())?;
    push_named(text, "place", place_word(admitted.place))
}

#[tactic(auto, unfolding(crate::specs::Verify::what_lines))]
fn push_what(alloc: Global, text: &mut Vec<u8>, admitted: &Admitted) -> Mem<()>
    ensures { OnOk result (text.new.items ≡ text.old.items ++ what_lines admitted.now) }
{
    push_moment(alloc, text, "signed", admitted.at)?;
    push_second(alloc, text, "until", admitted.until)?;
    push_named(text, "headers", admitted.names.as_str())?;
    push_named(text, "payload", payload_words(admitted.payload))
}

fn push_moment(alloc: Global, text: &mut Vec<u8>, name: &str, at: Moment) -> Mem<()>
    ensures { OnOk result (text.new.items ≡ text.old.items ++ named_line name.now (second_text at.secs)) }
{
    push_second(alloc, text, name, i128::from(at.secs()))
}

fn push_second(alloc: Global, text: &mut Vec<u8>, name: &str, secs: i128) -> Mem<()>
    ensures { OnOk result (text.new.items ≡ text.old.items ++ named_line name.now (second_text secs)) }
{
    let second = second_text(alloc, secs)?;
    push_named(text, name, second.as_str())
}

fn push_named(text: &mut Vec<u8>, name: &str, value: &str) -> Mem<()>
    ensures { OnOk result (text.new.items ≡ text.old.items ++ named_line name.now value.now) }
{
    text.extend_from_slice(name.as_bytes())?;
    text.extend_from_slice(b" ")?;
    push_line(text, value.as_bytes())
}

fn place_word(place: SignatureLocation) -> &'static str
    ensures { result.now ≡ place_word place }
{
    match place {
        SignatureLocation::Headers => "headers",
        SignatureLocation::QueryParams => "URL",
    }
}

fn payload_words(payload: DoorPayload) -> &'static str
    ensures { result.now ≡ payload_words payload }
{
    match payload {
        DoorPayload::Digest => "digest",
        DoorPayload::Unsigned => "unsigned",
        DoorPayload::UnsignedChunks => "unsigned chunks",
        DoorPayload::SignedChunks => "signed chunks",
    }
}

#[tactic(auto, unfolding(crate::specs::Verify::second_text))]
fn second_text(alloc: Global, secs: i128) -> Mem<String>
    ensures { IfOk result (λ text. string_bytes text ≡ second_text secs) }
{
    match moment_of_second(secs) {
        Some(at) => date_text(alloc, at),
        None => format!(in alloc; "{secs}"),
    }
}

// The moment at the start of a second in the years 0 to 9999.
#[tactic(auto, using(crate::proofs::TimeLemmas::unfit_years))]
fn moment_of_second(secs: i128) -> Option<Moment>
    ensures some { IfSome result (λ at. (at ≡ at_second secs) × (is_in_years (at_second secs) ≡ true)) }
    ensures none { IsNone result → is_in_years (at_second secs) ≡ false }
{
    let secs = i64::try_from(secs).ok()?;
    let at = Moment::new(secs, 0);
    if is_in_years(at) { Some(at) } else { None }
}

fn date_text(alloc: Global, at: Moment) -> Mem<String>
    ensures { IfOk result (λ text. string_bytes text ≡ formatted DateTime at) }
{
    match at.fmt(alloc, Format::DateTime) {
        Ok(text) => Ok(text),
        Err(FormatFault::OutOfRange | FormatFault::NoMemory) => Err(AllocError),
    }
}
