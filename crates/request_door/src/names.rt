//! The names of the signed headers. Whoever sends a request chooses them, so they are tested before anything is hashed: the work of
//! the hash grows with their number.
ghost use Rattle.std.specs.Prelude.{◌≡◌, [], bytes_eq, codes, IfOk};
ghost use Rattle.std.specs.List.{list_all, list_any};
ghost use Rattle.sigv4.specs.Canonical.{excluded_token};
ghost use Rattle.request_check.specs.Recomputed.{carried_names};
ghost use Rattle.request_door.specs.DoorNames.{MeetsName, PassesNames, are_ordered_after, is_owed, is_signed_as_owed, is_there, name_tests, name_texts, is_text_before, unsigned_by_right};
ghost use Rattle.request_door.specs.DoorOrder.{PassesTests};

use crate::carried::has_header;
use crate::fault::DoorFault;
use crate::limits::Limits;
use sigv4::{SessionTokenMode, SignatureLocation};
use smithy_core::{Headers, Mem, is_lower_of};
use std::alloc::Global;
use std::cmp::Ordering;

/// Tests the names of the signed headers, which stand with `;` between.
pub(crate) fn test_names(
    alloc: Global,
    headers: &Headers,
    place: SignatureLocation,
    mode: SessionTokenMode,
    limits: &Limits,
    names: &str,
) -> Result<(), DoorFault>
    ensures { PassesNames place mode limits.now headers.now (carried_names names.now) result }
{
    let names = listed(alloc, names)?;
    test_listed(headers, place, mode, limits, names.as_slice())?;
    Ok(())
}

// The names that stand in a text.
fn listed<'a>(alloc: Global, names: &'a str) -> Mem<Vec<&'a str>>
    ensures { IfOk result (λ listed. name_texts listed.items ≡ carried_names names.now) }
{
    let mut listed = Vec::new(alloc);
    for name in names.split(';') {
        listed.push(name)?;
    }
    Ok(listed)
}

// Tests names one after another.
fn test_listed(
    headers: &Headers,
    place: SignatureLocation,
    mode: SessionTokenMode,
    limits: &Limits,
    names: &[&str],
) -> Result<(), DoorFault>
    ensures { PassesTests (MeetsName place mode limits.now headers.now (name_texts names.now)) name_tests result }
{
    if names.len() > limits.names {
        return Err(DoorFault::TooManyNames);
    }
    if !are_ordered(names) {
        return Err(DoorFault::BadNames);
    }
    if !are_there(headers, names) {
        return Err(DoorFault::AbsentHeader);
    }
    if !is_listed(names, "host") {
        return Err(DoorFault::UnsignedHost);
    }
    if !are_signed_as_owed(headers, place, mode, names) {
        return Err(DoorFault::UnsignedHeader);
    }
    Ok(())
}

// Whether the names are in lower case, and each comes before the next.
fn are_ordered(names: &[&str]) -> bool
    ensures { result ≡ are_ordered_after [] (name_texts names.now) }
{
    let mut last: &[u8] = &[];
    for name in names {
        if !is_before(last, name.as_bytes()) || !is_lower_of(name, name) {
            return false;
        }
        last = name.as_bytes();
    }
    true
}

// Whether a text comes before another, byte by byte.
fn is_before(first: &[u8], second: &[u8]) -> bool
    ensures { result ≡ is_text_before first.now second.now }
{
    match first.cmp(second) {
        Ordering::Less => true,
        Ordering::Equal | Ordering::Greater => false,
    }
}

// Whether there is a header of each of the names.
fn are_there(headers: &Headers, names: &[&str]) -> bool
    ensures { result ≡ list_all (is_there headers.now) (name_texts names.now) }
{
    for name in names {
        if !is_there(headers, name) {
            return false;
        }
    }
    true
}

// Whether there is a header of the name, or it is the host's.
fn is_there(headers: &Headers, name: &str) -> bool
    ensures { result ≡ is_there headers.now name.now }
{
    name == "host" || has_header(headers, name)
}

// Whether the name is one of these.
fn is_listed(names: &[&str], name: &str) -> bool
    ensures { result ≡ list_any (bytes_eq name.now) (name_texts names.now) }
{
    for other in names {
        if name == *other {
            return true;
        }
    }
    false
}

// Whether each header that has to be signed is.
fn are_signed_as_owed(
    headers: &Headers,
    place: SignatureLocation,
    mode: SessionTokenMode,
    names: &[&str],
) -> bool
    ensures { result ≡ list_all (is_signed_as_owed place mode (name_texts names.now)) headers.now }
{
    for (name, _) in headers.iter() {
        if is_owed(place, mode, name) && !is_listed(names, name) {
            return false;
        }
    }
    true
}

// Whether a header of this name has to be signed.
fn is_owed(place: SignatureLocation, mode: SessionTokenMode, name: &str) -> bool
    ensures { result ≡ is_owed place mode name.now }
{
    name.starts_with("x-amz-") && !is_unsigned_by_right(place, mode, name)
}

// Whether a header of this name needn't be signed.
fn is_unsigned_by_right(place: SignatureLocation, mode: SessionTokenMode, name: &str) -> bool
    ensures { result ≡ list_any (bytes_eq name.now) (unsigned_by_right place mode) }
{
    match place {
        SignatureLocation::Headers => is_token_by_right(mode, name),
        SignatureLocation::QueryParams => {
            name == "x-amz-user-agent"
                || name == "x-amz-checksum-mode"
                || is_token_by_right(mode, name)
        }
    }
}

// Whether a header of this name is that of a token which is added after signing.
fn is_token_by_right(mode: SessionTokenMode, name: &str) -> bool
    ensures { result ≡ list_any (bytes_eq name.now) (excluded_token mode (codes "x-amz-security-token")) }
{
    match mode {
        SessionTokenMode::Include => false,
        SessionTokenMode::Exclude => name == "x-amz-security-token",
    }
}
