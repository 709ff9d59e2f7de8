ghost use Rattle.std.specs.Prelude.{◌≡◌, IfOk, MatchBool, string_bytes};
ghost use Rattle.request_door.specs.DoorCarried.{texts_carried};
ghost use Rattle.request_door.specs.DoorTerms.{LacksEnd, PassesScope, ReadsDoorTerms, TestsTime, good_from, good_until, region_end, service_end, stated_seconds, stated_terms};

use crate::carried::Carried;
use crate::fault::DoorFault;
use crate::limits::Limits;
use job_text::parse_u64;
use request_check::parts::{cut_end, key_id_before, stamped_moment};
use sigv4::SignatureLocation;
use sigv4::v4::credential_scope;
use smithy_core::{Mem, Moment};
use std::alloc::Global;

/// What the texts of a signature say.
#[derive(Clone, Copy)]
pub(crate) struct Terms<'a> {
    /// The key's id.
    pub(crate) key_id: &'a str,
    /// When the request was signed: a whole second.
    pub(crate) at: Moment,
    /// For how many seconds from then on a presigned target is good, and nothing in header form.
    pub(crate) seconds: u64,
}

/// What the texts say, for a region and a service.
pub(crate) fn read_terms<'a>(
    alloc: Global,
    texts: &Carried<'a>,
    region: &str,
    name: &str,
    limits: &Limits,
) -> Result<Terms<'a>, DoorFault>
    ensures { ReadsDoorTerms region.now name.now limits.now (texts_carried texts.now) result }
{
    let Some(at) = stamped_moment(texts.date) else {
        return Err(DoorFault::BadDate);
    };
    test_scope(alloc, texts.credential, region, name)?;
    let scope = credential_scope(alloc, at, region, name)?;
    let Some(key_id) = key_id_before(texts.credential, scope.as_str()) else {
        return Err(DoorFault::OtherDay);
    };
    let Some(seconds) = stated_seconds(texts) else {
        return Err(DoorFault::BadExpiry);
    };
    if seconds > limits.expiry {
        return Err(DoorFault::LongExpiry);
    }
    Ok(Terms {
        key_id,
        at,
        seconds,
    })
}

// Tests that a credential is for this region and service, of whatever day.
fn test_scope(alloc: Global, credential: &str, region: &str, name: &str) -> Result<(), DoorFault>
    ensures { PassesScope region.now name.now credential.now result }
{
    if lacks_end(credential, "/aws4_request") {
        return Err(DoorFault::BadCredential);
    }
    let service = service_end(alloc, name)?;
    if lacks_end(credential, service.as_str()) {
        return Err(DoorFault::OtherService);
    }
    let place = region_end(alloc, region, name)?;
    if lacks_end(credential, place.as_str()) {
        return Err(DoorFault::OtherRegion);
    }
    Ok(())
}

// Whether a text doesn't end so.
#[tactic(auto, using(crate::proofs::DoorTermLemmas::ends))]
fn lacks_end(text: &str, end: &str) -> bool
    ensures { MatchBool result (LacksEnd end.now text.now) (LacksEnd end.now text.now → ⊥) }
{
    match cut_end(text, end) {
        Some(_front) => false,
        None => true,
    }
}

// The end of a credential for a service.
fn service_end(alloc: Global, name: &str) -> Mem<String>
    ensures { IfOk result (λ text. string_bytes text ≡ service_end name.now) }
{
    let mut text = String::from_str(alloc, "/")?;
    text.push_str(name)?;
    text.push_str("/aws4_request")?;
    Ok(text)
}

// The end of a credential for a region and a service.
fn region_end(alloc: Global, region: &str, name: &str) -> Mem<String>
    ensures { IfOk result (λ text. string_bytes text ≡ region_end region.now name.now) }
{
    let mut text = String::from_str(alloc, "/")?;
    text.push_str(region)?;
    text.push_str("/")?;
    text.push_str(name)?;
    text.push_str("/aws4_request")?;
    Ok(text)
}

// The number of seconds that an expiry spells.
fn stated_seconds(texts: &Carried<'_>) -> Option<u64>
    ensures { result ≡ stated_seconds texts.now.place texts.now.expires.now }
{
    match texts.place {
        SignatureLocation::Headers => Some(0),
        SignatureLocation::QueryParams => parse_u64(texts.expires),
    }
}

/// The first second in which a request isn't good any more, where it is good at a moment.
pub(crate) fn timely_until(
    place: SignatureLocation,
    limits: &Limits,
    now: Moment,
    terms: &Terms<'_>,
) -> Result<i128, DoorFault>
    ensures { TestsTime place limits.now now (stated_terms terms.now) result }
{
    let second = i128::from(now.secs());
    if second < good_from(place, limits, terms) {
        return Err(DoorFault::TooEarly);
    }
    let until = good_until(place, limits, terms);
    if until <= second {
        return Err(DoorFault::TooLate);
    }
    Ok(until)
}

// The first second in which a request is good.
fn good_from(place: SignatureLocation, limits: &Limits, terms: &Terms<'_>) -> i128
    ensures { result ≡ good_from place limits.now (stated_terms terms.now) }
{
    match place {
        SignatureLocation::Headers => i128::from(terms.at.secs()) - i128::from(limits.skew),
        SignatureLocation::QueryParams => i128::from(terms.at.secs()),
    }
}

// The first second in which it isn't good any more.
fn good_until(place: SignatureLocation, limits: &Limits, terms: &Terms<'_>) -> i128
    ensures { result ≡ good_until place limits.now (stated_terms terms.now) }
{
    let at = i128::from(terms.at.secs());
    match place {
        SignatureLocation::Headers => at + i128::from(limits.skew) + 1,
        SignatureLocation::QueryParams => at + i128::from(terms.seconds),
    }
}
