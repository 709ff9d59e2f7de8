//! A service's door for presigned URLs.
use anyhow::bail;
use presign_check::check_presigned;
use request_check::{Seal, seal_of};
use sigv4::{SignableBody, SigningSettings};
use smithy_core::{Headers, HttpRequest, Moment};
use std::alloc::Global;

/// The first second in which a request with a presigned target isn't good any more, where the service acts on it, or else why
/// not. The names are tested before the signature is computed, since the work grows with them.
pub fn admit(
    alloc: Global,
    request: &HttpRequest,
    key_id: &str,
    secret: &str,
    now: Moment,
) -> anyhow::Result<i128> {
    if request.method.as_str() != "GET" {
        bail!("another method than GET");
    }
    let Some(seal) = seal_of(alloc, request, "us-east-1", "service")? else {
        bail!("no signature for this service");
    };
    if !are_signed(seal.names(), &request.headers) {
        bail!("a header isn't signed, or names aren't in order");
    }
    if !is_short(&seal) {
        bail!("no expiry of at most 7 days");
    }
    good_until(alloc, request, key_id, secret, now)
}

// Until when the request is good, with the digest of the body that came.
fn good_until(
    alloc: Global,
    request: &HttpRequest,
    key_id: &str,
    secret: &str,
    now: Moment,
) -> anyhow::Result<i128> {
    let settings = SigningSettings::new(alloc)?;
    let body = SignableBody::Bytes(request.body.as_slice());
    let until = check_presigned(
        alloc,
        request,
        &settings,
        "us-east-1",
        "service",
        &body,
        key_id,
        secret,
        now,
    )?;
    Ok(until)
}

/// The longest that AWS lets a presigned request be good, in seconds: 7 days. Signing takes any expiry.
const LONGEST: u64 = 604_800;

// Whether the target has an expiry that isn't too long.
fn is_short(seal: &Seal) -> bool {
    match seal.expires() {
        Some(seconds) => seconds <= LONGEST,
        None => false,
    }
}

/// Whether the names are in order, and the host and each of AWS's headers are among them: the signature covers no other header.
pub fn are_signed(names: &str, headers: &Headers) -> bool {
    if !are_in_order(names) || !is_named(names, "host") {
        return false;
    }
    for (name, _) in headers.iter() {
        if name.starts_with("x-amz-") && !is_named(names, name) {
            return false;
        }
    }
    true
}

// A name that stands twice would make whoever checks the request work twice.
fn are_in_order(names: &str) -> bool {
    let mut last: &[u8] = &[];
    for name in names.split(';') {
        let name = name.as_bytes();
        if name <= last {
            return false;
        }
        last = name;
    }
    true
}

fn is_named(names: &str, name: &str) -> bool {
    for signed in names.split(';') {
        if signed == name {
            return true;
        }
    }
    false
}
