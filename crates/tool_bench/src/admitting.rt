//! The work of a service's door.
use crate::digest::Digest;
use crate::signing::{TARGET, example_headers, example_identity, moment_of};
use request_door::{KeyList, Limits, admit};
use sigv4::{SignableRequest, SigningParams, SigningSettings, sign, v4};
use smithy_core::HttpRequest;
use std::alloc::Global;

/// Lets the small request in so many times, at the moment at which it was signed.
pub fn admissions(alloc: Global, count: u32) -> anyhow::Result<Digest> {
    let request = signed_request(alloc)?;
    let settings = SigningSettings::new(alloc)?;
    let keys = example_keys(alloc)?;
    let (now, limits) = (moment_of(0), Limits::new());
    let mut digest = Digest::new();
    for _ in 0..count {
        let admitted = admit(
            alloc,
            &request,
            &[],
            &settings,
            "us-east-1",
            "service",
            &keys,
            now,
            &limits,
        )?;
        digest = digest.with(admitted.signature.as_bytes());
    }
    Ok(digest)
}

// The small request, signed.
fn signed_request(alloc: Global) -> anyhow::Result<HttpRequest> {
    let identity = example_identity(alloc)?;
    let mut request = HttpRequest::new(alloc, "GET", TARGET)?;
    request.headers = example_headers(alloc)?;
    let settings = SigningSettings::new(alloc)?;
    let params = v4::SigningParams::new(&identity, "us-east-1", "service", moment_of(0), settings);
    let signable = SignableRequest::from_http_request(alloc, &request)?;
    let (instructions, _) = sign(alloc, signable, &SigningParams::V4(params))?.into_parts();
    instructions.apply_to_request(&mut request)?;
    Ok(request)
}

// The key of the small request.
fn example_keys(alloc: Global) -> anyhow::Result<KeyList> {
    let mut keys = KeyList::new(alloc);
    keys.push("AKIDEXAMPLE", "wJalrXUtnFEMI/K7MDENG+bPxRfiCYEXAMPLEKEY")?;
    Ok(keys)
}
