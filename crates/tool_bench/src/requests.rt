//! The work of signing whole requests: by parameters, and under a key that is kept for its day, by one call and by the calls below it.
use crate::digest::Digest;
use crate::signing::{example_identity, example_request, moment_of};
use aws_signing::Signer;
use sigv4::{
    SignableRequest, SigningParams, SigningSettings, sign_request, sign_request_with_key, v4,
};
use smithy_core::{Credentials, HttpRequest};
use std::alloc::Global;

/// Makes and signs the small request so many times by `sign_request`, each a second after the last one.
pub fn by_parameters(alloc: Global, count: u32) -> anyhow::Result<Digest> {
    let identity = example_identity(alloc)?;
    let mut digest = Digest::new();
    for number in 0..count {
        let mut request = example_request(alloc)?;
        let settings = SigningSettings::new(alloc)?;
        let at = moment_of(number);
        let params = v4::SigningParams::new(&identity, "us-east-1", "service", at, settings);
        let signature = sign_in_place(alloc, &mut request, &SigningParams::V4(params))?;
        digest = digest.with(signature.as_bytes());
    }
    Ok(digest)
}

// Signs a request, and puts the signature in.
fn sign_in_place(
    alloc: Global,
    request: &mut HttpRequest,
    params: &SigningParams<'_>,
) -> anyhow::Result<String> {
    let signable = SignableRequest::from_http_request(alloc, request)?;
    let (made, signature) = sign_request(alloc, &signable, params)?.into_parts();
    let uri = signable.into_uri();
    made.apply_to_parsed(request, &uri)?;
    Ok(signature)
}

/// Makes and signs the small request so many times by a signer, each a second after the last one.
pub fn by_signer(alloc: Global, count: u32) -> anyhow::Result<Digest> {
    let mut signer = example_signer(alloc)?;
    let mut digest = Digest::new();
    for number in 0..count {
        let mut request = example_request(alloc)?;
        let signature = signer.sign(&mut request, moment_of(number))?;
        digest = digest.with(signature.as_bytes());
    }
    Ok(digest)
}

/// Makes and signs the small request so many times by `sign_request_with_key`, with the same parameters, under one key.
pub fn by_key(alloc: Global, count: u32) -> anyhow::Result<Digest> {
    let identity = example_identity(alloc)?;
    let settings = SigningSettings::new(alloc)?;
    let params = v4::SigningParams::new(&identity, "us-east-1", "service", moment_of(0), settings);
    let key = v4::signing_key_of(&params)?;
    let params = SigningParams::V4(params);
    let mut digest = Digest::new();
    for _ in 0..count {
        let mut request = example_request(alloc)?;
        let signable = SignableRequest::from_http_request(alloc, &request)?;
        let signed = sign_request_with_key(alloc, &signable, &params, &key)?;
        let (made, signature) = signed.into_parts();
        let uri = signable.into_uri();
        made.apply_to_parsed(&mut request, &uri)?;
        digest = digest.with(signature.as_bytes());
    }
    Ok(digest)
}

fn example_signer(alloc: Global) -> anyhow::Result<Signer> {
    let key_id = String::from_str(alloc, "AKIDEXAMPLE")?;
    let secret = String::from_str(alloc, "wJalrXUtnFEMI/K7MDENG+bPxRfiCYEXAMPLEKEY")?;
    let credentials = Credentials::new(key_id, secret, None, None);
    Ok(Signer::new(alloc, &credentials, "us-east-1", "service")?)
}
