//! An upload in signed chunks, with a trailer behind them, and the request that announces it.
use crate::chunked_upload::text_of;
use aws_auth::{
    PayloadSigningOverride, SigV4OperationSigningConfig, SigV4Signer, Signed, SigningInputs,
    SigningOptions,
};
use aws_chunked::{AwsChunkedBody, AwsChunkedBodyOptions};
use bytes::Bytes;
use smithy_core::{
    CalmFrames, FramePart, Headers, HttpRequest, Identity, Moment, Region, SigningName,
};
use std::alloc::Global;

/// The text of a body that follows a request, which announces it and is signed in place.
pub fn body_after(
    alloc: Global,
    request: &mut HttpRequest,
    identity: &Identity,
    at: Moment,
) -> anyhow::Result<Vec<u8>> {
    let mut trailers = Headers::new(alloc);
    trailers.append("x-amz-checksum-crc32", "NhCmhg==")?;
    let options = AwsChunkedBodyOptions::for_body(alloc, 5, &trailers, true)?;
    let payload = options.announce(alloc, &mut request.headers, &trailers)?;
    let signed = sign_over(alloc, request, identity, payload, at)?;
    let frames = vec![in alloc;
        FramePart::Data(Bytes::from_static(b"hello")),
        FramePart::Trailers(trailers),
    ]?;
    let source = CalmFrames::new(frames);
    let body = AwsChunkedBody::new(alloc, source, options);
    let mut body = body.with_signer(signed.chunk_signer);
    text_of(alloc, &mut body)
}

// Signs a request over this text, which stands for its payload.
fn sign_over(
    alloc: Global,
    request: &mut HttpRequest,
    identity: &Identity,
    payload: String,
    at: Moment,
) -> anyhow::Result<Signed> {
    let mut signing_options = SigningOptions::for_s3();
    signing_options.payload_override = Some(PayloadSigningOverride::Precomputed(payload));
    let config = SigV4OperationSigningConfig {
        region: Some(Region::from_str(alloc, "us-east-1")?),
        name: Some(SigningName::from_str(alloc, "s3")?),
        signing_options,
    };
    let inputs = SigningInputs::from(&config);
    Ok(SigV4Signer::new().sign(request, identity, &inputs, at)?)
}
