//! All common uses over the crates below `aws_signing`: settings, a request in both forms, a checked URL, a signed upload, and three
//! events there and back.
use anyhow::bail;
use aws_auth::{
    PayloadSigningOverride, SigV4OperationSigningConfig, SigV4Signer, Signed, SigningInputs,
    SigningOptions,
};
use aws_chunked::{AwsChunkedBody, AwsChunkedBodyOptions, ChunkNext};
use aws_settings::AwsSettings;
use bytes::Bytes;
use chain_watch::check_chain;
use eventstream::{SignMessage, write_message_to};
use presign_check::check_presigned;
use sigv4::{SignChunk, SignableBody};
use smithy_core::{
    CalmFrames, Env, FramePart, Headers, HttpRequest, Identity, Message, Moment, Region,
    SigningName,
};
use std::alloc::{AllocError, Global};

const OBJECT: &str = "https://examplebucket.s3.amazonaws.com/test.txt";

/// The signature of a request for an object, until when a URL of it is good, how long an upload's body is, and how many events came back.
pub fn push_all(alloc: Global, text: &mut String, at: Moment) -> anyhow::Result<()> {
    let config = "[default]\nregion = us-east-1\n";
    let credentials = "[default]\naws_access_key_id = AKIDEXAMPLE\naws_secret_access_key = s\n";
    let settings = AwsSettings::from_texts(alloc, &Env::new(alloc), config, credentials)?;
    let identity = Identity::Credentials(settings.credentials);
    let mut request = HttpRequest::new(alloc, "GET", OBJECT)?;
    let options = SigningOptions::for_s3();
    let signature = sign_alone(alloc, &mut request, &identity, options, at)?;
    let until = good_until(alloc, &identity, at)?;
    let len = uploaded(alloc, &identity, at)?.len();
    let events = there_and_back(alloc, &identity, at)?;
    write!(
        text,
        "{signature}\ngood until {until}\n{len} bytes\n{events} events\n\n"
    )?;
    Ok(())
}

// Signs a request that nothing follows.
fn sign_alone(
    alloc: Global,
    request: &mut HttpRequest,
    identity: &Identity,
    options: SigningOptions,
    at: Moment,
) -> anyhow::Result<String> {
    let config = config_of(alloc, "s3", options)?;
    Ok(SigV4Signer::new().sign_alone(request, identity, &SigningInputs::from(&config), at)?)
}

// Signs a request that chunks or events follow.
fn sign(
    alloc: Global,
    request: &mut HttpRequest,
    identity: &Identity,
    service: &str,
    options: SigningOptions,
    at: Moment,
) -> anyhow::Result<Signed> {
    let config = config_of(alloc, service, options)?;
    Ok(SigV4Signer::new().sign(request, identity, &SigningInputs::from(&config), at)?)
}

fn config_of(
    alloc: Global,
    service: &str,
    signing_options: SigningOptions,
) -> Result<SigV4OperationSigningConfig, AllocError> {
    Ok(SigV4OperationSigningConfig {
        region: Some(Region::from_str(alloc, "us-east-1")?),
        name: Some(SigningName::from_str(alloc, service)?),
        signing_options,
    })
}

fn good_until(alloc: Global, identity: &Identity, at: Moment) -> anyhow::Result<i128> {
    let mut request = HttpRequest::new(alloc, "GET", OBJECT)?;
    let options = SigningOptions::presigned_for_s3(900);
    let settings = options.settings(alloc)?;
    sign_alone(alloc, &mut request, identity, options, at)?;
    let Some(credentials) = identity.credentials() else {
        bail!("the identity has no key")
    };
    Ok(check_presigned(
        alloc,
        &request,
        &settings,
        "us-east-1",
        "s3",
        &SignableBody::UnsignedPayload,
        credentials.access_key_id(),
        credentials.secret_access_key(),
        at,
    )?)
}

fn uploaded(alloc: Global, identity: &Identity, at: Moment) -> anyhow::Result<Vec<u8>> {
    let mut trailers = Headers::new(alloc);
    trailers.append("x-amz-checksum-crc32", "NhCmhg==")?;
    let mut request = HttpRequest::new(alloc, "PUT", OBJECT)?;
    let options = AwsChunkedBodyOptions::for_body(alloc, 5, &trailers, true)?;
    let payload = options.announce(alloc, &mut request.headers, &trailers)?;
    let mut signing_options = SigningOptions::for_s3();
    signing_options.payload_override = Some(PayloadSigningOverride::Precomputed(payload));
    let signed = sign(alloc, &mut request, identity, "s3", signing_options, at)?;
    let data = FramePart::Data(Bytes::from_static(b"hello"));
    let frames = vec![in alloc; data, FramePart::Trailers(trailers)]?;
    let body = AwsChunkedBody::new(alloc, CalmFrames::new(frames), options);
    all_of(alloc, &mut body.with_signer(signed.chunk_signer))
}

fn all_of<G: SignChunk>(
    alloc: Global,
    body: &mut AwsChunkedBody<CalmFrames, G>,
) -> anyhow::Result<Vec<u8>> {
    let mut text = Vec::new(alloc);
    for _ in 0..u32::MAX {
        match body.poll_frame()? {
            ChunkNext::Frame(bytes) => text.extend_from_slice(bytes.as_slice())?,
            ChunkNext::NotYet | ChunkNext::OutOfTurns => {}
            ChunkNext::End => return Ok(text),
        }
    }
    bail!("the body has too many frames")
}

fn there_and_back(alloc: Global, identity: &Identity, at: Moment) -> anyhow::Result<usize> {
    let mut request = HttpRequest::new(alloc, "POST", "https://transcribe.example/stream")?;
    let options = SigningOptions::default();
    let signed = sign(alloc, &mut request, identity, "transcribe", options, at)?;
    let mut signer = signed.message_signer;
    let mut frames = Vec::new(alloc);
    for text in ["one", "two", "three"] {
        let event = Message::new(alloc, Bytes::copy_from_slice(alloc, text.as_bytes())?);
        write_message_to(alloc, &signer.sign(event, at)?, &mut frames)?;
    }
    if let Some(end) = signer.sign_empty(at) {
        write_message_to(alloc, &end?, &mut frames)?;
    }
    let (seed, secret) = (signed.signature.as_str(), identity.secret());
    let events = check_chain(
        alloc,
        frames.as_slice(),
        seed,
        secret,
        "us-east-1",
        "transcribe",
    )?;
    Ok(events.len())
}
