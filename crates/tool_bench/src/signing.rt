use crate::digest::Digest;
use crate::frames;
use crate::frames::with_frame;
use aws_auth::{
    OverrideError, SigV4OperationSigningConfig, SigV4SessionTokenNameOverride, SigV4Signer,
    SigV4SigningError, Signed, SigningInputs, SigningOptions,
};
use sigv4::event_stream::{SigningParams as EventParams, sign_empty_message, sign_message};
use sigv4::{
    SignableBody, SignableRequest, SignatureLocation, SigningOutput, SigningParams,
    SigningSettings, sign, v4,
};
use smithy_core::{
    Credentials, Headers, HttpRequest, Identity, Message, Moment, Region, SigningName,
};
use std::alloc::{AllocError, Global};

/// Signs a small request so many times, each a second after the last one.
pub fn signatures(alloc: Global, count: u32) -> anyhow::Result<Digest> {
    let identity = example_identity(alloc)?;
    let headers = example_headers(alloc)?;
    let mut digest = Digest::new();
    for number in 0..count {
        let settings = SigningSettings::new(alloc)?;
        let signature = signature_at(alloc, &identity, &headers, settings, number)?;
        digest = digest.with(signature.as_bytes());
    }
    Ok(digest)
}

/// Presigns a request without headers so many times, each a second after the last one.
pub fn presignatures(alloc: Global, count: u32) -> anyhow::Result<Digest> {
    let identity = example_identity(alloc)?;
    let headers = Headers::new(alloc);
    let mut digest = Digest::new();
    for number in 0..count {
        let settings = presigning_settings(alloc)?;
        let signature = signature_at(alloc, &identity, &headers, settings, number)?;
        digest = digest.with(signature.as_bytes());
    }
    Ok(digest)
}

// The settings of a signature in the query that is good for fifteen minutes.
fn presigning_settings(alloc: Global) -> Result<SigningSettings, AllocError> {
    Ok(SigningSettings {
        signature_location: SignatureLocation::QueryParams,
        expires_in: Some(900),
        ..SigningSettings::new(alloc)?
    })
}

// The signature of a small request so many seconds after the first.
fn signature_at(
    alloc: Global,
    identity: &Identity,
    headers: &Headers,
    settings: SigningSettings,
    number: u32,
) -> anyhow::Result<String> {
    let at = moment_of(number);
    let params = v4::SigningParams::new(identity, "us-east-1", "service", at, settings);
    signature_under(alloc, headers, &SigningParams::V4(params))
}

fn signature_under(
    alloc: Global,
    headers: &Headers,
    params: &SigningParams<'_>,
) -> anyhow::Result<String> {
    let request = SignableRequest::new(alloc, "GET", TARGET, headers, SignableBody::empty())?;
    let (_, signature) = sign(alloc, request, params)?.into_parts();
    Ok(signature)
}

/// The moment so many seconds after the first.
pub fn moment_of(number: u32) -> Moment {
    Moment::new(1_440_938_160 + i64::from(number), 0)
}

/// The target of the small request.
pub const TARGET: &str = "https://service.us-east-1.amazonaws.com/path";

/// Makes and signs the same request so many times by the inputs of its operation, each a second after the last one.
pub fn operations(alloc: Global, count: u32) -> anyhow::Result<Digest> {
    let identity = example_identity(alloc)?;
    let config = example_config(alloc)?;
    let inputs = SigningInputs::from(&config);
    let mut digest = Digest::new();
    for number in 0..count {
        let mut request = example_request(alloc)?;
        let at = moment_of(number);
        let signature = SigV4Signer::new().sign_alone(&mut request, &identity, &inputs, at)?;
        digest = digest.with(signature.as_bytes());
    }
    Ok(digest)
}

/// Does so with the signers that go on from each signature.
pub fn followed_operations(alloc: Global, count: u32) -> anyhow::Result<Digest> {
    let identity = example_identity(alloc)?;
    let config = example_config(alloc)?;
    let mut digest = Digest::new();
    for number in 0..count {
        let mut request = example_request(alloc)?;
        let signed = sign_operation(&mut request, &identity, &config, moment_of(number))?;
        digest = digest.with(signed.signature.as_bytes());
    }
    Ok(digest)
}

/// The small request.
pub fn example_request(alloc: Global) -> anyhow::Result<HttpRequest> {
    let mut request = HttpRequest::new(alloc, "GET", TARGET)?;
    request.headers = example_headers(alloc)?;
    Ok(request)
}

/// The config of the small request's operation.
pub fn example_config(alloc: Global) -> Result<SigV4OperationSigningConfig, AllocError> {
    let region = Region::new(String::from_str(alloc, "us-east-1")?);
    let name = SigningName::new(String::from_str(alloc, "service")?);
    Ok(SigV4OperationSigningConfig {
        region: Some(region),
        name: Some(name),
        signing_options: SigningOptions::default(),
    })
}

fn sign_operation(
    request: &mut HttpRequest,
    identity: &Identity,
    config: &SigV4OperationSigningConfig,
    at: Moment,
) -> Result<Signed, SigV4SigningError> {
    let inputs = SigningInputs::from(config);
    let name_override = SigV4SessionTokenNameOverride::new(usual_name);
    SigV4Signer::new().sign_http_request(request, identity, &inputs, at, Some(&name_override))
}

// Leaves the session token its usual name.
fn usual_name(
    _settings: &SigningSettings,
    _config: &SigV4OperationSigningConfig,
) -> Result<Option<String>, OverrideError> {
    Ok(None)
}

/// The headers of the small request.
pub fn example_headers(alloc: Global) -> Result<Headers, AllocError> {
    let mut headers = Headers::new(alloc);
    headers.insert("host", "service.us-east-1.amazonaws.com")?;
    headers.insert("content-type", "application/json")?;
    headers.insert("x-amz-target", "Service.Operation")?;
    Ok(headers)
}

/// Signs so many events with payloads of so many bytes, one over the other, and the empty message; writes their frames.
pub fn chain(alloc: Global, count: u32, size: usize) -> anyhow::Result<Digest> {
    let identity = example_identity(alloc)?;
    let at = Moment::new(1_440_938_160, 0);
    let params = v4::SigningParams::new(&identity, "us-east-1", "service", at, ());
    let event = frames::message_of(alloc, size)?;
    chain_of(alloc, &event, count, &params)
}

fn chain_of(
    alloc: Global,
    event: &Message,
    count: u32,
    params: &EventParams<'_>,
) -> anyhow::Result<Digest> {
    let mut chain = LinkedFrames {
        signature: String::new(alloc),
        frame: Vec::new(alloc),
        digest: Digest::new(),
    };
    for _ in 0..count {
        chain.sign(alloc, event, params)?;
    }
    chain.close(alloc, params)?;
    Ok(chain.digest)
}

// What a chain has come to: the last signature and its frame, and the digest of all signatures and frames.
#[derive(Drop)]
struct LinkedFrames {
    signature: String,
    frame: Vec<u8>,
    digest: Digest,
}

impl LinkedFrames {
    fn sign(
        &mut self,
        alloc: Global,
        event: &Message,
        params: &EventParams<'_>,
    ) -> anyhow::Result<()> {
        let signed = sign_message(alloc, event, self.signature.as_str(), params)?;
        self.push(alloc, signed)
    }

    fn close(&mut self, alloc: Global, params: &EventParams<'_>) -> anyhow::Result<()> {
        let signed = sign_empty_message(alloc, self.signature.as_str(), params)?;
        self.push(alloc, signed)
    }

    fn push(&mut self, alloc: Global, signed: SigningOutput<Message>) -> anyhow::Result<()> {
        let (message, signature) = signed.into_parts();
        let digest = self.digest.with(signature.as_bytes());
        self.digest = with_frame(alloc, digest, &message, &mut self.frame)?;
        self.signature = signature;
        Ok(())
    }
}

/// The credentials of AWS's examples.
pub fn example_identity(alloc: Global) -> Result<Identity, AllocError> {
    Ok(Identity::Credentials(Credentials::new(
        String::from_str(alloc, "AKIDEXAMPLE")?,
        String::from_str(alloc, "wJalrXUtnFEMI/K7MDENG+bPxRfiCYEXAMPLEKEY")?,
        None,
        None,
    )))
}
