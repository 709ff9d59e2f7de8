//! The work of signing under a key that is kept for its day.
use crate::digest::Digest;
use crate::frames;
use crate::frames::with_frame;
use crate::signing::{TARGET, example_headers, example_identity, moment_of};
use aws_auth::SigV4MessageSigner;
use eventstream::{SignMessage, SignMessageError};
use sigv4::{SignableBody, SignableRequest, SigningParams, SigningSettings, sign_with_key, v4};
use smithy_core::{Message, Region, SigningName};
use std::alloc::{AllocError, Global};

/// Signs a small request so many times, as a proxy does: with the same parameters, under one key.
pub fn signatures(alloc: Global, count: u32) -> anyhow::Result<Digest> {
    let identity = example_identity(alloc)?;
    let headers = example_headers(alloc)?;
    let settings = SigningSettings::new(alloc)?;
    let params = v4::SigningParams::new(&identity, "us-east-1", "service", moment_of(0), settings);
    let key = v4::signing_key_of(&params)?;
    let params = SigningParams::V4(params);
    let mut digest = Digest::new();
    for _ in 0..count {
        let request = SignableRequest::new(alloc, "GET", TARGET, &headers, SignableBody::empty())?;
        let (_, signature) = sign_with_key(alloc, request, &params, &key)?.into_parts();
        digest = digest.with(signature.as_bytes());
    }
    Ok(digest)
}

/// Signs so many events with payloads of so many bytes, one over the other, and the empty message; writes their frames.
pub fn chain(alloc: Global, count: u32, size: usize) -> anyhow::Result<Digest> {
    let event = frames::message_of(alloc, size)?;
    let mut chain = SignedFrames {
        signer: signer_of(alloc)?,
        frame: Vec::new(alloc),
        digest: Digest::new(),
    };
    chain.push_all(alloc, &event, count)
}

fn signer_of(alloc: Global) -> Result<SigV4MessageSigner<()>, AllocError> {
    let region = Region::new(String::from_str(alloc, "us-east-1")?);
    let name = SigningName::new(String::from_str(alloc, "service")?);
    let identity = example_identity(alloc)?;
    Ok(SigV4MessageSigner::new(String::new(alloc), identity, region, name, moment_of(0), ()))
}

// What a chain has come to: its signer, the last frame, and the digest of all signatures and frames.
#[derive(Drop)]
struct SignedFrames {
    signer: SigV4MessageSigner<()>,
    frame: Vec<u8>,
    digest: Digest,
}

impl SignedFrames {
    // Signs the event so many times and closes the chain, whose digest it gives.
    fn push_all(&mut self, alloc: Global, event: &Message, count: u32) -> anyhow::Result<Digest> {
        for _ in 0..count {
            let signed = self.signer.sign(event.try_clone()?, moment_of(0));
            self.push(alloc, signed)?;
        }
        if let Some(signed) = self.signer.sign_empty(moment_of(0)) {
            self.push(alloc, signed)?;
        }
        Ok(self.digest)
    }

    fn push(
        &mut self,
        alloc: Global,
        signed: Result<Message, SignMessageError>,
    ) -> anyhow::Result<()> {
        let message = signed?;
        let digest = self.digest.with(self.signer.running_signature().as_bytes());
        self.digest = with_frame(alloc, digest, &message, &mut self.frame)?;
        Ok(())
    }
}
