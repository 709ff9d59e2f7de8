//! A stream of events that is signed, each over the signature before it.
use anyhow::bail;
use aws_auth::SigV4MessageSigner;
use bytes::Bytes;
use event_io::{ListEvents, MessageStreamAdapter, Next};
use eventstream::IdentityMarshaller;
use smithy_core::{FixedClock, Identity, Message, Moment, Region, SigningName};
use std::alloc::Global;
use std::collections::VecDeque;

type Events = MessageStreamAdapter<
    ListEvents<Message, Message>,
    IdentityMarshaller,
    IdentityMarshaller,
    SigV4MessageSigner<()>,
>;

/// The frames of two events and of the end, one after another.
pub fn frames(alloc: Global, identity: Identity, at: Moment) -> anyhow::Result<Vec<u8>> {
    let signer = signer_of(alloc, identity, at)?;
    let marshaller = IdentityMarshaller;
    let items = ListEvents::new(items(alloc)?);
    let mut adapter = MessageStreamAdapter::new(alloc, marshaller, marshaller, signer, items);
    all_frames(alloc, &mut adapter, at)
}

fn all_frames(alloc: Global, adapter: &mut Events, at: Moment) -> anyhow::Result<Vec<u8>> {
    let mut clock = FixedClock::new(at);
    let mut moments = Vec::new(alloc);
    let mut frames = Vec::new(alloc);
    for _ in 0..u32::MAX {
        match adapter.poll_next(&mut clock, &mut moments)? {
            Next::Frame(frame) => frames.extend_from_slice(frame.as_slice())?,
            // Nothing has come yet: the next call goes on.
            Next::NotYet => {}
            Next::End => return Ok(frames),
        }
    }
    bail!("the stream has too many events")
}

// A signer that goes on from the signature of the request.
fn signer_of(
    alloc: Global,
    identity: Identity,
    at: Moment,
) -> anyhow::Result<SigV4MessageSigner<()>> {
    let (signature, region, name) = signed_for(alloc)?;
    Ok(SigV4MessageSigner::new(signature, identity, region, name, at, ()))
}

/// The signature of the request that opens the stream.
pub const SEED: &str = "c54b62272527f8b9970c8a395563b2c5be9a414bd0e0b0908885246d76fbc87a";

// The signature of the request, and the region and the name that it was signed for.
fn signed_for(alloc: Global) -> anyhow::Result<(String, Region, SigningName)> {
    let signature = String::from_str(alloc, SEED)?;
    let region = Region::new(String::from_str(alloc, "us-east-1")?);
    let name = SigningName::new(String::from_str(alloc, "transcribe")?);
    Ok((signature, region, name))
}

fn items(alloc: Global) -> anyhow::Result<VecDeque<Result<Message, Message>>> {
    let mut items = VecDeque::new(alloc);
    items.push_back(Ok(Message::new(alloc, Bytes::from_static(b"hello"))))?;
    items.push_back(Ok(Message::new(alloc, Bytes::from_static(b"world"))))?;
    Ok(items)
}
