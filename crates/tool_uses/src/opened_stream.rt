//! A request that opens a stream, the events that follow it, and what a receiver makes of them.
use anyhow::bail;
use aws_auth::{
    SigV4MessageSigner, SigV4OperationSigningConfig, SigV4Signer, SigningInputs, SigningOptions,
};
use bytes::Bytes;
use event_io::{
    ListEvents, MessageStreamAdapter, Next, Received, Receiver, SignedEvent, SignedUnmarshaller,
};
use eventstream::{IdentityMarshaller, IdentityUnmarshaller};
use smithy_core::{
    CalmFrames, FixedClock, FramePart, HttpRequest, Identity, Message, Moment, Region, SigningName,
};
use std::alloc::Global;
use std::collections::VecDeque;

type Events = MessageStreamAdapter<
    ListEvents<Message, Message>,
    IdentityMarshaller,
    IdentityMarshaller,
    SigV4MessageSigner<()>,
>;

/// The frames that follow a request, which is signed in place: those of two events and of the end.
pub fn frames_after(
    alloc: Global,
    request: &mut HttpRequest,
    identity: &Identity,
    at: Moment,
) -> anyhow::Result<Vec<u8>> {
    let config = config_of(alloc)?;
    let inputs = SigningInputs::from(&config);
    let signed = SigV4Signer::new().sign(request, identity, &inputs, at)?;
    let (marshaller, signer) = (IdentityMarshaller, signed.message_signer);
    let items = ListEvents::new(items(alloc)?);
    let mut adapter = MessageStreamAdapter::new(alloc, marshaller, marshaller, signer, items);
    joined(alloc, &mut adapter, at)
}

fn config_of(alloc: Global) -> anyhow::Result<SigV4OperationSigningConfig> {
    Ok(SigV4OperationSigningConfig {
        region: Some(Region::from_str(alloc, "us-east-1")?),
        name: Some(SigningName::from_str(alloc, "transcribe")?),
        signing_options: SigningOptions::default(),
    })
}

fn items(alloc: Global) -> anyhow::Result<VecDeque<Result<Message, Message>>> {
    let mut items = VecDeque::new(alloc);
    items.push_back(Ok(Message::new(alloc, Bytes::from_static(b"hello"))))?;
    items.push_back(Ok(Message::new(alloc, Bytes::from_static(b"world"))))?;
    Ok(items)
}

fn joined(alloc: Global, adapter: &mut Events, at: Moment) -> anyhow::Result<Vec<u8>> {
    let mut clock = FixedClock::new(at);
    let mut moments = Vec::new(alloc);
    let mut frames = Vec::new(alloc);
    for _ in 0..u32::MAX {
        match adapter.poll_next(&mut clock, &mut moments)? {
            Next::Frame(frame) => frames.extend_from_slice(frame.as_slice())?,
            Next::NotYet => {}
            Next::End => return Ok(frames),
        }
    }
    bail!("the stream has too many events")
}

type SignedReceiver = Receiver<CalmFrames, SignedUnmarshaller<IdentityUnmarshaller>>;

/// How many events the signed frames hold before the one that ends the stream. No signature is checked: `watched_events` does that.
pub fn count_until_closed(alloc: Global, frames: &[u8]) -> anyhow::Result<usize> {
    let piece = FramePart::Data(Bytes::copy_from_slice(alloc, frames)?);
    let Some(body) = CalmFrames::checked(vec![in alloc; piece]?) else {
        bail!("the piece is too long");
    };
    let unmarshaller = SignedUnmarshaller::new(alloc, IdentityUnmarshaller);
    let mut receiver = Receiver::new(alloc, unmarshaller, body);
    counted(&mut receiver)
}

fn counted(receiver: &mut SignedReceiver) -> anyhow::Result<usize> {
    for events in 0..usize::MAX {
        match receiver.recv()? {
            Received::Event(SignedEvent::Event { .. }) => {}
            Received::Event(SignedEvent::Closing { .. }) => return Ok(events),
            _ => bail!("the stream ended before it was closed"),
        }
    }
    bail!("the stream has too many events")
}
