//! A stream of which each part is called by hand: the request's signer, a deferred signer that is handed the one of
//! messages, and the polls of an adapter.
use crate::jobs::{clock_of, env_of, input_of};
use crate::streams::source_of;
use aws_auth::{
    OverrideError, SigV4MessageSigner, SigV4OperationSigningConfig, SigV4SessionTokenNameOverride,
    SigV4Signer, SigV4SigningError, Signed, SigningInputs, SigningOptions,
};
use bytes::Bytes;
use event_io::{ListEvents, MessageStreamAdapter, Next};
use eventstream::{DeferredSigner, IdentityMarshaller, SignMessage};
use signed_stream::{Job, Settings, read_job, read_settings};
use sigv4::SigningSettings;
use smithy_core::{Clock, HttpRequest, Identity, ListClock, Mem, Message, Region, SigningName};
use std::alloc::Global;
use std::collections::VecDeque;
use tool_case_lines::unknown;

/// The frames of a job's events and the closing one, for a service.
pub fn answer(alloc: Global, words: &[&str]) -> Mem<String> {
    let [name, lines @ ..] = words else {
        return unknown(alloc);
    };
    match read_job(alloc, input_of(alloc, lines)?.as_slice()) {
        Ok(mut job) => of_job(alloc, name, &mut job, lines),
        Err(_) => unknown(alloc),
    }
}

fn of_job(alloc: Global, name: &str, job: &mut Job, lines: &[&str]) -> Mem<String> {
    let env = env_of(alloc, lines)?;
    let source = source_of(alloc, job)?;
    match read_settings(alloc, &source, &env, None) {
        Ok(settings) => under(alloc, name, settings, job, lines),
        Err(_) => unknown(alloc),
    }
}

fn under(
    alloc: Global,
    name: &str,
    settings: Settings,
    job: &mut Job,
    lines: &[&str],
) -> Mem<String> {
    let identity = Identity::Credentials(settings.credentials);
    let config = config_of(alloc, name, settings.region)?;
    let mut clock = clock_of(alloc, lines)?;
    match sign(&mut job.request, &identity, &config, &mut clock) {
        Ok(signed) => frames_of(alloc, signed.message_signer, job, &mut clock),
        Err(_) => unknown(alloc),
    }
}

fn sign(
    request: &mut HttpRequest,
    identity: &Identity,
    config: &SigV4OperationSigningConfig,
    clock: &mut ListClock,
) -> Result<Signed, SigV4SigningError> {
    let inputs = SigningInputs {
        config: Some(config),
        endpoint: None,
        name: None,
        region: None,
        payload: None,
        skew_millis: None,
    };
    let no_name = SigV4SessionTokenNameOverride::new(no_override);
    SigV4Signer::new().sign_http_request(request, identity, &inputs, clock.now(), Some(&no_name))
}

fn no_override(
    _settings: &SigningSettings,
    _config: &SigV4OperationSigningConfig,
) -> Result<Option<String>, OverrideError> {
    Ok(None)
}

fn config_of(alloc: Global, name: &str, region: Region) -> Mem<SigV4OperationSigningConfig> {
    Ok(SigV4OperationSigningConfig {
        region: Some(region),
        name: Some(SigningName::new(String::from_str(alloc, name)?)),
        signing_options: SigningOptions::default(),
    })
}

fn frames_of(
    alloc: Global,
    signer: SigV4MessageSigner<()>,
    job: &Job,
    clock: &mut ListClock,
) -> Mem<String> {
    let source = items_of(alloc, job.events.as_slice())?;
    let mut deferred = DeferredSigner::new();
    deferred.wire(Box::new(alloc, signer)?);
    let mut adapter = MessageStreamAdapter::new(
        alloc,
        IdentityMarshaller,
        IdentityMarshaller,
        deferred,
        source,
    );
    polls(alloc, &mut adapter, clock, job.events.len())
}

fn items_of(alloc: Global, events: &[Message]) -> Mem<ListEvents<Message, Message>> {
    let mut items = VecDeque::new(alloc);
    for event in events {
        items.push_back(Ok(event.try_clone()?))?;
    }
    Ok(ListEvents::new(items))
}

// The frames of so many events and the one that ends the stream, or those before the first refusal.
fn polls<G: SignMessage>(
    alloc: Global,
    adapter: &mut MessageStreamAdapter<
        ListEvents<Message, Message>,
        IdentityMarshaller,
        IdentityMarshaller,
        G,
    >,
    clock: &mut ListClock,
    events: usize,
) -> Mem<String> {
    let mut moments = Vec::new(alloc);
    let mut text = String::new(alloc);
    for _ in 0..events.saturating_add(1) {
        match adapter.poll_next(clock, &mut moments) {
            Ok(Next::Frame(frame)) => push_frame(alloc, &mut text, &frame)?,
            _ => break,
        }
    }
    Ok(text)
}

fn push_frame(alloc: Global, text: &mut String, frame: &Bytes) -> Mem<()> {
    let digits = hex::encode(alloc, frame.as_slice())?;
    write!(text, "{digits}\\n")
}
