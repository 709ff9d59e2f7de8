//! Uses of each crate, every one a function to copy: first steps by one crate, the same by those below it, requests that are signed,
//! presigned and checked, a stream of events that is signed, received and watched, settings of profile files, a body in chunks, a
//! service that takes uploads, and an operation with its attempts.
//! `docs/CALLING.md` shows them. The program runs each once and prints what came of it.
#![tactic(auto)]

mod attempts;
mod chunked_upload;
mod first_steps;
mod lower_crates;
mod opened_stream;
mod operation;
mod own_settings;
mod presigned_door;
mod profile_settings;
mod received_events;
mod refusals;
mod served;
mod service_door;
mod shown;
mod signed_events;
mod signed_requests;
mod signed_upload;
mod watched_events;

use crate::operation::{BusyAtFirst, list_users};
use crate::presigned_door::admit;
use crate::shown::{push_lines, push_request};
use crate::watched_events::{EventCount, pieces_of, watch_stream};
use aws_intercept::{
    ConfigBag, InvocationId, PredefinedInvocationIdGenerator, RecursionDetectionInterceptor,
    ServiceClockSkewInterceptor,
};
use aws_signing::Signer;
use chain_watch::ChainWatch;
use smithy_core::{
    CalmDisk, Credentials, Env, ErrorMetadata, FixedClock, Headers, HttpRequest, HttpResponse,
    Identity, Moment,
};
use std::alloc::{AllocError, Global};
use std::io;
use std::process::ExitCode;

/// The id of the key of AWS's examples.
const KEY_ID: &str = "AKIDEXAMPLE";

/// The secret of AWS's examples.
const SECRET: &str = "wJalrXUtnFEMI/K7MDENG+bPxRfiCYEXAMPLEKEY";

fn main(rt: HostRuntime) -> io::Result<ExitCode> {
    match uses(rt.alloc()) {
        Ok(text) => {
            print!(rt; "{text}")?;
            Ok(ExitCode::SUCCESS)
        }
        Err(error) => {
            eprintln!(rt; "{error}")?;
            Ok(ExitCode::from(1))
        }
    }
}

// What comes of each use.
fn uses(alloc: Global) -> anyhow::Result<String> {
    let mut text = String::new(alloc);
    push_first(alloc, &mut text, object_moment())?;
    lower_crates::push_all(alloc, &mut text, Moment::new(1_440_938_160, 0))?;
    refusals::push_all(alloc, &mut text, example_moment())?;
    push_put_url(alloc, &mut text)?;
    push_requests(alloc, &mut text, &example_identity(alloc)?)?;
    push_events(alloc, &mut text)?;
    push_lines(alloc, &mut text, chunked_upload::body(alloc)?.as_slice())?;
    push_followed(alloc, &mut text, &example_identity(alloc)?)?;
    served::push_answers(alloc, &mut text)?;
    text.push('\n')?;
    push_region(alloc, &mut text)?;
    push_outcome(alloc, &mut text)?;
    push_operation(alloc, &mut text)?;
    Ok(text)
}

// The first steps, at the moment of AWS's examples for Amazon S3.
fn push_first(alloc: Global, text: &mut String, at: Moment) -> anyhow::Result<()> {
    let settings = first_steps::settings(alloc)?;
    let region = settings.region.as_str();
    let mut signer = Signer::for_s3(alloc, &settings.credentials, region)?;
    let request = first_steps::signed(alloc, &mut signer, at)?;
    push_request(text, &request)?;
    let url = first_steps::presigned(&mut signer, at)?;
    let key_id = first_steps::signed_by(alloc, &signer, url.as_str(), at)?;
    write!(text, "{url}\nby {key_id}\n\n")?;
    push_upload(alloc, text, &mut signer, at)?;
    push_three_events(alloc, text, &signer, at)
}

// The request of an upload, and its pieces.
fn push_upload(
    alloc: Global,
    text: &mut String,
    signer: &mut Signer,
    at: Moment,
) -> anyhow::Result<()> {
    let (request, pieces) = first_steps::upload(alloc, signer, at)?;
    push_request(text, &request)?;
    for piece in pieces {
        push_piece(alloc, text, piece.as_slice())?;
    }
    text.push('\n')?;
    Ok(())
}

// A piece, or how long it is.
fn push_piece(alloc: Global, text: &mut String, piece: &[u8]) -> anyhow::Result<()> {
    if piece.len() > 200 {
        write!(text, "{} bytes\n", piece.len())?;
        return Ok(());
    }
    push_lines(alloc, text, piece)?;
    Ok(())
}

// How many messages and how many events three events and their end are, behind a request of this signature.
fn push_three_events(
    alloc: Global,
    text: &mut String,
    signer: &Signer,
    at: Moment,
) -> anyhow::Result<()> {
    let seed = signed_events::SEED;
    let frames = first_steps::frames(alloc, signer, seed, at)?;
    let (messages, events) = first_steps::counts(alloc, signer, seed, frames)?;
    write!(text, "{messages} messages, {events} events\n\n")?;
    Ok(())
}

fn push_requests(alloc: Global, text: &mut String, identity: &Identity) -> anyhow::Result<()> {
    push_signed(alloc, text, identity)?;
    push_presigned(alloc, text, identity)
}

fn push_signed(alloc: Global, text: &mut String, identity: &Identity) -> anyhow::Result<()> {
    let request = signed_requests::signed(alloc, identity, example_moment())?;
    push_request(text, &request)?;
    let is_good = signed_requests::is_good(alloc, &request, SECRET, example_moment())?;
    let is_good_later = signed_requests::is_good(alloc, &request, SECRET, hour_later())?;
    write!(text, "good: {is_good}, an hour later: {is_good_later}\n\n")?;
    Ok(())
}

fn push_presigned(alloc: Global, text: &mut String, identity: &Identity) -> anyhow::Result<()> {
    let request = signed_requests::presigned(alloc, identity, example_moment())?;
    push_checked(alloc, text, &request)
}

fn push_checked(alloc: Global, text: &mut String, request: &HttpRequest) -> anyhow::Result<()> {
    push_request(text, request)?;
    push_admitted(alloc, text, request, example_moment())?;
    push_admitted(alloc, text, request, hour_later())?;
    text.push('\n')?;
    Ok(())
}

fn push_admitted(
    alloc: Global,
    text: &mut String,
    request: &HttpRequest,
    now: Moment,
) -> anyhow::Result<()> {
    match admit(alloc, request, KEY_ID, SECRET, now) {
        Ok(until) => write!(text, "good until {until}\n")?,
        Err(fault) => write!(text, "{fault}\n")?,
    }
    Ok(())
}

fn push_events(alloc: Global, text: &mut String) -> anyhow::Result<()> {
    let frames = signed_events::frames(alloc, example_identity(alloc)?, example_moment())?;
    let count = received_events::count(alloc, frames.as_slice())?;
    write!(text, "{} bytes, {count} messages\n", frames.len())?;
    push_watched(alloc, text, frames.as_slice())?;
    push_watched(alloc, text, changed(frames).as_slice())?;
    text.push('\n')?;
    Ok(())
}

// The place of a byte of the second event.
const CHANGED: usize = 195;

fn changed(mut frames: Vec<u8>) -> Vec<u8> {
    if CHANGED < frames.len() {
        frames[CHANGED] ^= 1;
    }
    frames
}

fn push_watched(alloc: Global, text: &mut String, frames: &[u8]) -> anyhow::Result<()> {
    let seed = signed_events::SEED;
    let watch = ChainWatch::new(alloc, seed, SECRET, "us-east-1", "transcribe")?;
    let mut count = EventCount { events: 0 };
    let watched = watch_stream(alloc, watch, pieces_of(alloc, frames)?, &mut count);
    write!(text, "events: {}, then ", count.events)?;
    match watched {
        Ok(()) => text.push_str("the end\n")?,
        Err(fault) => write!(text, "{fault}\n")?,
    }
    Ok(())
}

// A stream and an upload, each with the request that it follows.
fn push_followed(alloc: Global, text: &mut String, identity: &Identity) -> anyhow::Result<()> {
    push_stream(alloc, text, identity)?;
    let target = "https://bucket.s3.amazonaws.com/a//key";
    let mut request = HttpRequest::new(alloc, "PUT", target)?;
    let body = signed_upload::body_after(alloc, &mut request, identity, example_moment())?;
    push_request(text, &request)?;
    push_lines(alloc, text, body.as_slice())?;
    Ok(())
}

fn push_stream(alloc: Global, text: &mut String, identity: &Identity) -> anyhow::Result<()> {
    let target = "https://transcribestreaming.us-east-1.amazonaws.com/stream-transcription";
    let mut request = HttpRequest::new(alloc, "POST", target)?;
    let frames = opened_stream::frames_after(alloc, &mut request, identity, example_moment())?;
    push_request(text, &request)?;
    let count = opened_stream::count_until_closed(alloc, frames.as_slice())?;
    write!(text, "{} bytes, {count} events\n\n", frames.len())?;
    Ok(())
}

fn push_region(alloc: Global, text: &mut String) -> anyhow::Result<()> {
    match example_region(alloc)? {
        Some(region) => write!(text, "region {region}\n\n")?,
        None => text.push_str("no region\n\n")?,
    }
    Ok(())
}

fn example_region(alloc: Global) -> anyhow::Result<Option<String>> {
    let env = example_env(alloc)?;
    let mut disk = example_disk(alloc)?;
    profile_settings::region_of(alloc, &env, &mut disk)
}

fn example_env(alloc: Global) -> anyhow::Result<Env> {
    let mut env = Env::new(alloc);
    env.set("HOME", "/home/a")?;
    env.set("AWS_PROFILE", "night")?;
    Ok(env)
}

fn example_disk(alloc: Global) -> anyhow::Result<CalmDisk> {
    let path = String::from_str(alloc, "/home/a/.aws/config")?;
    let text = String::from_str(
        alloc,
        "[default]\nregion = us-east-1\n[profile night]\nregion = eu-west-1\n",
    )?;
    Ok(CalmDisk::new(vec![in alloc; (path, text.into_bytes())]?))
}

fn push_outcome(alloc: Global, text: &mut String) -> anyhow::Result<()> {
    let identity = example_identity(alloc)?;
    let mut transport = BusyAtFirst {
        alloc,
        attempts: Vec::new(alloc),
    };
    push_listed(alloc, text, &identity, &mut transport)?;
    for attempt in transport.attempts {
        write!(text, "{attempt}\n")?;
    }
    text.push('\n')?;
    Ok(())
}

fn push_listed(
    alloc: Global,
    text: &mut String,
    identity: &Identity,
    transport: &mut BusyAtFirst,
) -> anyhow::Result<()> {
    let env = Env::new(alloc);
    let mut ids = PredefinedInvocationIdGenerator::new(vec![in alloc; example_id(alloc)?]?);
    let mut clock = FixedClock::new(example_moment());
    let outcome = list_users(alloc, identity, &env, &mut ids, &mut clock, transport)?;
    let status = outcome.reply.response.status;
    write!(text, "attempts: {}, status {status}\n", outcome.attempts)?;
    Ok(())
}

fn push_operation(alloc: Global, text: &mut String) -> anyhow::Result<()> {
    let mut skew = ServiceClockSkewInterceptor::new();
    let mut bag = ConfigBag::new(alloc);
    let mut ids = PredefinedInvocationIdGenerator::new(vec![in alloc; example_id(alloc)?]?);
    attempts::begin(alloc, &Env::new(alloc), &mut ids, &mut skew, &mut bag)?;
    push_attempts(alloc, text, &mut skew, &mut bag)
}

// Appends the request of each attempt at an operation that the service answers by `Throttling`.
fn push_attempts(
    alloc: Global,
    text: &mut String,
    skew: &mut ServiceClockSkewInterceptor,
    bag: &mut ConfigBag,
) -> anyhow::Result<()> {
    let request = HttpRequest::new(alloc, "GET", "https://iam.amazonaws.com/")?;
    for number in 1..4 {
        bag.attempts = Some(number);
        push_attempt(alloc, text, &request, skew, bag)?;
        if !is_retried(alloc, skew, bag)? {
            return Ok(());
        }
    }
    Ok(())
}

fn push_attempt(
    alloc: Global,
    text: &mut String,
    request: &HttpRequest,
    skew: &mut ServiceClockSkewInterceptor,
    bag: &mut ConfigBag,
) -> anyhow::Result<()> {
    let identity = example_identity(alloc)?;
    let mut trace = RecursionDetectionInterceptor::new(Env::new(alloc));
    let now = example_moment();
    let sent = attempts::attempt(alloc, request, &mut trace, skew, &identity, bag, now)?;
    push_request(text, &sent)?;
    Ok(())
}

fn is_retried(
    alloc: Global,
    skew: &mut ServiceClockSkewInterceptor,
    bag: &mut ConfigBag,
) -> anyhow::Result<bool> {
    let mut response = example_response(alloc)?;
    let error = ErrorMetadata {
        code: Some(String::from_str(alloc, "Throttling")?),
        message: None,
    };
    Ok(attempts::is_retried(&mut response, &error, skew, bag, example_moment()))
}

fn example_response(alloc: Global) -> anyhow::Result<HttpResponse> {
    let mut headers = Headers::new(alloc);
    headers.append("date", "Sun, 30 Aug 2015 12:36:00 GMT")?;
    Ok(HttpResponse {
        status: 400,
        headers,
        skew: None,
    })
}

fn example_id(alloc: Global) -> anyhow::Result<InvocationId> {
    Ok(InvocationId::new(String::from_str(alloc, "c1c4ee48-5c2f-4c1c-9c66-0c1f2c9d9a01")?)?)
}

fn hour_later() -> Moment {
    Moment::new(1_440_941_760, 0)
}

fn object_moment() -> Moment {
    Moment::new(1_369_353_600, 0)
}

// A URL by settings of one's own.
fn push_put_url(alloc: Global, text: &mut String) -> anyhow::Result<()> {
    let credentials = example_credentials(alloc)?;
    let url = own_settings::put_url(alloc, &credentials, example_moment())?;
    write!(text, "{url}\n\n")?;
    Ok(())
}

fn example_moment() -> Moment {
    Moment::new(1_440_938_160, 0)
}

fn example_identity(alloc: Global) -> Result<Identity, AllocError> {
    Ok(Identity::Credentials(example_credentials(alloc)?))
}

fn example_credentials(alloc: Global) -> Result<Credentials, AllocError> {
    let key_id = String::from_str(alloc, KEY_ID)?;
    let secret = String::from_str(alloc, SECRET)?;
    Ok(Credentials::new(key_id, secret, None, None))
}
