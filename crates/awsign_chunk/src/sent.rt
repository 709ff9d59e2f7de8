//! What is sent: the signed request, and how its body is made.
ghost use Rattle.std.specs.Prelude.{◌≡◌, ◌≤◌, IfOk};
ghost use Rattle.awsign_run.specs.Chosen.{signs_for_of};
ghost use Rattle.awsign_chunk.specs.Sent.{AnnouncesBody, IsAnnouncedAs, IsUploadBehind, MakesSent, announced_trailers, sent_options, sent_size, signs_chunks};
ghost use Rattle.awsign_words.specs.Words.{SignWanted, sign_wanted};

use crate::chunks::{ChunkSigner, chunk_signer};
use crate::status::ChunkStatus;
use crate::sum::RunningSum;
use crate::trailers::{announced_trailers, sent_checksum};
use aws_chunked::AwsChunkedBodyOptions;
use awsign_run::{Chosen, SignedRequest, printed_request, signed_request};
use awsign_words::Asked;
use job_text::ChunkSize;
use sigv4::parts::test_headers;
use smithy_core::{Env, Headers, Mem, Moment};
use std::alloc::Global;

/// A request that is signed, and a body that is to be made behind it.
#[derive(Drop)]
pub struct ChunkedUpload {
    /// The signed request, in the form that is asked for.
    pub head: Vec<u8>,
    /// What the request announces of its body.
    pub plan: BodyPlan,
    /// What goes on from chunk to chunk, before the first one.
    pub running: Running,
}

/// What a request announces of its body.
#[derive(Drop)]
pub struct BodyPlan {
    /// How many bytes the data has.
    pub length: u64,
    /// How the body is encoded.
    pub options: AwsChunkedBodyOptions,
    /// Whether its chunks are signed.
    pub is_signed: bool,
    /// The trailers before that of the checksum.
    pub trailers: Headers,
}

/// What goes on from chunk to chunk.
#[derive(Drop)]
pub struct Running {
    /// Signs over the last signature.
    pub signer: ChunkSigner,
    /// The checksum of the data so far.
    pub sum: RunningSum,
}

/// The words with headers that announce a body, what is signed in place of the body, and how it is encoded.
#[derive(Drop)]
pub(crate) struct Announced<'a> {
    asked: Asked<'a>,
    payload: String,
    options: AwsChunkedBodyOptions,
}

/// The upload of so many bytes that somebody signs at a moment.
pub(crate) fn upload_for(
    alloc: Global,
    asked: &Asked<'_>,
    signer: Chosen,
    length: u64,
    at: Moment,
) -> Result<ChunkedUpload, ChunkStatus>
    ensures { MakesSent (sign_wanted asked.now) length (signs_for_of signer) at result }
{
    let trailers = announced_trailers(alloc, asked)?;
    match announce(alloc, asked, length, &trailers) {
        Ok(announced) => sign_upload(alloc, announced, signer, length, at),
        Err(status) => Err(status),
    }
}

// The words with headers that announce a body of this length with these trailers.
fn announce<'a>(
    alloc: Global,
    asked: &Asked<'a>,
    length: u64,
    trailers: &Headers,
) -> Result<Announced<'a>, ChunkStatus>
    ensures { AnnouncesBody (sign_wanted asked.now) length trailers.now result }
{
    if let Err(error) = test_headers(trailers) {
        return Err(ChunkStatus::UnfitTrailer(error));
    }
    let options = sent_options(alloc, &asked.options, length, trailers)?;
    let mut headers = asked.headers.try_clone()?;
    match options.announce(alloc, &mut headers, trailers) {
        Ok(payload) => Ok(Announced {
            asked: with_headers(asked, headers)?,
            payload,
            options,
        }),
        Err(fault) => Err(ChunkStatus::from(fault)),
    }
}

// How a body of this length with these trailers is encoded.
fn sent_options(
    alloc: Global,
    options: &Env,
    length: u64,
    trailers: &Headers,
) -> Mem<AwsChunkedBodyOptions>
    ensures { IfOk result (λ made. made ≡ sent_options options.now length trailers.now) }
{
    let is_signed = signs_chunks(options);
    let made = AwsChunkedBodyOptions::for_body(alloc, length, trailers, is_signed)?;
    Ok(made.with_chunk_size(sent_size(options)))
}

// Whether chunks are signed.
fn signs_chunks(options: &Env) -> bool
    ensures { result ≡ signs_chunks options.now }
{
    options.get("--signed").is_some()
}

// How many bytes a chunk has.
fn sent_size(options: &Env) -> usize
    ensures value { result ≡ sent_size options.now }
    ensures range { (1 ≤ result) × (result ≤ 67108864) }
{
    let named = match options.get("--size") {
        Some(text) => ChunkSize::parse(text),
        None => None,
    };
    named.unwrap_or(ChunkSize::usual()).get()
}

// The words with other headers.
fn with_headers<'a>(asked: &Asked<'a>, headers: Headers) -> Mem<Asked<'a>>
    ensures { IfOk result (λ now. sign_wanted now ≡ record (sign_wanted asked.now) { headers = headers }) }
{
    Ok(Asked {
        presigns: asked.presigns,
        options: asked.options.try_clone()?,
        headers,
        trailers: asked.trailers.try_clone()?,
        method: asked.method,
        url: asked.url,
    })
}

// The upload whose body is announced.
fn sign_upload(
    alloc: Global,
    announced: Announced<'_>,
    signer: Chosen,
    length: u64,
    at: Moment,
) -> Result<ChunkedUpload, ChunkStatus>
    ensures { (wanted : SignWanted) → IsAnnouncedAs wanted length (announced_trailers wanted) announced.entry
        → MakesSent wanted length (signs_for_of signer) at result }
{
    let copy = signer.try_clone()?;
    let Announced {
        asked,
        payload,
        options,
    } = announced;
    match signed_request(alloc, &asked, signer, payload, at) {
        Ok(signed) => Ok(upload_behind(alloc, asked, signed, options, copy, length, at)?),
        Err(fault) => Err(ChunkStatus::from(fault)),
    }
}

// The upload behind a signed request.
fn upload_behind(
    alloc: Global,
    asked: Asked<'_>,
    signed: SignedRequest,
    options: AwsChunkedBodyOptions,
    signer: Chosen,
    length: u64,
    at: Moment,
) -> Mem<ChunkedUpload>
    ensures { IfOk result (IsUploadBehind (sign_wanted asked.entry) signed options (signs_for_of signer) length at) }
{
    let head = printed_request(alloc, &asked, &signed, asked.options.get("--out"))?;
    let is_signed = signs_chunks(&asked.options);
    let sum = RunningSum::new(sent_checksum(&asked.options));
    let signer = chunk_signer(alloc, signer, signed.signature, at)?;
    let plan = BodyPlan {
        length,
        options,
        is_signed,
        trailers: asked.trailers,
    };
    let running = Running { signer, sum };
    Ok(ChunkedUpload {
        head,
        plan,
        running,
    })
}
