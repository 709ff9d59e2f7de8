//! A run of `awsign verify`, behind its words.
ghost use Rattle.std.specs.Prelude.{◌≡◌, ◌≤◌, IfOk};
ghost use Rattle.smithy_core.specs.Given.{Gives};
ghost use Rattle.smithy_core.specs.Outside.{CountsFault};
ghost use Rattle.env_config.specs.Loading.{Loaded, StopsAtFile};
ghost use Rattle.awsign_run.specs.Run.{TakesAskedMoment, asked_moment, asked_places};
ghost use Rattle.awsign_words.specs.Words.{verify_wanted};
ghost use Rattle.awsign_verify.specs.Message.{head_parts, message_body};
ghost use Rattle.awsign_verify.specs.VerifyRun.{JudgesInput, JudgesRequest, RanVerify, ReceivesAsked, ReceivesMessage, WritesText};

use crate::judge::judge;
use crate::message::{message_body, read_message};
use crate::status::VerifyStatus;
use awsign_run::{Status, load_source};
use awsign_words::VerifyAsked;
use job_text::JobFault;
use smithy_core::{
    ByteSink, ByteSource, Clock, Disk, Env, Headers, HttpRequest, Mem, read_all, write_all,
};
use std::alloc::Global;

/// The most bytes of a request that is read.
const MOST_MESSAGE: usize = 67_108_864;

/// A request, and the bytes of the input that it was read from.
#[derive(Drop)]
pub struct ReceivedRequest {
    /// The request; its body isn't copied.
    pub request: HttpRequest,
    /// The bytes; none where the words name the request.
    pub bytes: Vec<u8>,
}

/// Prints who signed a request: the one of a method and a URL, or the one that the input spells, head and body.
///
/// The first test that fails ends the run, in this order: the input, its lines, a profile file that an option names, the lines of profile
/// files, the key, the region, the service, and then those of [`admit`](request_door::admit). Until all passed nothing is written.
pub fn run_verify<S: ByteSource, D: Disk, C: Clock, K: ByteSink>(
    alloc: Global,
    asked: &VerifyAsked<'_>,
    env: &Env,
    input: &mut S,
    disk: &mut D,
    clock: &mut C,
    out: &mut K,
) -> VerifyStatus
    // What was printed is who signed the request that the words or the input have, as its service answers; or why nothing was.
    ensures headline { RanVerify (TakesAskedMoment (λ taken. Gives C.Clock clock.old taken clock.new) (asked_moment asked.now.options)) env.now
        (Loaded D.answers D.faults (D.files disk.old) env.now (asked_places asked.now.options) disk.old disk.new)
        (StopsAtFile D.answers D.faults (D.files disk.old) env.now (asked_places asked.now.options) disk.old disk.new)
        (verify_wanted asked.now) (S.left input.old) result (K.held out.old) (K.held out.new) }

    // No file changed, and no count fell.
    ensures outside { (D.files disk.new ≡ D.files disk.old) × (D.faults disk.old ≤ D.faults disk.new) × (S.faults input.old ≤ S.faults input.new)
        × (K.faults out.old ≤ K.faults out.new) }

    // It answers that the output failed exactly where that counted a fault.
    ensures failed { CountsFault (result ≡ VerifyStatus.Ended Status.OutputFault) (K.faults out.old) (K.faults out.new) }
{
    match judge_input(alloc, asked, env, input, disk, clock) {
        Ok(text) => write_verified(text.as_slice(), out),
        Err(status) => status,
    }
}

// Writes a text, and answers how that went.
fn write_verified<K: ByteSink>(text: &[u8], out: &mut K) -> VerifyStatus
    ensures wrote { WritesText text.now result (K.held out.old) (K.held out.new) }
    ensures failed { CountsFault (result ≡ VerifyStatus.Ended Status.OutputFault) (K.faults out.old) (K.faults out.new) }
{
    match write_all(out, text) {
        Ok(()) => VerifyStatus::Ended(Status::Done),
        Err(fault) => VerifyStatus::from(fault),
    }
}

// What is found of the request that is asked about.
fn judge_input<S: ByteSource, D: Disk, C: Clock>(
    alloc: Global,
    asked: &VerifyAsked<'_>,
    env: &Env,
    input: &mut S,
    disk: &mut D,
    clock: &mut C,
) -> Result<Vec<u8>, VerifyStatus>
    ensures judges { JudgesInput (TakesAskedMoment (λ taken. Gives C.Clock clock.old taken clock.new) (asked_moment asked.now.options)) env.now
        (Loaded D.answers D.faults (D.files disk.old) env.now (asked_places asked.now.options) disk.old disk.new)
        (StopsAtFile D.answers D.faults (D.files disk.old) env.now (asked_places asked.now.options) disk.old disk.new)
        (verify_wanted asked.now) (S.left input.old) result }
    ensures outside { (D.files disk.new ≡ D.files disk.old) × (D.faults disk.old ≤ D.faults disk.new) × (S.faults input.old ≤ S.faults input.new) }
{
    match receive(alloc, asked, input) {
        Ok(received) => judge_received(alloc, &asked.options, env, &received, disk, clock),
        Err(status) => Err(status),
    }
}

// What is found of a request that was received.
fn judge_received<D: Disk, C: Clock>(
    alloc: Global,
    options: &Env,
    env: &Env,
    received: &ReceivedRequest,
    disk: &mut D,
    clock: &mut C,
) -> Result<Vec<u8>, VerifyStatus>
    ensures judges { JudgesRequest (TakesAskedMoment (λ taken. Gives C.Clock clock.old taken clock.new) (asked_moment options.now)) env.now
        (Loaded D.answers D.faults (D.files disk.old) env.now (asked_places options.now) disk.old disk.new)
        (StopsAtFile D.answers D.faults (D.files disk.old) env.now (asked_places options.now) disk.old disk.new)
        options.now received.now.request (message_body received.now.bytes.items) result }
    ensures outside { (D.files disk.new ≡ D.files disk.old) × (D.faults disk.old ≤ D.faults disk.new) }
{
    match load_source(alloc, env, disk, options) {
        Ok(source) => {
            let body = message_body(received.bytes.as_slice());
            judge(alloc, options, env, &source, &received.request, body, clock)
        }
        Err(fault) => Err(VerifyStatus::from(fault)),
    }
}

// The request that is asked about: the input is read where no words name it.
fn receive<S: ByteSource>(
    alloc: Global,
    asked: &VerifyAsked<'_>,
    input: &mut S,
) -> Result<ReceivedRequest, VerifyStatus>
    ensures receives { ReceivesAsked (verify_wanted asked.now) (S.left input.old) result }
    ensures count { S.faults input.old ≤ S.faults input.new }
{
    match asked.named {
        Some((method, url)) => Ok(ReceivedRequest {
            request: named_request(alloc, method, url, &asked.headers)?,
            bytes: Vec::new(alloc),
        }),
        None => match read_all(alloc, input, MOST_MESSAGE) {
            Ok(bytes) => received_of(alloc, bytes),
            Err(fault) => Err(VerifyStatus::from(fault)),
        },
    }
}

// The request that the bytes spell.
fn received_of(alloc: Global, bytes: Vec<u8>) -> Result<ReceivedRequest, VerifyStatus>
    ensures { ReceivesMessage bytes.items result }
{
    match read_message(alloc, bytes.as_slice()) {
        Ok(request) => Ok(ReceivedRequest { request, bytes }),
        Err(JobFault::BadLine(place)) => Err(VerifyStatus::BadLine(place)),
        Err(JobFault::NoMemory) => Err(VerifyStatus::Ended(Status::NoMemory)),
    }
}

// A request of a method and a URL with headers.
fn named_request(alloc: Global, method: &str, url: &str, headers: &Headers) -> Mem<HttpRequest>
    ensures { IfOk result (λ request. head_parts request ≡ record { method = method.now; target = url.now; headers = headers.now }) }
{
    let headers = headers.try_clone()?;
    let mut request = HttpRequest::new(alloc, method, url)?;
    request.headers = headers;
    Ok(request)
}
