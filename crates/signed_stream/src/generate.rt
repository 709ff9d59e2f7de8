//! The command `gen`.
ghost use Rattle.std.specs.Prelude.{◌≡◌, ◌≤◌, ◌-◌, None, IfOk, IsErrOf, drop, length, take};
ghost use Rattle.std.specs.String.{string_bytes};
ghost use Rattle.smithy_core.specs.Outside.{CountsFault};
ghost use Rattle.hex.specs.Hex.{encode_lower};
ghost use Rattle.sigv4.specs.Signed.{signature_of};
ghost use Rattle.signed_stream.specs.Generate.{AreDrawn, AreGeneratedOptions, IsGeneratedIdentity, generate_plan, generated_case, generated_moment, generated_stream, shown_stream};
ghost use Rattle.signed_stream.specs.Generator.{drawn_events};
ghost use Rattle.signed_stream.specs.Sending.{Sends};
ghost use Rattle.signed_stream.specs.Plan.{GoesAsPlanned};
ghost use Rattle.signed_stream.specs.Running.{IsOfOutput};
ghost use Rattle.signed_stream.specs.Sign.{SealsFor};
ghost use Rattle.signed_stream.specs.Status.{ending_of, output_fault};

use crate::chain::{stream_events, write_text};
use crate::command::GeneratorWords;
use crate::form::Form;
use crate::generator::generated_events;
use crate::sign::sign_request;
use crate::status::{Status, StreamFault, status_of};
use crate::streaming::StreamOptions;
use aws_auth::{SigV4MessageSigner, SigningOptions};
use chain_watch::{ChainFault, check_chain};
use job_text::copied_events;
use smithy_core::{
    ByteSink, CalmSink, Credentials, FixedClock, HttpRequest, Identity, Mem, Message, Moment,
};
use std::alloc::{AllocError, Global};

const KEY_ID: &str = "AKIDEXAMPLE";

const SECRET: &str = "wJalrXUtnFEMI/K7MDENG+bPxRfiCYEXAMPLEKEY";

const REGION: &str = "us-east-1";

const NAME: &str = "gen";

/// Streams a generated job into memory, checks it, and shows how many events and bytes it has, and the signature of
/// its closing frame.
pub fn show_generated<K: ByteSink>(alloc: Global, words: GeneratorWords, out: &mut K) -> Status
    ensures end { IsOfOutput (ending_of result) }
    ensures planned { GoesAsPlanned (generate_plan words.seed words.count) (ending_of result) (K.held out.old) (K.held out.new) }
    ensures writes { CountsFault (ending_of result ≡ output_fault) (K.faults out.old) (K.faults out.new) }
{
    status_of(write_generated(alloc, words, out))
}

// Writes what is shown.
#[tactic(auto, using(smithy_core::proofs::GainLemmas::prefix_at_start))]
fn write_generated<K: ByteSink>(
    alloc: Global,
    words: GeneratorWords,
    out: &mut K,
) -> Result<(), StreamFault>
    ensures sends { Sends None (shown_stream (drawn_events words.count words.seed)) (K.held out.old) (K.held out.new) result }
    ensures counts { CountsFault (IsErrOf result StreamFault.SinkFault) (K.faults out.old) (K.faults out.new) }
{
    let events = generated_events(alloc, words.seed, words.count)?;
    let text = shown_text(alloc, events.as_slice())?;
    write_text(out, text.as_bytes())
}

// How many events and bytes the stream of the events has, and the signature of its closing frame, as lines.
fn shown_text(alloc: Global, events: &[Message]) -> Mem<String>
    requires { AreDrawn events.now }
    ensures { IfOk result (λ text. string_bytes text ≡ shown_stream events.now) }
{
    let stream = stream_generated(alloc, events)?;
    let bytes = stream.as_slice();
    let signature = closing_signature(alloc, bytes)?;
    let (events, bytes, signature) = (events.len(), bytes.len(), signature.as_str());
    format!(in alloc; "events {events}\nbytes {bytes}\nsignature {signature}\n")
}

// The stream of the events, which is checked.
fn stream_generated(alloc: Global, events: &[Message]) -> Mem<Vec<u8>>
    requires { AreDrawn events.now }
    ensures { IfOk result (λ bytes. bytes.items ≡ generated_stream events.now) }
{
    let signer = signer_of_request(alloc)?;
    let seed = String::from_str(alloc, signer.running_signature())?;
    let sink = stream_by(alloc, signer, events)?;
    let bytes = Vec::from_slice(alloc, sink.held())?;
    check_stream(alloc, bytes.as_slice(), seed.as_str(), events)?;
    Ok(bytes)
}

// What signs the messages that follow the signed request.
fn signer_of_request(alloc: Global) -> Mem<SigV4MessageSigner<()>>
    ensures { IfOk result (SealsFor generated_case) }
{
    let request = HttpRequest::new(alloc, "POST", "https://gen.amazonaws.com/")?;
    let options = options_of_request(alloc)?;
    let identity = identity_of_request(alloc)?;
    match sign_request(alloc, request, &identity, REGION, &options, moment()) {
        Ok((_, signer)) => Ok(signer),
        Err(fault) => Err(stream_without_memory(&fault)),
    }
}

// The service that the request is signed for, with the default options.
fn options_of_request(alloc: Global) -> Mem<StreamOptions>
    ensures { IfOk result AreGeneratedOptions }
{
    Ok(StreamOptions {
        name: String::from_str(alloc, NAME)?,
        service_id: None,
        signing: SigningOptions::default(),
        token_name: None,
        skew_millis: None,
    })
}

// Who signs the request.
fn identity_of_request(alloc: Global) -> Mem<Identity>
    ensures { IfOk result IsGeneratedIdentity }
{
    let key_id = String::from_str(alloc, KEY_ID)?;
    let secret = String::from_str(alloc, SECRET)?;
    Ok(Identity::Credentials(Credentials::new(key_id, secret, None, None)))
}

// The moment of the request, of each event and of the closing frame.
fn moment() -> Moment
    ensures { result ≡ generated_moment }
{
    Moment::new(1_440_938_160, 0)
}

// Streams the events into memory.
fn stream_by(alloc: Global, signer: SigV4MessageSigner<()>, events: &[Message]) -> Mem<CalmSink>
    requires sealed { SealsFor generated_case signer }
    requires drawn { AreDrawn events.now }
    ensures { IfOk result (λ sink. sink ≡ generated_stream events.now) }
{
    let copies = copied_events(alloc, events)?;
    let mut clock = FixedClock::new(moment());
    let mut sink = CalmSink::new(alloc);
    let mut moments = Vec::new(alloc);
    match stream_events(
        alloc,
        signer,
        copies,
        &mut clock,
        Form::Raw,
        &mut sink,
        &mut moments,
    ) {
        Ok(()) => Ok(sink),
        Err(fault) => Err(stream_without_memory(&fault)),
    }
}

// The only fault that signing and streaming the generated job can have.
fn stream_without_memory(fault: &StreamFault) -> AllocError
    requires { fault.now ≡ StreamFault.NoMemory }
{
    match fault {
        StreamFault::NoMemory => AllocError,
        _ => unreachable!(),
    }
}

// Checks the stream of the events, which is their chain.
fn check_stream(alloc: Global, bytes: &[u8], seed: &str, events: &[Message]) -> Mem<()>
    requires seed { seed.now ≡ signature_of generated_case }
    requires drawn { AreDrawn events.now }
    requires stream { bytes.now ≡ generated_stream events.now }
{
    match check_chain(alloc, bytes, seed, SECRET, REGION, NAME) {
        Ok(_) => Ok(()),
        Err(fault) => Err(check_without_memory(&fault)),
    }
}

// The only fault that the check of the stream can have.
fn check_without_memory(fault: &ChainFault) -> AllocError
    requires { fault.now ≡ ChainFault.NoMemory }
{
    match fault {
        ChainFault::NoMemory => AllocError,
        _ => unreachable!(),
    }
}

// The signature that the closing frame of a stream carries: behind it stand the 15 bytes of the header `:date` and the
// 4 of the checksum.
fn closing_signature(alloc: Global, bytes: &[u8]) -> Mem<String>
    requires { 51 ≤ length bytes.now }
    ensures { IfOk result (λ text. string_bytes text ≡ encode_lower (take 32 (drop (length bytes.now - 51) bytes.now))) }
{
    let end = bytes.len() - 19;
    hex::encode(alloc, &bytes[end - 32..end])
}
