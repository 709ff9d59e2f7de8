ghost use Rattle.std.specs.Prelude.{◌≡◌, ◌++◌, ℕ, List, None, IsErrOf, OnOk, option_to_list};
ghost use Rattle.smithy_core.specs.Given.{GivesEach};
ghost use Rattle.smithy_core.specs.Moment.{Instant};
ghost use Rattle.smithy_core.specs.Outside.{CountsFault};
ghost use Rattle.eventstream.specs.Key.{Signer};
ghost use Rattle.eventstream.specs.Told.{SignsLink, signs_over};
ghost use Rattle.event_io.specs.Chain.{next_bytes, next_unsigned};
ghost use Rattle.aws_auth.specs.MessageSigner.{running_signature, signer_in, told_of};
ghost use Rattle.signed_stream.specs.Chain.{frame_text};
ghost use Rattle.signed_stream.specs.Status.{stream_ending};
ghost use Rattle.signed_stream.specs.Sending.{IsSealer, IsSignFault, IsWriteFault, PutsFrame, Seals, SendsChain, sign_ending, write_ending, Sends};

use crate::form::Form;
use crate::status::StreamFault;
use aws_auth::SigV4MessageSigner;
use event_io::take_moment;
use eventstream::{ErrorKind, SignMessage, SignMessageError, write_summed_message_to};
use smithy_core::{ByteSink, Clock, Mem, Message, Moment, SinkError, write_all};
use std::alloc::{AllocError, Global};
use std::collections::VecDeque;

/// Streams the events in a form: a signed frame for each and an empty one last, each at a moment of its own. An event goes when it is
/// signed, and a frame takes the room of the one before it.
///
/// # Errors
///
/// The fault of the first event that has no frame, whose moment lies outside the years 0 to 9999 or whose signed message has no
/// frame, or that of the closing frame's moment: the sink has gained the frames before it. [`StreamFault::SinkFault`]
/// where the sink's count of faults rose and [`StreamFault::NoMemory`] where memory runs out: it has gained a prefix of
/// the frames that were begun.
pub fn stream_events<C: Clock, K: ByteSink>(
    alloc: Global,
    mut signer: SigV4MessageSigner<()>,
    events: Vec<Message>,
    clock: &mut C,
    form: Form,
    sink: &mut K,
    moments: &mut Vec<Moment>,
) -> Result<(), StreamFault>
    requires { told_of signer ≡ signs_over (running_signature signer) (signer_in signer) }
    ensures sends { (taken : List Instant) × (moments.new.items ≡ moments.old.items ++ taken) × GivesEach C.Clock clock.old taken clock.new
        × SendsChain form (signer_in signer) events.items (running_signature signer) (K.held sink.old) (K.held sink.new) taken result }
    ensures counts { CountsFault (IsErrOf result StreamFault.SinkFault) (K.faults sink.old) (K.faults sink.new) }
{
    let end = events.len() + 2;
    let mut left = VecDeque::from(events);
    let mut frame = Vec::new(alloc);
    let mut line = Vec::new(alloc);
    'frames: for place in 1..end {
        let at = take_moment(clock, moments)?;
        seal(alloc, &mut signer, left.pop_front(), place, at, &mut frame)?;
        write_frame(frame.as_slice(), form, &mut line, sink)?;
    }
    Ok(())
}

// Signs an event, or with none the message that closes the chain, and puts its frame in place of the bytes that were there.
fn seal<G: SignMessage>(
    alloc: Global,
    signer: &mut G,
    event: Option<Message>,
    place: usize,
    at: Moment,
    frame: &mut Vec<u8>,
) -> Result<(), StreamFault>
    requires { IsSealer (G.told signer.old) }
    ensures { (who : Signer) (signature : List ℕ) → G.told signer.old ≡ signs_over signature who
        → Seals who place signature (option_to_list event) at frame.new.items (G.told signer.new) result }
{
    match sign_next(signer, event, at) {
        Ok(message) => put_frame(alloc, &message, place, frame),
        Err(error) => Err(sign_fault(place, error)),
    }
}

// An event, or with none the message that closes the chain, signed.
fn sign_next<G: SignMessage>(
    signer: &mut G,
    event: Option<Message>,
    at: Moment,
) -> Result<Message, SignMessageError>
    requires { IsSealer (G.told signer.old) }
    ensures { (who : Signer) (signature : List ℕ) → G.told signer.old ≡ signs_over signature who
        → SignsLink (next_unsigned (option_to_list event) at) signature who (next_bytes (option_to_list event)) at result (G.told signer.new) }
{
    match event {
        Some(event) => signer.sign(event, at),
        None => match signer.sign_empty(at) {
            Some(signed) => signed,
            None => unreachable!(),
        },
    }
}

// Puts the frame of the message at a place in place of the bytes that were there.
#[tactic(auto, using(eventstream::proofs::UnframedLemmas::unframed_fault))]
fn put_frame(
    alloc: Global,
    message: &Message,
    place: usize,
    frame: &mut Vec<u8>,
) -> Result<(), StreamFault>
    ensures { PutsFrame place message.now frame.new.items result }
{
    frame.clear();
    match write_summed_message_to(alloc, message, frame) {
        Ok(_) => Ok(()),
        Err(error) => Err(fault_at(place, error.kind())),
    }
}

// The fault for why the message at a place isn't signed.
fn sign_fault(place: usize, error: SignMessageError) -> StreamFault
    requires { IsSignFault error }
    ensures { stream_ending result ≡ sign_ending place error }
{
    match error {
        SignMessageError::FailedToEncodeMessage(error) => fault_at(place, error.kind()),
        SignMessageError::MomentOutOfRange(moment) => StreamFault::MomentOutOfRange(moment),
        SignMessageError::NoMemory => StreamFault::NoMemory,
        _ => unreachable!(),
    }
}

// The fault for why the message at a place isn't written.
fn fault_at(place: usize, reason: &ErrorKind) -> StreamFault
    requires { IsWriteFault reason.now }
    ensures { stream_ending result ≡ write_ending place reason.now }
{
    match reason {
        ErrorKind::InvalidHeaderNameLength => StreamFault::InvalidHeaderNameLength(place),
        ErrorKind::HeaderValueTooLong => StreamFault::HeaderValueTooLong(place),
        ErrorKind::TimestampValueTooLarge(_) => StreamFault::TimestampValueTooLarge(place),
        ErrorKind::HeadersTooLong => StreamFault::HeadersTooLong(place),
        ErrorKind::PayloadTooLong => StreamFault::PayloadTooLong(place),
        ErrorKind::MessageTooLong => StreamFault::MessageTooLong(place),
        ErrorKind::NoMemory => StreamFault::NoMemory,
        _ => unreachable!(),
    }
}

/// Writes the bytes of a frame in a form, in one piece. Where that is a line it is made in `line`, in place of the bytes that were
/// there.
///
/// # Errors
///
/// As those of [`write_text`].
#[tactic(auto, using(smithy_core::proofs::GainLemmas::prefix_at_start), unfolding(crate::specs::Chain::frame_text))]
pub fn write_frame<K: ByteSink>(
    frame: &[u8],
    form: Form,
    line: &mut Vec<u8>,
    sink: &mut K,
) -> Result<(), StreamFault>
    ensures sends { Sends None (frame_text form frame.now) (K.held sink.old) (K.held sink.new) result }
    ensures counts { CountsFault (IsErrOf result StreamFault.SinkFault) (K.faults sink.old) (K.faults sink.new) }
{
    match form {
        Form::Raw => write_text(sink, frame),
        Form::HexLines => {
            put_line(frame, line)?;
            write_text(sink, line.as_slice())
        }
    }
}

// Puts the line of a frame in place of the bytes that were there.
#[tactic(auto, unfolding(crate::specs::Chain::frame_text))]
fn put_line(frame: &[u8], line: &mut Vec<u8>) -> Mem<()>
    ensures { OnOk result (line.new.items ≡ frame_text Form.HexLines frame.now) }
{
    let Some(digits) = frame.len().checked_mul(2) else {
        return Err(AllocError);
    };
    line.clear();
    line.resize(digits, 0)?;
    hex::encode_to_slice(frame, line.as_mut_slice()).unwrap();
    Ok(line.push(b'\n')?)
}

/// Writes a text in one piece.
///
/// # Errors
///
/// [`StreamFault::SinkFault`] where the sink's count of faults rose, [`StreamFault::NoMemory`] where memory runs out.
/// After both the sink has gained a prefix of the text.
#[tactic(auto, using(smithy_core::proofs::GainLemmas::prefix_from_proper))]
pub fn write_text<K: ByteSink>(sink: &mut K, text: &[u8]) -> Result<(), StreamFault>
    ensures sends { Sends None text.now (K.held sink.old) (K.held sink.new) result }
    ensures counts { CountsFault (IsErrOf result StreamFault.SinkFault) (K.faults sink.old) (K.faults sink.new) }
{
    match write_all(sink, text) {
        Ok(()) => Ok(()),
        Err(SinkError::Failed) => Err(StreamFault::SinkFault),
        Err(SinkError::NoMemory) => Err(StreamFault::NoMemory),
    }
}
