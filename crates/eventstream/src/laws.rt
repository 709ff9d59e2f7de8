ghost use Rattle.std.specs.Prelude.{◌≡◌, ℕ, List, [], ◌++◌, length, map, flat_map, None, Ok, All};
ghost use Rattle.std.specs.List.{AllByRecursion};
ghost use Rattle.smithy_core.specs.Message.{Parts};
ghost use Rattle.eventstream.specs.declared.error.ErrorKind.{ErrorKind};
ghost use Rattle.eventstream.specs.Decode.{IsUnfinished};
ghost use Rattle.eventstream.specs.Frame.{frame, unframed};
ghost use Rattle.eventstream.specs.Laws.{IsProper, IsProperHeader, IsProperValue, floored_message};
ghost use Rattle.eventstream.specs.Read.{read};
ghost use Rattle.eventstream.specs.Reading.{Begin, begins, fault, first_of, nothing, onto, reading};

use smithy_core::{Header, HeaderValue, Message};

/// A frame, whatever follows it, is read as its message, each moment in whole milliseconds, and as
/// its length. The message has to have a frame.
#[tactic(auto, using(crate::proofs::FrameLemmas::frame_again))]
pub fn frame_reads_back(message: &Message, more: &[u8])
    requires { unframed message.now ≡ None }
    ensures { read (frame message.now ++ more.now) ≡ Ok (floored_message message.now, length (frame message.now)) }
{
    know_message(message);
}

/// No frame begins another one. A message has one frame at most, since its frame is a function of it.
#[tactic(auto, using(crate::proofs::FrameLemmas::frame_alone))]
pub fn no_frame_begins_another()
    ensures { (a b : Parts) (more : List ℕ) → unframed a ≡ None → unframed b ≡ None → frame a ++ more ≡ frame b → more ≡ [] }
{}

/// A stream that begins with a frame begins with its message, each moment in whole milliseconds, and
/// what follows the frame is read after it. The message has to have a frame.
#[tactic(auto, using(crate::proofs::ReadingLemmas::frame_first, crate::proofs::ReadingLemmas::frame_read))]
pub fn frame_comes_first(message: &Message, more: &[u8])
    requires { unframed message.now ≡ None }
    ensures first { first_of (frame message.now ++ more.now) ≡ begins (floored_message message.now) more.now }
    ensures others { reading (frame message.now ++ more.now) ≡ onto (floored_message message.now) (reading more.now) }
{
    know_message(message);
}

/// Frames one after another are read as their messages, each moment in whole milliseconds, and then
/// the stream ends. Each message has to have a frame.
#[tactic(auto, using(crate::proofs::ReadingLemmas::frames_read))]
pub fn frames_read_back(messages: &[Message])
    requires { AllByRecursion (λ m. unframed m ≡ None) messages.now }
    ensures { reading (flat_map frame messages.now) ≡ record { messages = map floored_message messages.now; end = nothing } }
{
    know_messages(messages);
}

/// What follows the first message of a stream is read as a stream again.
#[tactic(auto, using(crate::proofs::ReadingLemmas::goes_on))]
pub fn reading_goes_on()
    ensures { (bytes : List ℕ) (message : Parts) (rest : List ℕ) → first_of bytes ≡ begins message rest → reading bytes ≡ onto message (reading rest) }
{}

/// Messages that a stream begins with are its first, and what follows them is read after them: no other
/// message where less than a frame is left, or a fault stands there.
#[tactic(auto, using(crate::proofs::ReadingLemmas::begin_read, crate::proofs::ReadingLemmas::begin_unfinished, crate::proofs::ReadingLemmas::begin_fault))]
pub fn messages_come_first()
    ensures others { (messages : List Parts) (bytes rest : List ℕ) → Begin messages bytes rest → reading bytes ≡ record { messages = messages ++ (reading rest).messages; end = (reading rest).end } }
    ensures unfinished { (messages : List Parts) (bytes rest : List ℕ) → Begin messages bytes rest → IsUnfinished (first_of rest) → reading bytes ≡ record { messages = messages; end = first_of rest } }
    ensures fault { (messages : List Parts) (bytes rest : List ℕ) (kind : ErrorKind) → Begin messages bytes rest → first_of rest ≡ fault kind → reading bytes ≡ record { messages = messages; end = fault kind } }
{}

/// Messages that a stream begins with stay its first, however it goes on, and join with those that the
/// rest begins with.
#[tactic(auto, using(crate::proofs::ReadingLemmas::begin_stays, crate::proofs::ReadingLemmas::begin_join))]
pub fn messages_join()
    ensures stay { (messages : List Parts) (bytes rest more : List ℕ) → Begin messages bytes rest → Begin messages (bytes ++ more) (rest ++ more) }
    ensures join { (messages others : List Parts) (bytes between rest : List ℕ) → Begin messages bytes between → Begin others between rest → Begin (messages ++ others) bytes rest }
{}

/// What a stream begins with stays, however it goes on: its first message, and a fault in place of one.
#[tactic(auto, using(crate::proofs::ReadingLemmas::first_stays, crate::proofs::ReadingLemmas::fault_stays))]
pub fn first_stays()
    ensures message { (bytes : List ℕ) (first : Parts) (rest more : List ℕ) → first_of bytes ≡ begins first rest → first_of (bytes ++ more) ≡ begins first (rest ++ more) }
    ensures fault { (bytes : List ℕ) (kind : ErrorKind) (more : List ℕ) → first_of bytes ≡ fault kind → first_of (bytes ++ more) ≡ fault kind }
{}

// What the types of the messages say of them, which the laws above need.
fn know_messages(messages: &[Message])
    ensures { All IsProper messages.now }
{
    for message in messages {
        know_message(message);
    }
}

fn know_message(message: &Message)
    ensures { IsProper message.now }
{
    know_headers(message.headers());
}

fn know_headers(headers: &[Header])
    ensures { All IsProperHeader headers.now }
{
    for header in headers {
        know_header(header);
    }
}

fn know_header(header: &Header)
    ensures { IsProperHeader header.now }
{
    header.name().as_bytes();
    know_value(header.value());
}

// Whoever reads a number knows its range.
fn know_value(value: &HeaderValue)
    ensures { IsProperValue value.now }
{
    match value {
        HeaderValue::Bool(_) | HeaderValue::ByteArray(_) => {}
        HeaderValue::Byte(n) => {
            let _n = *n;
        }
        HeaderValue::Int16(n) => {
            let _n = *n;
        }
        HeaderValue::Int32(n) => {
            let _n = *n;
        }
        HeaderValue::Int64(n) => {
            let _n = *n;
        }
        HeaderValue::String(text) => {
            text.as_bytes();
        }
        HeaderValue::Timestamp(moment) => {
            moment.subsec_nanos();
        }
        HeaderValue::Uuid(n) => {
            let _n = *n;
        }
    }
}
