//! The lines that show events: their frames in hexadecimal, and how many there are.
ghost use Rattle.std.specs.Prelude.{◌≡◌, None, IsErrOf};
ghost use Rattle.smithy_core.specs.Outside.{CountsFault};
ghost use Rattle.eventstream.specs.Frame.{unframed};
ghost use Rattle.signed_stream.specs.EventLines.{AreFramed, count_line, event_line, event_lines};
ghost use Rattle.signed_stream.specs.Sending.{Sends};

use crate::chain::{write_frame, write_text};
use crate::form::Form;
use crate::status::StreamFault;
use eventstream::frame_of;
use smithy_core::{ByteSink, Message};
use std::alloc::Global;

/// Writes how many events there are.
///
/// # Errors
///
/// As those of [`write_text`].
#[tactic(auto, using(smithy_core::proofs::GainLemmas::prefix_at_start))]
pub fn write_count<K: ByteSink>(alloc: Global, count: usize, out: &mut K) -> Result<(), StreamFault>
    ensures sends { Sends None (count_line count) (K.held out.old) (K.held out.new) result }
    ensures counts { CountsFault (IsErrOf result StreamFault.SinkFault) (K.faults out.old) (K.faults out.new) }
{
    let line = format!(in alloc; "ok {count}\n")?;
    write_text(out, line.as_bytes())
}

/// Writes the frames of events, which have one each.
///
/// # Errors
///
/// As those of [`write_text`].
pub fn write_lines<K: ByteSink>(
    alloc: Global,
    events: &[Message],
    out: &mut K,
) -> Result<(), StreamFault>
    requires { AreFramed events.now }
    ensures sends { Sends None (event_lines events.now) (K.held out.old) (K.held out.new) result }
    ensures counts { CountsFault (IsErrOf result StreamFault.SinkFault) (K.faults out.old) (K.faults out.new) }
{
    let mut line = Vec::new(alloc);
    'events: for event in events {
        write_event(alloc, event, &mut line, out)?;
    }
    Ok(())
}

// Writes the frame of an event, which has one. Its line is made in `line`.
#[tactic(auto, using(smithy_core::proofs::GainLemmas::prefix_at_start), unfolding(crate::specs::Chain::frame_text))]
fn write_event<K: ByteSink>(
    alloc: Global,
    event: &Message,
    line: &mut Vec<u8>,
    out: &mut K,
) -> Result<(), StreamFault>
    requires { unframed event.now ≡ None }
    ensures sends { Sends None (event_line event.now) (K.held out.old) (K.held out.new) result }
    ensures counts { CountsFault (IsErrOf result StreamFault.SinkFault) (K.faults out.old) (K.faults out.new) }
{
    let frame = frame_of(alloc, event)?;
    write_frame(frame.as_slice(), Form::HexLines, line, out)
}
