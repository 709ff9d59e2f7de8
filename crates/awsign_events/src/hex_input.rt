//! An input of lines of hexadecimal.
ghost use Rattle.std.specs.Prelude.{◌≤◌};
ghost use Rattle.awsign_events.specs.HexInput.{GivesUnhexed, ReadsHex, Unhexes, unhexed};

use crate::status::EventsStatus;
use job_text::{JobFault, LineFault, TakeLine, hex_bytes, take_lines, text_of};
use smithy_core::{ByteSource, read_all};
use std::alloc::Global;

/// The most bytes of an input that is kept whole.
pub(crate) const MOST_INPUT: usize = 67_108_864;

/// The bytes that the lines so far spell.
#[derive(Drop)]
pub struct HexDraft {
    bytes: Vec<u8>,
}

impl TakeLine for HexDraft {
    ghost use Rattle.std.specs.Prelude.{ℕ, List};
    ghost use Rattle.awsign_events.specs.HexInput.{hex_step};

    ghost Draft = { List ℕ };

    ghost draft = { λ draft. draft.bytes.items };

    ghost step = { hex_step };

    fn take_line(&mut self, alloc: Global, line: &str) -> Result<(), LineFault> {
        let bytes = hex_bytes(alloc, line)?;
        self.bytes.extend_from_slice(bytes.as_slice())?;
        Ok(())
    }
}

/// The bytes that the lines of an input spell, an even number of hexadecimal digits each.
///
/// # Errors
///
/// [`EventsStatus::BadLine`] at the first line that is bad, [`EventsStatus::InputFault`], [`EventsStatus::TooLarge`] where the input has
/// over 67,108,864 bytes, and [`Status::NoMemory`](awsign_run::Status).
pub fn read_hex<S: ByteSource>(alloc: Global, input: &mut S) -> Result<Vec<u8>, EventsStatus>
    ensures reads { ReadsHex (S.left input.old) result }
    ensures count { S.faults input.old ≤ S.faults input.new }
{
    match read_all(alloc, input, MOST_INPUT) {
        Ok(text) => given_unhexed(alloc, text.as_slice()),
        Err(fault) => Err(EventsStatus::from(fault)),
    }
}

fn given_unhexed(alloc: Global, bytes: &[u8]) -> Result<Vec<u8>, EventsStatus>
    ensures { GivesUnhexed (unhexed bytes.now) result }
{
    match unhexed(alloc, bytes) {
        Ok(bytes) => Ok(bytes),
        Err(fault) => Err(EventsStatus::from(fault)),
    }
}

#[tactic(auto, unfolding(crate::specs::HexInput::unhexed))]
fn unhexed(alloc: Global, bytes: &[u8]) -> Result<Vec<u8>, JobFault>
    ensures { Unhexes bytes.now result }
{
    let text = text_of(bytes)?;
    let mut draft = HexDraft {
        bytes: Vec::new(alloc),
    };
    take_lines(alloc, &mut draft, text)?;
    Ok(draft.bytes)
}
