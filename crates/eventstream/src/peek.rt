ghost use Rattle.std.specs.Prelude.{◌≡◌, ◌<◌, ◌≤◌, length, take, Ok, None};
ghost use Rattle.seg_buf.specs.Segments.{prelude_len};
ghost use Rattle.eventstream.specs.Decode.{PeeksMessage};
ghost use Rattle.eventstream.specs.Frame.{most_frame};
ghost use Rattle.eventstream.specs.Read.{AreFit, GivesMessage, read, read_prelude};

use crate::error::Error;
use crate::read::{Lengths, read_frame, read_prelude};
use seg_buf::{PRELUDE, SegBuf};
use smithy_core::Message;
use std::alloc::Global;

/// The message of the frame at the front of the buffer, and how many bytes the frame has; nothing until the frame is there
/// whole. The buffer keeps it.
///
/// # Errors
///
/// Those of [`read_message_from`](crate::read_message_from) for the bytes of the frame; those of a prelude as soon as its
/// twelve bytes are there.
#[tactic(auto, using(crate::proofs::FrontLemmas::first_short, crate::proofs::FrontLemmas::first_bad, crate::proofs::FrontLemmas::more_unfinished, crate::proofs::DecodeLemmas::reads_first, crate::proofs::DecodeLemmas::peeks_fault))]
pub fn peek_message(alloc: Global, buffer: &SegBuf) -> Result<Option<(Message, usize)>, Error>
    ensures first { PeeksMessage buffer.now.bytes result }
    ensures short { result ≡ Ok None → length buffer.now.bytes < most_frame }
{
    if buffer.remaining() < PRELUDE {
        return Ok(None);
    }
    let prelude = buffer.peek_prelude();
    let lengths = read_prelude(&prelude)?;
    if buffer.remaining() < lengths.total {
        return Ok(None);
    }
    let message = read_front(alloc, lengths, prelude, buffer)?;
    Ok(Some((message, lengths.total)))
}

/// The message of the frame at the front of the buffer, whose prelude was read. The buffer keeps it.
///
/// # Errors
///
/// Those of [`read_frame`].
#[tactic(auto, using(crate::proofs::FrontLemmas::read_front))]
pub(crate) fn read_front(
    alloc: Global,
    lengths: Lengths,
    prelude: [u8; PRELUDE],
    buffer: &SegBuf,
) -> Result<Message, Error>
    requires fit { AreFit lengths }
    requires told { read_prelude (take prelude_len buffer.now.bytes) ≡ Ok lengths }
    requires front { prelude ≡ take prelude_len buffer.now.bytes }
    requires there { lengths.total ≤ length buffer.now.bytes }
    ensures { GivesMessage (read (take lengths.total buffer.now.bytes)) lengths.total result }
{
    let mut frame = buffer.copy_front(lengths.total)?;
    frame.advance(PRELUDE);
    read_frame(alloc, lengths, prelude, frame)
}
