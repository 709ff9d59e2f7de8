ghost use Rattle.std.specs.Prelude.{◌≡◌, ◌+◌, ◌≤◌, length, IfOk};
ghost use Rattle.seg_buf.specs.Segments.{prelude_len};
ghost use Rattle.eventstream.specs.Read.{AreFit, big_endian, read_prelude, u32_at, announced};

use crate::error::ErrorKind;
use crate::write::{LEAST_FRAME, MOST_BLOCK, MOST_FRAME};
use mac_core::crc32;
use seg_buf::PRELUDE;

/// The bytes of a frame, and of its header block, as its prelude says.
#[derive(Clone, Copy, Debug)]
pub struct Lengths {
    /// The bytes of the whole frame.
    pub total: usize,
    /// The bytes of its header block.
    pub headers: usize,
}

/// The lengths in a prelude. They are tested before anything else is read, so that nobody waits for, or makes room
/// for, a frame that no service sends.
///
/// # Errors
///
/// The first fault decides: a frame under 16 or over 16,777,216 bytes, [`ErrorKind::InvalidMessageLength`]; a header block of
/// one byte, of over 131,072 bytes, or longer than the frame, [`ErrorKind::InvalidHeadersLength`];
/// [`ErrorKind::PreludeChecksumMismatch`].
#[inline(always)]
#[tactic(auto, unfolding(crate::specs::Read::read_prelude))]
pub fn read_prelude(prelude: &[u8; PRELUDE]) -> Result<Lengths, ErrorKind>
    ensures lengths { result ≡ read_prelude prelude.now }
    ensures total { IfOk result (λ lengths. lengths.total ≡ announced prelude.now) }
    ensures fit { IfOk result AreFit }
    ensures len { length prelude.now ≡ prelude_len }
{
    let total = u32_at(prelude.as_slice(), 0) as usize;
    let headers = u32_at(prelude.as_slice(), 4) as usize;
    if total < LEAST_FRAME || total > MOST_FRAME {
        return Err(ErrorKind::InvalidMessageLength);
    }
    if headers == 1 || headers > MOST_BLOCK || headers > total - LEAST_FRAME {
        return Err(ErrorKind::InvalidHeadersLength);
    }
    let computed = crc32(&prelude[..8]);
    let carried = u32_at(prelude.as_slice(), 8);
    if computed != carried {
        return Err(ErrorKind::PreludeChecksumMismatch(computed, carried));
    }
    Ok(Lengths { total, headers })
}

/// The number that the four bytes from a place on spell.
#[tactic(auto, unfolding(crate::specs::Read::big_endian))]
pub fn u32_at(bytes: &[u8], place: usize) -> u32
    requires { place + 4 ≤ length bytes.now }
    ensures { result ≡ u32_at place bytes.now }
{
    match bytes[place..].split_first_chunk::<4>() {
        Some((chunk, _)) => u32::from_be_bytes(*chunk),
        None => unreachable!(),
    }
}
