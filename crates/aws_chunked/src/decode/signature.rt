ghost use Rattle.sigv4.specs.Signature.{is_lower_digit};
ghost use Rattle.aws_chunked.specs.Reading.{ReadsSignature};

use crate::decode::fault::{PartFault, bad_at};
use sigv4::parts::is_lower_digit;
use std::alloc::Global;

// How many digits a signature has.
const SIGNATURE_DIGITS: usize = 64;

// Reads a signature: its text, and what stands behind it.
pub(crate) fn read_signature(alloc: Global, bytes: &[u8]) -> Result<(String, &[u8]), PartFault>
    ensures { ReadsSignature bytes.now result }
{
    let mut signature = String::new(alloc);
    let mut rest = bytes;
    for _ in 0..SIGNATURE_DIGITS {
        match rest.split_first() {
            Some((digit, others)) if is_lower_digit(*digit) => {
                signature.push(*digit as char)?;
                rest = others;
            }
            _ => return Err(bad_at(rest)),
        }
    }
    Ok((signature, rest))
}
