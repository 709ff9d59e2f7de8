ghost use Rattle.std.specs.Prelude.{◌≡◌};
ghost use Rattle.aws_chunked.specs.Reading.{Expects};
ghost use Rattle.aws_chunked.specs.Rests.{begins_with};

use crate::decode::fault::{PartFault, bad_at};

// Reads these bytes: what stands behind them.
pub(crate) fn expect<'a>(bytes: &'a [u8], wanted: &[u8]) -> Result<&'a [u8], PartFault>
    ensures { Expects wanted.now bytes.now result }
{
    let mut rest = bytes;
    for byte in wanted {
        match rest.split_first() {
            Some((first, others)) if first == byte => rest = others,
            _ => return Err(bad_at(rest)),
        }
    }
    Ok(rest)
}

/// Whether this byte stands first.
pub fn begins_with(bytes: &[u8], byte: u8) -> bool
    ensures { result ≡ begins_with byte bytes.now }
{
    match bytes.first() {
        Some(first) => *first == byte,
        None => false,
    }
}
