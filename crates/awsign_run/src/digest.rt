//! The digest of data that is read piece by piece.
ghost use Rattle.std.specs.Prelude.{◌≡◌, ◌≤◌, IfOk, IsErrOf, ℕ, List};
ghost use Rattle.std.specs.String.{string_bytes};
ghost use Rattle.hex.specs.Hex.{encode_lower};
ghost use Rattle.sha2.specs.Hashers.{Holds256};
ghost use Rattle.sha2.specs.Sha256.{sha256};
ghost use Rattle.smithy_core.specs.Outside.{RoseOrStands};
ghost use Rattle.awsign_run.specs.Signing.{DigestsAll, GivesNoEnd};

use sha2::{Digest, Sha256};
use smithy_core::{ByteSource, Mem, ReadFault};
use std::alloc::Global;

/// How many bytes are read at once.
const PIECE: usize = 65_536;

/// The SHA-256 of all that a source has left, in lower-case hexadecimal. It keeps a piece of 65,536 bytes, however long the data is.
///
/// # Errors
///
/// [`ReadFault::Failed`] where the source's count of faults rose; [`ReadFault::TooLarge`] where it gave no end within 2^64 - 1 reads; and
/// [`ReadFault::NoMemory`].
pub fn digest_of<S: ByteSource>(alloc: Global, source: &mut S) -> Result<String, ReadFault>
    ensures digest { IfOk result (λ text. DigestsAll (S.left source.old) (S.left source.new) (string_bytes text)) }
    ensures count { S.faults source.old ≤ S.faults source.new }
    ensures too_large { IsErrOf result ReadFault.TooLarge → GivesNoEnd (S.left source.old) (S.left source.new) }
    ensures failed { IsErrOf result ReadFault.Failed → RoseOrStands (S.faults source.old) (S.faults source.new) }
{
    let mut hasher = Sha256::new();
    let mut buffer = [0u8; PIECE];
    'reads: for _read in 0..u64::MAX {
        match source.read(&mut buffer) {
            Err(_) => return Err(ReadFault::Failed),
            Ok(0) => return Ok(digits_of(alloc, hasher)?),
            Ok(n) => hasher.update(&buffer[..n]),
        }
    }
    Err(ReadFault::TooLarge)
}

// The digest of what a hasher holds, in digits.
fn digits_of(alloc: Global, hasher: Sha256) -> Mem<String>
    ensures { IfOk result (λ text. (bytes : List ℕ) → Holds256 hasher bytes → string_bytes text ≡ encode_lower (sha256 bytes)) }
{
    let digest = hasher.finalize();
    hex::encode(alloc, digest.as_slice())
}
