ghost use Rattle.std.specs.Prelude.{◌≡◌, ◌≤◌, IfOk, IsErrOf};
ghost use Rattle.std.specs.Vec.{vec_len};
ghost use Rattle.smithy_core.specs.Outside.{IsAllOf, IsAtEnd, IsLongerThan, IsRestOf, RoseOrStands};
ghost use Rattle.smithy_core.specs.declared.outside.read_all.ReadFault.TheVariants.{NoMemory};

use crate::outside::source::ByteSource;
use std::alloc::{AllocError, Global};
use std::error::Error;
use std::fmt;

/// Why a source wasn't read to its end.
#[derive(Clone, Copy, Debug, PartialEq, Eq)]
pub enum ReadFault {
    /// The source failed, and counted it.
    Failed,
    /// The source has more bytes than the limit.
    TooLarge,
    /// Memory ran out.
    NoMemory,
}

impl fmt::Display for ReadFault {
    ghost use Rattle.std.specs.Prelude.{Some};
    ghost use Rattle.smithy_core.specs.ReadAll.{read_fault_text};

    ghost output = { λ fault. Some (read_fault_text fault) };

    fn fmt<W: fmt::Write>(&self, f: &mut fmt::Formatter<W>) -> fmt::Result {
        f.write_str(match self {
            ReadFault::Failed => "the source failed",
            ReadFault::TooLarge => "the source has more bytes than the limit",
            ReadFault::NoMemory => "no memory",
        })
    }
}

impl Error for ReadFault {}

impl From<AllocError> for ReadFault {
    ghost from_gives = { λ _ fault. fault ≡ NoMemory };

    fn from(_e: AllocError) -> ReadFault {
        ReadFault::NoMemory
    }
}

/// Reads a source to its end, up to a limit of bytes.
///
/// # Errors
///
/// [`ReadFault::Failed`] where the source's count of faults rose, [`ReadFault::TooLarge`] where the
/// source has more bytes than the limit, [`ReadFault::NoMemory`] where memory runs out. After each the source
/// has a suffix of its bytes left. Any answer but the first leaves the count.
#[tactic(auto, using(crate::proofs::CutLemmas::cuts))]
pub fn read_all<S: ByteSource>(
    alloc: Global,
    source: &mut S,
    limit: usize,
) -> Result<Vec<u8>, ReadFault>
    ensures bytes { IfOk result (λ bytes. IsAllOf (S.left source.old) bytes.items) }
    ensures at_end { IfOk result (λ _. IsAtEnd (S.left source.new)) }
    ensures short { IfOk result (λ bytes. vec_len bytes ≤ limit) }
    ensures rest { IsRestOf (S.left source.old) (S.left source.new) }
    ensures count { S.faults source.old ≤ S.faults source.new }
    ensures steady { (IsErrOf result ReadFault.Failed → ⊥) → S.faults source.new ≡ S.faults source.old }
    ensures failed { IsErrOf result ReadFault.Failed → RoseOrStands (S.faults source.old) (S.faults source.new) }
    ensures too_large { IsErrOf result ReadFault.TooLarge → IsLongerThan (S.left source.old) limit }
{
    let mut buffer = [0u8; 8192];
    let mut bytes = Vec::new(alloc);
    'reads: while bytes.len() <= limit {
        match source.read(&mut buffer) {
            Err(_) => return Err(ReadFault::Failed),
            Ok(0) => return Ok(bytes),
            Ok(n) => bytes.extend_from_slice(&buffer[..n])?,
        }
    }
    Err(ReadFault::TooLarge)
}
