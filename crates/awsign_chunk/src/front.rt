//! Data that is read chunk by chunk.
ghost use Rattle.std.specs.Prelude.{◌≡◌, ◌<◌, ◌≤◌, Ok, IfErr, IfOk, IsErrOf, OnErr, OnOk, length};
ghost use Rattle.smithy_core.specs.Outside.{CountsFault, IsAtEnd, IsCutOf, RoseOrStands, TakesFront};
ghost use Rattle.awsign_run.specs.declared.status.Status.TheVariants.{DataFault};
ghost use Rattle.awsign_chunk.specs.Sending.{IsReadStatus};
ghost use Rattle.awsign_chunk.specs.declared.status.ChunkStatus.TheVariants.{Ended};

use crate::status::ChunkStatus;
use awsign_run::Status;
use smithy_core::{ByteSource, Failed};
use std::alloc::Global;

/// How many bytes are read at once.
const PIECE: usize = 65_536;

/// The next bytes of a source: so many, or fewer where it ends before.
#[tactic(auto, using(smithy_core::proofs::CutLemmas::cuts))]
pub(crate) fn read_front<S: ByteSource>(
    alloc: Global,
    content: &mut S,
    size: usize,
) -> Result<Vec<u8>, ChunkStatus>
    ensures cut { IfOk result (λ piece. IsCutOf (S.left content.old) piece.items (S.left content.new)) }
    ensures within { IfOk result (λ piece. length piece.items ≤ size) }
    ensures ended { IfOk result (λ piece. length piece.items < size → IsAtEnd (S.left content.new)) }
    ensures why { IfErr result IsReadStatus }
    ensures failed { CountsFault (IsErrOf result (Ended DataFault)) (S.faults content.old) (S.faults content.new) }
{
    let mut buffer = [0u8; PIECE];
    let mut piece = Vec::with_capacity(alloc, size)?;
    'reads: while piece.len() < size {
        let most = size - piece.len();
        match read_some(content, &mut buffer, most) {
            Err(_) => return Err(ChunkStatus::Ended(Status::DataFault)),
            Ok(0) => return Ok(piece),
            Ok(n) => piece.extend_from_slice(&buffer[..n])?,
        }
    }
    Ok(piece)
}

// Reads at most so many of the next bytes to the front of a buffer, as `ByteSource::read` does.
fn read_some<S: ByteSource>(
    content: &mut S,
    buffer: &mut [u8],
    most: usize,
) -> Result<usize, Failed>
    requires { (0 < most) × (0 < length buffer.old) }
    ensures count { S.faults content.old ≤ S.faults content.new }
    ensures cause { OnErr result (RoseOrStands (S.faults content.old) (S.faults content.new)) }
    ensures steady { OnOk result (S.faults content.new ≡ S.faults content.old) }
    ensures within { IfOk result (λ n. (n ≤ most) × (n ≤ length buffer.old)) }
    ensures taken { IfOk result (λ n. TakesFront n buffer.new (S.left content.old) (S.left content.new)) }
    ensures at_end { result ≡ Ok 0 → IsAtEnd (S.left content.new) }
{
    let end = most.min(buffer.len());
    content.read(&mut buffer[..end])
}
