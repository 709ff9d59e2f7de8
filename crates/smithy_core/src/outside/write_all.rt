ghost use Rattle.std.specs.Prelude.{◌≡◌, ◌≤◌, OnOk, OnErr, IsErrOf};
ghost use Rattle.smithy_core.specs.Outside.{Gains, GainsProperPrefix, RoseOrStands};

use crate::outside::sink::{ByteSink, SinkError};

/// Writes a whole piece.
///
/// # Errors
///
/// [`SinkError::Failed`] where the sink's count of faults rose, [`SinkError::NoMemory`] where memory runs out.
/// After both the sink has gained a prefix of the piece, and not all of it. Any answer but the
/// first leaves the count.
#[tactic(auto, using(crate::proofs::GainLemmas::writes))]
pub fn write_all<K: ByteSink>(sink: &mut K, piece: &[u8]) -> Result<(), SinkError>
    ensures count { K.faults sink.old ≤ K.faults sink.new }
    ensures steady { (IsErrOf result SinkError.Failed → ⊥) → K.faults sink.new ≡ K.faults sink.old }
    ensures ok { OnOk result (Gains (K.held sink.old) (K.held sink.new) piece.now) }
    ensures failed { IsErrOf result SinkError.Failed → RoseOrStands (K.faults sink.old) (K.faults sink.new) }
    ensures err { OnErr result (GainsProperPrefix (K.held sink.old) (K.held sink.new) piece.now) }
{
    let mut rest = piece;
    'writes: while !rest.is_empty() {
        match sink.write(rest) {
            Ok(n) => rest = &rest[n..],
            Err(e) => return Err(e),
        }
    }
    Ok(())
}
