ghost use Rattle.std.specs.Prelude.{◌≡◌, IfOk};

use crate::user_agent::metadata::AdditionalMetadata;
use smithy_core::Mem;
use std::alloc::Global;

/// Equal metadata, in the same order.
pub(crate) fn copied_additional(
    alloc: Global,
    additional: &[AdditionalMetadata],
) -> Mem<Vec<AdditionalMetadata>>
    ensures { IfOk result (λ copies. copies.items ≡ additional.now) }
{
    let mut copies = Vec::new(alloc);
    for metadata in additional {
        copies.push(metadata.try_clone()?)?;
    }
    Ok(copies)
}
