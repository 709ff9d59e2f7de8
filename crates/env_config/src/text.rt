ghost use Rattle.std.specs.Prelude.{◌≡◌, ◌++◌, IfOk};
ghost use Rattle.std.specs.String.{string_bytes};

use smithy_core::Mem;
use std::alloc::Global;

/// Both texts, one after the other.
pub fn joined(alloc: Global, text: &str, other: &str) -> Mem<String>
    ensures { IfOk result (λ both. string_bytes both ≡ text.now ++ other.now) }
{
    let mut both = String::from_str(alloc, text)?;
    both.push_str(other)?;
    Ok(both)
}
