ghost use Rattle.std.specs.Prelude.{◌≡◌, IfOk};

use smithy_core::{AppName, Mem};

/// A copy of the name, where there is one.
pub(crate) fn copied_name(name: &Option<AppName>) -> Mem<Option<AppName>>
    ensures { IfOk result (λ copy. copy ≡ name.now) }
{
    Ok(match name {
        Some(name) => Some(name.try_clone()?),
        None => None,
    })
}
