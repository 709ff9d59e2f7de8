ghost use Rattle.std.specs.Prelude.{◌≡◌, ◌++◌, IfOk};
ghost use Rattle.std.specs.String.{string_bytes};
ghost use Rattle.smithy_http.specs.Query.{pair};

use smithy_core::Mem;
use std::alloc::Global;

/// A mark, and then a key and its value.
pub(crate) fn marked_pair(alloc: Global, mark: &str, key: &str, value: &str) -> Mem<String>
    ensures { IfOk result (λ piece. string_bytes piece ≡ mark.now ++ pair key.now value.now) }
{
    format!(in alloc; "{mark}{key}={value}")
}

/// A mark, and then a text.
pub(crate) fn marked(alloc: Global, mark: &str, text: &str) -> Mem<String>
    ensures { IfOk result (λ piece. string_bytes piece ≡ mark.now ++ text.now) }
{
    format!(in alloc; "{mark}{text}")
}
