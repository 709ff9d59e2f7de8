ghost use Rattle.std.specs.Prelude.{◌≡◌};
ghost use Rattle.sigv4.specs.Refusal.{is_name, is_value};

use smithy_http::{is_header_name, is_header_value};

/// Whether the text may be a header's name.
pub(crate) fn is_name(text: &str) -> bool
    ensures { result ≡ is_name text.now }
{
    is_header_name(text)
}

/// Whether the text may be a header's value.
pub(crate) fn is_value(text: &str) -> bool
    ensures { result ≡ is_value text.now }
{
    is_header_value(text)
}
