ghost use Rattle.std.specs.Prelude.{◌≡◌};
ghost use Rattle.aws_chunked.specs.Signing.{has_signature};

use smithy_core::Headers;

// Whether trailers have a signature: the body is signed and there are some.
pub(crate) fn has_signature(is_signed: bool, trailers: &Headers) -> bool
    ensures { result ≡ has_signature is_signed trailers.now }
{
    if trailers.is_empty() {
        return false;
    }
    is_signed
}
