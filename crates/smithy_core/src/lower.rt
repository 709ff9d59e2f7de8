ghost use Rattle.std.specs.Prelude.{◌≡◌, bytes_eq};
ghost use Rattle.smithy_core.specs.TextPairs.{lower};

/// Whether the text is the name with its ASCII letters in lower case, without making that text. The SDK has no such public
/// call.
pub fn is_lower_of(text: &str, name: &str) -> bool
    ensures { result ≡ bytes_eq text.now (lower name.now) }
{
    let (text, name) = (text.as_bytes(), name.as_bytes());
    if text.len() != name.len() {
        return false;
    }
    for (at, byte) in text.iter().enumerate() {
        if *byte != name[at].to_ascii_lowercase() {
            return false;
        }
    }
    true
}
