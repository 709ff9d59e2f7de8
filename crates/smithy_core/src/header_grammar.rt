ghost use Rattle.std.specs.Prelude.{◌≡◌, ◌↔◌, IsTrue};
ghost use Rattle.http_header.specs.Token.{is_value_byte};
ghost use Rattle.smithy_core.specs.HeaderGrammar.{IsHeaderName, IsHeaderValue};

use http_header::is_token;

/// The most bytes of a header's name.
const MOST_FIELD_NAME: usize = 65_535;

/// Whether the text may be a header's name (RFC 9110, section 5.1): 1 to 65,535 letters, digits and marks of
/// ``!#$%&'*+-.^_`|~``.
pub fn is_header_name(text: &str) -> bool
    ensures { IsTrue result ↔ IsHeaderName text.now }
{
    is_token(text.as_bytes()) && text.len() <= MOST_FIELD_NAME
}

/// Whether the text may be a header's value (RFC 9110, section 5.5): none of the bytes 0 to 8, 10 to 31 and 127.
pub fn is_header_value(text: &str) -> bool
    ensures { IsTrue result ↔ IsHeaderValue text.now }
{
    let bytes = text.as_bytes();
    let mut is_value = true;
    // With no early exit, so that it can be compiled to vector code.
    for byte in bytes {
        is_value &= is_value_byte(*byte);
    }
    is_value
}

fn is_value_byte(byte: u8) -> bool
    ensures { result ≡ is_value_byte byte }
{
    byte == b'\t' || (byte >= b' ' && byte != 127)
}
