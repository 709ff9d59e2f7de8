ghost use Rattle.std.specs.Prelude.{◌≡◌, ℕ, List, IfOk};
ghost use Rattle.std.specs.List.{list_all};
ghost use Rattle.std.specs.String.{string_bytes};
ghost use Rattle.hex.specs.Hex.{encode_lower};
ghost use Rattle.mac_core.specs.Mac.{mac};
ghost use Rattle.smithy_core.specs.Civil.{IsInYears, stamp};
ghost use Rattle.eventstream.specs.Key.{scope, signing_key};
ghost use Rattle.eventstream.specs.Link.{begun_lines};
ghost use Rattle.sigv4.specs.Digest.{HoldsText};
ghost use Rattle.sigv4.specs.Signature.{is_lower_digit, is_signature, signature, string_to_sign_of, string_to_sign_over};

use crate::digest::{TextDigest, sha256_digits};
use crate::signing_scope::SigningScope;
use crate::signing_time::SigningTime;
use mac_core::hmac_sha256;
use smithy_core::{Mem, Moment, push_line};
use std::alloc::Global;

/// The algorithm with which the strings to sign of messages and of chunks begin.
pub(crate) const PAYLOAD_ALGORITHM: &str = "AWS4-HMAC-SHA256-PAYLOAD";

/// The signature of a string to sign: its HMAC under the signing key, in lower-case hexadecimal.
pub fn calculate_signature(alloc: Global, signing_key: &[u8], string_to_sign: &[u8]) -> Mem<String>
    ensures { IfOk result (λ text. string_bytes text ≡ encode_lower (mac signing_key.now string_to_sign.now)) }
{
    let code = hmac_sha256(signing_key, string_to_sign);
    hex::encode(alloc, code.as_slice())
}

/// The signature of a request with this canonical text.
///
/// The moment has to lie in the years 0 to 9999. The SDK has no such public call.
#[tactic(auto, unfolding(crate::specs::Signature::signature, crate::specs::Signature::string_to_sign))]
pub fn request_signature(
    alloc: Global,
    canonical_text: &[u8],
    secret: &str,
    time: Moment,
    region: &str,
    name: &str,
) -> Mem<String>
    requires { IsInYears time }
    ensures { IfOk result (λ text. string_bytes text
        ≡ signature (record { secret = secret.now; region = region.now; name = name.now }) time canonical_text.now) }
{
    signature_over(
        alloc,
        &sha256_digits(canonical_text),
        secret,
        time,
        region,
        name,
    )
}

/// The signature of a request whose canonical text was taken in pieces.
///
/// The moment has to lie in the years 0 to 9999. The SDK has no such public call.
#[tactic(auto, unfolding(crate::specs::Signature::signature, crate::specs::Signature::string_to_sign))]
pub fn digest_signature(
    alloc: Global,
    canonical_text: TextDigest,
    secret: &str,
    time: Moment,
    region: &str,
    name: &str,
) -> Mem<String>
    requires { IsInYears time }
    ensures { (canonical : List ℕ) → HoldsText canonical_text canonical → IfOk result (λ text. string_bytes text
        ≡ signature (record { secret = secret.now; region = region.now; name = name.now }) time canonical) }
{
    signature_over(alloc, &canonical_text.digits(), secret, time, region, name)
}

// The signature of a request whose canonical text has this digest.
fn signature_over(
    alloc: Global,
    digest: &[u8; 64],
    secret: &str,
    time: Moment,
    region: &str,
    name: &str,
) -> Mem<String>
    requires { IsInYears time }
    ensures { IfOk result (λ text. string_bytes text ≡ encode_lower (mac
        (signing_key (record { secret = secret.now; region = region.now; name = name.now }) time)
        (string_to_sign_over (stamp time) (scope time region.now name.now) digest.now))) }
{
    let time = SigningTime::new(time).unwrap();
    let scope = SigningScope::new(alloc, &time, region, name)?;
    let key = time.signing_key(secret, region, name);
    signature_of_digest(alloc, key.as_slice(), &scope, digest)
}

/// The signature of a canonical text under a signing key.
pub(crate) fn signature_under(
    alloc: Global,
    signing_key: &[u8],
    scope: &SigningScope,
    canonical_text: &[u8],
) -> Mem<String>
    ensures { IfOk result (λ text. string_bytes text
        ≡ encode_lower (mac signing_key.now (string_to_sign_of (string_bytes scope.now.stamp) (string_bytes scope.now.scope) canonical_text.now))) }
{
    signature_of_digest(alloc, signing_key, scope, &sha256_digits(canonical_text))
}

// The signature of a canonical text that has this digest, under a signing key.
fn signature_of_digest(
    alloc: Global,
    signing_key: &[u8],
    scope: &SigningScope,
    digest: &[u8; 64],
) -> Mem<String>
    ensures { IfOk result (λ text. string_bytes text
        ≡ encode_lower (mac signing_key.now (string_to_sign_over (string_bytes scope.now.stamp) (string_bytes scope.now.scope) digest.now))) }
{
    let (stamp, place) = (scope.stamp.as_bytes(), scope.scope.as_bytes());
    let mut text = begun_string_to_sign(alloc, b"AWS4-HMAC-SHA256", stamp, place)?;
    text.extend_from_slice(digest.as_slice())?;
    calculate_signature(alloc, signing_key, text.as_slice())
}

/// The lines with which each string to sign begins: the algorithm, the stamp and the scope. There is room for the others.
pub(crate) fn begun_string_to_sign(
    alloc: Global,
    algorithm: &[u8],
    stamp: &[u8],
    scope: &[u8],
) -> Mem<Vec<u8>>
    ensures { IfOk result (λ text. text.items ≡ begun_lines algorithm.now stamp.now scope.now) }
{
    let mut text = Vec::with_capacity(alloc, 320)?;
    push_line(&mut text, algorithm)?;
    push_line(&mut text, stamp)?;
    push_line(&mut text, scope)?;
    Ok(text)
}

/// Whether the byte is a hexadecimal digit in lower case, as those of a signature are.
pub fn is_lower_digit(byte: u8) -> bool
    ensures { result ≡ is_lower_digit byte }
{
    matches!(byte, b'0'..=b'9' | b'a'..=b'f')
}

/// Whether the text is a signature: 64 hexadecimal digits in lower case.
#[tactic(auto, unfolding(crate::specs::Signature::is_signature))]
pub fn is_signature(text: &str) -> bool
    ensures { result ≡ is_signature text.now }
{
    text.len() == 64 && are_lower_digits(text.as_bytes())
}

// Whether the bytes are hexadecimal digits in lower case.
fn are_lower_digits(text: &[u8]) -> bool
    ensures { result ≡ list_all is_lower_digit text.now }
{
    text.iter().all(|byte| is_lower_digit(*byte))
}
