//! The signing key of a day, and signatures under a key that is at hand.
ghost use Rattle.std.specs.Prelude.{◌≡◌, Some, None, MatchResult};
ghost use Rattle.eventstream.specs.Key.{signing_key};
ghost use Rattle.firuvaik_c.specs.Asked.{moment_at};
ghost use Rattle.firuvaik_c.specs.Keys.{GivesKeyUnless, GivesSignature};
ghost use Rattle.firuvaik_c.specs.Links.{is_text_scope, key_signer, keyless_at};

use crate::answer::{Answer, refuse};
use crate::fault::Fault;
use crate::lent::Signer;
use crate::link::scope_texts;
use crate::texts::test_years;
use sigv4::v4;
use smithy_core::Moment;
use std::alloc::Global;

/// Writes the signing key of a secret for the day of a second, a region and a service. It takes no memory.
#[unsafe(no_mangle)]
pub extern "C" fn firuvaik_signing_key(
    signer: &Signer<'_>,
    seconds: i64,
    key: &mut [u8; 32],
) -> Answer
    ensures { GivesKeyUnless (keyless_at (is_text_scope signer.now) seconds) (signing_key (key_signer signer.now) (moment_at seconds)) key.old key.new result }
{
    match key_at(signer, seconds) {
        Ok(made) => {
            *key = made;
            Answer {
                status: 0,
                place: 0,
                length: 32,
            }
        }
        Err(fault) => refuse(fault),
    }
}

// The signing key.
fn key_at(signer: &Signer<'_>, seconds: i64) -> Result<[u8; 32], Fault>
    ensures { MatchResult result
        (λ key. (keyless_at (is_text_scope signer.now) seconds ≡ None) × (key ≡ signing_key (key_signer signer.now) (moment_at seconds)))
        (λ fault. keyless_at (is_text_scope signer.now) seconds ≡ Some fault) }
{
    let texts = scope_texts(signer)?;
    let at = Moment::new(seconds, 0);
    test_years(at)?;
    Ok(v4::generate_signing_key(texts.secret, at, texts.region, texts.service))
}

/// Writes the signature of a string to sign under a signing key that is at hand.
#[unsafe(no_mangle)]
pub extern "C" fn firuvaik_signature(
    alloc: Global,
    key: &[u8; 32],
    text: &[u8],
    signature: &mut [u8; 64],
) -> Answer
    ensures { GivesSignature key.now text.now signature.old signature.new result }
{
    match v4::calculate_signature(alloc, key.as_slice(), text) {
        Ok(digits) => {
            signature.copy_from_slice(digits.as_bytes());
            Answer {
                status: 0,
                place: 0,
                length: 64,
            }
        }
        Err(error) => refuse(Fault::from(error)),
    }
}
