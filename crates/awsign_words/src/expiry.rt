//! For how long a presigned URL is good, as it is written.
ghost use Rattle.std.specs.Prelude.{◌≡◌, ◌<◌};
ghost use Rattle.awsign_words.specs.Expiry.{expiry_named, units, written_secs};

use job_text::parse_u64;

/// The seconds for which a word says that a presigned URL is good, one at least: a number of seconds, or one with a unit behind it, which is
/// `s`, `m`, `h` or `d`. There is none where a `u64` doesn't hold them.
pub fn expiry_named(word: &str) -> Option<u64>
    ensures { result ≡ expiry_named word.now }
{
    match written_secs(word) {
        Some(0) | None => None,
        Some(secs) => Some(secs),
    }
}

// How many seconds a length of time has.
#[tactic(auto, unfolding(crate::specs::Expiry::written_secs))]
fn written_secs(text: &str) -> Option<u64>
    ensures { result ≡ written_secs text.now }
{
    match text.as_bytes().last() {
        Some(b's') => units(text, 's', 1),
        Some(b'm') => units(text, 'm', 60),
        Some(b'h') => units(text, 'h', 3_600),
        Some(b'd') => units(text, 'd', 86_400),
        _ => parse_u64(text),
    }
}

// The seconds of a number of units, of which a letter stands behind the number.
fn units(text: &str, letter: char, unit: u64) -> Option<u64>
    requires { letter < 128 }
    ensures { result ≡ units letter unit text.now }
{
    match text.split_once(letter) {
        Some((number, "")) => parse_u64(number)?.checked_mul(unit),
        _ => None,
    }
}
