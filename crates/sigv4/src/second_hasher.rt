ghost use Rattle.std.specs.Prelude.{◌≡◌, ◌↔◌, ◌++◌, [], ℕ, List, IfOk, IsTrue, string_bytes};
ghost use Rattle.sha2.specs.Sha256.{sha256};
ghost use Rattle.hex.specs.Hex.{encode_lower};
ghost use Rattle.mac_core.specs.Mac.{HoldsMac, key_block, mac_of_block};
ghost use Rattle.smithy_core.specs.Civil.{IsInYears};
ghost use Rattle.smithy_core.specs.Moment.{Instant, floor_secs};
ghost use Rattle.smithy_core.specs.Text.{line};
ghost use Rattle.eventstream.specs.Frame.{spelling};
ghost use Rattle.eventstream.specs.Key.{Signer, signing_key};
ghost use Rattle.eventstream.specs.Link.{date_header, link_code, payload_lines};
ghost use Rattle.sigv4.specs.Chunk.{chunk_signature};
ghost use Rattle.sigv4.specs.SecondHasher.{HashesFor};

use crate::digest::sha256_digits;
use crate::signature::{PAYLOAD_ALGORITHM, begun_string_to_sign};
use crate::signing_time::SigningTime;
use eventstream::{ErrorKind, write_headers_to};
use mac_core::HmacSha256;
use smithy_core::{Header, HeaderValue, Mem, Moment, StrBytes};
use std::alloc::{AllocError, Global};

/// What the links and the chunks of one second are hashed with: an HMAC under the signing key that has taken the lines with which their strings
/// to sign begin, and the digest of the links' header `:date`.
pub(crate) struct SecondHasher {
    secs: i64,
    begun: HmacSha256,
    date_digits: [u8; 64],
}

// Written out: a derived drop would be taken apart in the proof of each function that drops one.
impl Drop for SecondHasher {
    fn drop(self) {
        let SecondHasher {
            secs: _,
            begun,
            date_digits: _,
        } = self;
        drop(begun);
    }
}

impl SecondHasher {
    /// That of a moment's second, for a region and a name. The HMAC under the signing key has no text yet.
    pub(crate) fn new(
        alloc: Global,
        keyed: HmacSha256,
        at: Moment,
        region: &str,
        name: &str,
    ) -> Mem<SecondHasher>
        requires { IsInYears at }
        ensures secs { IfOk result (λ hasher. hasher.secs ≡ at.secs) }
        ensures hashes { (secret : List ℕ) → let signer : Signer = record { secret = secret; region = region.now; name = name.now } in
            HoldsMac keyed (key_block (signing_key signer at)) [] → IfOk result (HashesFor signer) }
    {
        let lines = payload_lines(alloc, at, region, name)?;
        let mut begun = keyed;
        begun.update(lines.as_slice());
        Ok(SecondHasher {
            secs: at.secs(),
            begun,
            date_digits: date_digits(alloc, at)?,
        })
    }

    /// Whether a moment lies in this second.
    pub(crate) fn is_of(&self, at: Moment) -> bool
        ensures { IsTrue result ↔ self.now.secs ≡ at.secs }
    {
        self.secs == at.secs()
    }

    /// The HMAC of the link of bytes, over the signature before it.
    pub(crate) fn link_code(&self, bytes: &[u8], last_signature: &str) -> Mem<[u8; 32]>
        ensures { (signer : Signer) (t : Instant) → HashesFor signer self.now → self.now.secs ≡ t.secs
            → IfOk result (λ code. code ≡ link_code signer last_signature.now bytes.now t) }
    {
        self.code(last_signature, &self.date_digits, bytes)
    }

    /// The signature of a chunk, over the signature before it.
    pub(crate) fn chunk_signature(
        &self,
        alloc: Global,
        chunk: &[u8],
        running_signature: &str,
    ) -> Mem<String>
        ensures { (signer : Signer) (t : Instant) → HashesFor signer self.now → self.now.secs ≡ t.secs
            → IfOk result (λ text. string_bytes text ≡ chunk_signature chunk.now signer t running_signature.now) }
    {
        let code = self.code(running_signature, &sha256_digits(b""), chunk)?;
        Ok(hex::encode(alloc, code.as_slice())?)
    }

    // The HMAC of a string to sign, which ends with the signature before the bytes, a digest, and that of the bytes.
    fn code(&self, last_signature: &str, digits: &[u8; 64], bytes: &[u8]) -> Mem<[u8; 32]>
        ensures { (block lines : List ℕ) → HoldsMac self.now.begun block lines → IfOk result (λ code. code
            ≡ mac_of_block block (lines ++ line last_signature.now ++ line digits.now ++ encode_lower (sha256 bytes.now))) }
    {
        let mut hasher = self.begun.clone()?;
        hasher.update(last_signature.as_bytes());
        hasher.update(b"\n");
        hasher.update(digits.as_slice());
        hasher.update(b"\n");
        hasher.update(sha256_digits(bytes).as_slice());
        Ok(hasher.finalize())
    }
}

// The lines with which the strings to sign of a moment's second begin.
fn payload_lines(alloc: Global, at: Moment, region: &str, name: &str) -> Mem<Vec<u8>>
    requires { IsInYears at }
    ensures { IfOk result (λ lines. lines.items ≡ payload_lines (floor_secs at) region.now name.now) }
{
    let second = SigningTime::new(whole_second(at)).unwrap();
    let stamp = second.stamp();
    let scope = second.scope_bytes(alloc, region, name)?;
    let algorithm = PAYLOAD_ALGORITHM.as_bytes();
    begun_string_to_sign(alloc, algorithm, stamp.as_slice(), scope.as_slice())
}

// The digest of the spelling of the header with a moment.
#[tactic(auto, using(eventstream::proofs::LinkLemmas::date_spelled))]
fn date_digits(alloc: Global, time: Moment) -> Mem<[u8; 64]>
    requires { IsInYears time }
    ensures { IfOk result (λ digits. digits ≡ encode_lower (sha256 (spelling (date_header (floor_secs time))))) }
{
    let headers = [date_header(time)];
    let mut spelled = Vec::with_capacity(alloc, 15)?;
    match write_headers_to(alloc, headers.as_slice(), &mut spelled) {
        Ok(()) => Ok(sha256_digits(spelled.as_slice())),
        Err(error) => match error.kind() {
            ErrorKind::NoMemory => Err(AllocError),
            _ => unreachable!(),
        },
    }
}

/// The header with a moment, without its nanoseconds.
pub(crate) fn date_header(time: Moment) -> Header
    ensures { result ≡ date_header (floor_secs time) }
{
    Header::new(
        StrBytes::from_static(":date"),
        HeaderValue::Timestamp(whole_second(time)),
    )
}

// The moment without its nanoseconds.
fn whole_second(time: Moment) -> Moment
    ensures { result ≡ floor_secs time }
{
    Moment::new(time.secs(), 0)
}
