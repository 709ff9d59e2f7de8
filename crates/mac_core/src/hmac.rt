ghost use Rattle.std.specs.Prelude.{◌≡◌, ℕ, ◌+◌, ◌≤◌, List, [], ◌++◌, length, drop, IfOk};
ghost use Rattle.std.specs.String.{string_bytes};
ghost use Rattle.sha2.specs.Sha256.{sha256};
ghost use Rattle.hex.specs.Hex.{encode_lower};
ghost use Rattle.mac_core.specs.Mac.{HoldsMac, key_block, mac, mac_of_block, xored};

use sha2::{Digest, Sha256};
use std::alloc::{AllocError, Global};

/// The length of a block of SHA-256 in bytes.
const BLOCK: usize = 64;

/// The byte that the inner pad repeats (RFC 2104, section 2).
const INNER_PAD: u8 = 0x36;

/// The byte that the outer pad repeats (RFC 2104, section 2).
const OUTER_PAD: u8 = 0x5C;

/// The SHA-256 of no bytes, in lower-case hexadecimal.
const NONE_DIGESTED: &str = "e3b0c44298fc1c149afbf4c8996fb92427ae41e4649b934ca495991b7852b855";

/// HMAC over SHA-256 (RFC 2104), its text taken in pieces.
///
/// Both pads are hashed when it is made, two blocks of SHA-256. Who has several texts under one key makes it once, and takes a
/// copy for each text:
///
/// ```rust
/// let keyed = HmacSha256::new(key);
/// for text in texts {
///     let mut hasher = keyed.clone()?;
///     hasher.update(text);
///     codes.push(hasher.finalize())?;
/// }
/// ```
///
/// Contracts see it as its key block and the text so far, by the relation `HoldsMac`.
#[derive(Drop)]
pub struct HmacSha256 {
    outer: Sha256,
    inner: Sha256,
}

impl HmacSha256 {
    /// An HMAC under a key of any length, with no text yet.
    pub fn new(key: &[u8]) -> Self
        ensures { HoldsMac result (key_block key.now) [] }
    {
        HmacSha256::with_block(block_of(key, &[]))
    }

    /// An HMAC under the two parts of a key, one after the other, with no text yet.
    pub fn new_from_parts(front: &[u8], back: &[u8]) -> Self
        ensures { HoldsMac result (key_block (front.now ++ back.now)) [] }
    {
        HmacSha256::with_block(block_of(front, back))
    }

    fn with_block(block: [u8; BLOCK]) -> Self
        ensures { HoldsMac result block [] }
    {
        HmacSha256 {
            outer: Sha256::new_with_prefix(xor_block(&block, OUTER_PAD).as_slice()),
            inner: Sha256::new_with_prefix(xor_block(&block, INNER_PAD).as_slice()),
        }
    }

    /// Takes the next bytes of the text.
    pub fn update(&mut self, bytes: &[u8])
        ensures { (block text : List ℕ) → HoldsMac self.old block text → HoldsMac self.new block (text ++ bytes.now) }
    {
        self.inner.update(bytes);
    }

    /// The HMAC of the text.
    #[tactic(auto, unfolding(crate::specs::Mac::mac_of_block))]
    pub fn finalize(self) -> [u8; 32]
        ensures { (block text : List ℕ) → HoldsMac self block text → result ≡ mac_of_block block text }
    {
        let HmacSha256 { mut outer, inner } = self;
        let digest = inner.finalize();
        outer.update(digest.as_slice());
        outer.finalize()
    }
}

// The copy has the same key and the same text, and takes no memory.
impl Clone for HmacSha256 {
    ghost use Rattle.std.specs.Prelude.{⊤};

    ghost is_clone = { λ hasher copy. copy ≡ hasher };

    ghost is_infallible = { λ _. ⊤ };

    fn clone(&self) -> Result<HmacSha256, AllocError> {
        Ok(HmacSha256 {
            outer: self.outer.clone()?,
            inner: self.inner.clone()?,
        })
    }
}

/// The HMAC-SHA-256 of a text under a key of any length (RFC 2104).
#[tactic(auto, unfolding(crate::specs::Mac::mac))]
pub fn hmac_sha256(key: &[u8], text: &[u8]) -> [u8; 32]
    ensures { result ≡ mac key.now text.now }
{
    let mut hasher = HmacSha256::new(key);
    hasher.update(text);
    hasher.finalize()
}

/// The SHA-256 of the bytes (FIPS 180-4), in lower-case hexadecimal.
#[tactic(auto, using(crate::proofs::MacLemmas::none_digested))]
pub fn sha256_hex(alloc: Global, bytes: &[u8]) -> Result<String, AllocError>
    ensures { IfOk result (λ text. string_bytes text ≡ encode_lower (sha256 bytes.now)) }
{
    // Most requests have no body.
    if bytes.is_empty() {
        return String::from_str(alloc, NONE_DIGESTED);
    }
    let digest = Sha256::digest(bytes);
    hex::encode(alloc, digest.as_slice())
}

// The key block of the two parts of a key.
#[tactic(auto, using(crate::proofs::MacLemmas::blocks), unfolding(crate::specs::Mac::key_block, crate::specs::Mac::short_key))]
fn block_of(front: &[u8], back: &[u8]) -> [u8; BLOCK]
    ensures { result ≡ key_block (front.now ++ back.now) }
{
    let mut block = [0u8; BLOCK];
    if front.len() + back.len() > BLOCK {
        let mut hasher = Sha256::new();
        hasher.update(front);
        hasher.update(back);
        let digest = hasher.finalize();
        put_front(&mut block, digest.as_slice(), &[]);
    } else {
        put_front(&mut block, front, back);
    }
    block
}

fn put_front(block: &mut [u8], front: &[u8], back: &[u8])
    requires { length front.now + length back.now ≤ length block.old }
    ensures { block.new ≡ (front.now ++ back.now) ++ drop (length (front.now ++ back.now)) block.old }
{
    block[..front.len()].copy_from_slice(front);
    block[front.len()..front.len() + back.len()].copy_from_slice(back);
}

fn xor_block(block: &[u8; BLOCK], pad: u8) -> [u8; BLOCK]
    ensures { result ≡ xored pad block.now }
{
    let mut out = *block;
    xor_each(&mut out, pad);
    out
}

#[tactic(auto, unfolding(crate::specs::Mac::xored))]
fn xor_each(bytes: &mut [u8], pad: u8)
    ensures { bytes.new ≡ xored pad bytes.old }
{
    for byte in bytes.iter_mut() {
        *byte ^= pad;
    }
}
