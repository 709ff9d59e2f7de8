ghost use Rattle.std.specs.Prelude.{◌≡◌, [], true, IfOk, string_bytes};
ghost use Rattle.mac_core.specs.Crc.{after_bytes, before_any};
ghost use Rattle.mac_core.specs.Mac.{HoldsMac, key_block};
ghost use Rattle.smithy_core.specs.Civil.{IsInYears};
ghost use Rattle.eventstream.specs.Key.{signing_key};
ghost use Rattle.eventstream.specs.Link.{link_code, link_message, link_signature};
ghost use Rattle.sigv4.specs.Chunk.{chunk_signature, trailer_signature, trailer_text};
ghost use Rattle.sigv4.specs.KeptKey.{derived_at, is_kept, kept_at, no_key};
ghost use Rattle.sigv4.specs.Output.{output_signature, signed_output};
ghost use Rattle.sigv4.specs.SecondHasher.{HashesFor};

use crate::chunk::trailer_text;
use crate::event_stream::{link, summed};
use crate::key::generate_signing_key;
use crate::output::SigningOutput;
use crate::second_hasher::SecondHasher;
use crate::signature::calculate_signature;
use crate::signing_time::SigningTime;
use mac_core::{Crc, HmacSha256};
use smithy_core::{Headers, Mem, Message, Moment, is_same_day};
use std::fmt;
use std::marker::Model;

/// A signing key that is kept for the day that it holds for, and the number of keys that were derived.
///
/// Deriving a key takes four HMACs, which is as long as the rest of the signing of a small message. What the messages and the chunks
/// of one second have in common is hashed once, too: the pads of the HMAC, the first lines of the string to sign, and the header
/// `:date`.
///
/// ```rust
/// let mut kept = KeptKey::new(secret, region, name);
/// for event in events {
///     let mut bytes = Vec::new(alloc);
///     let checksum = write_summed_message_to(alloc, event, &mut bytes)?;
///     let signed = kept.sign_bytes(bytes, checksum, signature.as_str(), clock.now())?;
///     ..
/// }
/// ```
///
/// Contracts see who signs, the date whose key is kept, and the number.
pub struct KeptKey {
    secret: String,
    region: String,
    name: String,
    kept: Option<DayKey>,
    second: Option<SecondHasher>,
    derivations: u64,
}

// Written out: a derived drop would be taken apart in the proof of each function that drops one.
impl Drop for KeptKey {
    fn drop(self) {
        let KeptKey {
            secret,
            region,
            name,
            kept,
            second,
            derivations: _,
        } = self;
        drop(secret);
        drop(region);
        drop(name);
        drop(kept);
        drop(second);
    }
}

// The signing key of a moment, which is that of each moment of its day, and an HMAC under it with no text.
#[derive(Drop)]
struct DayKey {
    at: Moment,
    key: [u8; 32],
    keyed: HmacSha256,
}

impl Model for KeptKey {
    ghost use Rattle.std.specs.Prelude.{option_map, string_bytes};
    ghost use Rattle.smithy_core.specs.Civil.{date};
    ghost use Rattle.eventstream.specs.Key.{Signer};
    ghost use Rattle.sigv4.specs.KeptKey.{IsKeyFor, Kept};
    ghost use Rattle.sigv4.specs.SecondHasher.{IsHasherFor};

    ghost Value = { Kept };

    ghost view = { λ key. record {
      signer = record { secret = string_bytes key.secret; region = string_bytes key.region; name = string_bytes key.name };
      date = option_map (λ day. date day.at) key.kept;
      derivations = key.derivations;
    } };

    ghost invariant = { λ key.
        let signer : Signer = record { secret = string_bytes key.secret; region = string_bytes key.region; name = string_bytes key.name } in
        IsKeyFor signer key.kept × IsHasherFor signer key.second };
}

impl KeptKey {
    /// No key yet, of a secret for a region and a service's name.
    pub fn new(secret: String, region: String, name: String) -> KeptKey
        ensures { result ≡ no_key (record { secret = string_bytes secret; region = string_bytes region; name = string_bytes name }) }
    {
        KeptKey {
            secret,
            region,
            name,
            kept: None,
            second: None,
            derivations: 0,
        }
    }

    /// The signing key for the date of a moment, which is derived where none is kept for that date. It takes no memory.
    ///
    /// The moment has to lie in the years 0 to 9999.
    pub fn key(&mut self, at: Moment) -> [u8; 32]
        requires { IsInYears at }
        ensures key { result ≡ signing_key self.old.signer at }
        ensures kept { self.new ≡ kept_at self.old at }
    {
        self.keep(at);
        self.day(at).key
    }

    /// Signs the bytes of a frame over the signature before them: a message with these bytes as its payload, and the new
    /// signature. The SDK has no such call.
    ///
    /// The moment has to lie in the years 0 to 9999, and the checksum has to be the one that took the bytes alone, as
    /// [`write_summed_message_to`](eventstream::write_summed_message_to) answers it.
    pub fn sign_bytes(
        &mut self,
        bytes: Vec<u8>,
        checksum: Crc,
        last_signature: &str,
        at: Moment,
    ) -> Mem<SigningOutput<Message>>
        requires in_years { IsInYears at }
        requires checksum { checksum ≡ after_bytes before_any bytes.items }
        ensures message { IfOk result (λ output. signed_output output ≡ link_message self.old.signer last_signature.now bytes.items at) }
        ensures signature { IfOk result (λ output. output_signature output ≡ link_signature self.old.signer last_signature.now bytes.items at) }
        ensures kept { self.new ≡ kept_at self.old at }
    {
        let code = self.link_code(bytes.as_slice(), last_signature, at)?;
        let signed = link(*self.region.allocator(), bytes, at, code.as_slice())?;
        Ok(summed(signed, checksum))
    }

    /// The HMAC that [`KeptKey::sign_bytes`] signs the bytes of a frame with, alone. The SDK has no such call.
    ///
    /// The moment has to lie in the years 0 to 9999.
    pub fn link_code(&mut self, bytes: &[u8], last_signature: &str, at: Moment) -> Mem<[u8; 32]>
        requires { IsInYears at }
        ensures code { IfOk result (λ code. code ≡ link_code self.old.signer last_signature.now bytes.now at) }
        ensures kept { self.new ≡ kept_at self.old at }
    {
        self.keep(at);
        let second = self.take_second(at)?;
        let code = second.link_code(bytes, last_signature)?;
        self.second = Some(second);
        Ok(code)
    }

    /// The signature of a chunk of an upload over the signature before it, as [`v4::sign_chunk`](crate::v4::sign_chunk) has it.
    /// The SDK has no such call.
    ///
    /// The moment has to lie in the years 0 to 9999.
    pub fn chunk_signature(
        &mut self,
        chunk: &[u8],
        running_signature: &str,
        at: Moment,
    ) -> Mem<String>
        requires { IsInYears at }
        ensures signature { IfOk result (λ text. string_bytes text ≡ chunk_signature chunk.now self.old.signer at running_signature.now) }
        ensures kept { self.new ≡ kept_at self.old at }
    {
        self.keep(at);
        let alloc = *self.region.allocator();
        let second = self.take_second(at)?;
        let signature = second.chunk_signature(alloc, chunk, running_signature)?;
        self.second = Some(second);
        Ok(signature)
    }

    /// The signature of the trailers of an upload over that of its empty chunk, as [`v4::sign_trailer`](crate::v4::sign_trailer)
    /// has it: their names and values are taken as they are. The SDK has no such call.
    ///
    /// The moment has to lie in the years 0 to 9999.
    #[tactic(auto, unfolding(crate::specs::Chunk::trailer_signature))]
    pub fn trailer_signature(
        &mut self,
        headers: &Headers,
        running_signature: &str,
        at: Moment,
    ) -> Mem<String>
        requires { IsInYears at }
        ensures signature { IfOk result (λ text. string_bytes text ≡ trailer_signature headers.now self.old.signer at running_signature.now) }
        ensures kept { self.new ≡ kept_at self.old at }
    {
        self.keep(at);
        let alloc = *self.region.allocator();
        let text = self.trailer_text(headers, running_signature, at)?;
        calculate_signature(alloc, self.day(at).key.as_slice(), text.as_slice())
    }

    // The string to sign of trailers.
    fn trailer_text(&self, headers: &Headers, running_signature: &str, at: Moment) -> Mem<Vec<u8>>
        requires { IsInYears at }
        ensures { IfOk result (λ text. text.items ≡ trailer_text headers.now self.now.signer at running_signature.now) }
    {
        let alloc = *self.region.allocator();
        let time = SigningTime::new(at).unwrap();
        let (region, name) = (self.region.as_str(), self.name.as_str());
        trailer_text(alloc, headers, &time, running_signature, region, name)
    }

    /// How many keys were derived and kept. The number saturates. That [`KeptKey::key`] derives no other key beside them isn't
    /// promised: no clause speaks of what a call computes and drops.
    pub fn derivations(&self) -> u64
        ensures { result ≡ self.now.derivations }
    {
        self.derivations
    }

    /// The same key, kept for the same day, after as many derivations.
    pub fn try_clone(&self) -> Mem<KeptKey>
        ensures { IfOk result (λ copy. copy ≡ self.now) }
    {
        Ok(KeptKey {
            secret: self.secret.clone()?,
            region: self.region.clone()?,
            name: self.name.clone()?,
            kept: self.kept.as_ref().cloned()?,
            second: None,
            derivations: self.derivations,
        })
    }

    // Derives the key of a moment, where none is kept for its date.
    fn keep(&mut self, at: Moment)
        requires { IsInYears at }
        ensures kept { self.new ≡ kept_at self.old at }
        ensures is_kept { is_kept self.new.date at ≡ true }
    {
        if !self.is_kept(at) {
            self.derive(at);
        }
    }

    // Whether the kept key is that of the moment's date.
    fn is_kept(&self, at: Moment) -> bool
        requires { IsInYears at }
        ensures { result ≡ is_kept self.now.date at }
    {
        match &self.kept {
            Some(day) => is_same_day(day.at, at),
            None => false,
        }
    }

    // Derives the key of the moment, and keeps it.
    fn derive(&mut self, at: Moment)
        requires { IsInYears at }
        ensures { self.new ≡ derived_at self.old at }
    {
        let (region, name) = (self.region.as_str(), self.name.as_str());
        let key = generate_signing_key(self.secret.as_str(), at, region, name);
        let keyed = HmacSha256::new(key.as_slice());
        self.kept = Some(DayKey { at, key, keyed });
        self.derivations = self.derivations.saturating_add(1);
    }

    // The kept key, which is that of the moment's date.
    fn day(&self, at: Moment) -> &DayKey
        requires { is_kept self.now.date at ≡ true }
        ensures key { result.now.key ≡ signing_key self.now.signer at }
        ensures keyed { HoldsMac result.now.keyed (key_block (signing_key self.now.signer at)) [] }
    {
        match &self.kept {
            Some(day) => day,
            None => unreachable!(),
        }
    }

    // What the links of the moment's second are hashed with, which is taken out where it is kept.
    fn take_second(&mut self, at: Moment) -> Mem<SecondHasher>
        requires in_years { IsInYears at }
        requires kept { is_kept self.old.date at ≡ true }
        ensures secs { IfOk result (λ second. second.secs ≡ at.secs) }
        ensures hashes { IfOk result (HashesFor self.old.signer) }
        ensures same { self.new ≡ self.old }
    {
        if let Some(second) = self.second.take() {
            if second.is_of(at) {
                return Ok(second);
            }
        }
        self.new_second(at)
    }

    // What the links of the moment's second are hashed with, made anew.
    fn new_second(&self, at: Moment) -> Mem<SecondHasher>
        requires in_years { IsInYears at }
        requires kept { is_kept self.now.date at ≡ true }
        ensures secs { IfOk result (λ second. second.secs ≡ at.secs) }
        ensures hashes { IfOk result (HashesFor self.now.signer) }
    {
        let keyed = self.day(at).keyed.clone()?;
        let (region, name) = (self.region.as_str(), self.name.as_str());
        SecondHasher::new(*self.region.allocator(), keyed, at, region, name)
    }
}

impl Clone for DayKey {
    ghost is_clone = { λ day copy. copy ≡ day };

    fn clone(&self) -> Mem<DayKey> {
        Ok(DayKey {
            at: self.at,
            key: self.key,
            keyed: self.keyed.clone()?,
        })
    }
}

impl Clone for KeptKey {
    ghost is_clone = { λ key copy. copy ≡ key };

    fn clone(&self) -> Mem<KeptKey> {
        self.try_clone()
    }
}

// Shows neither the secret nor the key.
impl fmt::Debug for KeptKey {
    ghost use Rattle.std.specs.Prelude.{Some};
    ghost use Rattle.sigv4.specs.KeptKey.{shown_key};

    ghost debug_output = { λ kept. Some (shown_key kept) };

    fn fmt<W: fmt::Write>(&self, f: &mut fmt::Formatter<W>) -> fmt::Result {
        let count = self.derivations;
        write!(f, "KeptKey({count} derivations)")
    }
}
