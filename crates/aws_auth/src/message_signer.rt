ghost use Rattle.std.specs.Prelude.{◌≡◌, IfOk, MatchResult, None, OnErr, OnOk, Some, box_value};
ghost use Rattle.mac_core.specs.Crc.{after_bytes, before_any};
ghost use Rattle.sigv4.specs.KeptKey.{no_key};
ghost use Rattle.aws_auth.specs.MessageSigner.{IsSameSigner, SignsBytes, derivations, own_key, running_signature, signer_from, signer_in, unsigned_by};

use eventstream::{SignMessage, SignMessageError, write_summed_message_to};
use mac_core::Crc;
use sigv4::KeptKey;
use smithy_core::{Identity, Mem, Message, Moment, Region, SigningName, is_in_years};
use std::fmt;
use std::marker::Model;

/// A signer of what follows a signed request, each part over the signature before it: messages, or chunks and trailers.
///
/// Contracts see the last signature, what is signed for, and the key that is kept for the day, if any.
pub struct SigV4MessageSigner<S> {
    pub(crate) running_signature: String,
    pub(crate) identity: Identity,
    pub(crate) region: Region,
    pub(crate) name: SigningName,
    pub(crate) time: Moment,
    settings: S,
    // Boxed, since a key holds the states of four hashers: most signers of an operation sign nothing, and are moved some times.
    kept: Option<Box<KeptKey>>,
    // The key of chunks and trailers, which contracts don't see: all are signed at one moment.
    pub(crate) chunk_key: Option<Box<KeptKey>>,
}

// Written out: a derived drop would be taken apart in the proof of each function that drops one.
impl<S: Drop> Drop for SigV4MessageSigner<S> {
    fn drop(self) {
        let SigV4MessageSigner {
            running_signature,
            identity,
            region,
            name,
            time: _,
            settings,
            kept,
            chunk_key,
        } = self;
        drop(running_signature);
        drop(identity);
        drop(region);
        drop(name);
        drop(settings);
        drop(kept);
        drop(chunk_key);
    }
}

impl<S> Model for SigV4MessageSigner<S> {
    ghost use Rattle.std.specs.Prelude.{box_value, option_map, string_bytes};
    ghost use Rattle.aws_auth.specs.MessageSigner.{IsOwnKey, SignerState, signer_for};

    ghost Value = { SignerState S };

    ghost view = { λ signer. record {
      running_signature = string_bytes signer.running_signature;
      parts = record {
        identity = signer.identity;
        region = signer.region;
        name = signer.name;
        time = signer.time;
        settings = signer.settings;
      };
      kept = option_map box_value signer.kept;
    } };

    ghost invariant = { λ signer.
        let own = signer_for signer.identity signer.region signer.name in
        IsOwnKey own (option_map box_value signer.kept) × IsOwnKey own (option_map box_value signer.chunk_key) };
}

impl<S> SigV4MessageSigner<S> {
    /// A signer that goes on from this signature.
    pub fn new(
        running_signature: String,
        identity: Identity,
        region: Region,
        name: SigningName,
        time: Moment,
        settings: S,
    ) -> SigV4MessageSigner<S>
        ensures { result ≡ signer_from running_signature identity region name time settings }
    {
        SigV4MessageSigner {
            running_signature,
            identity,
            region,
            name,
            time,
            settings,
            kept: None,
            chunk_key: None,
        }
    }

    /// The last signature, over which the next one is made.
    pub fn running_signature(&self) -> &str
        ensures { result.now ≡ running_signature self.now }
    {
        self.running_signature.as_str()
    }

    /// How many signing keys were derived for messages: 0 while no key is kept.
    pub fn derivations(&self) -> u64
        ensures { result ≡ derivations self.now }
    {
        match &self.kept {
            Some(kept) => kept.derivations(),
            None => 0,
        }
    }

    // A key of who signs, not derived yet.
    pub(crate) fn new_key(&self) -> Mem<Box<KeptKey>>
        ensures { IfOk result (λ kept. box_value kept ≡ no_key (signer_in self.now)) }
    {
        let alloc = *self.running_signature.allocator();
        let key = KeptKey::new(
            String::from_str(alloc, self.identity.secret())?,
            String::from_str(alloc, self.region.as_str())?,
            String::from_str(alloc, self.name.as_str())?,
        );
        Ok(Box::new(alloc, key)?)
    }
}

impl<S: Clone + Drop> SigV4MessageSigner<S> {
    /// A signer that goes on from the same signature with the same key, and a copy of the settings.
    pub fn try_clone(&self) -> Mem<SigV4MessageSigner<S>>
        ensures { IfOk result (IsSameSigner S.is_clone self.now) }
    {
        Ok(SigV4MessageSigner {
            running_signature: self.running_signature.clone()?,
            identity: self.identity.try_clone()?,
            region: self.region.try_clone()?,
            name: self.name.try_clone()?,
            time: self.time,
            settings: self.settings.clone()?,
            kept: self.kept.as_ref().cloned()?,
            chunk_key: None,
        })
    }
}

impl SigV4MessageSigner<()> {
    // The message of the bytes, whose signature is the last one then.
    fn sign_bytes(
        &mut self,
        bytes: Vec<u8>,
        checksum: Crc,
        now: Moment,
    ) -> Result<Message, SignMessageError>
        requires { checksum ≡ after_bytes before_any bytes.items }
        ensures { SignsBytes (unsigned_by self.old.parts.identity now) self.old bytes.items now result self.new }
    {
        self.test_at(now)?;
        let mut kept = self.take_key()?;
        let signed = kept.sign_bytes(bytes, checksum, self.running_signature(), now);
        self.kept = Some(kept);
        let (message, signature) = signed?.into_parts();
        self.running_signature = signature;
        Ok(message)
    }

    // Tests that the identity signs at a moment.
    fn test_at(&self, now: Moment) -> Result<(), SignMessageError>
        ensures { MatchResult result
            (λ _. unsigned_by self.now.parts.identity now ≡ None)
            (λ error. unsigned_by self.now.parts.identity now ≡ Some error) }
    {
        match self.identity {
            Identity::Token(_) => Err(SignMessageError::UnsupportedIdentityType),
            Identity::Credentials(_) if is_in_years(now) => Ok(()),
            Identity::Credentials(_) => Err(SignMessageError::MomentOutOfRange(now)),
        }
    }

    // The key that is kept, which is taken out, or else a new one.
    fn take_key(&mut self) -> Mem<Box<KeptKey>>
        ensures ok { IfOk result (λ kept. box_value kept ≡ own_key self.old) }
        ensures own { IfOk result (λ kept. (box_value kept).signer ≡ signer_in self.old) }
        ensures taken { OnOk result (self.new ≡ record self.old { kept = None }) }
        ensures err { OnErr result (self.new ≡ self.old) }
    {
        match self.kept.take() {
            Some(kept) => Ok(kept),
            None => self.new_key(),
        }
    }
}

/// Signs each message at the moment that it is handed, over the last signature, in whose place the new one comes. The signing
/// key is derived once for messages of one day: when there is something to sign for the first time on that day. After a refusal
/// the signer is as before; where memory ran out it may keep the key of that moment.
impl SignMessage for SigV4MessageSigner<()> {
    ghost use Rattle.aws_auth.specs.MessageSigner.{SignsClosing, SignsMessage, told_of};

    ghost told = { told_of };

    ghost signs = { SignsMessage };

    ghost closes = { SignsClosing };

    #[tactic(auto, using(crate::proofs::MessageSignerLemmas::message_told))]
    fn sign(&mut self, message: Message, now: Moment) -> Result<Message, SignMessageError> {
        let alloc = *self.running_signature.allocator();
        let mut bytes = Vec::new(alloc);
        let checksum = write_summed_message_to(alloc, &message, &mut bytes)?;
        self.sign_bytes(bytes, checksum, now)
    }

    #[tactic(auto, using(crate::proofs::MessageSignerLemmas::end_told))]
    fn sign_empty(&mut self, now: Moment) -> Option<Result<Message, SignMessageError>> {
        let alloc = *self.running_signature.allocator();
        Some(self.sign_bytes(Vec::new(alloc), Crc::new(), now))
    }
}

// Shows for which region and service it signs: neither who signs, nor the last signature, nor the key that is kept.
impl<S> fmt::Debug for SigV4MessageSigner<S> {
    ghost use Rattle.std.specs.Prelude.{Some};
    ghost use Rattle.aws_auth.specs.MessageSigner.{shown_signer};

    ghost debug_output = { λ signer. Some (shown_signer signer) };

    fn fmt<W: fmt::Write>(&self, f: &mut fmt::Formatter<W>) -> fmt::Result {
        let (region, name) = (self.region.as_str(), self.name.as_str());
        write!(f, "SigV4MessageSigner({region}, {name})")
    }
}
