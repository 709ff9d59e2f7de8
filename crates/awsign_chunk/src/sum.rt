//! The checksum of data that comes piece by piece.
ghost use Rattle.std.specs.Prelude.{◌≡◌, ◌++◌, ◌∷◌, [], ℕ, List, Option, OnOk};
ghost use Rattle.base64.specs.Engines.{standard};
ghost use Rattle.base64.specs.GeneralPurpose.{encode_of};
ghost use Rattle.smithy_core.specs.TextPairs.{lower};
ghost use Rattle.awsign_chunk.specs.Sum.{HoldsSum};
ghost use Rattle.awsign_chunk.specs.Sent.{checksum_trailers};
ghost use Rattle.awsign_words.specs.declared.words.Checksum.{Checksum as Asked};

use awsign_words::Checksum;
use base64::engine::general_purpose::STANDARD;
use mac_core::Crc;
use sha2::{Digest, Sha256};
use smithy_core::{Headers, Mem};
use std::alloc::Global;

/// The checksum of the data so far, where one is asked for.
#[derive(Drop)]
pub enum RunningSum {
    /// None is asked for.
    Nothing,
    /// CRC-32.
    Crc32(Crc),
    /// SHA-256.
    Sha256(Sha256),
}

impl RunningSum {
    /// The checksum of no data.
    pub(crate) fn new(checksum: Option<Checksum>) -> RunningSum
        ensures { HoldsSum result checksum [] }
    {
        match checksum {
            None => RunningSum::Nothing,
            Some(Checksum::Crc32) => RunningSum::Crc32(Crc::new()),
            Some(Checksum::Sha256) => RunningSum::Sha256(Sha256::new()),
        }
    }

    /// Takes the next bytes.
    #[tactic(auto, using(mac_core::proofs::CrcLemmas::joins))]
    pub(crate) fn update(&mut self, bytes: &[u8])
        ensures { (checksum : Option Asked) (taken : List ℕ) → HoldsSum self.old checksum taken → HoldsSum self.new checksum (taken ++ bytes.now) }
    {
        match self {
            RunningSum::Nothing => {}
            RunningSum::Crc32(crc) => crc.update(bytes),
            RunningSum::Sha256(hasher) => hasher.update(bytes),
        }
    }

    /// Appends the trailer of the checksum, where one is asked for.
    pub(crate) fn push_to(self, alloc: Global, trailers: &mut Headers) -> Mem<()>
        ensures { (checksum : Option Asked) (taken : List ℕ) → HoldsSum self checksum taken
            → OnOk result (trailers.new ≡ trailers.old ++ checksum_trailers checksum taken) }
    {
        match self {
            RunningSum::Nothing => Ok(()),
            RunningSum::Crc32(crc) => {
                let value = crc.value().to_be_bytes();
                push_value(alloc, trailers, "x-amz-checksum-crc32", value.as_slice())
            }
            RunningSum::Sha256(hasher) => {
                let value = hasher.finalize();
                push_value(alloc, trailers, "x-amz-checksum-sha256", value.as_slice())
            }
        }
    }
}

// Appends a trailer whose value is in base64.
fn push_value(alloc: Global, trailers: &mut Headers, name: &str, value: &[u8]) -> Mem<()>
    ensures { OnOk result (trailers.new ≡ trailers.old ++ (lower name.now, encode_of standard value.now) ∷ []) }
{
    let text = STANDARD.encode(alloc, value)?;
    trailers.append(name, text.as_str())
}
