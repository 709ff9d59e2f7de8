ghost use Rattle.std.specs.Prelude.{◌≡◌, ◌-◌, ◌++◌, ℕ, List};
ghost use Rattle.mac_core.specs.Crc.{after_bytes, before_any, remainder};

/// Updates join: two pieces leave of any register what their bytes leave in one piece, and the
/// checksum after two pieces is that of their bytes in one piece.
#[tactic(auto, using(crate::proofs::CrcLemmas::joins))]
pub fn updates_join()
    ensures register { (r : ℕ) (first second : List ℕ) → after_bytes (after_bytes r first) second ≡ after_bytes r (first ++ second) }
    ensures value { (first second : List ℕ) → 0xFFFFFFFF - after_bytes (after_bytes before_any first) second ≡ remainder (first ++ second) }
{}
