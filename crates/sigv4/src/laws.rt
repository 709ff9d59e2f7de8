ghost use Rattle.std.specs.Prelude.{◌≡◌, ◌↔◌, ℕ, true, List, None, Some, Ok};
ghost use Rattle.std.specs.Cmp.Lexicographic.{slice_cmp};
ghost use Rattle.std.specs.List.Sorted.{IsStrictlySortedBy};
ghost use Rattle.std.specs.Ordering.{nat_cmp};
ghost use Rattle.std.specs.declared.cmp.Ordering.TheVariants.{Equal};
ghost use Rattle.sigv4.specs.Again.{HasSameTarget, SignsAgain};
ghost use Rattle.sigv4.specs.Canonical.{names};
ghost use Rattle.sigv4.specs.Request.{Case};
ghost use Rattle.sigv4.specs.Instructions.{with_instructions};
ghost use Rattle.sigv4.specs.Parameters.{AppliesTo, takes_no_more};
ghost use Rattle.sigv4.specs.Path.{norm};
ghost use Rattle.sigv4.specs.Refusal.{unfit_signed_target};
ghost use Rattle.sigv4.specs.Signed.{instructions, parameters, signed_headers, signed_target};
ghost use Rattle.sigv4.specs.Trim.{trim_all};
ghost use Rattle.sigv4.specs.declared.error.SigningError.TheVariants.{InvalidUri};

/// A path in its normal form is its own normal form.
#[tactic(auto, using(crate::proofs::PathLemmas::norm_twice))]
pub fn normal_paths_stay()
    ensures { (path : List ℕ) → norm (norm path) ≡ norm path }
{}

/// A trimmed text stays as it is when it is trimmed again.
#[tactic(auto, using(crate::proofs::TrimLemmas::trimmed_twice))]
pub fn trimmed_texts_stay()
    ensures { (text : List ℕ) → trim_all (trim_all text) ≡ trim_all text }
{}

/// The names of the headers that are signed ascend by the order of their bytes, which separates exactly the names that differ.
#[tactic(auto, using(crate::proofs::NameLemmas::ordered))]
pub fn signed_names_ascend()
    ensures ascend { (c : Case) → IsStrictlySortedBy (slice_cmp nat_cmp) (names c) }
    ensures agree { (a b : List ℕ) → (slice_cmp nat_cmp a b ≡ Equal) ↔ (a ≡ b) }
{}

/// A request that was signed in header form with the default exclusions can be signed again, and has the same signature.
pub fn signed_requests_sign_alike()
    ensures target { (c : Case) → HasSameTarget c }
    ensures signature { (c : Case) → SignsAgain c }
{}

/// What goes out of a case makes its signed request: the headers are those of it, and the target, where it takes the
/// parameters, is its target; where it doesn't, that is the last test of a case that fails.
#[tactic(auto, using(crate::proofs::SignedLemmas::makes_signed))]
pub fn instructions_make_the_signed_request()
    ensures headers { (c : Case) → with_instructions c.headers (instructions c) ≡ signed_headers c }
    ensures target { (c : Case) (old new : List ℕ) → AppliesTo (parameters c) c.target old new (Ok tt)
        → (unfit_signed_target c ≡ None) × (new ≡ signed_target c old) }
    ensures refused { (c : Case) → takes_no_more (parameters c) c.target ≡ true → unfit_signed_target c ≡ Some InvalidUri }
{}
