ghost use Rattle.std.specs.Prelude.{Result, ℤ};
ghost use Rattle.presign_check.specs.Acceptance.{AcceptsSigned};
ghost use Rattle.presign_check.specs.OneAnswer.{HasOneAnswer};
ghost use Rattle.presign_check.specs.Presigned.{ChecksPresigned, PresignInput};
ghost use Rattle.presign_check.specs.declared.fault.PresignFault.{PresignFault};

/// The signed request of a case in query form is accepted with its key's id at each moment from the second of its signing on, and
/// before its expiry passed, unless memory runs out.
#[tactic(auto, using(crate::proofs::AcceptanceLemmas::accepts_signed))]
pub fn presigned_requests_are_accepted()
    ensures { (asked : PresignInput) (result : Result ℤ PresignFault) → ChecksPresigned asked result → AcceptsSigned asked result }
{}

/// A request has one answer, unless memory runs out: so each fault comes exactly where its test is the first that is met, and a
/// request is accepted exactly where none is.
#[tactic(auto, using(crate::proofs::OneAnswerLemmas::one_answer))]
pub fn presigned_requests_have_one_answer()
    ensures { (asked : PresignInput) → HasOneAnswer asked }
{}
