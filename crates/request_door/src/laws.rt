ghost use Rattle.std.specs.Prelude.{Result};
ghost use Rattle.request_door.specs.DoorAcceptance.{IsOwnSignature};
ghost use Rattle.request_door.specs.DoorAdmission.{LetsSignedIn};
ghost use Rattle.request_door.specs.DoorLaws.{Covers};
ghost use Rattle.request_door.specs.DoorOneAnswer.{HasOneDoorAnswer};
ghost use Rattle.request_door.specs.Doors.{AnswersDoor, DoorInput, IsAdmitted};
ghost use Rattle.request_door.specs.declared.admitted.Admitted.{Admitted as AdmittedParts};
ghost use Rattle.request_door.specs.declared.fault.DoorFault.{DoorFault as Fault};

/// A request that is admitted carries the signature of its canonical text, which has the method, the path, each pair of the query,
/// the host, each of AWS's headers that the request has, and the digest of the body where the payload is signed so.
#[tactic(auto, using(crate::proofs::DoorLawLemmas::covers))]
pub fn admitted_requests_are_covered()
    ensures { (asked : DoorInput) (admitted : AdmittedParts) → IsAdmitted asked admitted → Covers asked admitted }
{}

/// A request has one answer at a moment, unless memory runs out: so each fault comes exactly where its test is the first that is
/// met, and a request is admitted exactly where none is.
#[tactic(auto, using(crate::proofs::DoorOneAnswerLemmas::one_answer))]
pub fn requests_have_one_answer()
    ensures { (asked : DoorInput) → HasOneDoorAnswer asked }
{}

/// A request that was signed, in either form and with these settings, for this region and service and with a known key, carries its
/// own signature: where no test before that of the signature is met, it isn't met either.
#[tactic(auto, using(crate::proofs::DoorAcceptanceLemmas::own_signature))]
pub fn signed_requests_are_no_mismatch()
    ensures { (asked : DoorInput) → IsOwnSignature asked }
{}

/// Whatever is signed, in header form or in query form, with settings that a request can show, is let in within its time: `admit`
/// answers the signed request of a case with its key's id, form, moment and names, unless memory runs out.
#[tactic(auto, using(crate::proofs::DoorAdmissionLemmas::lets_in))]
pub fn signed_requests_are_let_in()
    ensures { (asked : DoorInput) (result : Result AdmittedParts Fault) → AnswersDoor asked result → LetsSignedIn asked result }
{}
