ghost use Rattle.std.specs.Prelude.{◌≡◌, ℕ, List, Result};
ghost use Rattle.smithy_core.specs.declared.request.HttpRequest.{HttpRequest};
ghost use Rattle.eventstream.specs.Key.{Signer};
ghost use Rattle.sigv4.specs.Body.{payload_text};
ghost use Rattle.sigv4.specs.Settings.{Settings};
ghost use Rattle.sigv4.specs.Trim.{trim_all};
ghost use Rattle.sigv4.specs.declared.body.SignableBody.{SignableBody};
ghost use Rattle.request_check.specs.Recomputation.{IsTrimmedBody, Recomputes};
ghost use Rattle.request_check.specs.Recomputed.{ChecksRequest};
ghost use Rattle.request_check.specs.Sealed.{HasOneSeal};
ghost use Rattle.request_check.specs.declared.check.CheckRequestFault.{CheckRequestFault};
ghost use Rattle.request_check.specs.declared.check.Checked.{Checked};

/// A request carries one seal at most for a region and a name.
#[tactic(auto, using(crate::proofs::SealLemmas::one_seal))]
pub fn requests_have_one_seal()
    ensures { (request : HttpRequest) (region name : List ℕ) → HasOneSeal request region name }
{}

/// For the signed request of a case, `check_request` answers the signature of the case twice, unless memory runs out.
#[tactic(auto, using(crate::proofs::AlikeLemmas::recomputes))]
pub fn signed_requests_recompute()
    ensures { (sent : HttpRequest) (settings : Settings) (payload : List ℕ) (signer : Signer) (result : Result Checked CheckRequestFault)
        → ChecksRequest sent settings payload signer result → Recomputes sent settings payload signer result }
{}

/// The text of a payload has no spaces to trim, unless it is a given digest that has some.
#[tactic(auto, using(crate::proofs::NamesLemmas::payload_trimmed))]
pub fn payload_texts_are_trimmed()
    ensures { (body : SignableBody) → IsTrimmedBody body → trim_all (payload_text body) ≡ payload_text body }
{}
