ghost use Rattle.std.specs.Prelude.{◌≡◌, bytes_eq, Ok, Err, IfOk, string_bytes};
ghost use Rattle.smithy_core.specs.Civil.{IsInYears};
ghost use Rattle.smithy_http.specs.Target.{target_of};
ghost use Rattle.sigv4.specs.Body.{payload_text};
ghost use Rattle.sigv4.specs.Digest.{HoldsText};
ghost use Rattle.sigv4.specs.Settings.{settings_of};
ghost use Rattle.request_check.specs.Faults.{IsSameCheckFault};
ghost use Rattle.request_check.specs.Recomputation.{Recomputes};
ghost use Rattle.request_check.specs.Recomputed.{ChecksRequest, ReadsSent, recomputed, sent_text};

use crate::header_lines::push_header_lines;
use crate::seal::{Seal, seal_of};
use crate::target::signed_query;
use http_uri::Uri;
use mac_core::constant_time_eq;
use sigv4::parts::{
    TextDigest, added_host, digest_signature, payload_text, push_head, push_tail, test_headers,
    test_host,
};
use sigv4::{SignableBody, SigningError, SigningSettings};
use smithy_core::{HttpRequest, Mem};
use smithy_http::read_target;
use std::alloc::{AllocError, Global};
use std::fmt;

/// The signature that a request carries, and the one that was computed again.
///
/// What a signature covers is the method, the target's path in its canonical form, the pairs of its query (of a presigned one
/// without the signature, and without the token where the settings exclude it), the headers that the seal lists, the payload that
/// [`check_request`] was handed, the seal's moment, and the region and the name. Where the two are equal, nothing is said of all
/// else: a header that was added after signing and isn't listed leaves them equal, and so does the request's own body beside
/// another payload that was handed in, such as `SignableBody::empty()`; in header form another key id does too. A service tests for
/// itself that the names in the seal have `host` and each header that it relies on, that the payload is that of the body, and that
/// the moment is recent: [`Checked::seal`] has moment, names, key id and expiry, so that [`seal_of`] needn't be called beside it.
///
/// The signature that was computed again signs the request for whoever has it, also where another one is carried: it isn't
/// printed, and don't show it to whoever sent the request.
#[derive(Drop)]
pub struct Checked {
    /// The signature that the request carries.
    pub carried: String,
    /// The signature that was computed again.
    pub recomputed: String,
    /// The seal that the request carries: who signed, when, and which headers.
    pub seal: Seal,
}

impl Checked {
    /// Whether the two signatures are the same. Each of their bytes is looked at, also behind the first that differs.
    pub fn is_same(&self) -> bool
        ensures { result ≡ bytes_eq (string_bytes self.now.carried) (string_bytes self.now.recomputed) }
    {
        constant_time_eq(self.carried.as_bytes(), self.recomputed.as_bytes())
    }

    /// The same signatures and the same seal.
    pub fn try_clone(&self) -> Mem<Checked>
        ensures carried { IfOk result (λ copy. string_bytes copy.carried ≡ string_bytes self.now.carried) }
        ensures recomputed { IfOk result (λ copy. string_bytes copy.recomputed ≡ string_bytes self.now.recomputed) }
        ensures seal { IfOk result (λ copy. copy.seal ≡ self.now.seal) }
    {
        Ok(Checked {
            carried: self.carried.clone()?,
            recomputed: self.recomputed.clone()?,
            seal: self.seal.try_clone()?,
        })
    }
}

// Shows neither signature.
impl fmt::Debug for Checked {
    ghost use Rattle.std.specs.Prelude.{Some, codes};

    ghost debug_output = { λ _. Some (codes "Checked") };

    fn fmt<W: fmt::Write>(&self, f: &mut fmt::Formatter<W>) -> fmt::Result {
        f.write_str("Checked")
    }
}

/// Why no signature is computed again.
#[derive(Debug, Drop)]
pub enum CheckRequestFault {
    /// The request carries no seal for the region and the service's name.
    NoSignature,
    /// The request can't be signed: its target isn't accepted, or a header is outside its grammar, or it has no host.
    Signing(SigningError),
    /// Memory ran out.
    NoMemory,
}

impl CheckRequestFault {
    /// An equal fault.
    pub fn try_clone(&self) -> Mem<CheckRequestFault>
        ensures { IfOk result (IsSameCheckFault self.now) }
    {
        Ok(match self {
            CheckRequestFault::NoSignature => CheckRequestFault::NoSignature,
            CheckRequestFault::Signing(error) => CheckRequestFault::Signing(error.try_clone()?),
            CheckRequestFault::NoMemory => CheckRequestFault::NoMemory,
        })
    }
}

/// Computes the signature of a request again, from nothing but the request, its body, the settings, the region, the service's
/// name and the secret. Moment and names are those of the seal that the request carries.
///
/// A request that was signed, with the usual exclusions, answers the signature of its case twice, where what signing added is
/// known from what the request had (`specs/Recomputation.antt`): in header form token and payload's text are trimmed, and in query
/// form the request had no `authorization` header and its target no parameter of a signature.
///
/// ```rust
/// let checked = check_request(alloc, &request, &settings, "us-east-1", "service", &body, secret)?;
/// if checked.is_same() { .. }
/// ```
///
/// The names of the seal are taken as they are carried, a name that is listed twice twice, before any signature is known. Memory
/// stays within a small multiple of the request's size, since the canonical text goes to its digest piece by piece. The time grows
/// with the number of names times the size of the headers: whoever sends 64 KB of one name, with a header of that name of 64 KB,
/// has 2 GB hashed. So bound the size of what is checked, or refuse names that are listed twice before the call.
///
/// Of the settings only the two on the path are read, and, for a seal in the target, `session_token_mode` and
/// `session_token_name_override`, by which an excluded token's parameter isn't signed. Where the signature is, and which names are
/// signed, the seal says; an expiry isn't looked at.
///
/// `body` is what was signed of the payload; the request's own body isn't read. The request's method is taken as it is: that it is
/// a token isn't tested here.
///
/// # Errors
///
/// [`CheckRequestFault::NoSignature`] exactly where [`seal_of`] answers none, and else [`CheckRequestFault::Signing`] with the
/// first test of `sigv4::sign` that the request itself fails: [`SigningError::InvalidUri`] where its target isn't accepted,
/// for each header in order [`SigningError::InvalidHeaderName`] and [`SigningError::InvalidHeaderValue`] with its place, and
/// [`SigningError::MissingHost`] where neither the target nor a header has a host, and [`SigningError::InvalidHeaderValue`]
/// where its text is no header's value.
#[tactic(auto, using(crate::proofs::UnfitLemmas::sealed_in_years, crate::proofs::AlikeLemmas::recomputes))]
pub fn check_request(
    alloc: Global,
    sent: &HttpRequest,
    settings: &SigningSettings,
    region: &str,
    name: &str,
    body: &SignableBody<'_>,
    secret: &str,
) -> Result<Checked, CheckRequestFault>
    ensures checks { ChecksRequest sent.now (settings_of settings.now) (payload_text body.now)
        (record { secret = secret.now; region = region.now; name = name.now }) result }
    ensures recomputes { Recomputes sent.now (settings_of settings.now) (payload_text body.now)
        (record { secret = secret.now; region = region.now; name = name.now }) result }
{
    let Some(seal) = seal_of(alloc, sent, region, name)? else {
        return Err(CheckRequestFault::NoSignature);
    };
    let uri = readable_target(alloc, sent)?;
    let recomputed = recomputed_signature(
        alloc, sent, &uri, settings, region, name, body, secret, &seal,
    )?;
    let carried = String::from_str(alloc, seal.signature())?;
    Ok(Checked {
        carried,
        recomputed,
        seal,
    })
}

/// The signature of a request by a seal, for who read the seal itself: the moment, the place and the names are the seal's, and
/// `uri` is the request's target.
///
/// The moment has to lie in the years 0 to 9999. Whether the request carries the seal, and whether its headers and its host are fit
/// for signing, isn't tested.
#[tactic(auto, unfolding(crate::specs::Recomputed::recomputed))]
pub fn recomputed_signature(
    alloc: Global,
    sent: &HttpRequest,
    uri: &Uri,
    settings: &SigningSettings,
    region: &str,
    name: &str,
    body: &SignableBody<'_>,
    secret: &str,
    seal: &Seal,
) -> Mem<String>
    requires { IsInYears seal.now.at }
    ensures { IfOk result (λ text. string_bytes text
        ≡ recomputed (string_bytes sent.now.method) (target_of uri.now) sent.now.headers (settings_of settings.now) (payload_text body.now)
        (record { secret = secret.now; region = region.now; name = name.now }) seal.now) }
{
    let payload = payload_text(alloc, body)?;
    let text = sent_digest(alloc, sent, uri, settings, payload.as_str(), seal)?;
    digest_signature(alloc, text, secret, seal.at(), region, name)
}

// The target of a request whose headers and host can be signed.
#[tactic(auto, using(crate::proofs::UnfitLemmas::fit_sent))]
fn readable_target(alloc: Global, sent: &HttpRequest) -> Result<Uri, SigningError>
    ensures { ReadsSent sent.now result }
{
    let uri = read_target(alloc, sent.target.as_str())?;
    test_headers(&sent.headers)?;
    test_host(&uri, &sent.headers)?;
    Ok(uri)
}

// The digest of the canonical text of the request with the names of its seal.
fn sent_digest(
    alloc: Global,
    sent: &HttpRequest,
    uri: &Uri,
    settings: &SigningSettings,
    payload: &str,
    seal: &Seal,
) -> Mem<TextDigest>
    ensures { IfOk result (λ digest. HoldsText digest
        (sent_text (string_bytes sent.now.method) (target_of uri.now) sent.now.headers (settings_of settings.now) payload.now seal.now)) }
{
    let query = signed_query(alloc, uri, settings, seal.place())?;
    let host = added_host(uri, &sent.headers);
    let (method, query) = (sent.method.as_str(), query.as_str());
    let mut text = TextDigest::new();
    push_head(&mut text, alloc, method, uri, settings, query)?;
    push_header_lines(&mut text, alloc, &sent.headers, host, seal.names())?;
    push_tail(&mut text, seal.names(), payload)?;
    Ok(text)
}

impl fmt::Display for CheckRequestFault {
    ghost use Rattle.std.specs.Prelude.{Some};
    ghost use Rattle.request_check.specs.Shown.{check_fault_text};

    ghost output = { λ fault. Some (check_fault_text fault) };

    fn fmt<W: fmt::Write>(&self, f: &mut fmt::Formatter<W>) -> fmt::Result {
        match self {
            CheckRequestFault::NoSignature => f.write_str("no signature"),
            CheckRequestFault::Signing(error) => write!(f, "{error}"),
            CheckRequestFault::NoMemory => f.write_str("no memory"),
        }
    }
}

impl std::error::Error for CheckRequestFault {}

impl From<AllocError> for CheckRequestFault {
    ghost use Rattle.std.specs.Prelude.{◌≡◌};
    ghost use Rattle.request_check.specs.declared.check.CheckRequestFault.TheVariants.{NoMemory};

    ghost from_gives = { λ _ fault. fault ≡ NoMemory };

    fn from(_e: AllocError) -> CheckRequestFault {
        CheckRequestFault::NoMemory
    }
}

impl From<SigningError> for CheckRequestFault {
    ghost use Rattle.std.specs.Prelude.{◌≡◌};
    ghost use Rattle.request_check.specs.Faults.{fault_of};

    ghost from_gives = { λ error fault. fault ≡ fault_of error };

    fn from(error: SigningError) -> CheckRequestFault {
        match error {
            SigningError::NoMemory => CheckRequestFault::NoMemory,
            error => CheckRequestFault::Signing(error),
        }
    }
}
