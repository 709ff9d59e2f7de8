ghost use Rattle.std.specs.Prelude.{string_bytes};
ghost use Rattle.sigv4.specs.Body.{payload_text};
ghost use Rattle.sigv4.specs.Settings.{settings_of};
ghost use Rattle.presign_check.specs.Presigned.{ChecksPresigned, ComparesBoth, HasTerms, IsPresigned, Reading, ReadsQueryForm, TestsSignature};

use crate::fault::PresignFault;
use crate::parameters::read_parameters;
use crate::terms::{good_until, read_terms};
use http_uri::Uri;
use request_check::parts::query_pairs;
use request_check::{CheckRequestFault, Checked, check_request};
use sigv4::{SignableBody, SigningSettings};
use smithy_core::{HttpRequest, Moment};
use smithy_http::read_target;
use std::alloc::Global;

/// Checks a request whose target was presigned for a key, at a moment: the first second in which it isn't good any more, where it
/// is good at the moment, and else exactly the first test that it doesn't pass (`specs/Presigned.antt`).
///
/// A request that was signed in query form with credentials of this key's id, with the usual exclusions, no `authorization`
/// header and no parameter of a signature in its own target, is accepted at each moment from the second of its signing on, and
/// before `expires_in` passed (`specs/Acceptance.antt`), unless memory runs out. The settings' own `expires_in` isn't looked at:
/// what is signed is the parameter's.
///
/// ```rust
/// match check_presigned(alloc, &request, &settings, "us-east-1", "s3", &body, key_id, secret, now) {
///     Ok(until) => ..,
///     Err(PresignFault::Expired { until }) => ..,
///     Err(fault) => ..,
/// }
/// ```
///
/// What a service still has to decide: how long a presigned target may be good at most (AWS refuses an `X-Amz-Expires` above
/// 604,800 seconds, this call doesn't); whether one may be used more than once; and which methods it lets through, since the
/// method is taken as it is. Nor are the names of the signed headers tested: a header that isn't among them isn't signed, so a
/// service that acts on a header has to look for its name there. A session token that the settings exclude isn't signed either.
///
/// The texts are read in time and memory that grow with the request's length. The signature is computed again as
/// [`check_request`](request_check::check_request) does it, where its cost for names that are listed twice is said. It comes
/// last, and the two signatures are compared over their whole lengths.
///
/// # Errors
///
/// In this order, each exactly where its test is the first that is met:
///
/// - [`PresignFault::Signing`] with `InvalidUri` where the target isn't accepted;
/// - [`PresignFault::HeaderForm`] where there is an `authorization` header, of whatever scheme;
/// - [`PresignFault::Missing`] and [`PresignFault::Repeated`] for the first of algorithm, credential, date, expiry, names and
///   signature that isn't in the target's query exactly once;
/// - [`PresignFault::BadPart`] for the first of algorithm, date, credential, expiry and signature that is outside its form: the
///   credential has to end with a slash and the scope of the date's day, the region and the name, and the expiry is a number of
///   64 bits in decimal digits without a leading zero;
/// - [`PresignFault::UnknownKey`] where the credential is of another key's id;
/// - [`PresignFault::TooEarly`] and [`PresignFault::Expired`] where the moment's second comes before that of the date, or isn't
///   before the sum of that and the expiry;
/// - [`PresignFault::Signing`] with the first test of headers and host that the request fails;
/// - [`PresignFault::Mismatch`] where the signature is another one than the request's own.
pub fn check_presigned(
    alloc: Global,
    request: &HttpRequest,
    settings: &SigningSettings,
    region: &str,
    name: &str,
    body: &SignableBody<'_>,
    key_id: &str,
    secret: &str,
    now: Moment,
) -> Result<i128, PresignFault>
    ensures { ChecksPresigned (record {
      request = request.now;
      settings = settings_of settings.now;
      payload = payload_text body.now;
      signer = record { secret = secret.now; region = region.now; name = name.now };
      key_id = key_id.now;
      now = now;
    }) result }
{
    let uri = query_form(alloc, request)?;
    let pairs = query_pairs(alloc, &uri)?;
    let parameters = read_parameters(pairs.as_slice())?;
    let terms = read_terms(alloc, &parameters, region, name)?;
    let until = good_until(&terms, key_id, now)?;
    test_signature(alloc, request, settings, region, name, body, secret)?;
    Ok(until)
}

// The target of a request that isn't signed in a header.
fn query_form(alloc: Global, request: &HttpRequest) -> Result<Uri, PresignFault>
    ensures { ReadsQueryForm request.now result }
{
    let uri = read_target(alloc, request.target.as_str())?;
    if request.headers.contains_key("authorization") {
        return Err(PresignFault::HeaderForm);
    }
    Ok(uri)
}

// Tests that the signature which a presigned target carries is that of its request.
fn test_signature(
    alloc: Global,
    request: &HttpRequest,
    settings: &SigningSettings,
    region: &str,
    name: &str,
    body: &SignableBody<'_>,
    secret: &str,
) -> Result<(), PresignFault>
    requires { IsPresigned request.now (record { secret = secret.now; region = region.now; name = name.now }) }
    ensures { (reading : Reading) → HasTerms request.now (record { secret = secret.now; region = region.now; name = name.now }) reading
        → TestsSignature request.now (settings_of settings.now) (payload_text body.now)
        (record { secret = secret.now; region = region.now; name = name.now }) reading result }
{
    match check_request(alloc, request, settings, region, name, body, secret) {
        Ok(checked) => compared(checked),
        Err(CheckRequestFault::NoSignature) => unreachable!(),
        Err(CheckRequestFault::Signing(error)) => Err(PresignFault::Signing(error)),
        Err(CheckRequestFault::NoMemory) => Err(PresignFault::NoMemory),
    }
}

// Whether the two signatures are the same.
fn compared(checked: Checked) -> Result<(), PresignFault>
    ensures { ComparesBoth (string_bytes checked.carried) (string_bytes checked.recomputed) result }
{
    if checked.is_same() {
        Ok(())
    } else {
        Err(PresignFault::Mismatch {
            carried: checked.carried,
            recomputed: checked.recomputed,
        })
    }
}
