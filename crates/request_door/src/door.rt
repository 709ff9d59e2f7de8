ghost use Rattle.std.specs.Prelude.{None, IsSome, IfOk, MatchBool, ◌≡◌};
ghost use Rattle.smithy_core.specs.Civil.{IsInYears};
ghost use Rattle.smithy_core.specs.TextPairs.{text_pairs};
ghost use Rattle.smithy_http.specs.Target.{target_of};
ghost use Rattle.sigv4.specs.Settings.{settings_of};
ghost use Rattle.request_check.specs.Recomputed.{unfit_sent};
ghost use Rattle.request_door.specs.DoorCarried.{texts_carried};
ghost use Rattle.request_door.specs.DoorTerms.{door_seal, stated_terms};
ghost use Rattle.request_door.specs.Doors.{AcceptsTarget, AnswersDoor, CarriesTerms, CarriesTexts, FindsSecret, HasPairs, AdmitsAs, TestsLast, door_input};

use crate::admitted::Admitted;
use crate::carried::{Carried, read_carried};
use crate::fault::DoorFault;
use crate::keys::Keys;
use crate::limits::Limits;
use crate::names::test_names;
use crate::payload::{DoorPayload, read_payload, shown_payload, signed_payload};
use crate::signature::{stated_seal, test_signature};
use crate::terms::{Terms, read_terms, timely_until};
use http_uri::Uri;
use request_check::parts::query_pairs;
use sigv4::parts::{test_headers, test_host};
use sigv4::{SignableBody, SigningSettings};
use smithy_core::{Headers, HttpRequest, Mem, Moment};
use smithy_http::read_target;
use std::alloc::Global;

/// A request with its target and its body, and what the service knows of it.
#[derive(Clone, Copy)]
pub(crate) struct Asked<'a> {
    request: &'a HttpRequest,
    uri: &'a Uri,
    body: &'a [u8],
    settings: &'a SigningSettings,
    region: &'a str,
    name: &'a str,
    now: Moment,
    limits: &'a Limits,
}

/// A service's door: who signed a request that passes each of its tests at a moment, and else exactly the first test
/// that is met (`specs/Doors.antt`).
///
/// The signature stands in the `authorization` header, where any spaces and tabs may follow a comma, or in the parameters of a
/// presigned target. The region and the service's name are the service's own, and so are the settings: of these are read the two on
/// the path, `payload_checksum_kind`, by which the body of a presigned request without the header `x-amz-content-sha256` is taken as
/// unsigned, as S3 takes it, and `session_token_mode`, by which a token may be added after signing.
///
/// ```rust
/// match admit(alloc, &request, body, &settings, "us-east-1", "s3", &keys, now, &Limits::new()) {
///     Ok(admitted) => serve(&admitted.key_id, ..),
///     Err(fault) => refuse(fault.code()),
/// }
/// ```
///
/// What a service still has to decide: what a key may do; whether a presigned target may be used more than once; and, where the
/// payload isn't signed as a digest, whether it takes such a body, whose chunks it tests itself from
/// [`Admitted::signature`](crate::Admitted::signature) on. A header that isn't among the names isn't signed.
///
/// The tests that need no hash come first, and the key is looked up after them. The names are tested for their number first, and
/// each of them is looked for among the headers, so time grows with the request's length times that limit. Memory stays within a
/// small multiple of the request's size. The two signatures are compared over their whole lengths.
///
/// # Errors
///
/// In this order, each exactly where its test is the first that is met:
///
/// - [`DoorFault::InvalidTarget`] where the target isn't accepted, and [`DoorFault::InvalidHeader`] where a header is outside its
///   grammar, or there is no host;
/// - [`DoorFault::BothForms`] and [`DoorFault::NoForm`] where a signature is carried in both forms, or in none;
/// - [`DoorFault::Missing`] and [`DoorFault::Repeated`] for each part that has to be there once: the `authorization` and the
///   `x-amz-date` header, or the six parameters in the order of [`PresignPart`](presign_check::PresignPart);
/// - [`DoorFault::OtherAlgorithm`], and [`DoorFault::Malformed`] where the header or the signature isn't in its form;
/// - [`DoorFault::BadDate`]; [`DoorFault::BadCredential`], [`DoorFault::OtherService`], [`DoorFault::OtherRegion`] and
///   [`DoorFault::OtherDay`], by the credential's end; [`DoorFault::BadExpiry`] and [`DoorFault::LongExpiry`];
/// - [`DoorFault::TooManyNames`]; [`DoorFault::BadNames`]; [`DoorFault::AbsentHeader`]; [`DoorFault::UnsignedHost`];
///   [`DoorFault::UnsignedHeader`] for an `x-amz-` header;
/// - [`DoorFault::TooEarly`] and [`DoorFault::TooLate`] by the limits and the moment's second;
/// - [`DoorFault::RepeatedPayload`] and [`DoorFault::BadPayload`] by the header `x-amz-content-sha256`;
/// - [`DoorFault::UnknownKey`]; [`DoorFault::OtherPayload`] where that header has another digest than the body;
///   [`DoorFault::Mismatch`].
pub fn admit<K: Keys>(
    alloc: Global,
    request: &HttpRequest,
    body: &[u8],
    settings: &SigningSettings,
    region: &str,
    name: &str,
    keys: &K,
    now: Moment,
    limits: &Limits,
) -> Result<Admitted, DoorFault>
    ensures { AnswersDoor (record {
      request = request.now;
      body = body.now;
      settings = settings_of settings.now;
      region = region.now;
      name = name.now;
      secrets = K.secrets keys.now;
      now = now;
      limits = limits.now;
    }) result }
{
    let uri = accepted_target(alloc, request)?;
    let pairs = query_pairs(alloc, &uri)?;
    let asked = Asked {
        request,
        uri: &uri,
        body,
        settings,
        region,
        name,
        now,
        limits,
    };
    admit_pairs(alloc, &asked, keys, pairs.as_slice())
}

// The answer for a request whose target is accepted and has these pairs in its query.
fn admit_pairs<K: Keys>(
    alloc: Global,
    asked: &Asked<'_>,
    keys: &K,
    pairs: &[(String, String)],
) -> Result<Admitted, DoorFault>
    requires { HasPairs asked.now.request.now asked.now.uri.now (text_pairs pairs.now) }
    ensures { AnswersDoor (door_input (K.secrets keys.now) asked.entry.now) result }
{
    match read_carried(&asked.request.headers, pairs) {
        Ok(texts) => admit_texts(alloc, asked, keys, &texts),
        Err(fault) => Err(fault),
    }
}

// The answer for a request that carries these texts.
fn admit_texts<K: Keys>(
    alloc: Global,
    asked: &Asked<'_>,
    keys: &K,
    texts: &Carried<'_>,
) -> Result<Admitted, DoorFault>
    requires { CarriesTexts asked.now.request.now asked.now.uri.now texts.now }
    ensures { AnswersDoor (door_input (K.secrets keys.now) asked.entry.now) result }
{
    match read_terms(alloc, texts, asked.region, asked.name, asked.limits) {
        Ok(terms) => admit_terms(alloc, asked, keys, texts, &terms),
        Err(fault) => Err(fault),
    }
}

// The answer for a request whose texts say these terms.
fn admit_terms<K: Keys>(
    alloc: Global,
    asked: &Asked<'_>,
    keys: &K,
    texts: &Carried<'_>,
    terms: &Terms<'_>,
) -> Result<Admitted, DoorFault>
    requires { CarriesTerms asked.now.request.now asked.now.uri.now asked.now.region.now asked.now.name.now asked.now.limits.now texts.now terms.now }
    ensures { AnswersDoor (door_input (K.secrets keys.now) asked.entry.now) result }
{
    let (headers, settings) = (&asked.request.headers, asked.settings);
    let (place, mode) = (texts.place, settings.session_token_mode);
    test_names(alloc, headers, place, mode, asked.limits, texts.names)?;
    let until = timely_until(place, asked.limits, asked.now, terms)?;
    let form = read_payload(place, settings.payload_checksum_kind, headers)?;
    let secret = known_secret(alloc, keys, terms.key_id)?;
    let secret = secret.as_str();
    test_last(alloc, asked, texts, terms, form, secret)?;
    let admitted = admit_as(alloc, texts, terms, until, form)?;
    Ok(admitted)
}

// The target of a request whose headers and host are fit for signing.
fn accepted_target(alloc: Global, request: &HttpRequest) -> Result<Uri, DoorFault>
    ensures { AcceptsTarget request.now result }
{
    let uri = read_target(alloc, request.target.as_str())?;
    if is_fit(&uri, &request.headers) {
        Ok(uri)
    } else {
        Err(DoorFault::InvalidHeader)
    }
}

// Whether headers and host are fit for signing.
fn is_fit(uri: &Uri, headers: &Headers) -> bool
    ensures { MatchBool result (unfit_sent (target_of uri.now) headers.now ≡ None) (IsSome (unfit_sent (target_of uri.now) headers.now)) }
{
    match test_headers(headers) {
        Ok(()) => test_host(uri, headers).is_ok(),
        Err(_) => false,
    }
}

// The secret of a key.
fn known_secret<K: Keys>(alloc: Global, keys: &K, key_id: &str) -> Result<String, DoorFault>
    ensures { FindsSecret (K.secrets keys.now key_id.now) result }
{
    match keys.secret(alloc, key_id)? {
        Some(secret) => Ok(secret),
        None => Err(DoorFault::UnknownKey),
    }
}

// The tests under the secret: that the body is the one that was signed, and that the signature is the request's own.
fn test_last(
    alloc: Global,
    asked: &Asked<'_>,
    texts: &Carried<'_>,
    terms: &Terms<'_>,
    form: DoorPayload,
    secret: &str,
) -> Result<(), DoorFault>
    requires { IsInYears terms.now.at }
    ensures { TestsLast asked.entry.now.request.now (settings_of asked.entry.now.settings.now) asked.entry.now.body.now
        (record { secret = secret.now; region = asked.entry.now.region.now; name = asked.entry.now.name.now }) form
        (door_seal (texts_carried texts.now) (stated_terms terms.now)) asked.entry.now.uri.now result }
{
    let (request, settings) = (asked.request, asked.settings);
    let payload = signed_payload(alloc, shown_payload(&request.headers), form, asked.body)?;
    let payload = SignableBody::Precomputed(payload);
    let seal = stated_seal(alloc, texts, terms)?;
    test_signature(
        alloc,
        request,
        asked.uri,
        settings,
        asked.region,
        asked.name,
        &payload,
        secret,
        &seal,
    )
}

// What is answered for an admitted request.
fn admit_as(
    alloc: Global,
    texts: &Carried<'_>,
    terms: &Terms<'_>,
    until: i128,
    form: DoorPayload,
) -> Mem<Admitted>
    ensures { IfOk result (AdmitsAs (texts_carried texts.now) (stated_terms terms.now) until form) }
{
    Ok(Admitted {
        key_id: String::from_str(alloc, terms.key_id)?,
        place: texts.place,
        at: terms.at,
        until,
        names: String::from_str(alloc, texts.names)?,
        payload: form,
        signature: String::from_str(alloc, texts.signature)?,
    })
}
