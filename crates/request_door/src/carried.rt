ghost use Rattle.std.specs.Prelude.{◌≡◌, List, is_some, option_copied};
ghost use Rattle.smithy_core.specs.TextPairs.{first_value, lower, named_values, text_pairs};
ghost use Rattle.sigv4.specs.Query.{Pair};
ghost use Rattle.sigv4.specs.declared.settings.SignatureLocation.TheVariants.{Headers as InHeaders, QueryParams as InParameters};
ghost use Rattle.request_door.specs.DoorCarried.{FindsPart, ReadsCarried, ReadsCarriedAt, are_several, first_shown, has_parameters, header_of_part, is_parameter};

use crate::authorization::door_authorization;
use crate::fault::DoorFault;
use presign_check::PresignPart;
use sigv4::SignatureLocation;
use sigv4::parts::is_signature;
use smithy_core::Headers;

/// The texts that a request carries of its signature, and where.
#[derive(Clone, Copy)]
pub(crate) struct Carried<'a> {
    /// The place.
    pub(crate) place: SignatureLocation,
    /// The key's id and the scope.
    pub(crate) credential: &'a str,
    /// The stamp of the moment.
    pub(crate) date: &'a str,
    /// For how many seconds a presigned target is good, and nothing in header form.
    pub(crate) expires: &'a str,
    /// The names of the signed headers, with `;` between.
    pub(crate) names: &'a str,
    /// The signature.
    pub(crate) signature: &'a str,
}

/// The texts that a request with these headers and these pairs in its query carries of its signature.
#[tactic(auto, using(crate::proofs::DoorCarriedLemmas::read_at))]
pub(crate) fn read_carried<'a>(
    headers: &'a Headers,
    pairs: &'a [(String, String)],
) -> Result<Carried<'a>, DoorFault>
    ensures { ReadsCarried headers.now (text_pairs pairs.now) result }
{
    match (has_header(headers, "authorization"), has_parameters(pairs)) {
        (true, true) => Err(DoorFault::BothForms),
        (true, false) => read_headers(headers, pairs),
        (false, true) => read_parameters(headers, pairs),
        (false, false) => Err(DoorFault::NoForm),
    }
}

/// Whether there is a header of this name.
pub(crate) fn has_header(headers: &Headers, name: &str) -> bool
    ensures { result ≡ is_some (first_value headers.now (lower name.now)) }
{
    headers.get(name).is_some()
}

// Whether one of the pairs is a parameter of a signature.
fn has_parameters(pairs: &[(String, String)]) -> bool
    ensures { result ≡ has_parameters (text_pairs pairs.now) }
{
    for (key, _) in pairs {
        if is_parameter(key.as_str()) {
            return true;
        }
    }
    false
}

// Whether the key is that of a parameter of a signature.
fn is_parameter(key: &str) -> bool
    ensures { result ≡ is_parameter key.now }
{
    key == "X-Amz-Algorithm"
        || key == "X-Amz-Credential"
        || key == "X-Amz-Date"
        || key == "X-Amz-Expires"
        || key == "X-Amz-SignedHeaders"
        || key == "X-Amz-Signature"
}

// The texts that headers carry.
fn read_headers<'a>(
    headers: &'a Headers,
    pairs: &[(String, String)],
) -> Result<Carried<'a>, DoorFault>
    ensures { ReadsCarriedAt InHeaders headers.now (text_pairs pairs.now) result }
{
    let _ = pairs;
    let authorization = one_header(headers, PresignPart::Signature)?;
    let date = one_header(headers, PresignPart::Date)?;
    let Some(_rest) = authorization.strip_prefix("AWS4-HMAC-SHA256 ") else {
        return Err(DoorFault::OtherAlgorithm);
    };
    let Some(read) = door_authorization(authorization) else {
        return Err(DoorFault::Malformed);
    };
    Ok(Carried {
        place: SignatureLocation::Headers,
        credential: read.credential,
        date,
        expires: "",
        names: read.names,
        signature: read.signature,
    })
}

// The texts that parameters carry.
fn read_parameters<'a>(
    headers: &Headers,
    pairs: &'a [(String, String)],
) -> Result<Carried<'a>, DoorFault>
    ensures { ReadsCarriedAt InParameters headers.now (text_pairs pairs.now) result }
{
    let _ = headers;
    let algorithm = one_parameter(pairs, PresignPart::Algorithm)?;
    let credential = one_parameter(pairs, PresignPart::Credential)?;
    let date = one_parameter(pairs, PresignPart::Date)?;
    let expires = one_parameter(pairs, PresignPart::Expires)?;
    let names = one_parameter(pairs, PresignPart::SignedHeaders)?;
    let signature = one_parameter(pairs, PresignPart::Signature)?;
    if algorithm != "AWS4-HMAC-SHA256" {
        return Err(DoorFault::OtherAlgorithm);
    }
    if !is_signature(signature) {
        return Err(DoorFault::Malformed);
    }
    Ok(Carried {
        place: SignatureLocation::QueryParams,
        credential,
        date,
        expires,
        names,
        signature,
    })
}

// The value of the header in which a part stands, which has to be there once.
fn one_header(headers: &Headers, part: PresignPart) -> Result<&str, DoorFault>
    ensures { (pairs : List Pair) → FindsPart InHeaders headers.now pairs part result }
{
    let name = header_of_part(part);
    if is_several(headers, name) {
        return Err(DoorFault::Repeated(part));
    }
    match first_header(headers, name) {
        Some(value) => Ok(value),
        None => Err(DoorFault::Missing(part)),
    }
}

/// Whether there are several headers of this name, which is in lower case.
pub(crate) fn is_several(headers: &Headers, name: &str) -> bool
    ensures { result ≡ are_several (named_values headers.now (lower name.now)) }
{
    let mut values = headers.get_all(name);
    values.next().is_some() && values.next().is_some()
}

/// The value of the first header of this name, which is in lower case.
pub(crate) fn first_header<'a>(headers: &'a Headers, name: &'static str) -> Option<&'a str>
    ensures { option_copied result ≡ first_shown (named_values headers.now (lower name.now)) }
{
    headers.get_all(name).next()
}

// The header in which a part stands.
fn header_of_part(part: PresignPart) -> &'static str
    ensures { result.now ≡ header_of_part part }
{
    match part {
        PresignPart::Date => "x-amz-date",
        _ => "authorization",
    }
}

// The value of a parameter, which has to be there once.
fn one_parameter<'a>(pairs: &'a [(String, String)], part: PresignPart) -> Result<&'a str, DoorFault>
    ensures { (headers : List Pair) → FindsPart InParameters headers (text_pairs pairs.now) part result }
{
    let name = part.parameter_name();
    let mut found = None;
    for (key, value) in pairs {
        if key.as_str() == name {
            if found.is_some() {
                return Err(DoorFault::Repeated(part));
            }
            found = Some(value.as_str());
        }
    }
    match found {
        Some(value) => Ok(value),
        None => Err(DoorFault::Missing(part)),
    }
}
