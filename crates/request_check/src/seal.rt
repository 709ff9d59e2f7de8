ghost use Rattle.std.specs.Prelude.{◌≡◌, true, string_bytes, IfOk};
ghost use Rattle.smithy_core.specs.TextPairs.{text_pairs};
ghost use Rattle.sigv4.specs.Signature.{is_signature};
ghost use Rattle.request_check.specs.Carried.{MakesSeal, ReadsParameters, FindsHeaderSeal, FindsTargetSeal};
ghost use Rattle.request_check.specs.Sealed.{FindsSeal, stated_expiry};

use crate::authorization::{key_id_before, read_authorization};
use crate::parameters::{first_value, query_pairs, spelled_uri};
use crate::stamp::stamped_moment;
use job_text::parse_u64;
use sigv4::SignatureLocation;
use sigv4::parts::is_signature;
use sigv4::v4::credential_scope;
use smithy_core::{Headers, HttpRequest, Mem, Moment};
use std::alloc::Global;
use std::fmt;
use std::marker::Model;

/// What a signed request carries of its signature: the key id, the moment, the names of the signed headers, the signature, and of a
/// presigned target the expiry. Whether it is good at a moment is tested by `presign_check` and `request_door`.
///
/// Contracts see it as `SealParts`.
#[derive(Drop)]
pub struct Seal {
    place: SignatureLocation,
    key_id: String,
    at: Moment,
    names: String,
    signature: String,
    expires: Option<u64>,
}

impl Model for Seal {
    ghost use Rattle.std.specs.Prelude.{string_bytes};
    ghost use Rattle.request_check.specs.Sealed.{SealParts};

    ghost Value = { SealParts };

    ghost view = { λ seal. record {
      place = seal.place;
      key_id = string_bytes seal.key_id;
      at = seal.at;
      names = string_bytes seal.names;
      signature = string_bytes seal.signature;
      expires = seal.expires;
    } };
}

impl Seal {
    /// A seal of these parts. That they are as [`seal_of`] reads them isn't tested.
    pub fn new(
        place: SignatureLocation,
        key_id: String,
        at: Moment,
        names: String,
        signature: String,
        expires: Option<u64>,
    ) -> Seal
        ensures { result ≡ record {
          place = place;
          key_id = string_bytes key_id;
          at = at;
          names = string_bytes names;
          signature = string_bytes signature;
          expires = expires;
        } }
    {
        Seal {
            place,
            key_id,
            at,
            names,
            signature,
            expires,
        }
    }

    /// Where the request carries it: in headers, or in the parameters of its target.
    pub fn place(&self) -> SignatureLocation
        ensures { result ≡ self.now.place }
    {
        self.place
    }

    /// The key id.
    pub fn key_id(&self) -> &str
        ensures { result.now ≡ self.now.key_id }
    {
        self.key_id.as_str()
    }

    /// When the request was signed: a whole second.
    pub fn at(&self) -> Moment
        ensures { result ≡ self.now.at }
    {
        self.at
    }

    /// The names of the signed headers, with `;` between.
    pub fn names(&self) -> &str
        ensures { result.now ≡ self.now.names }
    {
        self.names.as_str()
    }

    /// The signature: 64 hexadecimal digits in lower case.
    pub fn signature(&self) -> &str
        ensures { result.now ≡ self.now.signature }
    {
        self.signature.as_str()
    }

    /// For how many seconds a presigned target is good, by its first `X-Amz-Expires`: none where it has no such parameter, or where
    /// that isn't a number of 64 bits, and none in header form.
    pub fn expires(&self) -> Option<u64>
        ensures { result ≡ self.now.expires }
    {
        self.expires
    }

    /// An equal seal.
    pub fn try_clone(&self) -> Mem<Seal>
        ensures { IfOk result (λ copy. copy ≡ self.now) }
    {
        Ok(Seal {
            place: self.place,
            key_id: self.key_id.clone()?,
            at: self.at,
            names: self.names.clone()?,
            signature: self.signature.clone()?,
            expires: self.expires,
        })
    }

    /// The signature alone.
    pub fn into_signature(self) -> String
        ensures { string_bytes result ≡ self.signature }
    {
        self.signature
    }
}

// Shows when the request was signed: the signature is all that one needs of a presigned target, and the other texts come from
// whoever sent it.
impl fmt::Debug for Seal {
    ghost use Rattle.std.specs.Prelude.{Some};
    ghost use Rattle.request_check.specs.Shown.{shown_seal};

    ghost debug_output = { λ seal. Some (shown_seal seal.at) };

    fn fmt<W: fmt::Write>(&self, f: &mut fmt::Formatter<W>) -> fmt::Result {
        let secs = self.at.secs();
        write!(f, "Seal(at {secs})")
    }
}

/// The seal that a signed request carries for a region and a service's name, where it carries one: in the first `authorization`,
/// which has one space after each comma, and the first `x-amz-date` of its headers, or, where these make none, in the first of each
/// of a signature's parameters in its target's query.
///
/// ```rust
/// match seal_of(alloc, &request, "us-east-1", "transcribe")? {
///     Some(seal) => check_chain(alloc, bytes, seal.signature(), secret, "us-east-1", "transcribe"),
///     None => ..,
/// }
/// ```
#[tactic(auto, using(crate::proofs::SealLemmas::sealed_first, crate::proofs::SealLemmas::sealed_second))]
pub fn seal_of(alloc: Global, request: &HttpRequest, region: &str, name: &str) -> Mem<Option<Seal>>
    ensures { IfOk result (FindsSeal request.now region.now name.now) }
{
    match header_seal(alloc, &request.headers, region, name)? {
        Some(seal) => Ok(Some(seal)),
        None => target_seal(alloc, request.target.as_str(), region, name),
    }
}

/// The texts that carry a seal.
#[derive(Clone, Copy)]
pub(crate) struct Carried<'a> {
    /// The key id and the scope.
    pub(crate) credential: &'a str,
    /// The stamp of the moment.
    pub(crate) date: &'a str,
    /// The names of the signed headers, with `;` between.
    pub(crate) names: &'a str,
    /// The signature.
    pub(crate) signature: &'a str,
    /// For how many seconds a target is good, where it says so.
    pub(crate) expires: Option<u64>,
}

// The seal of headers.
#[tactic(auto, using(crate::proofs::SealLemmas::unsealed_dateless, crate::proofs::SealLemmas::unsealed_bare, crate::proofs::SealLemmas::unsealed_other, crate::proofs::SealLemmas::header_seal))]
fn header_seal(alloc: Global, headers: &Headers, region: &str, name: &str) -> Mem<Option<Seal>>
    ensures { IfOk result (FindsHeaderSeal headers.now region.now name.now) }
{
    let Some(date) = headers.get("x-amz-date") else {
        return Ok(None);
    };
    let Some(text) = headers.get("authorization") else {
        return Ok(None);
    };
    let Some(read) = read_authorization(text) else {
        return Ok(None);
    };
    let carried = Carried {
        credential: read.credential,
        date,
        names: read.names,
        signature: read.signature,
        expires: None,
    };
    made_seal(alloc, SignatureLocation::Headers, &carried, region, name)
}

// The seal of a target.
#[tactic(auto, using(crate::proofs::SealLemmas::unspelled, crate::proofs::SealLemmas::uncarried, crate::proofs::SealLemmas::target_seal))]
fn target_seal(alloc: Global, target: &str, region: &str, name: &str) -> Mem<Option<Seal>>
    ensures { IfOk result (FindsTargetSeal target.now region.now name.now) }
{
    let Some(uri) = spelled_uri(alloc, target)? else {
        return Ok(None);
    };
    let pairs = query_pairs(alloc, &uri)?;
    let Some(carried) = carried_by(pairs.as_slice()) else {
        return Ok(None);
    };
    made_seal(
        alloc,
        SignatureLocation::QueryParams,
        &carried,
        region,
        name,
    )
}

// The texts that carry a seal in parameters.
#[tactic(auto, using(crate::proofs::SealLemmas::without_credential, crate::proofs::SealLemmas::without_date, crate::proofs::SealLemmas::without_names, crate::proofs::SealLemmas::without_signature, crate::proofs::SealLemmas::undigited))]
fn carried_by(pairs: &[(String, String)]) -> Option<Carried<'_>>
    ensures { ReadsParameters (text_pairs pairs.now) result }
{
    let carried = Carried {
        credential: first_value(pairs, "X-Amz-Credential")?,
        date: first_value(pairs, "X-Amz-Date")?,
        names: first_value(pairs, "X-Amz-SignedHeaders")?,
        signature: first_value(pairs, "X-Amz-Signature")?,
        expires: stated_expiry(pairs),
    };
    if is_signature(carried.signature) {
        Some(carried)
    } else {
        None
    }
}

// For how many seconds a target with these parameters is good.
fn stated_expiry(pairs: &[(String, String)]) -> Option<u64>
    ensures { result ≡ stated_expiry (text_pairs pairs.now) }
{
    parse_u64(first_value(pairs, "X-Amz-Expires")?)
}

// The seal of the texts that carry it, whose signature is one.
#[tactic(auto, using(crate::proofs::SealLemmas::no_moment, crate::proofs::SealLemmas::no_scope))]
fn made_seal(
    alloc: Global,
    place: SignatureLocation,
    carried: &Carried<'_>,
    region: &str,
    name: &str,
) -> Mem<Option<Seal>>
    requires { is_signature carried.now.signature.now ≡ true }
    ensures { IfOk result (MakesSeal place region.now name.now carried.now) }
{
    let Some(at) = stamped_moment(carried.date) else {
        return Ok(None);
    };
    let scope = credential_scope(alloc, at, region, name)?;
    let Some(key_id) = key_id_before(carried.credential, scope.as_str()) else {
        return Ok(None);
    };
    Ok(Some(Seal {
        place,
        key_id: String::from_str(alloc, key_id)?,
        at,
        names: String::from_str(alloc, carried.names)?,
        signature: String::from_str(alloc, carried.signature)?,
        expires: carried.expires,
    }))
}
