ghost use Rattle.std.specs.Prelude.{◌≡◌, IfOk};
ghost use Rattle.smithy_core.specs.Civil.{IsInYears};
ghost use Rattle.sigv4.specs.Body.{payload_text};
ghost use Rattle.sigv4.specs.Settings.{settings_of};
ghost use Rattle.request_door.specs.DoorCarried.{texts_carried};
ghost use Rattle.request_door.specs.DoorSignature.{ComparesSeals, TestsSeal};
ghost use Rattle.request_door.specs.DoorTerms.{door_seal, seal_expiry, stated_terms};

use crate::carried::Carried;
use crate::fault::DoorFault;
use crate::terms::Terms;
use http_uri::Uri;
use mac_core::constant_time_eq;
use request_check::Seal;
use request_check::parts::recomputed_signature;
use sigv4::{SignableBody, SignatureLocation, SigningSettings};
use smithy_core::{HttpRequest, Mem};
use std::alloc::Global;

/// The seal that these texts are, with these terms.
pub(crate) fn stated_seal(alloc: Global, texts: &Carried<'_>, terms: &Terms<'_>) -> Mem<Seal>
    ensures { IfOk result (λ seal. seal ≡ door_seal (texts_carried texts.now) (stated_terms terms.now)) }
{
    let key_id = String::from_str(alloc, terms.key_id)?;
    let names = String::from_str(alloc, texts.names)?;
    let signature = String::from_str(alloc, texts.signature)?;
    let expires = seal_expiry(texts.place, terms);
    Ok(Seal::new(texts.place, key_id, terms.at, names, signature, expires))
}

// The expiry of a seal with these terms.
fn seal_expiry(place: SignatureLocation, terms: &Terms<'_>) -> Option<u64>
    ensures { result ≡ seal_expiry place (stated_terms terms.now) }
{
    match place {
        SignatureLocation::Headers => None,
        SignatureLocation::QueryParams => Some(terms.seconds),
    }
}

/// Tests that the signature of a seal is that of the request, under the secret.
pub(crate) fn test_signature(
    alloc: Global,
    request: &HttpRequest,
    uri: &Uri,
    settings: &SigningSettings,
    region: &str,
    name: &str,
    body: &SignableBody<'_>,
    secret: &str,
    seal: &Seal,
) -> Result<(), DoorFault>
    requires { IsInYears seal.now.at }
    ensures { TestsSeal request.now (settings_of settings.now) (payload_text body.now)
        (record { secret = secret.now; region = region.now; name = name.now }) seal.now uri.now result }
{
    let own = recomputed_signature(
        alloc, request, uri, settings, region, name, body, secret, seal,
    )?;
    compared(seal.signature(), own.as_str())
}

// Whether the two signatures are the same. Each of their bytes is looked at, also behind the first that differs.
fn compared(carried: &str, own: &str) -> Result<(), DoorFault>
    ensures { ComparesSeals carried.now own.now result }
{
    if constant_time_eq(carried.as_bytes(), own.as_bytes()) {
        Ok(())
    } else {
        Err(DoorFault::Mismatch)
    }
}
