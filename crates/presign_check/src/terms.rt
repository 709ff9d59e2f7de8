ghost use Rattle.std.specs.Prelude.{◌≡◌};
ghost use Rattle.presign_check.specs.Parameters.{texts_read};
ghost use Rattle.presign_check.specs.Terms.{ReadsTerms, TestsTerms, terms_read, until_of};

use crate::fault::PresignFault;
use crate::parameters::Parameters;
use crate::part::PresignPart;
use job_text::parse_u64;
use request_check::parts::{key_id_before, stamped_moment};
use sigv4::parts::is_signature;
use sigv4::v4::credential_scope;
use smithy_core::Moment;
use std::alloc::Global;

/// What the parameters of a presigned target say.
#[derive(Clone, Copy)]
pub(crate) struct Terms<'a> {
    /// The key's id.
    pub(crate) key_id: &'a str,
    /// When the target was signed: a whole second.
    pub(crate) at: Moment,
    /// For how many seconds from then on it is good.
    pub(crate) seconds: u64,
}

/// What the parameters say, if each is in its form.
#[tactic(auto, using(crate::proofs::TermLemmas::bad))]
pub(crate) fn read_terms<'a>(
    alloc: Global,
    parameters: &Parameters<'a>,
    region: &str,
    name: &str,
) -> Result<Terms<'a>, PresignFault>
    ensures { ReadsTerms region.now name.now (texts_read parameters.now) result }
{
    if parameters.algorithm != "AWS4-HMAC-SHA256" {
        return Err(PresignFault::BadPart(PresignPart::Algorithm));
    }
    let Some(at) = stamped_moment(parameters.date) else {
        return Err(PresignFault::BadPart(PresignPart::Date));
    };
    let scope = credential_scope(alloc, at, region, name)?;
    let Some(key_id) = key_id_before(parameters.credential, scope.as_str()) else {
        return Err(PresignFault::BadPart(PresignPart::Credential));
    };
    let Some(seconds) = parse_u64(parameters.expires) else {
        return Err(PresignFault::BadPart(PresignPart::Expires));
    };
    if !is_signature(parameters.signature) {
        return Err(PresignFault::BadPart(PresignPart::Signature));
    }
    Ok(Terms {
        key_id,
        at,
        seconds,
    })
}

/// The first second in which the target isn't good any more, where it is one of this key, and good at the moment.
pub(crate) fn good_until(terms: &Terms<'_>, key_id: &str, now: Moment) -> Result<i128, PresignFault>
    ensures { TestsTerms key_id.now now (terms_read terms.now) result }
{
    if terms.key_id != key_id {
        return Err(PresignFault::UnknownKey);
    }
    let date = terms.at.secs();
    if now.secs() < date {
        return Err(PresignFault::TooEarly { date });
    }
    let until = until_of(terms);
    if i128::from(now.secs()) < until {
        Ok(until)
    } else {
        Err(PresignFault::Expired { until })
    }
}

// The first second in which the target isn't good any more.
fn until_of(terms: &Terms<'_>) -> i128
    ensures { result ≡ until_of (terms_read terms.now) }
{
    i128::from(terms.at.secs()) + i128::from(terms.seconds)
}
