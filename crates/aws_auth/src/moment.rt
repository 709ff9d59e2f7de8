ghost use Rattle.std.specs.Prelude.{◌≡◌};
ghost use Rattle.aws_auth.specs.Moment.{signing_moment};

use crate::options::HttpSignatureType;
use smithy_core::Moment;

/// The moment of a signature: now, shifted by the skew where it goes into headers.
pub(crate) fn signing_moment(
    now: Moment,
    signature_type: HttpSignatureType,
    skew_millis: Option<i64>,
) -> Moment
    ensures { result ≡ signing_moment now signature_type skew_millis }
{
    match (signature_type, skew_millis) {
        (HttpSignatureType::HttpRequestHeaders, Some(millis)) => now.shifted(millis),
        _ => now,
    }
}
