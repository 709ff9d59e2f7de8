ghost use Rattle.smithy_core.specs.TextPairs.{text_pairs};
ghost use Rattle.presign_check.specs.Parameters.{FindsOne, FindsParameters};

use crate::fault::PresignFault;
use crate::part::PresignPart;

/// The parameters that a presigned target carries of its signature.
#[derive(Clone, Copy)]
pub(crate) struct Parameters<'a> {
    /// The algorithm.
    pub(crate) algorithm: &'a str,
    /// The key's id and the scope.
    pub(crate) credential: &'a str,
    /// The stamp of the moment.
    pub(crate) date: &'a str,
    /// For how many seconds the target is good.
    pub(crate) expires: &'a str,
    /// The names of the signed headers, with `;` between.
    pub(crate) names: &'a str,
    /// The signature.
    pub(crate) signature: &'a str,
}

/// The parameters among the pairs of a query, each of which has to be there once.
#[tactic(auto, using(crate::proofs::ParameterLemmas::counted))]
pub(crate) fn read_parameters(pairs: &[(String, String)]) -> Result<Parameters<'_>, PresignFault>
    ensures { FindsParameters (text_pairs pairs.now) result }
{
    Ok(Parameters {
        algorithm: one_value(pairs, PresignPart::Algorithm)?,
        credential: one_value(pairs, PresignPart::Credential)?,
        date: one_value(pairs, PresignPart::Date)?,
        expires: one_value(pairs, PresignPart::Expires)?,
        names: one_value(pairs, PresignPart::SignedHeaders)?,
        signature: one_value(pairs, PresignPart::Signature)?,
    })
}

// The one value of a parameter.
fn one_value<'a>(pairs: &'a [(String, String)], part: PresignPart) -> Result<&'a str, PresignFault>
    ensures { FindsOne (text_pairs pairs.now) part result }
{
    let name = part.parameter_name();
    let mut found = None;
    for (key, value) in pairs {
        if key.as_str() == name {
            if found.is_some() {
                return Err(PresignFault::Repeated(part));
            }
            found = Some(value.as_str());
        }
    }
    match found {
        Some(value) => Ok(value),
        None => Err(PresignFault::Missing(part)),
    }
}
