ghost use Rattle.std.specs.Prelude.{◌≡◌, None, option_copied, option_map};
ghost use Rattle.smithy_core.specs.Document.{data_of};
ghost use Rattle.aws_auth.specs.Endpoint.{field_name, field_of, fields_of};
ghost use Rattle.aws_auth.specs.Steps.{FindsFields, FindsText, FindsTruth, found};

use crate::error::SigV4SigningError;
use smithy_core::Document;
use std::fmt;

/// A field that an endpoint may have for signing.
#[derive(Clone, Copy, Debug, PartialEq, Eq)]
pub enum EndpointField {
    /// `signingName`, a text: the name of the service.
    SigningName,
    /// `signingRegion`, a text: the region.
    SigningRegion,
    /// `disableDoubleEncoding`, a Boolean: whether the path is escaped as in the request.
    DisableDoubleEncoding,
    /// `disableNormalizePath`, a Boolean: whether the path stays as it is.
    DisableNormalizePath,
}

impl EndpointField {
    /// The name that the field has in an endpoint. The SDK has no such public call.
    pub fn name(self) -> &'static str
        ensures { result.now ≡ field_name self }
    {
        match self {
            EndpointField::SigningName => "signingName",
            EndpointField::SigningRegion => "signingRegion",
            EndpointField::DisableDoubleEncoding => "disableDoubleEncoding",
            EndpointField::DisableNormalizePath => "disableNormalizePath",
        }
    }
}

impl fmt::Display for EndpointField {
    ghost use Rattle.std.specs.Prelude.{Some};
    ghost use Rattle.aws_auth.specs.Endpoint.{field_name};

    ghost output = { λ field. Some (field_name field) };

    fn fmt<W: fmt::Write>(&self, f: &mut fmt::Formatter<W>) -> fmt::Result {
        f.write_str(self.name())
    }
}

/// What an endpoint's fields say, as far as it has them.
#[derive(Drop)]
pub(crate) struct EndpointFields<'a> {
    pub(crate) name: Option<&'a str>,
    pub(crate) region: Option<&'a str>,
    pub(crate) disable_double_encoding: Option<bool>,
    pub(crate) disable_normalize_path: Option<bool>,
}

impl EndpointFields<'static> {
    /// No field, as where there is no endpoint.
    pub(crate) fn none() -> Self
        ensures { found result ≡ fields_of None }
    {
        EndpointFields {
            name: None,
            region: None,
            disable_double_encoding: None,
            disable_normalize_path: None,
        }
    }
}

impl<'a> EndpointFields<'a> {
    /// The fields of an endpoint. The error is that of the first whose value is of another type.
    pub(crate) fn of(endpoint: Option<&'a Document>) -> Result<Self, SigV4SigningError>
        ensures { FindsFields (option_map data_of (option_copied endpoint.entry)) result }
    {
        Ok(EndpointFields {
            name: text_of(endpoint, EndpointField::SigningName)?,
            region: text_of(endpoint, EndpointField::SigningRegion)?,
            disable_double_encoding: truth_of(endpoint, EndpointField::DisableDoubleEncoding)?,
            disable_normalize_path: truth_of(endpoint, EndpointField::DisableNormalizePath)?,
        })
    }
}

// The value of a field.
fn field_of(endpoint: Option<&Document>, field: EndpointField) -> Option<&Document>
    ensures { option_map data_of (option_copied result) ≡ field_of (option_map data_of (option_copied endpoint.entry)) field }
{
    match endpoint {
        Some(endpoint) => endpoint.get(field.name()),
        None => None,
    }
}

// The text of a field, which is to have one.
fn text_of(
    endpoint: Option<&Document>,
    field: EndpointField,
) -> Result<Option<&str>, SigV4SigningError>
    ensures { FindsText (option_map data_of (option_copied endpoint.entry)) field result }
{
    match field_of(endpoint, field) {
        Some(Document::String(text)) => Ok(Some(text.as_str())),
        Some(_) => Err(SigV4SigningError::BadTypeInEndpointAuthSchemeConfig(field)),
        None => Ok(None),
    }
}

// The Boolean of a field, which is to have one.
fn truth_of(
    endpoint: Option<&Document>,
    field: EndpointField,
) -> Result<Option<bool>, SigV4SigningError>
    ensures { FindsTruth (option_map data_of (option_copied endpoint.entry)) field result }
{
    match field_of(endpoint, field) {
        Some(Document::Bool(truth)) => Ok(Some(*truth)),
        Some(_) => Err(SigV4SigningError::BadTypeInEndpointAuthSchemeConfig(field)),
        None => Ok(None),
    }
}
