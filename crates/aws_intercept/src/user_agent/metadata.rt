ghost use Rattle.std.specs.Prelude.{◌≡◌, ◌↔◌, IfOk, IsTrue, string_bytes};
ghost use Rattle.aws_intercept.specs.Metadata.{Checks, IsMetadata};

use http_header::is_token_char;
use smithy_core::Mem;
use std::fmt;
use std::marker::Model;

/// A text of the user agent holds a character other than a letter, a digit and the marks ``!#$%&'*+-.^_`|~``.
#[derive(Clone, Copy, Debug, PartialEq, Eq)]
pub struct InvalidMetadataValue;

impl fmt::Display for InvalidMetadataValue {
    ghost use Rattle.std.specs.Prelude.{Some, codes};

    ghost output = { λ _. Some (codes "the text is no metadata value") };

    fn fmt<W: fmt::Write>(&self, f: &mut fmt::Formatter<W>) -> fmt::Result {
        f.write_str("the text is no metadata value")
    }
}

impl std::error::Error for InvalidMetadataValue {}

/// Whether metadata can have the text: letters, digits and the marks ``!#$%&'*+-.^_`|~``, as of a token (RFC 9110,
/// section 5.6.2), or nothing.
pub(crate) fn is_metadata(text: &str) -> bool
    ensures { IsTrue result ↔ IsMetadata text.now }
{
    text.as_bytes().iter().all(|byte| is_token_char(*byte))
}

/// More that the user agent says, printed as `md/VALUE`.
///
/// Contracts see the value.
#[derive(Debug, Drop)]
pub struct AdditionalMetadata {
    value: String,
}

impl Model for AdditionalMetadata {
    ghost use Rattle.std.specs.Prelude.{ℕ, List, string_bytes};

    ghost Value = { List ℕ };

    ghost view = { λ metadata. string_bytes metadata.value };
}

impl AdditionalMetadata {
    /// The metadata of this value.
    ///
    /// # Errors
    ///
    /// [`InvalidMetadataValue`] exactly where the value holds a character that metadata can't have.
    pub fn new(value: String) -> Result<AdditionalMetadata, InvalidMetadataValue>
        ensures { Checks (IsMetadata (string_bytes value)) (λ metadata. metadata ≡ string_bytes value) result }
    {
        if !is_metadata(value.as_str()) {
            return Err(InvalidMetadataValue);
        }
        Ok(AdditionalMetadata { value })
    }

    /// Equal metadata.
    pub fn try_clone(&self) -> Mem<AdditionalMetadata>
        ensures { IfOk result (λ copy. copy ≡ self.now) }
    {
        Ok(AdditionalMetadata {
            value: self.value.clone()?,
        })
    }
}

impl fmt::Display for AdditionalMetadata {
    ghost use Rattle.std.specs.Prelude.{Some};
    ghost use Rattle.aws_intercept.specs.Metadata.{additional_text};

    ghost output = { λ metadata. Some (additional_text metadata) };

    fn fmt<W: fmt::Write>(&self, f: &mut fmt::Formatter<W>) -> fmt::Result {
        let value = &self.value;
        write!(f, "md/{value}")
    }
}

/// Which service a client is for, and its version, printed as `api/ID/VERSION`. Neither is tested.
///
/// Contracts see both texts.
#[derive(Debug)]
pub struct ApiMetadata {
    service_id: String,
    version: String,
}

// Written out: a derived drop would be taken apart in the proof of each function that drops one.
impl Drop for ApiMetadata {
    fn drop(self) {
        let ApiMetadata {
            service_id,
            version,
        } = self;
        drop(service_id);
        drop(version);
    }
}

impl Model for ApiMetadata {
    ghost use Rattle.std.specs.Prelude.{string_bytes};
    ghost use Rattle.aws_intercept.specs.Metadata.{Api};

    ghost Value = { Api };

    ghost view = { λ api. record { service_id = string_bytes api.service_id; version = string_bytes api.version } };
}

impl ApiMetadata {
    /// The metadata of these texts.
    pub fn new(service_id: String, version: String) -> ApiMetadata
        ensures { result ≡ record { service_id = string_bytes service_id; version = string_bytes version } }
    {
        ApiMetadata {
            service_id,
            version,
        }
    }

    /// Equal metadata.
    pub fn try_clone(&self) -> Mem<ApiMetadata>
        ensures { IfOk result (λ copy. copy ≡ self.now) }
    {
        Ok(ApiMetadata {
            service_id: self.service_id.clone()?,
            version: self.version.clone()?,
        })
    }
}

impl fmt::Display for ApiMetadata {
    ghost use Rattle.std.specs.Prelude.{Some};
    ghost use Rattle.aws_intercept.specs.Metadata.{api_text};

    ghost output = { λ api. Some (api_text api) };

    fn fmt<W: fmt::Write>(&self, f: &mut fmt::Formatter<W>) -> fmt::Result {
        let (service_id, version) = (&self.service_id, &self.version);
        write!(f, "api/{service_id}/{version}")
    }
}
