ghost use Rattle.std.specs.Prelude.{◌≡◌, string_bytes, IfOk};
ghost use Rattle.smithy_http.specs.EndpointPrefix.{ChecksAuthority};

use crate::endpoint_error::InvalidEndpointError;
use http_uri::{Authority, UriError};
use smithy_core::Mem;
use std::marker::Model;

/// What an operation puts before the authority of its endpoint.
///
/// Contracts see the text.
#[derive(Drop)]
pub struct EndpointPrefix {
    text: String,
}

impl Model for EndpointPrefix {
    ghost use Rattle.std.specs.Prelude.{ℕ, List, string_bytes};
    ghost use Rattle.http_uri.specs.Grammar.{IsAuthority};

    ghost Value = { List ℕ };

    ghost view = { λ prefix. string_bytes prefix.text };

    ghost invariant = { λ prefix. IsAuthority (string_bytes prefix.text) };
}

impl EndpointPrefix {
    /// The prefix of this text.
    ///
    /// # Errors
    ///
    /// [`InvalidEndpointError::FailedToConstructAuthority`] with the text, exactly where that is no authority.
    pub fn new(text: String) -> Result<EndpointPrefix, InvalidEndpointError>
        ensures { ChecksAuthority (λ prefix. prefix) (string_bytes text) result }
    {
        let text = checked_authority(text)?;
        Ok(EndpointPrefix { text })
    }

    /// The text of the prefix.
    pub fn as_str(&self) -> &str
        ensures { result.now ≡ self.now }
    {
        self.text.as_str()
    }

    /// An equal prefix.
    pub fn try_clone(&self) -> Mem<EndpointPrefix>
        ensures { IfOk result (λ copy. copy ≡ self.now) }
    {
        Ok(EndpointPrefix {
            text: self.text.clone()?,
        })
    }
}

/// The text, where it is an authority.
pub(crate) fn checked_authority(text: String) -> Result<String, InvalidEndpointError>
    ensures { ChecksAuthority string_bytes (string_bytes text) result }
{
    match Authority::from_str(*text.allocator(), text.as_str()) {
        Ok(_) => Ok(text),
        Err(UriError::Invalid(_)) => Err(InvalidEndpointError::FailedToConstructAuthority {
            authority: text,
        }),
        Err(UriError::OutOfMemory) => Err(InvalidEndpointError::NoMemory),
    }
}
