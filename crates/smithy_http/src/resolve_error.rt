ghost use Rattle.std.specs.Prelude.{◌≡◌, Some, None, IfOk, option_copied};
ghost use Rattle.smithy_http.specs.ResolveError.{IsSameResolveError, resolve_error, resolve_message, resolve_source};

use smithy_core::{ErrorMetadata, Mem};
use std::fmt;

/// Why no endpoint was found for a request.
#[derive(Debug, Drop)]
pub struct ResolveEndpointError {
    message: String,
    source: Option<ErrorMetadata>,
}

impl ResolveEndpointError {
    /// The error with this message, and without a source.
    pub fn message(message: String) -> ResolveEndpointError
        ensures { result ≡ resolve_error message None }
    {
        ResolveEndpointError {
            message,
            source: None,
        }
    }

    /// The error with its message and this source.
    pub fn with_source(self, source: Option<ErrorMetadata>) -> ResolveEndpointError
        ensures { result ≡ resolve_error (resolve_message self) source }
    {
        ResolveEndpointError {
            message: self.message,
            source,
        }
    }

    /// The error with this message and this source.
    pub fn from_source(message: String, source: ErrorMetadata) -> ResolveEndpointError
        ensures { result ≡ resolve_error message (Some source) }
    {
        ResolveEndpointError::message(message).with_source(Some(source))
    }

    /// What the error came from, where that is known.
    pub fn source(&self) -> Option<&ErrorMetadata>
        ensures { option_copied result ≡ resolve_source self.now }
    {
        self.source.as_ref()
    }

    /// An error with the same message and source.
    pub fn try_clone(&self) -> Mem<ResolveEndpointError>
        ensures { IfOk result (IsSameResolveError self.now) }
    {
        let source = match &self.source {
            Some(source) => Some(source.try_clone()?),
            None => None,
        };
        Ok(ResolveEndpointError {
            message: self.message.clone()?,
            source,
        })
    }
}

impl fmt::Display for ResolveEndpointError {
    ghost use Rattle.std.specs.Prelude.{Some, string_bytes};
    ghost use Rattle.smithy_http.specs.ResolveError.{resolve_message};

    ghost output = { λ error. Some (string_bytes (resolve_message error)) };

    fn fmt<W: fmt::Write>(&self, f: &mut fmt::Formatter<W>) -> fmt::Result {
        f.write_str(self.message.as_str())
    }
}

impl std::error::Error for ResolveEndpointError {}
