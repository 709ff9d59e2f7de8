ghost use Rattle.std.specs.Prelude.{◌≡◌, IfOk};
ghost use Rattle.event_io.specs.StreamError.{IsSameStreamError, generic_error, given_metadata, metadata_of, unhandled_error};

use smithy_core::{ErrorMetadata, Mem};
use std::fmt;

/// An error in a stream of messages.
#[derive(Debug)]
pub struct MessageStreamError {
    source: ErrorMetadata,
    // In place of the source, if nothing else is known of it.
    metadata: Option<ErrorMetadata>,
}

// Written out: a derived drop would be taken apart in the proof of each function that drops one.
impl Drop for MessageStreamError {
    fn drop(self) {
        let MessageStreamError { source, metadata } = self;
        drop(source);
        drop(metadata);
    }
}

impl MessageStreamError {
    /// An error whose metadata is its source alone.
    pub fn unhandled(meta: ErrorMetadata) -> MessageStreamError
        ensures { result ≡ unhandled_error meta }
    {
        let empty = ErrorMetadata {
            code: None,
            message: None,
        };
        MessageStreamError {
            source: meta,
            metadata: Some(empty),
        }
    }

    /// An error with its metadata.
    pub fn generic(meta: ErrorMetadata) -> MessageStreamError
        ensures { result ≡ generic_error meta }
    {
        MessageStreamError {
            source: meta,
            metadata: None,
        }
    }

    /// The metadata that it was made of.
    pub fn source(&self) -> &ErrorMetadata
        ensures { result.now ≡ given_metadata self.now }
    {
        &self.source
    }

    /// Its metadata: none after [`MessageStreamError::unhandled`].
    pub fn meta(&self) -> &ErrorMetadata
        ensures { result.now ≡ metadata_of self.now }
    {
        match &self.metadata {
            Some(metadata) => metadata,
            None => &self.source,
        }
    }

    /// An equal error.
    pub fn try_clone(&self) -> Mem<MessageStreamError>
        ensures { IfOk result (IsSameStreamError self.now) }
    {
        let metadata = match &self.metadata {
            Some(metadata) => Some(metadata.try_clone()?),
            None => None,
        };
        Ok(MessageStreamError {
            source: self.source.try_clone()?,
            metadata,
        })
    }
}

impl fmt::Display for MessageStreamError {
    ghost use Rattle.std.specs.Prelude.{Some, codes};

    ghost output = { λ _. Some (codes "message stream error") };

    fn fmt<W: fmt::Write>(&self, f: &mut fmt::Formatter<W>) -> fmt::Result {
        f.write_str("message stream error")
    }
}

impl std::error::Error for MessageStreamError {}
