ghost use Rattle.std.specs.Prelude.{IfOk};
ghost use Rattle.smithy_core.specs.ErrorMetadata.{IsSameMetadata};

use crate::memory::Mem;

/// What a service says of an error.
#[derive(Debug, Drop)]
pub struct ErrorMetadata {
    /// The error's code, as `SignatureDoesNotMatch`, where there is one.
    pub code: Option<String>,
    /// The message for people, where there is one.
    pub message: Option<String>,
}

impl ErrorMetadata {
    /// Metadata with an equal code and an equal message.
    pub fn try_clone(&self) -> Mem<ErrorMetadata>
        ensures { IfOk result (IsSameMetadata self.now) }
    {
        let code = match &self.code {
            Some(code) => Some(code.clone()?),
            None => None,
        };
        let message = match &self.message {
            Some(message) => Some(message.clone()?),
            None => None,
        };
        Ok(ErrorMetadata { code, message })
    }
}
