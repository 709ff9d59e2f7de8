ghost use Rattle.std.specs.Prelude.{◌≡◌, IfOk, option_map};
ghost use Rattle.operation_run.specs.Reply.{metadata_texts, reply_texts};

use smithy_core::{ErrorMetadata, HttpResponse, Mem};

/// What a transport answers to a request.
#[derive(Debug, Drop)]
pub struct Reply {
    /// The response.
    pub response: HttpResponse,
    /// What the service says of the error, where the response is one.
    pub error: Option<ErrorMetadata>,
}

impl Reply {
    ghost use Rattle.std.specs.Prelude.{◌≡◌};
    ghost use Rattle.operation_run.specs.Reply.{reply_texts};

    /// A reply that says the same.
    pub fn try_clone(&self) -> Mem<Reply>
        ensures { IfOk result (λ copy. reply_texts copy ≡ reply_texts self.now) }
    {
        Ok(Reply {
            response: self.response.try_clone()?,
            error: copied_error(&self.error)?,
        })
    }
}

/// The answer of an operation.
#[derive(Debug, Drop)]
pub struct Outcome {
    /// How many attempts were made, 1 at least.
    pub attempts: u32,
    /// The reply of the last attempt, with the skew that was measured from it.
    pub reply: Reply,
}

fn copied_error(error: &Option<ErrorMetadata>) -> Mem<Option<ErrorMetadata>>
    ensures { IfOk result (λ copy. option_map metadata_texts copy ≡ option_map metadata_texts error.now) }
{
    Ok(match error {
        Some(error) => Some(error.try_clone()?),
        None => None,
    })
}
