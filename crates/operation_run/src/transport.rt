ghost use Rattle.std.specs.Prelude.{◌≡◌, ℕ, ◌≤◌, List, [], ◌∷◌, Option, None, IfOk, OnErr, IsErrOf};
ghost use Rattle.smithy_core.specs.Outside.{RoseOrStands};
ghost use Rattle.operation_run.specs.Reply.{ReplyTexts, RequestTexts, reply_texts, request_texts};
ghost use Rattle.operation_run.specs.Transport.{Appends, HasGivenAll};

use crate::reply::Reply;
use smithy_core::HttpRequest;
use std::alloc::AllocError;
use std::error::Error;
use std::fmt;

/// Why a transport gave no reply.
#[derive(Clone, Copy, Debug, PartialEq, Eq)]
pub enum SendFault {
    /// The transport failed, and counted it.
    Failed,
    /// Memory ran out.
    NoMemory,
}

impl fmt::Display for SendFault {
    ghost use Rattle.std.specs.Prelude.{Some};
    ghost use Rattle.operation_run.specs.Transport.{send_fault_text};

    ghost output = { λ fault. Some (send_fault_text fault) };

    fn fmt<W: fmt::Write>(&self, f: &mut fmt::Formatter<W>) -> fmt::Result {
        f.write_str(match self {
            SendFault::Failed => "the transport failed",
            SendFault::NoMemory => "no memory",
        })
    }
}

impl Error for SendFault {}

impl From<AllocError> for SendFault {
    ghost use Rattle.operation_run.specs.declared.transport.SendFault.TheVariants.{NoMemory};

    ghost from_gives = { λ _ fault. fault ≡ NoMemory };

    fn from(_e: AllocError) -> SendFault {
        SendFault::NoMemory
    }
}

/// Sends requests, and gives the replies.
///
/// A transport of one's own, which answers 200 to each request and shows nothing:
///
/// ```
/// #[derive(Drop)]
/// struct Always {
///     alloc: Global,
/// }
///
/// impl Transport for Always {
///     ghost use Rattle.std.specs.Prelude.{None};
///
///     ghost sent = { λ _. None };
///
///     ghost replied = { λ _. None };
///
///     ghost faults = { λ _. 0 };
///
///     fn send(&mut self, _request: &HttpRequest) -> Result<Reply, SendFault> {
///         let headers = Headers::new(self.alloc);
///         let response = HttpResponse { status: 200, headers, skew: None };
///         Ok(Reply { response, error: None })
///     }
/// }
/// ```
pub trait Transport {
    // the requests that went out, if it shows them
    ghost sent: { Self → Option (List RequestTexts) };

    // the replies that came, if it shows them
    ghost replied: { Self → Option (List ReplyTexts) };

    // how often it has failed
    ghost faults: { Self → ℕ };

    // replies that no call changes, if it shows them: it fails only once it has given as many
    ghost settled: { Self → Option (List ReplyTexts) } = { λ _. None };

    /// Sends a request, and gives the reply.
    ///
    /// # Errors
    ///
    /// [`SendFault::Failed`] where the count of faults rose, or is saturated; [`SendFault::NoMemory`] where memory runs out. Both
    /// leave what was sent and what was replied. Any answer but the first leaves the count. A transport that shows `settled` fails
    /// only once it has given all of these.
    fn send(&mut self, request: &HttpRequest) -> Result<Reply, SendFault>
        ensures count { faults self.old ≤ faults self.new }
        ensures cause { IsErrOf result SendFault.Failed → RoseOrStands (faults self.old) (faults self.new) }
        ensures steady { (IsErrOf result SendFault.Failed → ⊥) → faults self.new ≡ faults self.old }
        ensures sends { IfOk result (λ reply. Appends (sent self.old) (sent self.new) (request_texts request.now ∷ [])) }
        ensures replies { IfOk result (λ reply. Appends (replied self.old) (replied self.new) (reply_texts reply ∷ [])) }
        ensures kept { OnErr result ((sent self.new ≡ sent self.old) × (replied self.new ≡ replied self.old)) }
        ensures settled { settled self.new ≡ settled self.old }
        ensures all { IsErrOf result SendFault.Failed → HasGivenAll (settled self.new) (replied self.new) };
}
