ghost use Rattle.std.specs.Prelude.{◌≡◌, [], ◌∷◌, ◌++◌, Some, IfOk, OnOk, OnErr, map};
ghost use Rattle.operation_run.specs.Reply.{reply_texts, request_texts};
ghost use Rattle.operation_run.specs.Script.{GivesNextReply, answer_texts};

use crate::reply::Reply;
use crate::transport::{SendFault, Transport};
use smithy_core::{HttpRequest, Mem};
use std::alloc::Global;
use std::marker::Model;

/// Gives listed replies in order, and keeps the requests. Where all were given it fails. There is no
/// [`Debug`](std::fmt::Debug), so that no secret is printed.
///
/// Contracts see a `ScriptState`.
#[derive(Drop)]
pub struct ScriptedTransport {
    // Those that were given stand first, one for each request.
    replies: Vec<Reply>,
    sent: Vec<HttpRequest>,
    faults: u64,
}

impl Model for ScriptedTransport {
    ghost use Rattle.std.specs.Prelude.{map};
    ghost use Rattle.operation_run.specs.Reply.{reply_texts, request_texts};
    ghost use Rattle.operation_run.specs.Script.{ScriptState};

    ghost Value = { ScriptState };

    ghost view = { λ script. record { replies = map reply_texts script.replies.items; sent = map request_texts script.sent.items; faults = script.faults } };
}

impl ScriptedTransport {
    /// These replies are to be given, and nothing was sent.
    pub fn new(replies: Vec<Reply>) -> ScriptedTransport
        ensures sent { ⟦<ScriptedTransport as Transport>⟧.sent result ≡ Some [] }
        ensures replied { ⟦<ScriptedTransport as Transport>⟧.replied result ≡ Some [] }
        ensures faults { ⟦<ScriptedTransport as Transport>⟧.faults result ≡ 0 }
        ensures replies { result.replies ≡ map reply_texts replies.items }
    {
        let sent = Vec::new(*replies.allocator());
        ScriptedTransport {
            replies,
            sent,
            faults: 0,
        }
    }

    /// The requests that were sent, in order.
    pub fn sent(&self) -> &[HttpRequest]
        ensures { ⟦<ScriptedTransport as Transport>⟧.sent self.now ≡ Some (map request_texts result.now) }
    {
        self.sent.as_slice()
    }

    /// A transport with the same replies, after the same requests.
    pub fn try_clone(&self) -> Mem<ScriptedTransport>
        ensures { IfOk result (λ copy. copy ≡ self.now) }
    {
        let alloc = *self.replies.allocator();
        Ok(ScriptedTransport {
            replies: copied_replies(alloc, self.replies.as_slice())?,
            sent: copied_requests(alloc, self.sent.as_slice())?,
            faults: self.faults,
        })
    }
}

impl Transport for ScriptedTransport {
    ghost use Rattle.operation_run.specs.Script.{GivesReply, answer_texts, replied_of};

    ghost sent = { λ script. Some script.sent };

    ghost replied = { λ script. Some (replied_of script) };

    ghost faults = { λ script. script.faults };

    ghost settled = { λ script. Some script.replies };

    fn send(&mut self, request: &HttpRequest) -> Result<Reply, SendFault>
        ensures gives { GivesReply self.old (request_texts request.now) (answer_texts result) self.new }
    {
        let answer = give(self.replies.as_slice(), &mut self.sent, request);
        if matches!(answer, Err(SendFault::Failed)) {
            self.faults = self.faults.saturating_add(1);
        }
        answer
    }
}

// Gives the next of the replies, one for each request that was sent, and keeps the request.
#[tactic(auto, using(crate::proofs::ScriptLemmas::replied_next, crate::proofs::ScriptLemmas::all_given))]
fn give(
    replies: &[Reply],
    sent: &mut Vec<HttpRequest>,
    request: &HttpRequest,
) -> Result<Reply, SendFault>
    ensures { GivesNextReply (map reply_texts replies.now) (map request_texts sent.old.items) (request_texts request.now) (answer_texts result) (map request_texts sent.new.items) }
{
    let place = sent.len();
    if place >= replies.len() {
        return Err(SendFault::Failed);
    }
    let reply = replies[place].try_clone()?;
    keep(sent, request)?;
    Ok(reply)
}

// Keeps a copy of a request, all or nothing.
fn keep(sent: &mut Vec<HttpRequest>, request: &HttpRequest) -> Mem<()>
    ensures ok { OnOk result (map request_texts sent.new.items ≡ map request_texts sent.old.items ++ request_texts request.now ∷ []) }
    ensures err { OnErr result (sent.new.items ≡ sent.old.items) }
{
    sent.push(request.try_clone()?)?;
    Ok(())
}

fn copied_replies(alloc: Global, replies: &[Reply]) -> Mem<Vec<Reply>>
    ensures { IfOk result (λ copies. map reply_texts copies.items ≡ map reply_texts replies.now) }
{
    let mut copies = Vec::new(alloc);
    for reply in replies {
        copies.push(reply.try_clone()?)?;
    }
    Ok(copies)
}

fn copied_requests(alloc: Global, requests: &[HttpRequest]) -> Mem<Vec<HttpRequest>>
    ensures { IfOk result (λ copies. map request_texts copies.items ≡ map request_texts requests.now) }
{
    let mut copies = Vec::new(alloc);
    for request in requests {
        copies.push(request.try_clone()?)?;
    }
    Ok(copies)
}
