//! What is written of an operation.
ghost use Rattle.std.specs.Prelude.{◌≡◌, ◌++◌, [], IfErr, IfOk, OnOk, flat_map, map};
ghost use Rattle.job_text.specs.OperationJob.{reply_parts};
ghost use Rattle.job_text.specs.ProfileTexts.{ProfileTexts};
ghost use Rattle.operation_run.specs.Reply.{request_texts};
ghost use Rattle.signed_stream.specs.Settings.{selected_in};
ghost use Rattle.operation_program.specs.Attempting.{heads_text, request_head, listed_reply};
ghost use Rattle.operation_program.specs.Outcome.{GivesOutcome, GivesText, IsProgramFault, IsStop, attempt_fault_ending, scripted_over};
ghost use Rattle.operation_program.specs.Status.{operation_ending};

use crate::replies::replies_of;
use crate::status::OperationStatus;
use aws_auth::{SigV4OperationSigningConfig, SigningInputs, SigningOptions};
use job_text::ReplyLine;
use operation_run::{OperationFault, Outcome, ScriptedTransport, operate_over};
use signed_stream::{Settings, fault_of, head_of};
use smithy_core::{Env, HttpRequest, Identity, Mem, Moment, SigningName, push_line};
use std::alloc::Global;

/// What is to be written of an operation over the replies of these lines, all of whose moments are the same: the heads of the requests that are
/// sent, in order, and the number of the attempts.
///
/// # Errors
///
/// Why an attempt is refused, the first of them; [`OperationStatus::TransportFault`] where the replies are used up.
pub fn operation_text(
    alloc: Global,
    request: &HttpRequest,
    settings: Settings,
    name: &str,
    env: &Env,
    at: Moment,
    lines: &[ReplyLine],
) -> Result<Vec<u8>, OperationStatus>
    ensures gives { (texts : ProfileTexts) → GivesText (scripted_over env.now request.now texts (selected_in settings) name.now at (map listed_reply (map reply_parts lines.now))) result }
    ensures end { IfErr result (λ status. IsStop (operation_ending status)) }
{
    let mut script = ScriptedTransport::new(replies_of(alloc, lines)?);
    match operate_selected(alloc, request, settings, name, env, at, &mut script) {
        Ok(outcome) => Ok(heads_of(alloc, script.sent(), outcome.attempts)?),
        Err(fault) => Err(status_of(fault)),
    }
}

// The operation, signed by what is selected, over the replies of a transport that has sent nothing.
fn operate_selected(
    alloc: Global,
    request: &HttpRequest,
    settings: Settings,
    name: &str,
    env: &Env,
    at: Moment,
    script: &mut ScriptedTransport,
) -> Result<Outcome, OperationFault>
    requires { script.old.sent ≡ [] }
    ensures { (texts : ProfileTexts) → GivesOutcome (scripted_over env.now request.now texts (selected_in settings) name.now at script.old.replies) script.new.sent result }
{
    let config = SigV4OperationSigningConfig {
        region: Some(settings.region),
        name: Some(SigningName::new(String::from_str(alloc, name)?)),
        signing_options: SigningOptions::default(),
    };
    let inputs = SigningInputs {
        config: Some(&config),
        endpoint: None,
        name: None,
        region: None,
        payload: None,
        skew_millis: None,
    };
    let identity = Identity::Credentials(settings.credentials);
    operate_over(alloc, request, &identity, &inputs, env, at, script)
}

// The heads of the requests, and the number of the attempts.
fn heads_of(alloc: Global, requests: &[HttpRequest], attempts: u32) -> Mem<Vec<u8>>
    ensures { IfOk result (λ text. text.items ≡ heads_text (map request_texts requests.now) attempts) }
{
    let mut text = Vec::new(alloc);
    push_heads(alloc, &mut text, requests)?;
    let count = format!(in alloc; "attempts {attempts}")?;
    push_line(&mut text, count.as_bytes())?;
    Ok(text)
}

// Appends the heads of the requests.
fn push_heads(alloc: Global, text: &mut Vec<u8>, requests: &[HttpRequest]) -> Mem<()>
    ensures { OnOk result (text.new.items ≡ text.old.items ++ flat_map request_head (map request_texts requests.now)) }
{
    for request in requests {
        let head = head_of(alloc, request)?;
        text.extend_from_slice(head.as_slice())?;
    }
    Ok(())
}

// How the program ends with a fault.
fn status_of(fault: OperationFault) -> OperationStatus
    requires { IsProgramFault fault }
    ensures ending { operation_ending result ≡ attempt_fault_ending fault }
    ensures end { IsStop (operation_ending result) }
{
    match fault {
        OperationFault::Sign(error) => OperationStatus::from(fault_of(&error)),
        OperationFault::TransportFault => OperationStatus::TransportFault,
        OperationFault::NoMemory => OperationStatus::NoMemory,
        OperationFault::Id(_) | OperationFault::Agent(_) => unreachable!(),
    }
}
