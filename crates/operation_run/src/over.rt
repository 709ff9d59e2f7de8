//! An operation over listed replies, all of whose moments are the same.
ghost use Rattle.std.specs.Prelude.{◌≡◌, ◌∷◌, [], IfOk, Some, codes, map};
ghost use Rattle.operation_run.specs.Over.{GoesOver, IsFirstBag};
ghost use Rattle.operation_run.specs.Rounds.{round_at};

use crate::attempts::operate;
use crate::fault::OperationFault;
use crate::reply::Outcome;
use crate::script::ScriptedTransport;
use aws_auth::SigningInputs;
use aws_intercept::{AwsUserAgent, ConfigBag, InvocationId, PredefinedInvocationIdGenerator};
use smithy_core::{Env, FixedClock, HttpRequest, Identity, Mem, Moment, RetryConfig};
use std::alloc::Global;

/// Runs an operation over the replies of a transport that has sent nothing, with the standard retries, the agent for tests, the
/// invocation's id `invocation-1` and one moment.
pub fn operate_over(
    alloc: Global,
    request: &HttpRequest,
    identity: &Identity,
    inputs: &SigningInputs<'_>,
    env: &Env,
    at: Moment,
    script: &mut ScriptedTransport,
) -> Result<Outcome, OperationFault>
    requires { script.old.sent ≡ [] }
    ensures { GoesOver (record { request = request.now; identity = identity.now; inputs = inputs.now; env = env.now }) at (map (round_at at) script.old.replies) script.new.sent result }
{
    let mut bag = first_bag(alloc)?;
    let mut ids = one_id(alloc)?;
    let mut clock = FixedClock::new(at);
    let mut moments = Vec::new(alloc);
    operate(
        alloc,
        request,
        identity,
        inputs,
        env,
        &mut bag,
        &mut ids,
        &mut clock,
        script,
        &mut moments,
    )
}

// The bag with the standard retries and the agent for tests.
fn first_bag(alloc: Global) -> Mem<ConfigBag>
    ensures { IfOk result IsFirstBag }
{
    let agent = AwsUserAgent::for_tests(alloc)?;
    let mut bag = ConfigBag::new(alloc);
    bag.retry = Some(RetryConfig::standard());
    bag.user_agent = Some(agent);
    Ok(bag)
}

// The generator of the id `invocation-1`.
#[tactic(auto, using(crate::proofs::OverLemmas::test_id))]
fn one_id(alloc: Global) -> Mem<PredefinedInvocationIdGenerator>
    ensures { IfOk result (λ ids. ids ≡ codes "invocation-1" ∷ []) }
{
    match InvocationId::new(String::from_str(alloc, "invocation-1")?) {
        Ok(id) => generator_of(alloc, id),
        Err(_) => unreachable!(),
    }
}

// The generator of one id.
fn generator_of(alloc: Global, id: InvocationId) -> Mem<PredefinedInvocationIdGenerator>
    ensures { IfOk result (λ ids. ids ≡ id ∷ []) }
{
    let mut ids = Vec::new(alloc);
    ids.push(id)?;
    Ok(PredefinedInvocationIdGenerator::new(ids))
}
