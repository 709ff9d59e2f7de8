ghost use Rattle.std.specs.Prelude.{◌≡◌, ◌≤◌, IsErrOf};
ghost use Rattle.smithy_core.specs.Given.{Gives};
ghost use Rattle.smithy_core.specs.Outside.{RoseOrStands};
ghost use Rattle.operation_run.specs.Again.{most_attempts};
ghost use Rattle.operation_run.specs.Attempts.{Operates, Tried};
ghost use Rattle.operation_run.specs.Steps.{operation_parts};
ghost use Rattle.operation_run.specs.Transport.{HasGivenAll};

use crate::again::is_worth_more;
use crate::attempt::{Operation, attempt};
use crate::fault::OperationFault;
use crate::reply::Outcome;
use crate::transport::Transport;
use aws_auth::SigningInputs;
use aws_intercept::{
    ConfigBag, InvocationIdGenerator, InvocationIdInterceptor, RecursionDetectionInterceptor,
    ServiceClockSkewInterceptor,
};
use smithy_core::{Clock, Env, HttpRequest, Identity, Moment};
use std::alloc::Global;

/// Runs an operation: attempt after attempt, until a reply isn't worth one more, or the most attempts of the bag's retry config
/// were made (1 where it has none), which has to be 1 at least. Nothing waits between attempts.
///
/// The generator is asked once for the invocation's id. Each attempt works on its own copy of `request`: it adds the trace of the
/// environment and the bag's user agent, takes a moment from the clock and signs the copy at it, adds the invocation's id and the
/// attempt's number, takes the moment of sending, sends, and takes the moment at which the reply came. Unless the bag disables
/// that, the skew of the clocks is measured from each reply and shifts the moments of the attempts after it; before the first
/// reply it is 0. Where the bag disables it the bag's own skew shifts each. `inputs.skew_millis` isn't looked at, and no override of
/// the session token's name is asked. `moments` gains each moment that was taken.
///
/// A reply is worth one more attempt where [`AwsErrorCodeClassifier`](aws_intercept::AwsErrorCodeClassifier) calls it retryable,
/// or else [`ServiceClockSkewClassifier`](aws_intercept::ServiceClockSkewClassifier) does, with the skew that was measured.
///
/// # Errors
///
/// - [`OperationFault::Id`] where the generator gives no id; nothing is sent then;
/// - [`OperationFault::Agent`] where the user agent of an attempt can't be sent;
/// - [`OperationFault::Sign`] where the request of an attempt isn't signed;
/// - [`OperationFault::TransportFault`] where the transport failed, after which nothing is sent again;
/// - [`OperationFault::NoMemory`].
///
/// What earlier attempts sent stays sent.
pub fn operate<T: Transport, C: Clock, G: InvocationIdGenerator>(
    _alloc: Global,
    request: &HttpRequest,
    identity: &Identity,
    inputs: &SigningInputs<'_>,
    env: &Env,
    bag: &mut ConfigBag,
    generator: &mut G,
    clock: &mut C,
    transport: &mut T,
    moments: &mut Vec<Moment>,
) -> Result<Outcome, OperationFault>
    requires most { 1 ≤ most_attempts bag.old }
    ensures operates { Operates (λ answer. G.answers generator.old answer generator.new) (λ taken. Gives C.Clock clock.old taken clock.new)
        (record { request = request.now; identity = identity.now; inputs = inputs.now; env = env.now }) bag.old bag.new
        (record { sent_before = T.sent transport.old; sent_now = T.sent transport.new; replied_before = T.replied transport.old; replied_now = T.replied transport.new; moments_before = moments.old.items; moments_now = moments.new.items }) result }
    ensures count { T.faults transport.old ≤ T.faults transport.new }
    ensures failed { IsErrOf result OperationFault.TransportFault → RoseOrStands (T.faults transport.old) (T.faults transport.new) }
    ensures steady { (IsErrOf result OperationFault.TransportFault → ⊥) → T.faults transport.new ≡ T.faults transport.old }
    ensures settled { T.settled transport.new ≡ T.settled transport.old }
    ensures all { IsErrOf result OperationFault.TransportFault → HasGivenAll (T.settled transport.new) (T.replied transport.new) }
{
    InvocationIdInterceptor::new().modify_before_retry_loop(generator, bag)?;
    let mut skew = ServiceClockSkewInterceptor::new();
    skew.modify_before_retry_loop(bag);
    let mut operation = Operation {
        request,
        identity,
        inputs: *inputs,
        trace: RecursionDetectionInterceptor::new(env.try_clone()?),
        skew,
    };
    run_attempts(&mut operation, bag, clock, transport, moments)
}

// Makes attempt after attempt.
fn run_attempts<T: Transport, C: Clock>(
    operation: &mut Operation<'_>,
    bag: &mut ConfigBag,
    clock: &mut C,
    transport: &mut T,
    moments: &mut Vec<Moment>,
) -> Result<Outcome, OperationFault>
    requires { 1 ≤ most_attempts bag.old }
    ensures tried { Tried (λ taken. Gives C.Clock clock.old taken clock.new) (operation_parts operation.old) bag.old bag.new
        (record { sent_before = T.sent transport.old; sent_now = T.sent transport.new; replied_before = T.replied transport.old; replied_now = T.replied transport.new; moments_before = moments.old.items; moments_now = moments.new.items }) result }
    ensures count { T.faults transport.old ≤ T.faults transport.new }
    ensures failed { IsErrOf result OperationFault.TransportFault → RoseOrStands (T.faults transport.old) (T.faults transport.new) }
    ensures steady { (IsErrOf result OperationFault.TransportFault → ⊥) → T.faults transport.new ≡ T.faults transport.old }
    ensures settled { T.settled transport.new ≡ T.settled transport.old }
    ensures all { IsErrOf result OperationFault.TransportFault → HasGivenAll (T.settled transport.new) (T.replied transport.new) }
{
    let most = most_attempts(bag);
    for number in 1..most {
        let reply = attempt(operation, number, bag, clock, transport, moments)?;
        if !is_worth_more(&reply) {
            return Ok(Outcome {
                attempts: number,
                reply,
            });
        }
    }
    let reply = attempt(operation, most, bag, clock, transport, moments)?;
    Ok(Outcome {
        attempts: most,
        reply,
    })
}

// The most attempts.
fn most_attempts(bag: &ConfigBag) -> u32
    ensures { result ≡ most_attempts bag.now }
{
    match &bag.retry {
        Some(retry) => retry.max_attempts,
        None => 1,
    }
}
