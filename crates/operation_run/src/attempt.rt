ghost use Rattle.std.specs.Prelude.{◌≡◌, ◌+◌, ◌<◌, ◌≤◌, [], ◌∷◌, ◌++◌, Some, IsErrOf, OnOk, codes};
ghost use Rattle.std.specs.Vec.{vec_len, vec_capacity};
ghost use Rattle.smithy_core.specs.Given.{Gives};
ghost use Rattle.smithy_core.specs.Outside.{RoseOrStands};
ghost use Rattle.smithy_core.specs.TextPairs.{inserted};
ghost use Rattle.aws_intercept.specs.Invocation.{with_id_header};
ghost use Rattle.aws_intercept.specs.RequestInfo.{info_text};
ghost use Rattle.operation_run.specs.Reply.{request_texts};
ghost use Rattle.operation_run.specs.Steps.{Dresses, Exchanges, Prepares, TriesOnce, operation_parts};
ghost use Rattle.operation_run.specs.Transport.{HasGivenAll};

use crate::fault::OperationFault;
use crate::reply::Reply;
use crate::signing::sign_at;
use crate::transport::Transport;
use aws_auth::SigningInputs;
use aws_intercept::{
    ConfigBag, InvocationIdInterceptor, RecursionDetectionInterceptor, RequestInfoInterceptor,
    ServiceClockSkewInterceptor, UserAgentInterceptor,
};
use smithy_core::{Clock, HttpRequest, Identity, Mem, Moment};

/// What the attempts of an operation share: its request, who signs and by what, and the interceptors that keep something.
#[derive(Drop)]
pub(crate) struct Operation<'a> {
    pub(crate) request: &'a HttpRequest,
    pub(crate) identity: &'a Identity,
    pub(crate) inputs: SigningInputs<'a>,
    pub(crate) trace: RecursionDetectionInterceptor,
    pub(crate) skew: ServiceClockSkewInterceptor,
}

/// Makes one attempt on a copy of the operation's request, and answers its reply with the skew that was measured.
pub(crate) fn attempt<T: Transport, C: Clock>(
    operation: &mut Operation<'_>,
    number: u32,
    bag: &mut ConfigBag,
    clock: &mut C,
    transport: &mut T,
    moments: &mut Vec<Moment>,
) -> Result<Reply, OperationFault>
    ensures kept { operation_parts operation.new ≡ operation_parts operation.old }
    ensures tries { TriesOnce (λ taken. Gives C.Clock clock.old taken clock.new) (operation_parts operation.old) (record bag.old { attempts = Some number }) bag.new
        (record { sent_before = T.sent transport.old; sent_now = T.sent transport.new; replied_before = T.replied transport.old; replied_now = T.replied transport.new; moments_before = moments.old.items; moments_now = moments.new.items }) result }
    ensures count { T.faults transport.old ≤ T.faults transport.new }
    ensures failed { IsErrOf result OperationFault.TransportFault → RoseOrStands (T.faults transport.old) (T.faults transport.new) }
    ensures steady { (IsErrOf result OperationFault.TransportFault → ⊥) → T.faults transport.new ≡ T.faults transport.old }
    ensures settled { T.settled transport.new ≡ T.settled transport.old }
    ensures all { IsErrOf result OperationFault.TransportFault → HasGivenAll (T.settled transport.new) (T.replied transport.new) }
{
    moments.reserve(3)?;
    bag.attempts = Some(number);
    let mut request = operation.request.try_clone()?;
    attempt_on(operation, &mut request, bag, clock, transport, moments)
}

// Makes one attempt on a copy of the operation's request.
fn attempt_on<T: Transport, C: Clock>(
    operation: &mut Operation<'_>,
    request: &mut HttpRequest,
    bag: &mut ConfigBag,
    clock: &mut C,
    transport: &mut T,
    moments: &mut Vec<Moment>,
) -> Result<Reply, OperationFault>
    requires copy { request_texts request.old ≡ request_texts (operation_parts operation.old).request }
    requires room { vec_len moments.old + 3 ≤ vec_capacity moments.old }
    ensures kept { operation_parts operation.new ≡ operation_parts operation.old }
    ensures tries { TriesOnce (λ taken. Gives C.Clock clock.old taken clock.new) (operation_parts operation.old) bag.old bag.new
        (record { sent_before = T.sent transport.old; sent_now = T.sent transport.new; replied_before = T.replied transport.old; replied_now = T.replied transport.new; moments_before = moments.old.items; moments_now = moments.new.items }) result }
    ensures count { T.faults transport.old ≤ T.faults transport.new }
    ensures failed { IsErrOf result OperationFault.TransportFault → RoseOrStands (T.faults transport.old) (T.faults transport.new) }
    ensures steady { (IsErrOf result OperationFault.TransportFault → ⊥) → T.faults transport.new ≡ T.faults transport.old }
    ensures settled { T.settled transport.new ≡ T.settled transport.old }
    ensures all { IsErrOf result OperationFault.TransportFault → HasGivenAll (T.settled transport.new) (T.replied transport.new) }
{
    prepare(operation, request, bag, clock, moments)?;
    exchange(&mut operation.skew, request, bag, clock, transport, moments)
}

// Makes the request that the attempt sends.
fn prepare<C: Clock>(
    operation: &mut Operation<'_>,
    request: &mut HttpRequest,
    bag: &mut ConfigBag,
    clock: &mut C,
    moments: &mut Vec<Moment>,
) -> Result<(), OperationFault>
    requires copy { request_texts request.old ≡ request_texts (operation_parts operation.old).request }
    requires room { vec_len moments.old + 3 ≤ vec_capacity moments.old }
    ensures kept { operation_parts operation.new ≡ operation_parts operation.old }
    ensures bag { bag.new ≡ bag.old }
    ensures room { vec_len moments.new + 2 ≤ vec_capacity moments.new }
    ensures prepares { Prepares (λ taken. Gives C.Clock clock.old taken clock.new) (operation_parts operation.old) bag.old moments.old.items moments.new.items (request_texts request.new) result }
{
    dress(&mut operation.trace, request, bag)?;
    let first = next_moment(clock, moments);
    let inputs = SigningInputs {
        skew_millis: bag.attempt_skew,
        ..operation.inputs
    };
    sign_at(request, operation.identity, &inputs, first)?;
    Ok(stamp(request, first, bag)?)
}

// Adds the trace and the user agent, which are signed.
fn dress(
    trace: &mut RecursionDetectionInterceptor,
    request: &mut HttpRequest,
    bag: &mut ConfigBag,
) -> Result<(), OperationFault>
    ensures dresses { Dresses trace.old bag.old request.old.headers request.new.headers result }
    ensures method { request.new.method ≡ request.old.method }
    ensures target { request.new.target ≡ request.old.target }
    ensures body { request.new.body ≡ request.old.body }
    ensures bag { bag.new ≡ bag.old }
    ensures trace { trace.new ≡ trace.old }
{
    trace.modify_before_signing(request, bag)?;
    UserAgentInterceptor::new().modify_before_signing(request, bag)?;
    Ok(())
}

// Adds the invocation's id and the attempt's number, which aren't signed.
fn stamp(request: &mut HttpRequest, first: Moment, bag: &mut ConfigBag) -> Mem<()>
    ensures ok { OnOk result (request.new.headers ≡ inserted (with_id_header request.old.headers bag.old.invocation_id) (codes "amz-sdk-request") (info_text first bag.old)) }
    ensures method { request.new.method ≡ request.old.method }
    ensures target { request.new.target ≡ request.old.target }
    ensures body { request.new.body ≡ request.old.body }
    ensures bag { bag.new ≡ bag.old }
{
    InvocationIdInterceptor::new().modify_before_transmit(request, bag)?;
    RequestInfoInterceptor::new().modify_before_transmit(request, first, bag)
}

// Sends the request, and measures the skew from its reply.
fn exchange<T: Transport, C: Clock>(
    skew: &mut ServiceClockSkewInterceptor,
    request: &HttpRequest,
    bag: &mut ConfigBag,
    clock: &mut C,
    transport: &mut T,
    moments: &mut Vec<Moment>,
) -> Result<Reply, OperationFault>
    requires room { vec_len moments.old + 2 ≤ vec_capacity moments.old }
    ensures exchanges { Exchanges (λ taken. Gives C.Clock clock.old taken clock.new) bag.old bag.new
        (record { sent_before = T.sent transport.old; sent_now = T.sent transport.new; replied_before = T.replied transport.old; replied_now = T.replied transport.new; moments_before = moments.old.items; moments_now = moments.new.items })
        (request_texts request.now) result }
    ensures count { T.faults transport.old ≤ T.faults transport.new }
    ensures failed { IsErrOf result OperationFault.TransportFault → RoseOrStands (T.faults transport.old) (T.faults transport.new) }
    ensures steady { (IsErrOf result OperationFault.TransportFault → ⊥) → T.faults transport.new ≡ T.faults transport.old }
    ensures settled { T.settled transport.new ≡ T.settled transport.old }
    ensures all { IsErrOf result OperationFault.TransportFault → HasGivenAll (T.settled transport.new) (T.replied transport.new) }
{
    let sent = next_moment(clock, moments);
    skew.read_before_transmit(sent, bag);
    let mut reply = transport.send(request)?;
    let received = next_moment(clock, moments);
    skew.modify_before_deserialization(&mut reply.response, received, bag);
    Ok(reply)
}

// Asks the clock for a moment, which goes into the room that was made for it.
fn next_moment<C: Clock>(clock: &mut C, moments: &mut Vec<Moment>) -> Moment
    requires { vec_len moments.old < vec_capacity moments.old }
    ensures moments { moments.new.items ≡ moments.old.items ++ result ∷ [] }
    ensures len { vec_len moments.new ≡ vec_len moments.old + 1 }
    ensures capacity { vec_capacity moments.old ≤ vec_capacity moments.new }
    ensures gives { Gives C.Clock clock.old (result ∷ []) clock.new }
{
    let moment = clock.now();
    moments.push(moment).unwrap();
    moment
}
