//! What goes around each attempt of an operation, by hand: what `operate` does, for a caller that waits between attempts or
//! orders them in its own way.
use crate::operation::{api_of, build_of};
use crate::signed_requests::sign_for;
use aws_intercept::{
    AwsErrorCodeClassifier, ConfigBag, InvocationIdGenerator, InvocationIdInterceptor,
    RecursionDetectionInterceptor, RequestInfoInterceptor, RetryAction, ServiceClockSkewClassifier,
    ServiceClockSkewInterceptor, UserAgentInterceptor,
};
use sigv4::SigningSettings;
use smithy_core::{Env, ErrorMetadata, HttpRequest, HttpResponse, Identity, Moment, RetryConfig};
use std::alloc::Global;

/// Puts into the bag what the interceptors of one operation share, before its first attempt.
pub fn begin<G: InvocationIdGenerator>(
    alloc: Global,
    env: &Env,
    ids: &mut G,
    skew: &mut ServiceClockSkewInterceptor,
    bag: &mut ConfigBag,
) -> anyhow::Result<()> {
    bag.retry = Some(RetryConfig::standard());
    bag.api_metadata = Some(api_of(alloc)?);
    UserAgentInterceptor::new().read_after_serialization(env, &build_of(alloc)?, bag)?;
    InvocationIdInterceptor::new().modify_before_retry_loop(ids, bag)?;
    skew.modify_before_retry_loop(bag);
    Ok(())
}

/// The request of one attempt: a copy of the operation's, which stays as it is. A request that was sent already would be signed
/// with the id and the number of its last attempt, and these are changed after the signing.
pub fn attempt(
    alloc: Global,
    request: &HttpRequest,
    trace: &mut RecursionDetectionInterceptor,
    skew: &mut ServiceClockSkewInterceptor,
    identity: &Identity,
    bag: &mut ConfigBag,
    now: Moment,
) -> anyhow::Result<HttpRequest> {
    let mut request = request.try_clone()?;
    UserAgentInterceptor::new().modify_before_signing(&mut request, bag)?;
    trace.modify_before_signing(&mut request, bag)?;
    let at = now.shifted(bag.attempt_skew.unwrap_or(0));
    let settings = SigningSettings::new(alloc)?;
    sign_for(alloc, &mut request, identity, "iam", at, settings)?;
    InvocationIdInterceptor::new().modify_before_transmit(&mut request, bag)?;
    RequestInfoInterceptor::new().modify_before_transmit(&mut request, now, bag)?;
    skew.read_before_transmit(now, bag);
    Ok(request)
}

/// Whether the operation is tried once more after a response with this error, from which the skew of the clocks is measured
/// for the next attempt.
pub fn is_retried(
    response: &mut HttpResponse,
    error: &ErrorMetadata,
    skew: &mut ServiceClockSkewInterceptor,
    bag: &mut ConfigBag,
    now: Moment,
) -> bool {
    skew.modify_before_deserialization(response, now, bag);
    has_attempts(bag) && (may_pass(response, error) || may_pass_in_time(response, error))
}

fn has_attempts(bag: &ConfigBag) -> bool {
    match (bag.attempts, bag.retry) {
        (Some(attempts), Some(retry)) => attempts < retry.max_attempts,
        _ => false,
    }
}

// Whether the error's code says that another attempt may pass.
fn may_pass(response: &HttpResponse, error: &ErrorMetadata) -> bool {
    let action = AwsErrorCodeClassifier::new().classify_retry(Some(response), Some(error));
    matches!(action, RetryAction::Retryable { .. })
}

// Whether another attempt may pass that is signed by the service's clock.
fn may_pass_in_time(response: &HttpResponse, error: &ErrorMetadata) -> bool {
    let action = ServiceClockSkewClassifier::new().classify_retry(Some(response), Some(error));
    matches!(action, RetryAction::Retryable { .. })
}
