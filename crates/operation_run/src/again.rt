ghost use Rattle.std.specs.Prelude.{◌≡◌, ◌&&◌, Some, is_some};
ghost use Rattle.aws_intercept.specs.Classify.{is_skew_error, is_skewed, kind_of, transient_codes};
ghost use Rattle.operation_run.specs.Again.{is_worth_more};
ghost use Rattle.operation_run.specs.Reply.{reply_code, reply_texts};

use crate::reply::Reply;
use aws_intercept::{AwsErrorCodeClassifier, RetryAction, ServiceClockSkewClassifier};

/// Whether a reply is worth one more attempt, by its error's code, or by that and its skew.
pub(crate) fn is_worth_more(reply: &Reply) -> bool
    ensures { result ≡ is_worth_more (reply_texts reply.now) }
{
    may_pass(reply) || may_pass_in_time(reply)
}

// Whether the error's code says that another attempt may pass.
#[tactic(auto, using(crate::proofs::AgainLemmas::acts_kind))]
fn may_pass(reply: &Reply) -> bool
    ensures { result ≡ is_some (kind_of transient_codes (reply_code (reply_texts reply.now))) }
{
    let action = AwsErrorCodeClassifier::new().classify_retry(
        Some(&reply.response),
        reply.error.as_ref(),
    );
    matches!(action, RetryAction::Retryable { .. })
}

// Whether another attempt may pass that is signed by the service's clock.
fn may_pass_in_time(reply: &Reply) -> bool
    ensures { result ≡ (is_skewed (Some reply.now.response) && is_skew_error (reply_code (reply_texts reply.now))) }
{
    let action = ServiceClockSkewClassifier::new().classify_retry(
        Some(&reply.response),
        reply.error.as_ref(),
    );
    matches!(action, RetryAction::Retryable { .. })
}
