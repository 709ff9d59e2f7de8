ghost use Rattle.std.specs.Prelude.{◌≡◌, IfOk, map, option_copied, string_bytes};
ghost use Rattle.aws_intercept.specs.Classify.{Acts, ActsAgain, code_of, codes_or_transient, delay_text, Delays, is_listed, is_skew_error, is_skewed, IsDelay, kind_of, skew_action, throttling_codes, transient_codes};

use smithy_core::{ErrorMetadata, HttpResponse, Mem};
use std::alloc::Global;
use std::marker::Model;

/// What kind of error a retry is for.
#[derive(Clone, Copy, Debug, PartialEq, Eq)]
pub enum RetryKind {
    /// The service failed.
    ServerError,
    /// The service has too many requests.
    ThrottlingError,
    /// The error is transient: it may pass by itself.
    TransientError,
}

/// What a classifier says of a failed attempt.
#[derive(Clone, Copy, Debug, PartialEq, Eq)]
pub enum RetryAction {
    /// Nothing.
    NoActionIndicated,
    /// The attempt may be made again.
    Retryable {
        /// What kind of error it was.
        kind: RetryKind,
        /// The milliseconds to wait, if the service named them.
        retry_after: Option<u64>,
    },
}

/// The codes of errors of a service that has too many requests.
pub const THROTTLING_ERRORS: [&str; 14] = [
    "Throttling",
    "ThrottlingException",
    "ThrottledException",
    "RequestThrottledException",
    "TooManyRequestsException",
    "ProvisionedThroughputExceededException",
    "TransactionInProgressException",
    "RequestLimitExceeded",
    "BandwidthLimitExceeded",
    "LimitExceededException",
    "RequestThrottled",
    "SlowDown",
    "PriorRequestNotComplete",
    "EC2ThrottledException",
];

/// The codes of transient errors.
pub const TRANSIENT_ERRORS: [&str; 2] = ["RequestTimeout", "RequestTimeoutException"];

/// Tells from the code of an error whether the attempt may be made again.
///
/// Contracts see the codes of transient errors.
#[derive(Debug)]
pub struct AwsErrorCodeClassifier {
    // `TRANSIENT_ERRORS` unless set.
    transient: Option<Vec<String>>,
}

// Written out: a derived drop would be taken apart in the proof of each function that drops one.
impl Drop for AwsErrorCodeClassifier {
    fn drop(self) {
        let AwsErrorCodeClassifier { transient } = self;
        drop(transient);
    }
}

impl Model for AwsErrorCodeClassifier {
    ghost use Rattle.std.specs.Prelude.{List, ℕ};
    ghost use Rattle.aws_intercept.specs.Classify.{codes_or_transient};

    ghost Value = { List (List ℕ) };

    ghost view = { λ classifier. codes_or_transient classifier.transient };
}

/// Builds an [`AwsErrorCodeClassifier`].
///
/// Contracts see the codes of transient errors.
#[derive(Debug, Drop)]
pub struct AwsErrorCodeClassifierBuilder {
    // `TRANSIENT_ERRORS` unless set.
    transient: Option<Vec<String>>,
}

impl Model for AwsErrorCodeClassifierBuilder {
    ghost use Rattle.std.specs.Prelude.{List, ℕ};
    ghost use Rattle.aws_intercept.specs.Classify.{codes_or_transient};

    ghost Value = { List (List ℕ) };

    ghost view = { λ builder. codes_or_transient builder.transient };
}

impl AwsErrorCodeClassifierBuilder {
    /// Sets the codes of transient errors.
    pub fn transient_errors(self, codes: Vec<String>) -> AwsErrorCodeClassifierBuilder
        ensures { result ≡ map string_bytes codes.items }
    {
        AwsErrorCodeClassifierBuilder {
            transient: Some(codes),
        }
    }

    /// An equal builder.
    pub fn try_clone(&self) -> Mem<AwsErrorCodeClassifierBuilder>
        ensures { IfOk result (λ copy. copy ≡ self.now) }
    {
        Ok(AwsErrorCodeClassifierBuilder {
            transient: copied_codes(&self.transient)?,
        })
    }

    /// The classifier.
    pub fn build(self) -> AwsErrorCodeClassifier
        ensures { result ≡ self }
    {
        AwsErrorCodeClassifier {
            transient: self.transient,
        }
    }
}

impl AwsErrorCodeClassifier {
    /// A classifier whose transient errors are [`TRANSIENT_ERRORS`].
    pub fn new() -> AwsErrorCodeClassifier
        ensures { result ≡ transient_codes }
    {
        AwsErrorCodeClassifier { transient: None }
    }

    /// A builder of such a classifier.
    pub fn builder() -> AwsErrorCodeClassifierBuilder
        ensures { result ≡ transient_codes }
    {
        AwsErrorCodeClassifierBuilder { transient: None }
    }

    /// An equal classifier.
    pub fn try_clone(&self) -> Mem<AwsErrorCodeClassifier>
        ensures { IfOk result (λ copy. copy ≡ self.now) }
    {
        Ok(AwsErrorCodeClassifier {
            transient: copied_codes(&self.transient)?,
        })
    }

    /// Retryable as a throttling error for a code of [`THROTTLING_ERRORS`], else as a transient one for one of the
    /// classifier's own codes, after the milliseconds of the response's `x-amz-retry-after`, where that is a number.
    pub fn classify_retry(
        &self,
        response: Option<&HttpResponse>,
        error: Option<&ErrorMetadata>,
    ) -> RetryAction
        ensures { Acts (kind_of self.now (code_of (option_copied error.entry))) (delay_text (option_copied response.entry)) result }
    {
        match self.kind(code_of(error)) {
            Some(kind) => RetryAction::Retryable {
                kind,
                retry_after: retry_after(response),
            },
            None => RetryAction::NoActionIndicated,
        }
    }

    /// What [`classify_retry`](Self::classify_retry) says; where that is nothing, what was said before, if that was retryable
    /// without a delay and the response has one.
    pub fn classify_retry_v2(
        &self,
        response: Option<&HttpResponse>,
        error: Option<&ErrorMetadata>,
        previous: &RetryAction,
    ) -> RetryAction
        ensures { ActsAgain (kind_of self.now (code_of (option_copied error.entry))) previous.now (delay_text (option_copied response.entry)) result }
    {
        match self.classify_retry(response, error) {
            RetryAction::NoActionIndicated => delayed(previous, response),
            action => action,
        }
    }

    // The kind of the error with this code.
    fn kind(&self, code: Option<&str>) -> Option<RetryKind>
        ensures { result ≡ kind_of self.now (option_copied code.entry) }
    {
        let code = code?;
        if is_throttling(code) {
            Some(RetryKind::ThrottlingError)
        } else if self.is_transient(code) {
            Some(RetryKind::TransientError)
        } else {
            None
        }
    }

    #[tactic(auto, unfolding(crate::specs::Classify::transient_codes))]
    fn is_transient(&self, code: &str) -> bool
        ensures { result ≡ is_listed self.now code.now }
    {
        match &self.transient {
            Some(codes) => contains_text(codes.as_slice(), code),
            None => contains(&TRANSIENT_ERRORS, code),
        }
    }
}

// Whether the code is one of these.
fn contains(listed: &[&str], code: &str) -> bool
    ensures { result ≡ is_listed (map (λ known. known.now) listed.now) code.now }
{
    for known in listed {
        if *known == code {
            return true;
        }
    }
    false
}

// Whether the code is one of these.
fn contains_text(listed: &[String], code: &str) -> bool
    ensures { result ≡ is_listed (map string_bytes listed.now) code.now }
{
    for known in listed {
        if known.as_str() == code {
            return true;
        }
    }
    false
}

// A copy of the codes, where they are set.
fn copied_codes(codes: &Option<Vec<String>>) -> Mem<Option<Vec<String>>>
    ensures { IfOk result (λ copy. codes_or_transient copy ≡ codes_or_transient codes.now) }
{
    Ok(match codes {
        Some(codes) => Some(copied_texts(*codes.allocator(), codes.as_slice())?),
        None => None,
    })
}

fn copied_texts(alloc: Global, texts: &[String]) -> Mem<Vec<String>>
    ensures { IfOk result (λ copies. map string_bytes copies.items ≡ map string_bytes texts.now) }
{
    let mut copies = Vec::new(alloc);
    for text in texts {
        copies.push(text.clone()?)?;
    }
    Ok(copies)
}

#[tactic(auto, unfolding(crate::specs::Classify::throttling_codes))]
fn is_throttling(code: &str) -> bool
    ensures { result ≡ is_listed throttling_codes code.now }
{
    contains(&THROTTLING_ERRORS, code)
}

// The code of an error, where there is one.
fn code_of<'a>(error: Option<&'a ErrorMetadata>) -> Option<&'a str>
    ensures { option_copied result ≡ code_of (option_copied error.entry) }
{
    match &error?.code {
        Some(code) => Some(code.as_str()),
        None => None,
    }
}

// The milliseconds to wait, if the response has them.
fn retry_after(response: Option<&HttpResponse>) -> Option<u64>
    ensures { IsDelay (delay_text (option_copied response.entry)) result }
{
    response?
        .headers
        .get("x-amz-retry-after")?
        .parse::<u64>()
        .ok()
}

// What was said before with the delay of the response, where it had none.
fn delayed(previous: &RetryAction, response: Option<&HttpResponse>) -> RetryAction
    ensures { Delays previous.now (delay_text (option_copied response.entry)) result }
{
    let RetryAction::Retryable {
        kind,
        retry_after: None,
    } = *previous
    else {
        return RetryAction::NoActionIndicated;
    };
    match retry_after(response) {
        Some(millis) => RetryAction::Retryable {
            kind,
            retry_after: Some(millis),
        },
        None => RetryAction::NoActionIndicated,
    }
}

/// The most milliseconds by which the clocks may differ before an error counts as one of skew: 4 minutes.
const MOST_SKEW: u64 = 240_000;

/// The codes of errors that a skew of the clocks can bring about.
const SKEW_ERRORS: [&str; 5] = [
    "InvalidSignatureException",
    "SignatureDoesNotMatch",
    "AuthFailure",
    "RequestTimeTooSkewed",
    "AccessDeniedException",
];

/// Tells from the measured skew of the clocks whether an error of signing may pass with another attempt.
#[derive(Clone, Copy, Debug)]
pub struct ServiceClockSkewClassifier;

impl ServiceClockSkewClassifier {
    /// The classifier.
    pub fn new() -> ServiceClockSkewClassifier {
        ServiceClockSkewClassifier
    }

    /// Retryable as an error of the service, where the response's skew passes 4 minutes in either direction and the code
    /// is one that a skew can bring about.
    pub fn classify_retry(
        &self,
        response: Option<&HttpResponse>,
        error: Option<&ErrorMetadata>,
    ) -> RetryAction
        ensures { result ≡ skew_action (option_copied response.entry) (code_of (option_copied error.entry)) }
    {
        if is_skewed(response) && is_skew_error(code_of(error)) {
            RetryAction::Retryable {
                kind: RetryKind::ServerError,
                retry_after: None,
            }
        } else {
            RetryAction::NoActionIndicated
        }
    }
}

// Whether the response's skew passes the limit.
fn is_skewed(response: Option<&HttpResponse>) -> bool
    ensures { result ≡ is_skewed (option_copied response.entry) }
{
    match response {
        Some(response) => match response.skew {
            Some(skew) => skew.unsigned_abs() > MOST_SKEW,
            None => false,
        },
        None => false,
    }
}

// Whether a skew can bring about an error with this code.
#[tactic(auto, unfolding(crate::specs::Classify::skew_codes))]
fn is_skew_error(code: Option<&str>) -> bool
    ensures { result ≡ is_skew_error (option_copied code.entry) }
{
    match code {
        Some(code) => contains(&SKEW_ERRORS, code),
        None => false,
    }
}
