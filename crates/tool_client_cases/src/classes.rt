use crate::headers::response_of;
use crate::texts::{given_text, rest, text, word};
use aws_intercept::{
    AwsErrorCodeClassifier, RetryAction, RetryKind, ServiceClockSkewClassifier, THROTTLING_ERRORS,
    TRANSIENT_ERRORS,
};
use smithy_core::{ErrorMetadata, Headers, HttpResponse, Mem};
use std::alloc::Global;

// What a classifier says of an error with a code, `-` for one without, and of the response's delay: of `own` a copy of the one
// that a copy of the builder makes of codes with commas between, and of `after` after what another classifier said.
pub fn answer(alloc: Global, call: &str, words: &[&str]) -> Mem<String> {
    let first = word(words, 0);
    match call {
        "throttling" => THROTTLING_ERRORS.join(alloc, ","),
        "transient" => TRANSIENT_ERRORS.join(alloc, ","),
        "skew" => by_skew(alloc, first, word(words, 1)),
        "own" => classified(alloc, &classifier_of(alloc, first)?, None, rest(words, 1)),
        "after" => {
            let previous = Some(action_of(first));
            classified(
                alloc,
                &AwsErrorCodeClassifier::new(),
                previous,
                rest(words, 1),
            )
        }
        _ => classified(alloc, &AwsErrorCodeClassifier::new(), None, words),
    }
}

// Of the error with the code that stands first, and of the response with the headers behind it.
fn classified(
    alloc: Global,
    classifier: &AwsErrorCodeClassifier,
    previous: Option<RetryAction>,
    words: &[&str],
) -> Mem<String> {
    let error = error_of(alloc, word(words, 0))?;
    let response = answered(alloc, rest(words, 1))?;
    let action = match previous {
        Some(previous) => {
            classifier.classify_retry_v2(response.as_ref(), error.as_ref(), &previous)
        }
        None => classifier.classify_retry(response.as_ref(), error.as_ref()),
    };
    action_text(alloc, action)
}

fn classifier_of(alloc: Global, codes: &str) -> Mem<AwsErrorCodeClassifier> {
    let mut texts = Vec::new(alloc);
    for code in codes.split(',') {
        texts.push(text(alloc, code)?)?;
    }
    let builder = AwsErrorCodeClassifier::builder().transient_errors(texts);
    builder.try_clone()?.build().try_clone()
}

// By the skew of a response, which has no headers.
fn by_skew(alloc: Global, skew: &str, code: &str) -> Mem<String> {
    let error = error_of(alloc, code)?;
    let response = HttpResponse {
        status: 200,
        headers: Headers::new(alloc),
        skew: skew.parse().ok(),
    };
    let classifier = ServiceClockSkewClassifier::new();
    action_text(
        alloc,
        classifier.classify_retry(Some(&response), error.as_ref()),
    )
}

// The error with this code, and none where the word is `no error`.
fn error_of(alloc: Global, code: &str) -> Mem<Option<ErrorMetadata>> {
    if code == "no error" {
        return Ok(None);
    }
    Ok(Some(ErrorMetadata {
        code: given_text(alloc, code)?,
        message: None,
    }))
}

// The response with these headers, and none where the one word is `-`.
fn answered(alloc: Global, headers: &[&str]) -> Mem<Option<HttpResponse>> {
    if word(headers, 0) == "-" {
        return Ok(None);
    }
    Ok(Some(response_of(alloc, headers)?))
}

// `KIND DELAY`, or nothing.
fn action_of(word: &str) -> RetryAction {
    match word.split_once(' ') {
        Some((kind, delay)) => RetryAction::Retryable {
            kind: kind_of(kind),
            retry_after: delay.parse().ok(),
        },
        None => RetryAction::NoActionIndicated,
    }
}

fn kind_of(word: &str) -> RetryKind {
    match word {
        "ThrottlingError" => RetryKind::ThrottlingError,
        "TransientError" => RetryKind::TransientError,
        _ => RetryKind::ServerError,
    }
}

fn action_text(alloc: Global, action: RetryAction) -> Mem<String> {
    match action {
        RetryAction::NoActionIndicated => text(alloc, "NoActionIndicated"),
        RetryAction::Retryable {
            kind,
            retry_after: Some(delay),
        } => format!(in alloc; "{kind:?} {delay}"),
        RetryAction::Retryable {
            kind,
            retry_after: None,
        } => format!(in alloc; "{kind:?} -"),
    }
}
