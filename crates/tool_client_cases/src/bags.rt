use crate::agents::agent_of;
use crate::metadata::api_of;
use crate::metrics::{AWS_FEATURES, CREDENTIAL_FEATURES, SMITHY_FEATURES};
use crate::parts::{app_of, framework_of};
use crate::texts::{named, text};
use aws_intercept::{ConfigBag, DisableClockSkewCorrection, InvocationId};
use smithy_core::{DateTime, Mem, Moment, RetryConfig, TimeoutConfig};
use std::alloc::Global;
use std::fmt::Debug;
use tool_case_lines::{halves, number};

// Puts the entries `KIND VALUE` into the bag, those of a list in their order.
pub fn fill(alloc: Global, bag: &mut ConfigBag, entries: &[&str]) -> Mem<()> {
    for entry in entries {
        put(alloc, bag, entry)?;
    }
    Ok(())
}

pub fn put(alloc: Global, bag: &mut ConfigBag, entry: &str) -> Mem<()> {
    let (kind, value) = halves(entry);
    match kind {
        "retry" => bag.retry = Some(retry_of(value)),
        "timeout" => bag.timeout = Some(timeout_of(value)),
        "attempts" => bag.attempts = value.parse().ok(),
        "skew" => bag.attempt_skew = Some(number(value)),
        "sent" => bag.time_sent = Some(moment_of(value)),
        "disable" => bag.disable_skew = Some(DisableClockSkewCorrection::from(value == "true")),
        _ => return put_owned(alloc, bag, kind, value),
    }
    Ok(())
}

// Puts an entry of which the user agent or an id is made.
fn put_owned(alloc: Global, bag: &mut ConfigBag, kind: &str, value: &str) -> Mem<()> {
    match kind {
        "api" => {
            let (service, version) = halves(value);
            bag.api_metadata = Some(api_of(alloc, service, version)?);
        }
        "agent" => bag.user_agent = Some(agent_of(alloc, value)?),
        "app" => bag.app_name = app_of(alloc, value).ok(),
        "id" => bag.invocation_id = InvocationId::new(text(alloc, value)?).ok(),
        "connector" => bag.connector = Some(text(alloc, value)?),
        _ => return add(alloc, bag, kind, value),
    }
    Ok(())
}

// Adds an entry to its list.
fn add(alloc: Global, bag: &mut ConfigBag, kind: &str, value: &str) -> Mem<()> {
    match kind {
        "framework" => {
            if let Ok(framework) = framework_of(alloc, value) {
                bag.frameworks.push(framework)?;
            }
            Ok(())
        }
        "smithy" => push_named(alloc, &mut bag.smithy_features, &SMITHY_FEATURES, value),
        "aws" => push_named(alloc, &mut bag.aws_features, &AWS_FEATURES, value),
        "credentials" => push_named(
            alloc,
            &mut bag.credential_features,
            &CREDENTIAL_FEATURES,
            value,
        ),
        _ => Ok(()),
    }
}

// Adds the feature of this name to a list.
fn push_named<T: Debug + Copy>(
    alloc: Global,
    features: &mut Vec<T>,
    all: &[T],
    name: &str,
) -> Mem<()> {
    if let Some(feature) = named(alloc, all, name)? {
        features.push(feature)?;
    }
    Ok(())
}

// `standard`, or the number of attempts.
fn retry_of(value: &str) -> RetryConfig {
    match value.parse() {
        Ok(max_attempts) => RetryConfig { max_attempts },
        Err(_) => RetryConfig::standard(),
    }
}

// The seconds, or `-` for no end.
fn timeout_of(value: &str) -> TimeoutConfig {
    TimeoutConfig {
        read_timeout: value.parse().ok(),
    }
}

// The moment `SECONDS` or `SECONDS NANOSECONDS`.
pub fn moment_of(word: &str) -> Moment {
    let (secs, nanos) = halves(word);
    let nanos: u32 = nanos.parse().unwrap_or(0);
    DateTime::new(number(secs), nanos % 1_000_000_000)
}
