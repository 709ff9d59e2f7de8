//! What a client runs around each attempt: the user agent with its metrics, the invocation id, the trace header, the
//! attempt header, the measured clock skew, and the class of an error for retries.
//!
//! The layer above is promised that each interceptor's call gives exactly the header text, the bag and the skew of its
//! definition and changes nothing else (`specs/Interceptor.antt`, `specs/Invocation.antt`, `specs/Recursion.antt`,
//! `specs/RequestInfo.antt`, `specs/ClockSkew.antt`), that the agent's text is its parts in order (`specs/Agent.antt`),
//! that different metrics have different ids ([`metric_ids_differ`]), that an escaped trace is a header's value
//! ([`escaped_traces_fit`]), and that both classifiers answer by their tables (`specs/Classify.antt`).
#![tactic(auto)]

mod bag;
mod classify;
mod clock_skew;
mod copied;
mod id_fault;
mod id_generator;
mod invocation;
mod invocation_id;
mod recursion;
mod request_info;
mod user_agent;

pub use crate::bag::ConfigBag;
pub use crate::classify::{
    AwsErrorCodeClassifier, AwsErrorCodeClassifierBuilder, RetryAction, RetryKind,
    ServiceClockSkewClassifier, THROTTLING_ERRORS, TRANSIENT_ERRORS,
};
pub use crate::clock_skew::{DisableClockSkewCorrection, ServiceClockSkewInterceptor};
pub use crate::id_fault::IdFault;
pub use crate::id_generator::{
    DefaultInvocationIdGenerator, InvocationIdGenerator, NoInvocationIdGenerator,
    PredefinedInvocationIdGenerator,
};
pub use crate::invocation::InvocationIdInterceptor;
pub use crate::invocation_id::{InvalidInvocationId, InvocationId};
pub use crate::recursion::{RecursionDetectionInterceptor, escaped_traces_fit};
pub use crate::request_info::RequestInfoInterceptor;
pub use crate::user_agent::agent::AwsUserAgent;
pub use crate::user_agent::build::{BuildMetadata, OsFamily};
pub use crate::user_agent::config::ConfigMetadata;
pub use crate::user_agent::feature::FeatureMetadata;
pub use crate::user_agent::framework::FrameworkMetadata;
pub use crate::user_agent::interceptor::{UserAgentFault, UserAgentInterceptor};
pub use crate::user_agent::metadata::{AdditionalMetadata, ApiMetadata, InvalidMetadataValue};
pub use crate::user_agent::metric::{BusinessMetric, metric_ids_differ};
pub use crate::user_agent::sdk_feature::{AwsCredentialFeature, AwsSdkFeature, SmithySdkFeature};
