ghost use Rattle.std.specs.Prelude.{◌≡◌, IfOk};
ghost use Rattle.aws_intercept.specs.Bag.{IsEmptyBag, IsSameBag};

use crate::clock_skew::DisableClockSkewCorrection;
use crate::copied::copied_name;
use crate::invocation_id::InvocationId;
use crate::user_agent::agent::AwsUserAgent;
use crate::user_agent::framework::FrameworkMetadata;
use crate::user_agent::frameworks::copied_frameworks;
use crate::user_agent::metadata::ApiMetadata;
use crate::user_agent::sdk_feature::{AwsCredentialFeature, AwsSdkFeature, SmithySdkFeature};
use smithy_core::{AppName, Mem, Moment, RetryConfig, TimeoutConfig, copied_text};
use std::alloc::Global;

/// What the interceptors of one operation share. The four lists stand newest first.
#[derive(Debug)]
pub struct ConfigBag {
    /// How often the operation is tried.
    pub retry: Option<RetryConfig>,
    /// How long each attempt may take.
    pub timeout: Option<TimeoutConfig>,
    /// The number of the attempt.
    pub attempts: Option<u32>,
    /// How far the service's clock is ahead, in milliseconds, as it was known before the attempt.
    pub attempt_skew: Option<i64>,
    /// When the request was sent, by the client's clock.
    pub time_sent: Option<Moment>,
    /// Whether no skew is to be measured.
    pub disable_skew: Option<DisableClockSkewCorrection>,
    /// The service that the client is for.
    pub api_metadata: Option<ApiMetadata>,
    /// What the client says of itself.
    pub user_agent: Option<AwsUserAgent>,
    /// The name of the application.
    pub app_name: Option<AppName>,
    /// The id of the invocation.
    pub invocation_id: Option<InvocationId>,
    /// What sends the requests, as the user agent names it.
    pub connector: Option<String>,
    /// The frameworks that stand on the SDK.
    pub frameworks: Vec<FrameworkMetadata>,
    /// The features of the SDK that are used.
    pub smithy_features: Vec<SmithySdkFeature>,
    /// The features for the services of AWS that are used.
    pub aws_features: Vec<AwsSdkFeature>,
    /// Where the credentials come from.
    pub credential_features: Vec<AwsCredentialFeature>,
}

// Written out: a derived drop would be taken apart in the proof of each function that drops one.
impl Drop for ConfigBag {
    fn drop(self) {
        let ConfigBag {
            retry: _,
            timeout: _,
            attempts: _,
            attempt_skew: _,
            time_sent: _,
            disable_skew: _,
            api_metadata,
            user_agent,
            app_name,
            invocation_id,
            connector,
            frameworks,
            smithy_features,
            aws_features,
            credential_features,
        } = self;
        drop(api_metadata);
        drop(user_agent);
        drop(app_name);
        drop(invocation_id);
        drop(connector);
        drop(frameworks);
        drop(smithy_features);
        drop(aws_features);
        drop(credential_features);
    }
}

impl ConfigBag {
    /// A bag with nothing in it.
    pub fn new(alloc: Global) -> ConfigBag
        ensures { IsEmptyBag result }
    {
        ConfigBag {
            retry: None,
            timeout: None,
            attempts: None,
            attempt_skew: None,
            time_sent: None,
            disable_skew: None,
            api_metadata: None,
            user_agent: None,
            app_name: None,
            invocation_id: None,
            connector: None,
            frameworks: Vec::new(alloc),
            smithy_features: Vec::new(alloc),
            aws_features: Vec::new(alloc),
            credential_features: Vec::new(alloc),
        }
    }

    /// A bag with equal values in it.
    pub fn try_clone(&self) -> Mem<ConfigBag>
        ensures { IfOk result (IsSameBag self.now) }
    {
        let alloc = *self.frameworks.allocator();
        Ok(ConfigBag {
            retry: self.retry,
            timeout: self.timeout,
            attempts: self.attempts,
            attempt_skew: self.attempt_skew,
            time_sent: self.time_sent,
            disable_skew: self.disable_skew,
            api_metadata: copied_api(&self.api_metadata)?,
            user_agent: copied_agent(&self.user_agent)?,
            app_name: copied_name(&self.app_name)?,
            invocation_id: copied_id(&self.invocation_id)?,
            connector: copied_text(&self.connector)?,
            frameworks: copied_frameworks(alloc, self.frameworks.as_slice())?,
            smithy_features: Vec::from_slice(alloc, self.smithy_features.as_slice())?,
            aws_features: Vec::from_slice(alloc, self.aws_features.as_slice())?,
            credential_features: Vec::from_slice(alloc, self.credential_features.as_slice())?,
        })
    }
}

fn copied_api(api: &Option<ApiMetadata>) -> Mem<Option<ApiMetadata>>
    ensures { IfOk result (λ copy. copy ≡ api.now) }
{
    Ok(match api {
        Some(api) => Some(api.try_clone()?),
        None => None,
    })
}

fn copied_agent(agent: &Option<AwsUserAgent>) -> Mem<Option<AwsUserAgent>>
    ensures { IfOk result (λ copy. copy ≡ agent.now) }
{
    Ok(match agent {
        Some(agent) => Some(agent.try_clone()?),
        None => None,
    })
}

fn copied_id(id: &Option<InvocationId>) -> Mem<Option<InvocationId>>
    ensures { IfOk result (λ copy. copy ≡ id.now) }
{
    Ok(match id {
        Some(id) => Some(id.try_clone()?),
        None => None,
    })
}
