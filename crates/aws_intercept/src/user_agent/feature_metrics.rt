ghost use Rattle.std.specs.Prelude.{◌≡◌, IfOk, map};
ghost use Rattle.aws_intercept.specs.SdkFeature.{aws_metric, credential_metric, smithy_metric};
ghost use Rattle.aws_intercept.specs.FeatureMetrics.{feature_metrics};

use crate::bag::ConfigBag;
use crate::user_agent::distinct::distinct_metrics;
use crate::user_agent::metric::BusinessMetric;
use crate::user_agent::sdk_feature::{AwsCredentialFeature, AwsSdkFeature, SmithySdkFeature};
use smithy_core::Mem;
use std::alloc::Global;

/// The metrics of a bag's features, each once: those of the SDK and of the services newest first, those of credentials
/// oldest first, where the newest of equal ones stands.
#[tactic(auto, unfolding(crate::specs::FeatureMetrics::feature_metrics))]
pub(crate) fn feature_metrics(bag: &ConfigBag) -> Mem<Vec<BusinessMetric>>
    ensures { IfOk result (λ metrics. metrics.items ≡ feature_metrics bag.now) }
{
    let alloc = *bag.frameworks.allocator();
    let mut used = smithy_metrics(alloc, bag.smithy_features.as_slice())?;
    used.extend_from_slice(aws_metrics(alloc, bag.aws_features.as_slice())?.as_slice())?;
    let mut metrics = distinct_metrics(alloc, used.as_slice())?;
    let credentials = credential_metrics(alloc, bag.credential_features.as_slice())?;
    let mut sources = distinct_metrics(alloc, credentials.as_slice())?;
    sources.reverse();
    metrics.extend_from_slice(sources.as_slice())?;
    Ok(metrics)
}

fn smithy_metrics(alloc: Global, features: &[SmithySdkFeature]) -> Mem<Vec<BusinessMetric>>
    ensures { IfOk result (λ metrics. metrics.items ≡ map smithy_metric features.now) }
{
    features
        .iter()
        .map(|feature| feature.business_metric())
        .collect(alloc)
}

fn aws_metrics(alloc: Global, features: &[AwsSdkFeature]) -> Mem<Vec<BusinessMetric>>
    ensures { IfOk result (λ metrics. metrics.items ≡ map aws_metric features.now) }
{
    features
        .iter()
        .map(|feature| feature.business_metric())
        .collect(alloc)
}

fn credential_metrics(alloc: Global, features: &[AwsCredentialFeature]) -> Mem<Vec<BusinessMetric>>
    ensures { IfOk result (λ metrics. metrics.items ≡ map credential_metric features.now) }
{
    features
        .iter()
        .map(|feature| feature.business_metric())
        .collect(alloc)
}
