use crate::texts::{debugged, named, text, word};
use aws_intercept::{
    AwsCredentialFeature, AwsSdkFeature, AwsUserAgent, BusinessMetric, SmithySdkFeature,
};
use smithy_core::Mem;
use std::alloc::Global;
use tool_case_lines::{halves, unknown};

// The metric of a feature, or the ids of metrics in an agent's header.
pub fn answer(alloc: Global, call: &str, words: &[&str]) -> Mem<String> {
    if call == "ids" {
        return ids(alloc, words);
    }
    match metric_of(alloc, call, word(words, 0))? {
        Some(metric) => debugged(alloc, Ok(metric)),
        None => unknown(alloc),
    }
}

fn metric_of(alloc: Global, list: &str, name: &str) -> Mem<Option<BusinessMetric>> {
    Ok(match list {
        "smithy" => named(alloc, &SMITHY_FEATURES, name)?.map(SmithySdkFeature::business_metric),
        "aws" => named(alloc, &AWS_FEATURES, name)?.map(AwsSdkFeature::business_metric),
        _ => named(alloc, &CREDENTIAL_FEATURES, name)?.map(AwsCredentialFeature::business_metric),
    })
}

// The ids in an agent's header of the metrics `COUNT NAME`.
fn ids(alloc: Global, counts: &[&str]) -> Mem<String> {
    let header = header_with(alloc, counts)?;
    let (_, ids) = header.as_str().split_once(" m/").unwrap_or(("", "-"));
    text(alloc, ids)
}

fn header_with(alloc: Global, counts: &[&str]) -> Mem<String> {
    let mut agent = AwsUserAgent::for_tests(alloc)?;
    for count in counts {
        add_count(alloc, &mut agent, count)?;
    }
    agent.ua_header()
}

// Adds so many of the metric.
fn add_count(alloc: Global, agent: &mut AwsUserAgent, count: &str) -> Mem<()> {
    let (count, name) = halves(count);
    let count: u32 = count.parse().unwrap_or(0);
    if let Some(metric) = named(alloc, &METRICS, name)? {
        for _ in 0..count {
            agent.add_business_metric(metric)?;
        }
    }
    Ok(())
}

pub const METRICS: [BusinessMetric; 98] = [
    BusinessMetric::ResourceModel,
    BusinessMetric::Waiter,
    BusinessMetric::Paginator,
    BusinessMetric::RetryModeLegacy,
    BusinessMetric::RetryModeStandard,
    BusinessMetric::RetryModeAdaptive,
    BusinessMetric::S3Transfer,
    BusinessMetric::S3CryptoV1n,
    BusinessMetric::S3CryptoV2,
    BusinessMetric::S3ExpressBucket,
    BusinessMetric::S3AccessGrants,
    BusinessMetric::GzipRequestCompression,
    BusinessMetric::ProtocolRpcV2Cbor,
    BusinessMetric::EndpointOverride,
    BusinessMetric::AccountIdEndpoint,
    BusinessMetric::AccountIdModePreferred,
    BusinessMetric::AccountIdModeDisabled,
    BusinessMetric::AccountIdModeRequired,
    BusinessMetric::Sigv4aSigning,
    BusinessMetric::ResolvedAccountId,
    BusinessMetric::FlexibleChecksumsReqCrc32,
    BusinessMetric::FlexibleChecksumsReqCrc32c,
    BusinessMetric::FlexibleChecksumsReqCrc64,
    BusinessMetric::FlexibleChecksumsReqSha1,
    BusinessMetric::FlexibleChecksumsReqSha256,
    BusinessMetric::FlexibleChecksumsReqWhenSupported,
    BusinessMetric::FlexibleChecksumsReqWhenRequired,
    BusinessMetric::FlexibleChecksumsResWhenSupported,
    BusinessMetric::FlexibleChecksumsResWhenRequired,
    BusinessMetric::DdbMapper,
    BusinessMetric::CredentialsCode,
    BusinessMetric::CredentialsJvmSystemProperties,
    BusinessMetric::CredentialsEnvVars,
    BusinessMetric::CredentialsEnvVarsStsWebIdToken,
    BusinessMetric::CredentialsStsAssumeRole,
    BusinessMetric::CredentialsStsAssumeRoleSaml,
    BusinessMetric::CredentialsStsAssumeRoleWebId,
    BusinessMetric::CredentialsStsFederationToken,
    BusinessMetric::CredentialsStsSessionToken,
    BusinessMetric::CredentialsProfile,
    BusinessMetric::CredentialsProfileSourceProfile,
    BusinessMetric::CredentialsProfileNamedProvider,
    BusinessMetric::CredentialsProfileStsWebIdToken,
    BusinessMetric::CredentialsProfileSso,
    BusinessMetric::CredentialsSso,
    BusinessMetric::CredentialsProfileSsoLegacy,
    BusinessMetric::CredentialsSsoLegacy,
    BusinessMetric::CredentialsProfileProcess,
    BusinessMetric::CredentialsProcess,
    BusinessMetric::CredentialsBoto2ConfigFile,
    BusinessMetric::CredentialsAwsSdkStore,
    BusinessMetric::CredentialsHttp,
    BusinessMetric::CredentialsImds,
    BusinessMetric::SsoLoginDevice,
    BusinessMetric::SsoLoginAuth,
    BusinessMetric::BearerServiceEnvVars,
    BusinessMetric::ObservabilityTracing,
    BusinessMetric::ObservabilityMetrics,
    BusinessMetric::ObservabilityOtelTracing,
    BusinessMetric::ObservabilityOtelMetrics,
    BusinessMetric::CredentialsCognito,
    BusinessMetric::S3TransferUploadDirectory,
    BusinessMetric::S3TransferDownloadDirectory,
    BusinessMetric::CliV1ToV2MigrationDebugMode,
    BusinessMetric::LoginSameDevice,
    BusinessMetric::LoginCrossDevice,
    BusinessMetric::CredentialsProfileLogin,
    BusinessMetric::CredentialsLogin,
    BusinessMetric::FlexibleChecksumsReqMd5,
    BusinessMetric::FlexibleChecksumsReqSha512,
    BusinessMetric::FlexibleChecksumsReqXxhash3,
    BusinessMetric::FlexibleChecksumsReqXxhash64,
    BusinessMetric::FlexibleChecksumsReqXxhash128,
    BusinessMetric::HttpClientAuto,
    BusinessMetric::HttpClientExplicitInstance,
    BusinessMetric::HttpClientExplicitFactory,
    BusinessMetric::SsoLoginVanityUrl,
    BusinessMetric::AgenticCallerClaudeCode,
    BusinessMetric::AgenticCallerGeminiCli,
    BusinessMetric::AgenticCallerCodex,
    BusinessMetric::AgenticCallerKiro,
    BusinessMetric::AgenticCallerOpenCode,
    BusinessMetric::AgenticCallerAntigravity,
    BusinessMetric::AgenticCallerAmp,
    BusinessMetric::AgenticCallerPi,
    BusinessMetric::AgenticCallerCopilotCli,
    BusinessMetric::AgenticCallerCursor,
    BusinessMetric::S3CustomPartSize,
    BusinessMetric::S3CustomThroughput,
    BusinessMetric::S3CustomMemoryLimit,
    BusinessMetric::S3OnEc2,
    BusinessMetric::S3FilePath,
    BusinessMetric::DynamodbMapperV2,
    BusinessMetric::S3TransferClassicExplicit,
    BusinessMetric::S3TransferCrtExplicit,
    BusinessMetric::S3TransferClassicAuto,
    BusinessMetric::S3TransferCrtAuto,
    BusinessMetric::S3RegionRedirect,
];

pub const SMITHY_FEATURES: [SmithySdkFeature; 16] = [
    SmithySdkFeature::Waiter,
    SmithySdkFeature::Paginator,
    SmithySdkFeature::GzipRequestCompression,
    SmithySdkFeature::ProtocolRpcV2Cbor,
    SmithySdkFeature::RetryModeStandard,
    SmithySdkFeature::RetryModeAdaptive,
    SmithySdkFeature::FlexibleChecksumsReqCrc32,
    SmithySdkFeature::FlexibleChecksumsReqCrc32c,
    SmithySdkFeature::FlexibleChecksumsReqCrc64,
    SmithySdkFeature::FlexibleChecksumsReqSha1,
    SmithySdkFeature::FlexibleChecksumsReqSha256,
    SmithySdkFeature::FlexibleChecksumsReqWhenSupported,
    SmithySdkFeature::FlexibleChecksumsReqWhenRequired,
    SmithySdkFeature::FlexibleChecksumsResWhenSupported,
    SmithySdkFeature::FlexibleChecksumsResWhenRequired,
    SmithySdkFeature::ObservabilityOtelMetrics,
];

pub const AWS_FEATURES: [AwsSdkFeature; 14] = [
    AwsSdkFeature::AccountIdModePreferred,
    AwsSdkFeature::AccountIdModeDisabled,
    AwsSdkFeature::AccountIdModeRequired,
    AwsSdkFeature::S3Transfer,
    AwsSdkFeature::SsoLoginDevice,
    AwsSdkFeature::SsoLoginAuth,
    AwsSdkFeature::EndpointOverride,
    AwsSdkFeature::S3TransferUploadDirectory,
    AwsSdkFeature::S3TransferDownloadDirectory,
    AwsSdkFeature::S3CustomPartSize,
    AwsSdkFeature::S3CustomThroughput,
    AwsSdkFeature::S3CustomMemoryLimit,
    AwsSdkFeature::S3OnEc2,
    AwsSdkFeature::S3FilePath,
];

pub const CREDENTIAL_FEATURES: [AwsCredentialFeature; 23] = [
    AwsCredentialFeature::CredentialsCode,
    AwsCredentialFeature::CredentialsEnvVars,
    AwsCredentialFeature::CredentialsEnvVarsStsWebIdToken,
    AwsCredentialFeature::CredentialsStsAssumeRole,
    AwsCredentialFeature::CredentialsStsAssumeRoleSaml,
    AwsCredentialFeature::CredentialsStsAssumeRoleWebId,
    AwsCredentialFeature::CredentialsStsFederationToken,
    AwsCredentialFeature::CredentialsStsSessionToken,
    AwsCredentialFeature::CredentialsProfile,
    AwsCredentialFeature::CredentialsProfileSourceProfile,
    AwsCredentialFeature::CredentialsProfileNamedProvider,
    AwsCredentialFeature::CredentialsProfileStsWebIdToken,
    AwsCredentialFeature::CredentialsProfileSso,
    AwsCredentialFeature::CredentialsSso,
    AwsCredentialFeature::CredentialsProfileProcess,
    AwsCredentialFeature::CredentialsProcess,
    AwsCredentialFeature::CredentialsHttp,
    AwsCredentialFeature::CredentialsImds,
    AwsCredentialFeature::ResolvedAccountId,
    AwsCredentialFeature::BearerServiceEnvVars,
    AwsCredentialFeature::S3ExpressBucket,
    AwsCredentialFeature::CredentialsProfileLogin,
    AwsCredentialFeature::CredentialsLogin,
];
