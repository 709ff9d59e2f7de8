ghost use Rattle.std.specs.Prelude.{◌≡◌};
ghost use Rattle.aws_intercept.specs.SdkFeature.{aws_metric, credential_metric, smithy_metric};

use crate::user_agent::metric::BusinessMetric;

/// A feature of the SDK that every client has, whatever its service.
#[derive(Clone, Copy, Debug, PartialEq, Eq)]
pub enum SmithySdkFeature {
    Waiter,
    Paginator,
    GzipRequestCompression,
    ProtocolRpcV2Cbor,
    RetryModeStandard,
    RetryModeAdaptive,
    FlexibleChecksumsReqCrc32,
    FlexibleChecksumsReqCrc32c,
    FlexibleChecksumsReqCrc64,
    FlexibleChecksumsReqSha1,
    FlexibleChecksumsReqSha256,
    FlexibleChecksumsReqWhenSupported,
    FlexibleChecksumsReqWhenRequired,
    FlexibleChecksumsResWhenSupported,
    FlexibleChecksumsResWhenRequired,
    ObservabilityOtelMetrics,
}

impl SmithySdkFeature {
    /// The metric of the feature, which has its name.
    pub fn business_metric(self) -> BusinessMetric
        ensures { result ≡ smithy_metric self }
    {
        match self {
            SmithySdkFeature::Waiter => BusinessMetric::Waiter,
            SmithySdkFeature::Paginator => BusinessMetric::Paginator,
            SmithySdkFeature::GzipRequestCompression => BusinessMetric::GzipRequestCompression,
            SmithySdkFeature::ProtocolRpcV2Cbor => BusinessMetric::ProtocolRpcV2Cbor,
            SmithySdkFeature::RetryModeStandard => BusinessMetric::RetryModeStandard,
            SmithySdkFeature::RetryModeAdaptive => BusinessMetric::RetryModeAdaptive,
            SmithySdkFeature::FlexibleChecksumsReqCrc32 =>
                BusinessMetric::FlexibleChecksumsReqCrc32,
            SmithySdkFeature::FlexibleChecksumsReqCrc32c =>
                BusinessMetric::FlexibleChecksumsReqCrc32c,
            SmithySdkFeature::FlexibleChecksumsReqCrc64 =>
                BusinessMetric::FlexibleChecksumsReqCrc64,
            SmithySdkFeature::FlexibleChecksumsReqSha1 => BusinessMetric::FlexibleChecksumsReqSha1,
            SmithySdkFeature::FlexibleChecksumsReqSha256 =>
                BusinessMetric::FlexibleChecksumsReqSha256,
            SmithySdkFeature::FlexibleChecksumsReqWhenSupported =>
                BusinessMetric::FlexibleChecksumsReqWhenSupported,
            SmithySdkFeature::FlexibleChecksumsReqWhenRequired =>
                BusinessMetric::FlexibleChecksumsReqWhenRequired,
            SmithySdkFeature::FlexibleChecksumsResWhenSupported =>
                BusinessMetric::FlexibleChecksumsResWhenSupported,
            SmithySdkFeature::FlexibleChecksumsResWhenRequired =>
                BusinessMetric::FlexibleChecksumsResWhenRequired,
            SmithySdkFeature::ObservabilityOtelMetrics => BusinessMetric::ObservabilityOtelMetrics,
        }
    }
}

/// A feature of the SDK for the services of AWS.
#[derive(Clone, Copy, Debug, PartialEq, Eq)]
pub enum AwsSdkFeature {
    AccountIdModePreferred,
    AccountIdModeDisabled,
    AccountIdModeRequired,
    S3Transfer,
    SsoLoginDevice,
    SsoLoginAuth,
    EndpointOverride,
    S3TransferUploadDirectory,
    S3TransferDownloadDirectory,
    S3CustomPartSize,
    S3CustomThroughput,
    S3CustomMemoryLimit,
    S3OnEc2,
    S3FilePath,
}

impl AwsSdkFeature {
    /// The metric of the feature, which has its name.
    pub fn business_metric(self) -> BusinessMetric
        ensures { result ≡ aws_metric self }
    {
        match self {
            AwsSdkFeature::AccountIdModePreferred => BusinessMetric::AccountIdModePreferred,
            AwsSdkFeature::AccountIdModeDisabled => BusinessMetric::AccountIdModeDisabled,
            AwsSdkFeature::AccountIdModeRequired => BusinessMetric::AccountIdModeRequired,
            AwsSdkFeature::S3Transfer => BusinessMetric::S3Transfer,
            AwsSdkFeature::SsoLoginDevice => BusinessMetric::SsoLoginDevice,
            AwsSdkFeature::SsoLoginAuth => BusinessMetric::SsoLoginAuth,
            AwsSdkFeature::EndpointOverride => BusinessMetric::EndpointOverride,
            AwsSdkFeature::S3TransferUploadDirectory => BusinessMetric::S3TransferUploadDirectory,
            AwsSdkFeature::S3TransferDownloadDirectory =>
                BusinessMetric::S3TransferDownloadDirectory,
            AwsSdkFeature::S3CustomPartSize => BusinessMetric::S3CustomPartSize,
            AwsSdkFeature::S3CustomThroughput => BusinessMetric::S3CustomThroughput,
            AwsSdkFeature::S3CustomMemoryLimit => BusinessMetric::S3CustomMemoryLimit,
            AwsSdkFeature::S3OnEc2 => BusinessMetric::S3OnEc2,
            AwsSdkFeature::S3FilePath => BusinessMetric::S3FilePath,
        }
    }
}

/// A feature that says where credentials come from.
#[derive(Clone, Copy, Debug, PartialEq, Eq)]
pub enum AwsCredentialFeature {
    CredentialsCode,
    CredentialsEnvVars,
    CredentialsEnvVarsStsWebIdToken,
    CredentialsStsAssumeRole,
    CredentialsStsAssumeRoleSaml,
    CredentialsStsAssumeRoleWebId,
    CredentialsStsFederationToken,
    CredentialsStsSessionToken,
    CredentialsProfile,
    CredentialsProfileSourceProfile,
    CredentialsProfileNamedProvider,
    CredentialsProfileStsWebIdToken,
    CredentialsProfileSso,
    CredentialsSso,
    CredentialsProfileProcess,
    CredentialsProcess,
    CredentialsHttp,
    CredentialsImds,
    ResolvedAccountId,
    BearerServiceEnvVars,
    S3ExpressBucket,
    CredentialsProfileLogin,
    CredentialsLogin,
}

impl AwsCredentialFeature {
    /// The metric of the feature, which has its name.
    pub fn business_metric(self) -> BusinessMetric
        ensures { result ≡ credential_metric self }
    {
        match self {
            AwsCredentialFeature::CredentialsCode => BusinessMetric::CredentialsCode,
            AwsCredentialFeature::CredentialsEnvVars => BusinessMetric::CredentialsEnvVars,
            AwsCredentialFeature::CredentialsEnvVarsStsWebIdToken =>
                BusinessMetric::CredentialsEnvVarsStsWebIdToken,
            AwsCredentialFeature::CredentialsStsAssumeRole =>
                BusinessMetric::CredentialsStsAssumeRole,
            AwsCredentialFeature::CredentialsStsAssumeRoleSaml =>
                BusinessMetric::CredentialsStsAssumeRoleSaml,
            AwsCredentialFeature::CredentialsStsAssumeRoleWebId =>
                BusinessMetric::CredentialsStsAssumeRoleWebId,
            AwsCredentialFeature::CredentialsStsFederationToken =>
                BusinessMetric::CredentialsStsFederationToken,
            AwsCredentialFeature::CredentialsStsSessionToken =>
                BusinessMetric::CredentialsStsSessionToken,
            AwsCredentialFeature::CredentialsProfile => BusinessMetric::CredentialsProfile,
            AwsCredentialFeature::CredentialsProfileSourceProfile =>
                BusinessMetric::CredentialsProfileSourceProfile,
            AwsCredentialFeature::CredentialsProfileNamedProvider =>
                BusinessMetric::CredentialsProfileNamedProvider,
            AwsCredentialFeature::CredentialsProfileStsWebIdToken =>
                BusinessMetric::CredentialsProfileStsWebIdToken,
            AwsCredentialFeature::CredentialsProfileSso => BusinessMetric::CredentialsProfileSso,
            AwsCredentialFeature::CredentialsSso => BusinessMetric::CredentialsSso,
            AwsCredentialFeature::CredentialsProfileProcess =>
                BusinessMetric::CredentialsProfileProcess,
            AwsCredentialFeature::CredentialsProcess => BusinessMetric::CredentialsProcess,
            AwsCredentialFeature::CredentialsHttp => BusinessMetric::CredentialsHttp,
            AwsCredentialFeature::CredentialsImds => BusinessMetric::CredentialsImds,
            AwsCredentialFeature::ResolvedAccountId => BusinessMetric::ResolvedAccountId,
            AwsCredentialFeature::BearerServiceEnvVars => BusinessMetric::BearerServiceEnvVars,
            AwsCredentialFeature::S3ExpressBucket => BusinessMetric::S3ExpressBucket,
            AwsCredentialFeature::CredentialsProfileLogin =>
                BusinessMetric::CredentialsProfileLogin,
            AwsCredentialFeature::CredentialsLogin => BusinessMetric::CredentialsLogin,
        }
    }
}
