ghost use Rattle.std.specs.Prelude.{◌≡◌, ◌<◌, [], ◌∷◌, ◌++◌, OnOk, string_bytes};
ghost use Rattle.aws_intercept.specs.Metric.{id_at, metric_id, place, sign};

use smithy_core::Mem;

/// What a client uses of the SDK, as the user agent names it. The order is that of the SDK's list of features: it decides
/// the ids, so a new one goes last.
#[derive(Clone, Copy, Debug, PartialEq, Eq, Hash)]
pub enum BusinessMetric {
    ResourceModel,
    Waiter,
    Paginator,
    RetryModeLegacy,
    RetryModeStandard,
    RetryModeAdaptive,
    S3Transfer,
    S3CryptoV1n,
    S3CryptoV2,
    S3ExpressBucket,
    S3AccessGrants,
    GzipRequestCompression,
    ProtocolRpcV2Cbor,
    EndpointOverride,
    AccountIdEndpoint,
    AccountIdModePreferred,
    AccountIdModeDisabled,
    AccountIdModeRequired,
    Sigv4aSigning,
    ResolvedAccountId,
    FlexibleChecksumsReqCrc32,
    FlexibleChecksumsReqCrc32c,
    FlexibleChecksumsReqCrc64,
    FlexibleChecksumsReqSha1,
    FlexibleChecksumsReqSha256,
    FlexibleChecksumsReqWhenSupported,
    FlexibleChecksumsReqWhenRequired,
    FlexibleChecksumsResWhenSupported,
    FlexibleChecksumsResWhenRequired,
    DdbMapper,
    CredentialsCode,
    CredentialsJvmSystemProperties,
    CredentialsEnvVars,
    CredentialsEnvVarsStsWebIdToken,
    CredentialsStsAssumeRole,
    CredentialsStsAssumeRoleSaml,
    CredentialsStsAssumeRoleWebId,
    CredentialsStsFederationToken,
    CredentialsStsSessionToken,
    CredentialsProfile,
    CredentialsProfileSourceProfile,
    CredentialsProfileNamedProvider,
    CredentialsProfileStsWebIdToken,
    CredentialsProfileSso,
    CredentialsSso,
    CredentialsProfileSsoLegacy,
    CredentialsSsoLegacy,
    CredentialsProfileProcess,
    CredentialsProcess,
    CredentialsBoto2ConfigFile,
    CredentialsAwsSdkStore,
    CredentialsHttp,
    CredentialsImds,
    SsoLoginDevice,
    SsoLoginAuth,
    BearerServiceEnvVars,
    ObservabilityTracing,
    ObservabilityMetrics,
    ObservabilityOtelTracing,
    ObservabilityOtelMetrics,
    CredentialsCognito,
    S3TransferUploadDirectory,
    S3TransferDownloadDirectory,
    CliV1ToV2MigrationDebugMode,
    LoginSameDevice,
    LoginCrossDevice,
    CredentialsProfileLogin,
    CredentialsLogin,
    FlexibleChecksumsReqMd5,
    FlexibleChecksumsReqSha512,
    FlexibleChecksumsReqXxhash3,
    FlexibleChecksumsReqXxhash64,
    FlexibleChecksumsReqXxhash128,
    HttpClientAuto,
    HttpClientExplicitInstance,
    HttpClientExplicitFactory,
    SsoLoginVanityUrl,
    AgenticCallerClaudeCode,
    AgenticCallerGeminiCli,
    AgenticCallerCodex,
    AgenticCallerKiro,
    AgenticCallerOpenCode,
    AgenticCallerAntigravity,
    AgenticCallerAmp,
    AgenticCallerPi,
    AgenticCallerCopilotCli,
    AgenticCallerCursor,
    S3CustomPartSize,
    S3CustomThroughput,
    S3CustomMemoryLimit,
    S3OnEc2,
    S3FilePath,
    DynamodbMapperV2,
    S3TransferClassicExplicit,
    S3TransferCrtExplicit,
    S3TransferClassicAuto,
    S3TransferCrtAuto,
    S3RegionRedirect,
}

impl BusinessMetric {
    // Its place in the order, from 0.
    #[tactic(auto, using(crate::proofs::MetricLemmas::place_is_number))]
    fn place(self) -> u8
        ensures value { result ≡ place self }
        ensures below { result < 98 }
    {
        self as u8
    }
}

/// The signs of ids: those of base64 for URLs, with `+` before `-` (RFC 4648, section 5).
const SIGNS: [u8; 64] = *b"ABCDEFGHIJKLMNOPQRSTUVWXYZabcdefghijklmnopqrstuvwxyz0123456789+-";

/// Appends the id of a metric.
#[tactic(auto, unfolding(crate::specs::Metric::metric_id))]
pub(crate) fn push_metric(ids: &mut String, metric: BusinessMetric) -> Mem<()>
    ensures { OnOk result (string_bytes ids.new ≡ string_bytes ids.old ++ metric_id metric) }
{
    push_id(ids, usize::from(metric.place()))
}

// Appends the id of a place.
#[tactic(auto, unfolding(crate::specs::Metric::id_at))]
pub(crate) fn push_id(ids: &mut String, place: usize) -> Mem<()>
    requires { place < 4160 }
    ensures { OnOk result (string_bytes ids.new ≡ string_bytes ids.old ++ id_at place) }
{
    if place < 64 {
        return push_sign(ids, place);
    }
    push_sign(ids, (place - 64) / 64)?;
    push_sign(ids, (place - 64) % 64)
}

// Appends a sign.
#[tactic(auto, using(crate::proofs::MetricLemmas::sign_is_ascii))]
fn push_sign(ids: &mut String, at: usize) -> Mem<()>
    requires { at < 64 }
    ensures { OnOk result (string_bytes ids.new ≡ string_bytes ids.old ++ sign at ∷ []) }
{
    ids.push(char::from(sign(at)))
}

// The sign of a digit to the base of 64.
#[tactic(auto, unfolding(crate::specs::Metric::sign))]
fn sign(at: usize) -> u8
    requires { at < 64 }
    ensures { result ≡ sign at }
{
    SIGNS[at]
}

/// Different metrics have different ids.
#[tactic(auto, using(crate::proofs::MetricLemmas::ids_differ))]
pub fn metric_ids_differ()
    ensures { (a b : BusinessMetric) → metric_id a ≡ metric_id b → a ≡ b }
{}
