ghost use Rattle.std.specs.Prelude.{◌≡◌, None, IfOk, IfSome, option_copied};
ghost use Rattle.sigv4.specs.Settings.{settings_of};
ghost use Rattle.aws_auth.specs.Inputs.{is_enabled, location_of, made_settings};
ghost use Rattle.aws_auth.specs.Steps.{NamesToken, found};

use crate::endpoint::EndpointFields;
use crate::error::SigV4SigningError;
use crate::name_override::{OverrideError, SigV4SessionTokenNameOverride};
use crate::options::{HttpSignatureType, SigV4OperationSigningConfig, SigningOptions};
use sigv4::{
    PayloadChecksumKind, PercentEncodingMode, SessionTokenMode, SignatureLocation, SigningSettings,
};
use smithy_core::Mem;
use std::alloc::Global;

/// The settings that the options and the endpoint's fields make, with the token's usual name.
pub(crate) fn made_settings(
    alloc: Global,
    fields: &EndpointFields<'_>,
    options: &SigningOptions,
) -> Mem<SigningSettings>
    ensures { IfOk result (λ settings. settings_of settings ≡ made_settings (found fields.now) options.now) }
{
    let is_double = is_enabled(fields.disable_double_encoding, options.double_uri_encode);
    let is_normal = is_enabled(fields.disable_normalize_path, options.normalize_uri_path);
    Ok(SigningSettings {
        percent_encoding_mode: if is_double {
            PercentEncodingMode::Double
        } else {
            PercentEncodingMode::Single
        },
        payload_checksum_kind: if options.content_sha256_header {
            PayloadChecksumKind::XAmzSha256
        } else {
            PayloadChecksumKind::NoHeader
        },
        signature_location: location_of(options.signature_type),
        expires_in: options.expires_in,
        uri_path_normalization_mode: is_normal.into(),
        session_token_mode: if options.omit_session_token {
            SessionTokenMode::Exclude
        } else {
            SessionTokenMode::Include
        },
        ..SigningSettings::new(alloc)?
    })
}

// What the endpoint disables or doesn't, or else what the options enable.
fn is_enabled(disabled: Option<bool>, enabled: bool) -> bool
    ensures { result ≡ is_enabled disabled enabled }
{
    match disabled {
        Some(disabled) => !disabled,
        None => enabled,
    }
}

// Where the signature goes.
fn location_of(signature_type: HttpSignatureType) -> SignatureLocation
    ensures { result ≡ location_of signature_type }
{
    match signature_type {
        HttpSignatureType::HttpRequestHeaders => SignatureLocation::Headers,
        HttpSignatureType::HttpRequestQueryParams => SignatureLocation::QueryParams,
    }
}

/// The settings, with the name that the override gives the token for them and the config.
pub(crate) fn named_settings<F>(
    mut settings: SigningSettings,
    config: &SigV4OperationSigningConfig,
    name_override: Option<&SigV4SessionTokenNameOverride<F>>,
) -> Result<SigningSettings, SigV4SigningError>
where
    F: Fn(&SigningSettings, &SigV4OperationSigningConfig) -> Result<Option<String>, OverrideError>,
    requires callable { IfSome (option_copied name_override) F.IsAlwaysCallable }
    requires usual { (settings_of settings).session_token_name_override ≡ None }
    ensures { NamesToken F.Fn (option_copied name_override.entry) (settings_of settings) config.now result }
{
    match name_override {
        Some(name_override) => {
            let name = name_override.name_override(&settings, config)?;
            settings.session_token_name_override = name;
            Ok(settings)
        }
        None => Ok(settings),
    }
}
