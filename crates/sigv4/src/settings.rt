ghost use Rattle.std.specs.Prelude.{◌≡◌, map, IfOk};
ghost use Rattle.std.specs.String.{string_bytes};
ghost use Rattle.sigv4.specs.Settings.{default_exclusions, default_settings, s3_settings, settings_of};

use crate::modes::{PercentEncodingMode, UriPathNormalizationMode};
use smithy_core::Mem;
use std::alloc::Global;

/// Whether the payload's text goes into the header `x-amz-content-sha256`.
#[derive(Clone, Copy, Debug, PartialEq, Eq)]
pub enum PayloadChecksumKind {
    /// It does, where the signature goes into headers.
    XAmzSha256,
    /// It doesn't: there is no such header.
    NoHeader,
}

/// Whether the session token is signed. It goes out either way.
#[derive(Clone, Copy, Debug, PartialEq, Eq)]
pub enum SessionTokenMode {
    /// It is signed.
    Include,
    /// It isn't.
    Exclude,
}

/// Where the signature goes.
#[derive(Clone, Copy, Debug, PartialEq, Eq)]
pub enum SignatureLocation {
    /// Into headers.
    Headers,
    /// Into the parameters of the target's query.
    QueryParams,
}

/// How a request is signed.
#[derive(Debug, Drop, PartialEq, Eq)]
pub struct SigningSettings {
    /// How often the path is escaped.
    pub percent_encoding_mode: PercentEncodingMode,
    /// Whether the payload's text goes into a header.
    pub payload_checksum_kind: PayloadChecksumKind,
    /// Where the signature goes.
    pub signature_location: SignatureLocation,
    /// For how many seconds a signature in the query is good. Any number is taken; a service refuses 0, and AWS more than 604,800.
    pub expires_in: Option<u64>,
    /// The names of the headers that aren't signed, in lower case.
    pub excluded_headers: Option<Vec<String>>,
    /// Whether the path is put into its normal form.
    pub uri_path_normalization_mode: UriPathNormalizationMode,
    /// Whether the session token is signed.
    pub session_token_mode: SessionTokenMode,
    /// The name of the session token's header or parameter, where it isn't the usual one.
    pub session_token_name_override: Option<String>,
}

impl SigningSettings {
    /// The settings of a signature in headers: the path is normalized and escaped twice, the payload's text has no header,
    /// `authorization`, `user-agent`, `x-amzn-trace-id` and `transfer-encoding` aren't signed, and the session token is.
    pub fn new(alloc: Global) -> Mem<SigningSettings>
        ensures { IfOk result (λ settings. settings_of settings ≡ default_settings) }
    {
        Ok(SigningSettings {
            percent_encoding_mode: PercentEncodingMode::Double,
            payload_checksum_kind: PayloadChecksumKind::NoHeader,
            signature_location: SignatureLocation::Headers,
            expires_in: None,
            excluded_headers: Some(default_exclusions(alloc)?),
            uri_path_normalization_mode: UriPathNormalizationMode::Enabled,
            session_token_mode: SessionTokenMode::Include,
            session_token_name_override: None,
        })
    }

    /// The settings for Amazon S3, whose keys are taken as they are: the path is escaped once and not normalized, and
    /// the payload's text goes into the header `x-amz-content-sha256`. All else is as [`SigningSettings::new`] has it. In a
    /// presigned URL S3 takes the payload as unsigned: sign it over [`SignableBody::UnsignedPayload`](crate::SignableBody).
    pub fn for_s3(alloc: Global) -> Mem<SigningSettings>
        ensures { IfOk result (λ settings. settings_of settings ≡ s3_settings) }
    {
        Ok(SigningSettings {
            percent_encoding_mode: PercentEncodingMode::Single,
            payload_checksum_kind: PayloadChecksumKind::XAmzSha256,
            uri_path_normalization_mode: UriPathNormalizationMode::Disabled,
            ..SigningSettings::new(alloc)?
        })
    }

    /// Equal settings.
    #[tactic(auto, using(crate::proofs::CopyLemmas::texts_copied))]
    pub fn try_clone(&self) -> Mem<SigningSettings>
        ensures { IfOk result (λ copy. settings_of copy ≡ settings_of self.now) }
    {
        Ok(SigningSettings {
            percent_encoding_mode: self.percent_encoding_mode,
            payload_checksum_kind: self.payload_checksum_kind,
            signature_location: self.signature_location,
            expires_in: self.expires_in,
            excluded_headers: match &self.excluded_headers {
                Some(names) => Some(names.clone()?),
                None => None,
            },
            uri_path_normalization_mode: self.uri_path_normalization_mode,
            session_token_mode: self.session_token_mode,
            session_token_name_override: self.session_token_name_override.clone()?,
        })
    }
}

impl Clone for SigningSettings {
    ghost is_clone = { λ settings copy. settings_of copy ≡ settings_of settings };

    fn clone(&self) -> Mem<SigningSettings> {
        self.try_clone()
    }
}

// The names of the headers that aren't signed.
fn default_exclusions(alloc: Global) -> Mem<Vec<String>>
    ensures { IfOk result (λ names. map string_bytes names.items ≡ default_exclusions) }
{
    let mut names = Vec::with_capacity(alloc, 4)?;
    names.push(String::from_str(alloc, "authorization")?)?;
    names.push(String::from_str(alloc, "user-agent")?)?;
    names.push(String::from_str(alloc, "x-amzn-trace-id")?)?;
    names.push(String::from_str(alloc, "transfer-encoding")?)?;
    Ok(names)
}
