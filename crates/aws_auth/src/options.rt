ghost use Rattle.std.specs.Prelude.{◌≡◌, IfOk, bytes_eq};
ghost use Rattle.std.specs.Option.{option_eq};
ghost use Rattle.sigv4.specs.Settings.{settings_of};
ghost use Rattle.aws_auth.specs.Inputs.{settings_by};
ghost use Rattle.aws_auth.specs.Options.{IsSameConfig, IsSameOptions, presigned_options, s3_options, s3_presigned_options};

use crate::endpoint::EndpointFields;
use crate::payload::PayloadSigningOverride;
use crate::settings::made_settings;
use sigv4::SigningSettings;
use smithy_core::{Mem, Region, SigningName};
use std::alloc::Global;

/// Where the signature of a request goes.
#[derive(Clone, Copy, Debug, PartialEq, Eq)]
pub enum HttpSignatureType {
    /// Into headers.
    HttpRequestHeaders,
    /// Into the parameters of the target's query, which makes a presigned request.
    HttpRequestQueryParams,
}

/// How the requests of an operation are signed.
#[derive(Debug, Drop, PartialEq, Eq)]
pub struct SigningOptions {
    /// Whether the path is escaped once more than in the request.
    pub double_uri_encode: bool,
    /// Whether the payload's text goes into the header `x-amz-content-sha256`.
    pub content_sha256_header: bool,
    /// Whether the path is put into its normal form.
    pub normalize_uri_path: bool,
    /// Whether the session token is left out of the signature. It goes out either way.
    pub omit_session_token: bool,
    /// What is signed in place of the body's bytes. An upload whose body goes out in chunks needs one: without it the digest of
    /// the bytes that the request holds is signed, which are none then.
    pub payload_override: Option<PayloadSigningOverride>,
    /// Where the signature goes.
    pub signature_type: HttpSignatureType,
    /// Whether the operation may be sent without a signature. The signer signs either way.
    pub signing_optional: bool,
    /// For how many seconds a signature in the query is good. Any number is taken; a service refuses 0, and AWS more than 604,800.
    pub expires_in: Option<u64>,
}

impl Default for SigningOptions {
    ghost use Rattle.std.specs.Prelude.{◌≡◌};
    ghost use Rattle.aws_auth.specs.Options.{default_options};

    ghost is_default = { λ options. options ≡ default_options };

    fn default() -> SigningOptions {
        SigningOptions {
            double_uri_encode: true,
            content_sha256_header: false,
            normalize_uri_path: true,
            omit_session_token: false,
            payload_override: None,
            signature_type: HttpSignatureType::HttpRequestHeaders,
            signing_optional: false,
            expires_in: None,
        }
    }
}

impl SigningOptions {
    /// The options for Amazon S3, whose keys are taken as they are: the path is escaped once and not normalized, and the payload's
    /// text goes into the header `x-amz-content-sha256`. All else is as [`SigningOptions::default`] has it.
    pub fn for_s3() -> SigningOptions
        ensures { result ≡ s3_options }
    {
        SigningOptions {
            double_uri_encode: false,
            content_sha256_header: true,
            normalize_uri_path: false,
            ..SigningOptions::default()
        }
    }

    /// The options of a presigned URL that is good for so many seconds. Any number is taken; a service refuses 0, and AWS more
    /// than 604,800.
    pub fn presigned(seconds: u64) -> SigningOptions
        ensures { result ≡ presigned_options seconds }
    {
        SigningOptions {
            signature_type: HttpSignatureType::HttpRequestQueryParams,
            expires_in: Some(seconds),
            ..SigningOptions::default()
        }
    }

    /// The options of a presigned URL of Amazon S3, whose payload isn't signed, since nobody knows it when the URL is made. All else
    /// is as [`SigningOptions::presigned`] and [`SigningOptions::for_s3`] have it.
    pub fn presigned_for_s3(seconds: u64) -> SigningOptions
        ensures { result ≡ s3_presigned_options seconds }
    {
        SigningOptions {
            payload_override: Some(PayloadSigningOverride::UnsignedPayload),
            signature_type: HttpSignatureType::HttpRequestQueryParams,
            expires_in: Some(seconds),
            ..SigningOptions::for_s3()
        }
    }

    /// The settings that these options make where no endpoint says otherwise, with the token's usual name: those of
    /// [`sigv4::sign`] for the same request. The payload's override isn't among them.
    pub fn settings(&self, alloc: Global) -> Mem<SigningSettings>
        ensures { IfOk result (λ settings. settings_of settings ≡ settings_by self.now) }
    {
        made_settings(alloc, &EndpointFields::none(), self)
    }

    /// Equal options.
    pub fn try_clone(&self) -> Mem<SigningOptions>
        ensures { IfOk result (IsSameOptions self.now) }
    {
        Ok(SigningOptions {
            double_uri_encode: self.double_uri_encode,
            content_sha256_header: self.content_sha256_header,
            normalize_uri_path: self.normalize_uri_path,
            omit_session_token: self.omit_session_token,
            payload_override: match &self.payload_override {
                Some(payload) => Some(payload.try_clone()?),
                None => None,
            },
            signature_type: self.signature_type,
            signing_optional: self.signing_optional,
            expires_in: self.expires_in,
        })
    }
}

/// The region, the name and the options with which the requests of an operation are signed.
#[derive(Debug)]
pub struct SigV4OperationSigningConfig {
    /// The region, where neither the endpoint nor the inputs have one.
    pub region: Option<Region>,
    /// The name of the service, where neither the endpoint nor the inputs have one.
    pub name: Option<SigningName>,
    /// How the requests are signed.
    pub signing_options: SigningOptions,
}

// Written out: a derived drop would be taken apart in the proof of each function that drops one.
impl Drop for SigV4OperationSigningConfig {
    fn drop(self) {
        let SigV4OperationSigningConfig {
            region,
            name,
            signing_options,
        } = self;
        drop(region);
        drop(name);
        drop(signing_options);
    }
}

impl Default for SigV4OperationSigningConfig {
    ghost use Rattle.std.specs.Prelude.{◌≡◌};
    ghost use Rattle.aws_auth.specs.Options.{default_config};

    ghost is_default = { λ config. config ≡ default_config };

    fn default() -> SigV4OperationSigningConfig {
        SigV4OperationSigningConfig {
            region: None,
            name: None,
            signing_options: SigningOptions::default(),
        }
    }
}

impl SigV4OperationSigningConfig {
    /// An equal config.
    pub fn try_clone(&self) -> Mem<SigV4OperationSigningConfig>
        ensures { IfOk result (IsSameConfig self.now) }
    {
        Ok(SigV4OperationSigningConfig {
            region: match &self.region {
                Some(region) => Some(region.try_clone()?),
                None => None,
            },
            name: match &self.name {
                Some(name) => Some(name.try_clone()?),
                None => None,
            },
            signing_options: self.signing_options.try_clone()?,
        })
    }
}

// Configs are equal by the texts of their regions and names, and by their options.
impl PartialEq for SigV4OperationSigningConfig {
    ghost use Rattle.std.specs.Prelude.{bytes_eq};
    ghost use Rattle.std.specs.Option.{option_eq};
    ghost use Rattle.std.specs.Ordering.{eq_of_both, on};
    ghost use Rattle.std.specs.Cmp.{and_equiv, on_equiv, partial_equiv_from_equiv};
    ghost use Rattle.std.specs.Cmp.Lexicographic.{nat_list_eq_equiv, options_equiv};
    ghost use Rattle.aws_auth.specs.contracts.options.SigningOptionsEq.TheImpl.Laws.{laws-law};

    ghost eq = { eq_of_both (on (λ config. config.region) (option_eq bytes_eq)) (eq_of_both (on (λ config. config.name) (option_eq bytes_eq)) (on (λ config. config.signing_options) ⟦<SigningOptions as PartialEq>⟧.eq)) };

    ghost laws = { partial_equiv_from_equiv (and_equiv (on_equiv (λ config. config.region) (options_equiv nat_list_eq_equiv)) (and_equiv (on_equiv (λ config. config.name) (options_equiv nat_list_eq_equiv)) (on_equiv (λ config. config.signing_options) laws-law))) };

    fn eq(&self, other: &SigV4OperationSigningConfig) -> bool {
        same_region(&self.region, &other.region)
            && same_name(&self.name, &other.name)
            && self.signing_options == other.signing_options
    }
}

impl Eq for SigV4OperationSigningConfig {
    ghost use Rattle.std.specs.Cmp.{and_equiv, on_equiv};
    ghost use Rattle.std.specs.Cmp.Lexicographic.{nat_list_eq_equiv, options_equiv};
    ghost use Rattle.aws_auth.specs.contracts.options.SigningOptionsEq.TheImpl.Laws.{laws-law};

    ghost laws = { and_equiv (on_equiv (λ config. config.region) (options_equiv nat_list_eq_equiv)) (and_equiv (on_equiv (λ config. config.name) (options_equiv nat_list_eq_equiv)) (on_equiv (λ config. config.signing_options) laws-law)) };
}

// Whether both regions are there and have the same text, or neither is.
fn same_region(region: &Option<Region>, other: &Option<Region>) -> bool
    ensures { result ≡ option_eq bytes_eq region.now other.now }
{
    match (region, other) {
        (Some(region), Some(other)) => region.as_str() == other.as_str(),
        (None, None) => true,
        _ => false,
    }
}

// Whether both names are there and have the same text, or neither is.
fn same_name(name: &Option<SigningName>, other: &Option<SigningName>) -> bool
    ensures { result ≡ option_eq bytes_eq name.now other.now }
{
    match (name, other) {
        (Some(name), Some(other)) => name.as_str() == other.as_str(),
        (None, None) => true,
        _ => false,
    }
}
