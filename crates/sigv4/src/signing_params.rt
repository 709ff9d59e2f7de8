ghost use Rattle.std.specs.Prelude.{◌≡◌, Some, codes, option_copied, IfOk};
ghost use Rattle.sigv4.specs.SigningParams.{IsSameParams, params_name, params_region, params_signing_settings, params_time};
ghost use Rattle.sigv4.specs.declared.signing_params.SignatureVersion.TheVariants.{V4};

use crate::settings::SigningSettings;
use crate::v4;
use smithy_core::{Mem, Moment};
use std::fmt;

/// A version of the signing process.
#[derive(Clone, Copy, Debug, PartialEq, Eq)]
pub enum SignatureVersion {
    /// Version 4, with keys derived from a secret.
    V4,
}

impl fmt::Display for SignatureVersion {
    ghost use Rattle.std.specs.Prelude.{Some, codes};

    ghost output = { λ _. Some (codes "SigV4") };

    fn fmt<W: fmt::Write>(&self, f: &mut fmt::Formatter<W>) -> fmt::Result {
        match self {
            SignatureVersion::V4 => f.write_str("SigV4"),
        }
    }
}

/// What a request's signature is made with.
#[derive(Drop)]
pub enum SigningParams<'a> {
    /// Version 4.
    V4(v4::SigningParams<'a, SigningSettings>),
}

impl<'a> From<v4::SigningParams<'a, SigningSettings>> for SigningParams<'a> {
    ghost use Rattle.std.specs.Prelude.{◌≡◌};
    ghost use Rattle.sigv4.specs.declared.signing_params.SigningParams.TheVariants.{V4};

    ghost from_gives = { λ inner params. params ≡ V4 inner };

    fn from(inner: v4::SigningParams<'a, SigningSettings>) -> SigningParams<'a> {
        SigningParams::V4(inner)
    }
}

impl<'a> SigningParams<'a> {
    /// Equal parameters, over the same identity and texts.
    pub fn try_clone(&self) -> Mem<SigningParams<'a>>
        ensures { IfOk result (IsSameParams self.now) }
    {
        match self {
            SigningParams::V4(params) => Ok(SigningParams::V4(params.try_clone()?)),
        }
    }

    /// The region that the signature is for, where the version has one.
    pub fn region(&self) -> Option<&str>
        ensures { option_copied result ≡ Some (params_region self.now) }
    {
        match self {
            SigningParams::V4(params) => Some(params.region()),
        }
    }

    /// The settings.
    pub fn settings(&self) -> &SigningSettings
        ensures { result.now ≡ params_signing_settings self.now }
    {
        match self {
            SigningParams::V4(params) => params.settings(),
        }
    }

    /// The settings, to be changed.
    pub fn settings_mut(&mut self) -> &mut SigningSettings
        ensures { result.now ≡ params_signing_settings self.old }
    {
        match self {
            SigningParams::V4(params) => &mut params.settings,
        }
    }

    /// The moment of the signature.
    pub fn time(&self) -> &Moment
        ensures { result.now ≡ params_time self.now }
    {
        match self {
            SigningParams::V4(params) => &params.time,
        }
    }

    /// The name of the service that the signature is for.
    pub fn name(&self) -> &str
        ensures { result.now ≡ params_name self.now }
    {
        match self {
            SigningParams::V4(params) => params.name(),
        }
    }

    /// The name of the algorithm.
    pub fn algorithm(&self) -> &'static str
        ensures { result.now ≡ codes "AWS4-HMAC-SHA256" }
    {
        match self {
            SigningParams::V4(params) => params.algorithm(),
        }
    }

    /// The version.
    pub fn signature_version(&self) -> SignatureVersion
        ensures { result ≡ V4 }
    {
        match self {
            SigningParams::V4(_) => SignatureVersion::V4,
        }
    }
}
