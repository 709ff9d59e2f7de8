ghost use Rattle.std.specs.Prelude.{◌≡◌, Some, codes, IfOk};
ghost use Rattle.sigv4.specs.Params.{BuildsParams, HasSameParts, IsCopied, build_error_text, builder_with_identity, builder_with_name, builder_with_region, builder_with_settings, builder_with_time, no_parts, params_of, params_with_settings, v4_identity, v4_name, v4_region, v4_settings, v4_time};

use smithy_core::{Identity, Mem, Moment};
use std::fmt;

/// What a signature is made with: who signs, for which region and name, at which moment and under which settings.
#[derive(Drop)]
pub struct SigningParams<'a, S> {
    identity: &'a Identity,
    region: &'a str,
    name: &'a str,
    pub(crate) time: Moment,
    pub(crate) settings: S,
}

impl<'a, S> SigningParams<'a, S> {
    /// A builder without any part.
    pub fn builder() -> Builder<'a, S>
        ensures { result ≡ no_parts }
    {
        Builder {
            identity: None,
            region: None,
            name: None,
            time: None,
            settings: None,
        }
    }

    /// The parameters of all parts. Unlike a builder's, this call can't fail.
    pub fn new(
        identity: &'a Identity,
        region: &'a str,
        name: &'a str,
        time: Moment,
        settings: S,
    ) -> SigningParams<'a, S>
        ensures { result ≡ params_of identity.entry region.entry name.entry time settings }
    {
        SigningParams {
            identity,
            region,
            name,
            time,
            settings,
        }
    }

    /// Who signs.
    pub fn identity(&self) -> &'a Identity
        ensures { result.now ≡ v4_identity self.now }
    {
        self.identity
    }

    /// The region that the signature is for.
    pub fn region(&self) -> &str
        ensures { result.now ≡ v4_region self.now }
    {
        self.region
    }

    /// The name of the service that the signature is for.
    pub fn name(&self) -> &str
        ensures { result.now ≡ v4_name self.now }
    {
        self.name
    }

    /// The moment of the signature.
    pub fn time(&self) -> Moment
        ensures { result ≡ v4_time self.now }
    {
        self.time
    }

    /// The settings.
    pub fn settings(&self) -> &S
        ensures { result.now ≡ v4_settings self.now }
    {
        &self.settings
    }

    /// The settings, out of the parameters. The SDK has no such public call.
    pub fn into_settings(self) -> S
        ensures { result ≡ v4_settings self.entry }
    {
        self.settings
    }

    /// The name of the algorithm.
    pub fn algorithm(&self) -> &'static str
        ensures { result.now ≡ codes "AWS4-HMAC-SHA256" }
    {
        "AWS4-HMAC-SHA256"
    }
}

impl<'a, S: Drop> SigningParams<'a, S> {
    /// These parameters with other settings.
    pub fn with_settings(self, settings: S) -> SigningParams<'a, S>
        ensures { result ≡ params_with_settings self.entry settings }
    {
        SigningParams { settings, ..self }
    }
}

impl<'a, S: Clone + Drop> SigningParams<'a, S> {
    /// Parameters of the same parts, with a copy of the settings.
    pub fn try_clone(&self) -> Mem<SigningParams<'a, S>>
        ensures { IfOk result (IsCopied S.is_clone self.now) }
    {
        Ok(SigningParams {
            identity: self.identity,
            region: self.region,
            name: self.name,
            time: self.time,
            settings: self.settings.clone()?,
        })
    }
}

/// The parts of [`SigningParams`], as far as they were given.
#[derive(Drop)]
pub struct Builder<'a, S> {
    identity: Option<&'a Identity>,
    region: Option<&'a str>,
    name: Option<&'a str>,
    time: Option<Moment>,
    settings: Option<S>,
}

impl<'a, S: Drop> Builder<'a, S> {
    /// Sets the identity.
    pub fn identity(self, identity: &'a Identity) -> Self
        ensures { result ≡ builder_with_identity self.entry (Some identity.entry) }
    {
        Builder {
            identity: Some(identity),
            ..self
        }
    }

    /// Sets the region.
    pub fn region(self, region: &'a str) -> Self
        ensures { result ≡ builder_with_region self.entry (Some region.entry) }
    {
        Builder {
            region: Some(region),
            ..self
        }
    }

    /// Sets the name of the service.
    pub fn name(self, name: &'a str) -> Self
        ensures { result ≡ builder_with_name self.entry (Some name.entry) }
    {
        Builder {
            name: Some(name),
            ..self
        }
    }

    /// Sets the moment.
    pub fn time(self, time: Moment) -> Self
        ensures { result ≡ builder_with_time self.entry (Some time) }
    {
        Builder {
            time: Some(time),
            ..self
        }
    }

    /// Sets the settings.
    pub fn settings(self, settings: S) -> Self
        ensures { result ≡ builder_with_settings self.entry (Some settings) }
    {
        Builder {
            settings: Some(settings),
            ..self
        }
    }

    /// Sets the identity, or unsets it.
    pub fn set_identity(&mut self, identity: Option<&'a Identity>) -> &mut Self
        ensures same_builder { result.ghost_name ≡ self.entry.ghost_name }
        ensures given { result.now ≡ builder_with_identity self.old identity.entry }
    {
        self.identity = identity;
        self
    }

    /// Sets the region, or unsets it.
    pub fn set_region(&mut self, region: Option<&'a str>) -> &mut Self
        ensures same_builder { result.ghost_name ≡ self.entry.ghost_name }
        ensures given { result.now ≡ builder_with_region self.old region.entry }
    {
        self.region = region;
        self
    }

    /// Sets the name of the service, or unsets it.
    pub fn set_name(&mut self, name: Option<&'a str>) -> &mut Self
        ensures same_builder { result.ghost_name ≡ self.entry.ghost_name }
        ensures given { result.now ≡ builder_with_name self.old name.entry }
    {
        self.name = name;
        self
    }

    /// Sets the moment, or unsets it.
    pub fn set_time(&mut self, time: Option<Moment>) -> &mut Self
        ensures same_builder { result.ghost_name ≡ self.entry.ghost_name }
        ensures given { result.now ≡ builder_with_time self.old time }
    {
        self.time = time;
        self
    }

    /// Sets the settings, or unsets it.
    pub fn set_settings(&mut self, settings: Option<S>) -> &mut Self
        ensures same_builder { result.ghost_name ≡ self.entry.ghost_name }
        ensures given { result.now ≡ builder_with_settings self.old settings }
    {
        self.settings = settings;
        self
    }

    /// The parameters of the parts.
    ///
    /// An error borrows nothing, but `?` on this call may keep its caller from being proved where what it goes on with
    /// borrows from the parts: write a `match` there, or take [`SigningParams::new`], which can't fail.
    ///
    /// # Errors
    ///
    /// The first part that is missing: [`BuildError::Identity`], [`BuildError::Region`],
    /// [`BuildError::Name`], [`BuildError::Time`] or [`BuildError::Settings`], in this order.
    pub fn build(self) -> Result<SigningParams<'a, S>, BuildError>
        ensures { BuildsParams self.entry result }
    {
        let Builder {
            identity,
            region,
            name,
            time,
            settings,
        } = self;
        Ok(SigningParams {
            identity: identity.ok_or(BuildError::Identity)?,
            region: region.ok_or(BuildError::Region)?,
            name: name.ok_or(BuildError::Name)?,
            time: time.ok_or(BuildError::Time)?,
            settings: settings.ok_or(BuildError::Settings)?,
        })
    }
}

impl<'a, S: Clone + Drop> Builder<'a, S> {
    /// A builder with the same parts, with a copy of the settings.
    pub fn try_clone(&self) -> Mem<Builder<'a, S>>
        ensures { IfOk result (HasSameParts S.is_clone self.now) }
    {
        Ok(Builder {
            identity: self.identity,
            region: self.region,
            name: self.name,
            time: self.time,
            settings: match &self.settings {
                Some(settings) => Some(settings.clone()?),
                None => None,
            },
        })
    }
}

/// The part that [`SigningParams`] lack.
#[derive(Clone, Copy, Debug, PartialEq, Eq)]
pub enum BuildError {
    /// The identity is missing.
    Identity,
    /// The region is missing.
    Region,
    /// The name of the service is missing.
    Name,
    /// The moment is missing.
    Time,
    /// The settings are missing.
    Settings,
}

impl fmt::Display for BuildError {
    ghost output = { λ error. Some (build_error_text error) };

    fn fmt<W: fmt::Write>(&self, f: &mut fmt::Formatter<W>) -> fmt::Result {
        f.write_str(match self {
            BuildError::Identity => "identity is required",
            BuildError::Region => "region is required",
            BuildError::Name => "name is required",
            BuildError::Time => "time is required",
            BuildError::Settings => "settings are required",
        })
    }
}

impl std::error::Error for BuildError {}
