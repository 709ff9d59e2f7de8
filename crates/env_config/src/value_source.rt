ghost use Rattle.std.specs.Prelude.{◌≡◌, IfOk};
ghost use Rattle.env_config.specs.ValueSource.{found_at, holder_of, origin_at, reach_of};

use smithy_core::Mem;
use std::fmt;

/// Where a value was found: whether it is the service's own, in which place, and under which key.
#[derive(Debug)]
pub struct EnvConfigSource {
    key: String,
    location: Location,
    scope: Scope,
}

// Written out: a derived drop would be taken apart in the proof of each function that drops one.
impl Drop for EnvConfigSource {
    fn drop(self) {
        let EnvConfigSource {
            key,
            location,
            scope,
        } = self;
        drop(key);
        drop(location);
        drop(scope);
    }
}

/// Whether a value is for all services.
#[derive(Debug, Drop)]
pub enum Scope {
    Global,
    Service(String),
}

/// What holds a value.
#[derive(Debug, Drop)]
pub enum Location {
    Environment,
    Profile(String),
}

/// What kind of place a value comes from.
#[derive(Clone, Copy, Debug, PartialEq, Eq)]
pub enum Origin {
    /// A variable of the service.
    ServiceEnvironment,
    /// A variable for all services.
    SharedEnvironment,
    /// A sub-property of the service.
    ServiceProfile,
    /// A property of the profile.
    SharedProfile,
    /// No place holds a value.
    Unknown,
}

impl EnvConfigSource {
    pub(crate) fn new(key: String, location: Location, scope: Scope) -> EnvConfigSource
        ensures { result ≡ record { key = key; location = location; scope = scope } }
    {
        EnvConfigSource {
            key,
            location,
            scope,
        }
    }

    /// An equal source.
    pub fn try_clone(&self) -> Mem<EnvConfigSource>
        ensures { IfOk result (λ copy. found_at copy ≡ found_at self.now) }
    {
        Ok(EnvConfigSource {
            key: self.key.clone()?,
            location: self.location.try_clone()?,
            scope: self.scope.try_clone()?,
        })
    }

    // What kind of place it is.
    fn origin(&self) -> Origin
        ensures { result ≡ origin_at (found_at self.now).reach (found_at self.now).holder }
    {
        match (&self.scope, &self.location) {
            (Scope::Global, Location::Environment) => Origin::SharedEnvironment,
            (Scope::Global, Location::Profile(_)) => Origin::SharedProfile,
            (Scope::Service(_), Location::Environment) => Origin::ServiceEnvironment,
            (Scope::Service(_), Location::Profile(_)) => Origin::ServiceProfile,
        }
    }
}

impl Scope {
    fn try_clone(&self) -> Mem<Scope>
        ensures { IfOk result (λ copy. reach_of copy ≡ reach_of self.now) }
    {
        match self {
            Scope::Global => Ok(Scope::Global),
            Scope::Service(id) => Ok(Scope::Service(id.clone()?)),
        }
    }
}

impl Location {
    fn try_clone(&self) -> Mem<Location>
        ensures { IfOk result (λ copy. holder_of copy ≡ holder_of self.now) }
    {
        match self {
            Location::Environment => Ok(Location::Environment),
            Location::Profile(name) => Ok(Location::Profile(name.clone()?)),
        }
    }
}

impl From<&EnvConfigSource> for Origin {
    ghost use Rattle.std.specs.Prelude.{◌≡◌};
    ghost use Rattle.env_config.specs.ValueSource.{found_at, origin_at};

    ghost from_gives = { λ source origin. origin ≡ origin_at (found_at source.now).reach (found_at source.now).holder };

    fn from(source: &EnvConfigSource) -> Origin {
        source.origin()
    }
}

impl fmt::Display for Scope {
    ghost use Rattle.std.specs.Prelude.{Some};
    ghost use Rattle.env_config.specs.Value.{reach_text};
    ghost use Rattle.env_config.specs.ValueSource.{reach_of};

    ghost output = { λ scope. Some (reach_text (reach_of scope)) };

    fn fmt<W: fmt::Write>(&self, f: &mut fmt::Formatter<W>) -> fmt::Result {
        match self {
            Scope::Global => f.write_str("global"),
            Scope::Service(id) => write!(f, "service-specific (`{id}`)"),
        }
    }
}

impl fmt::Display for Location {
    ghost use Rattle.std.specs.Prelude.{Some};
    ghost use Rattle.env_config.specs.Value.{holder_text};
    ghost use Rattle.env_config.specs.ValueSource.{holder_of};

    ghost output = { λ location. Some (holder_text (holder_of location)) };

    fn fmt<W: fmt::Write>(&self, f: &mut fmt::Formatter<W>) -> fmt::Result {
        match self {
            Location::Environment => f.write_str("environment variable"),
            Location::Profile(name) => write!(f, "profile (`{name}`)"),
        }
    }
}

impl fmt::Display for EnvConfigSource {
    ghost use Rattle.std.specs.Prelude.{Some};
    ghost use Rattle.env_config.specs.Value.{found_text};
    ghost use Rattle.env_config.specs.ValueSource.{found_at};

    ghost output = { λ source. Some (found_text (found_at source)) };

    fn fmt<W: fmt::Write>(&self, f: &mut fmt::Formatter<W>) -> fmt::Result {
        let (scope, location, key) = (&self.scope, &self.location, &self.key);
        write!(f, "{scope} {location} key: `{key}`")
    }
}
