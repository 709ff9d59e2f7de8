ghost use Rattle.std.specs.Prelude.{◌≡◌, IfOk};
ghost use Rattle.aws_auth.specs.declared.name_override.OverrideError.TheVariants.{NoMemory};

use crate::options::SigV4OperationSigningConfig;
use sigv4::SigningSettings;
use smithy_core::Mem;
use std::alloc::AllocError;
use std::fmt;
use std::marker::Model;

/// Why an override gives no name.
#[derive(Clone, Copy, Debug, PartialEq, Eq)]
pub enum OverrideError {
    /// It refuses these settings or this config.
    Refused,
    /// Memory ran out.
    NoMemory,
}

impl fmt::Display for OverrideError {
    ghost use Rattle.std.specs.Prelude.{Some};
    ghost use Rattle.aws_auth.specs.NameOverride.{override_error_text};

    ghost output = { λ error. Some (override_error_text error) };

    fn fmt<W: fmt::Write>(&self, f: &mut fmt::Formatter<W>) -> fmt::Result {
        match self {
            OverrideError::Refused => f.write_str("the name of the session token is refused"),
            OverrideError::NoMemory => f.write_str("no memory"),
        }
    }
}

impl std::error::Error for OverrideError {}

impl From<AllocError> for OverrideError {
    ghost from_gives = { λ _ error. error ≡ NoMemory };

    fn from(_e: AllocError) -> OverrideError {
        OverrideError::NoMemory
    }
}

/// A closure that gives the session token's header or parameter its name, where that isn't the usual one.
///
/// Contracts see the closure.
#[derive(Drop)]
pub struct SigV4SessionTokenNameOverride<F> {
    name_override: F,
}

impl<F> Model for SigV4SessionTokenNameOverride<F> {
    ghost Value = { F };

    ghost view = { λ it. it.name_override };
}

impl<F> SigV4SessionTokenNameOverride<F>
where
    F: Fn(&SigningSettings, &SigV4OperationSigningConfig) -> Result<Option<String>, OverrideError>,
{
    /// The override by this closure, which has to be one that may be called on all settings and configs.
    pub fn new(name_override: F) -> SigV4SessionTokenNameOverride<F>
        requires { F.IsAlwaysCallable name_override }
        ensures { result ≡ name_override }
    {
        SigV4SessionTokenNameOverride { name_override }
    }

    /// What the closure answers for these settings and this config. It has to be one that may be called on all of them.
    ///
    /// # Errors
    ///
    /// The closure's own.
    pub fn name_override(
        &self,
        settings: &SigningSettings,
        config: &SigV4OperationSigningConfig,
    ) -> Result<Option<String>, OverrideError>
        requires { F.IsAlwaysCallable self.now }
        ensures { F.post self.now settings.entry config.entry result }
    {
        (self.name_override)(settings, config)
    }
}

impl<F: Clone + Drop> SigV4SessionTokenNameOverride<F> {
    /// The override by a copy of the closure. That the copy may be called follows from what a copy of this closure is, where its
    /// type is known; of a type parameter `Clone` doesn't say so.
    pub fn try_clone(&self) -> Mem<SigV4SessionTokenNameOverride<F>>
        ensures { IfOk result (λ copy. F.is_clone self.now copy) }
    {
        Ok(SigV4SessionTokenNameOverride {
            name_override: self.name_override.clone()?,
        })
    }
}

// Shows that there is one: a closure has no text.
impl<F> fmt::Debug for SigV4SessionTokenNameOverride<F> {
    fn fmt<W: fmt::Write>(&self, f: &mut fmt::Formatter<W>) -> fmt::Result {
        f.write_str("SigV4SessionTokenNameOverride")
    }
}
