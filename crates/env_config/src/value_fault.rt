ghost use Rattle.std.specs.Prelude.{◌≡◌, IfOk};
ghost use Rattle.env_config.specs.ValueFault.{IsValueErrorCopy, IsValidateFaultCopy, why_refused};

use crate::value_source::EnvConfigSource;
use smithy_core::Mem;
use std::alloc::AllocError;
use std::fmt;

/// A value that was refused, and where it was found.
#[derive(Debug)]
pub struct EnvConfigError<E> {
    source: EnvConfigSource,
    err: E,
}

// Written out: a derived drop would be taken apart in the proof of each function that drops one.
impl<E: Drop> Drop for EnvConfigError<E> {
    fn drop(self) {
        let EnvConfigError { source, err } = self;
        drop(source);
        drop(err);
    }
}

impl<E> EnvConfigError<E> {
    // The fault of a value that was found there.
    pub(crate) fn new(source: EnvConfigSource, err: E) -> EnvConfigError<E>
        ensures source { result.source ≡ source }
        ensures err { result.err ≡ err }
    {
        EnvConfigError { source, err }
    }

    /// Why the value was refused.
    pub fn err(&self) -> &E
        ensures { result.now ≡ why_refused self.now }
    {
        &self.err
    }
}

impl<E: Clone + Drop> EnvConfigError<E> {
    /// An equal error.
    pub fn try_clone(&self) -> Mem<EnvConfigError<E>>
        ensures { IfOk result (IsValueErrorCopy E.is_clone self.now) }
    {
        Ok(EnvConfigError {
            source: self.source.try_clone()?,
            err: self.err.clone()?,
        })
    }
}

impl<E: fmt::Display> fmt::Display for EnvConfigError<E> {
    ghost use Rattle.env_config.specs.ValueFault.{invalid_text};

    ghost output = { invalid_text E.output };

    fn fmt<W: fmt::Write>(&self, f: &mut fmt::Formatter<W>) -> fmt::Result {
        let (err, source) = (&self.err, &self.source);
        write!(f, "{err}. source: {source}")
    }
}

impl<E: fmt::Debug + fmt::Display + Drop> std::error::Error for EnvConfigError<E> {}

/// Why no value was answered.
#[derive(Debug, Drop)]
pub enum ValidateFault<E> {
    /// The value that was found is refused.
    Invalid(EnvConfigError<E>),
    /// Memory ran out.
    NoMemory,
}

impl<E: Clone + Drop> ValidateFault<E> {
    /// An equal fault.
    pub fn try_clone(&self) -> Mem<ValidateFault<E>>
        ensures { IfOk result (IsValidateFaultCopy E.is_clone self.now) }
    {
        match self {
            ValidateFault::Invalid(error) => Ok(ValidateFault::Invalid(error.try_clone()?)),
            ValidateFault::NoMemory => Ok(ValidateFault::NoMemory),
        }
    }
}

impl<E: fmt::Display> fmt::Display for ValidateFault<E> {
    ghost use Rattle.env_config.specs.ValueFault.{validate_fault_text};

    ghost output = { validate_fault_text E.output };

    fn fmt<W: fmt::Write>(&self, f: &mut fmt::Formatter<W>) -> fmt::Result {
        match self {
            ValidateFault::Invalid(error) => error.fmt(f),
            ValidateFault::NoMemory => f.write_str("no memory"),
        }
    }
}

impl<E: fmt::Debug + fmt::Display + Drop> std::error::Error for ValidateFault<E> {}

impl<E> From<AllocError> for ValidateFault<E> {
    ghost use Rattle.std.specs.Prelude.{◌≡◌};
    ghost use Rattle.env_config.specs.declared.value_fault.ValidateFault.TheVariants.{NoMemory};

    ghost from_gives = { λ _ fault. fault ≡ NoMemory };

    fn from(_e: AllocError) -> ValidateFault<E> {
        ValidateFault::NoMemory
    }
}
