ghost use Rattle.std.specs.Prelude.{◌≡◌, IfOk};
ghost use Rattle.std.specs.String.{string_bytes};
ghost use Rattle.env_config.specs.LoadFault.{IsSameLoadFault};

use crate::parse_fault::EnvConfigParseError;
use smithy_core::Mem;
use std::alloc::{AllocError, AllocFailed};
use std::fmt;

/// Why files weren't loaded.
#[derive(Debug, Drop)]
pub enum EnvConfigFileLoadError {
    /// A line outside the grammar, for callers that load and parse at once. [`load`](crate::load) never answers it.
    ParseError(EnvConfigParseError),
    /// A file that was named by its path is absent, or the disk failed.
    CouldNotReadFile(CouldNotReadConfigFile),
    /// Memory ran out.
    NoMemory,
}

/// A file that couldn't be read.
#[derive(Debug, Drop)]
pub struct CouldNotReadConfigFile {
    /// Its path.
    pub path: String,
}

impl CouldNotReadConfigFile {
    /// An equal fault.
    pub fn try_clone(&self) -> Mem<CouldNotReadConfigFile>
        ensures { IfOk result (λ copy. string_bytes copy.path ≡ string_bytes self.now.path) }
    {
        Ok(CouldNotReadConfigFile {
            path: self.path.clone()?,
        })
    }
}

impl fmt::Display for CouldNotReadConfigFile {
    ghost use Rattle.std.specs.Prelude.{Some};
    ghost use Rattle.env_config.specs.LoadFault.{unread_text};

    ghost output = { λ fault. Some (unread_text fault) };

    fn fmt<W: fmt::Write>(&self, f: &mut fmt::Formatter<W>) -> fmt::Result {
        let path = self.path.as_str();
        write!(f, "could not read file `{path}`")
    }
}

impl std::error::Error for CouldNotReadConfigFile {}

impl EnvConfigFileLoadError {
    /// An equal error.
    pub fn try_clone(&self) -> Mem<EnvConfigFileLoadError>
        ensures { IfOk result (IsSameLoadFault self.now) }
    {
        match self {
            EnvConfigFileLoadError::ParseError(error) => {
                Ok(EnvConfigFileLoadError::ParseError(error.try_clone()?))
            }
            EnvConfigFileLoadError::CouldNotReadFile(fault) => {
                Ok(EnvConfigFileLoadError::CouldNotReadFile(fault.try_clone()?))
            }
            EnvConfigFileLoadError::NoMemory => Ok(EnvConfigFileLoadError::NoMemory),
        }
    }
}

impl fmt::Display for EnvConfigFileLoadError {
    ghost use Rattle.std.specs.Prelude.{Some};
    ghost use Rattle.env_config.specs.LoadFault.{load_fault_text};

    ghost output = { λ fault. Some (load_fault_text fault) };

    fn fmt<W: fmt::Write>(&self, f: &mut fmt::Formatter<W>) -> fmt::Result {
        match self {
            EnvConfigFileLoadError::ParseError(error) => {
                write!(f, "could not parse profile file: {error}")
            }
            EnvConfigFileLoadError::CouldNotReadFile(fault) => fault.fmt(f),
            EnvConfigFileLoadError::NoMemory => f.write_str("no memory"),
        }
    }
}

impl std::error::Error for EnvConfigFileLoadError {}

impl From<EnvConfigParseError> for EnvConfigFileLoadError {
    ghost use Rattle.std.specs.Prelude.{◌≡◌};
    ghost use Rattle.env_config.specs.declared.load_fault.EnvConfigFileLoadError.TheVariants.{ParseError};

    ghost from_gives = { λ error fault. fault ≡ ParseError error };

    fn from(error: EnvConfigParseError) -> EnvConfigFileLoadError {
        EnvConfigFileLoadError::ParseError(error)
    }
}

impl From<AllocError> for EnvConfigFileLoadError {
    ghost use Rattle.std.specs.Prelude.{◌≡◌};
    ghost use Rattle.env_config.specs.declared.load_fault.EnvConfigFileLoadError.TheVariants.{NoMemory};

    ghost from_gives = { λ _ fault. fault ≡ NoMemory };

    fn from(_e: AllocError) -> EnvConfigFileLoadError {
        EnvConfigFileLoadError::NoMemory
    }
}

impl<T: Drop> From<AllocFailed<T>> for EnvConfigFileLoadError {
    ghost use Rattle.std.specs.Prelude.{◌≡◌};
    ghost use Rattle.env_config.specs.declared.load_fault.EnvConfigFileLoadError.TheVariants.{NoMemory};

    ghost from_gives = { λ _ fault. fault ≡ NoMemory };

    fn from(_e: AllocFailed<T>) -> EnvConfigFileLoadError {
        EnvConfigFileLoadError::NoMemory
    }
}
