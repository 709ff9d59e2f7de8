ghost use Rattle.std.specs.Prelude.{◌≡◌, [], ◌∷◌, ◌++◌, IfOk, false, map};
ghost use Rattle.std.specs.String.{string_bytes};
ghost use Rattle.env_config.specs.Files.{BuildsFiles, added_places, chosen_places, defaults_of, file_place, file_places};
ghost use Rattle.env_config.specs.Files.Place.{At, Given, Usual};
ghost use Rattle.env_config.specs.declared.source.EnvConfigFileKind.TheVariants.{Config, Credentials};

use crate::source::EnvConfigFileKind;
use smithy_core::Mem;
use std::alloc::{AllocError, AllocFailed, Global};
use std::fmt;

/// A file that is to be loaded.
#[derive(Drop)]
pub enum EnvConfigFile {
    /// The default file of this kind.
    Default(EnvConfigFileKind),
    /// The file at a path.
    FilePath {
        kind: EnvConfigFileKind,
        path: String,
    },
    /// A text that is given, in place of a file.
    FileContents {
        kind: EnvConfigFileKind,
        contents: String,
    },
}

impl EnvConfigFile {
    fn try_clone(&self) -> Mem<EnvConfigFile>
        ensures { IfOk result (λ copy. file_place copy ≡ file_place self.now) }
    {
        match self {
            EnvConfigFile::Default(kind) => Ok(EnvConfigFile::Default(*kind)),
            EnvConfigFile::FilePath { kind, path } => Ok(EnvConfigFile::FilePath {
                kind: *kind,
                path: path.clone()?,
            }),
            EnvConfigFile::FileContents { kind, contents } => Ok(EnvConfigFile::FileContents {
                kind: *kind,
                contents: contents.clone()?,
            }),
        }
    }
}

// Equal files.
fn copied_files(alloc: Global, files: &[EnvConfigFile]) -> Mem<Vec<EnvConfigFile>>
    ensures { IfOk result (λ copies. map file_place copies.items ≡ map file_place files.now) }
{
    let mut copies = Vec::new(alloc);
    for file in files {
        copies.push(file.try_clone()?)?;
    }
    Ok(copies)
}

/// The files that are to be loaded, in order. [`Debug`](std::fmt::Debug) prints how many there are, since a text that is
/// given may hold credentials.
#[derive(Drop)]
pub struct EnvConfigFiles {
    files: Vec<EnvConfigFile>,
}

impl EnvConfigFiles {
    /// A builder with no files.
    pub fn builder(alloc: Global) -> Builder
        ensures { chosen_places result ≡ [] }
    {
        Builder::new(alloc)
    }

    /// The default config file and the default credentials file.
    pub fn default_files(alloc: Global) -> Mem<EnvConfigFiles>
        ensures { IfOk result (λ files. file_places files ≡ Usual Config ∷ Usual Credentials ∷ []) }
    {
        let mut files = Vec::new(alloc);
        files.push(EnvConfigFile::Default(EnvConfigFileKind::Config))?;
        files.push(EnvConfigFile::Default(EnvConfigFileKind::Credentials))?;
        Ok(EnvConfigFiles { files })
    }

    /// Equal files.
    pub fn try_clone(&self) -> Mem<EnvConfigFiles>
        ensures { IfOk result (λ copy. file_places copy ≡ file_places self.now) }
    {
        Ok(EnvConfigFiles {
            files: copied_files(*self.files.allocator(), self.files.as_slice())?,
        })
    }

    // The files.
    pub(crate) fn as_slice(&self) -> &[EnvConfigFile]
        ensures { map file_place result.now ≡ file_places self.now }
    {
        self.files.as_slice()
    }
}

impl fmt::Debug for EnvConfigFiles {
    ghost use Rattle.std.specs.Prelude.{Some, length};
    ghost use Rattle.env_config.specs.Files.{file_places, files_shown};

    ghost debug_output = { λ files. Some (files_shown (length (file_places files))) };

    fn fmt<W: fmt::Write>(&self, f: &mut fmt::Formatter<W>) -> fmt::Result {
        let count = self.files.len();
        write!(f, "EnvConfigFiles({count} files)")
    }
}

/// The parts of an [`EnvConfigFiles`]. [`Debug`](std::fmt::Debug) prints how many files were added, since a text that is
/// given may hold credentials.
#[derive(Drop)]
pub struct Builder {
    config: bool,
    credentials: bool,
    files: Vec<EnvConfigFile>,
}

impl Builder {
    /// No files.
    pub fn new(alloc: Global) -> Builder
        ensures added { added_places result ≡ [] }
        ensures defaults { defaults_of result ≡ (false, false) }
    {
        Builder {
            config: false,
            credentials: false,
            files: Vec::new(alloc),
        }
    }

    /// Whether the default config file is loaded, before all others.
    pub fn include_default_config_file(mut self, on: bool) -> Builder
        ensures added { added_places result ≡ added_places self }
        ensures defaults { defaults_of result ≡ (on, (defaults_of self).1) }
    {
        self.config = on;
        self
    }

    /// Whether the default credentials file is loaded, after the default config file and before the others.
    pub fn include_default_credentials_file(mut self, on: bool) -> Builder
        ensures added { added_places result ≡ added_places self }
        ensures defaults { defaults_of result ≡ ((defaults_of self).0, on) }
    {
        self.credentials = on;
        self
    }

    /// Adds the file at a path, which is taken as it is written.
    pub fn with_file(mut self, kind: EnvConfigFileKind, path: String) -> Mem<Builder>
        ensures added { IfOk result (λ builder. added_places builder ≡ added_places self ++ At kind (string_bytes path) ∷ []) }
        ensures defaults { IfOk result (λ builder. defaults_of builder ≡ defaults_of self) }
    {
        self.files.push(EnvConfigFile::FilePath { kind, path })?;
        Ok(self)
    }

    /// Adds a text that is given, in place of a file.
    pub fn with_contents(mut self, kind: EnvConfigFileKind, contents: String) -> Mem<Builder>
        ensures added { IfOk result (λ builder. added_places builder ≡ added_places self ++ Given kind (string_bytes contents) ∷ []) }
        ensures defaults { IfOk result (λ builder. defaults_of builder ≡ defaults_of self) }
    {
        self.files
            .push(EnvConfigFile::FileContents { kind, contents })?;
        Ok(self)
    }

    /// An equal builder.
    pub fn try_clone(&self) -> Mem<Builder>
        ensures added { IfOk result (λ copy. added_places copy ≡ added_places self.now) }
        ensures defaults { IfOk result (λ copy. defaults_of copy ≡ defaults_of self.now) }
    {
        Ok(Builder {
            config: self.config,
            credentials: self.credentials,
            files: copied_files(*self.files.allocator(), self.files.as_slice())?,
        })
    }

    /// The files: the default ones, config first, and then those that were added, in their order.
    ///
    /// # Errors
    ///
    /// [`BuildFault::NoFiles`] where there is none.
    pub fn build(self) -> Result<EnvConfigFiles, BuildFault>
        ensures { BuildsFiles (chosen_places self) result }
    {
        let Builder {
            config,
            credentials,
            mut files,
        } = self;
        if credentials {
            files.insert(0, EnvConfigFile::Default(EnvConfigFileKind::Credentials))?;
        }
        if config {
            files.insert(0, EnvConfigFile::Default(EnvConfigFileKind::Config))?;
        }
        if files.is_empty() {
            return Err(BuildFault::NoFiles);
        }
        Ok(EnvConfigFiles { files })
    }
}

impl fmt::Debug for Builder {
    ghost use Rattle.std.specs.Prelude.{Some, length};
    ghost use Rattle.env_config.specs.Files.{added_places, builder_shown};

    ghost debug_output = { λ builder. Some (builder_shown (length (added_places builder))) };

    fn fmt<W: fmt::Write>(&self, f: &mut fmt::Formatter<W>) -> fmt::Result {
        let count = self.files.len();
        write!(f, "Builder({count} files added)")
    }
}

/// Why there are no files to load.
#[derive(Clone, Copy, Debug, PartialEq, Eq)]
pub enum BuildFault {
    /// None was added.
    NoFiles,
    /// Memory ran out.
    NoMemory,
}

impl fmt::Display for BuildFault {
    ghost use Rattle.std.specs.Prelude.{Some};
    ghost use Rattle.env_config.specs.Files.{build_fault_text};

    ghost output = { λ fault. Some (build_fault_text fault) };

    fn fmt<W: fmt::Write>(&self, f: &mut fmt::Formatter<W>) -> fmt::Result {
        match self {
            BuildFault::NoFiles => f.write_str("no profile files to load"),
            BuildFault::NoMemory => f.write_str("no memory"),
        }
    }
}

impl std::error::Error for BuildFault {}

impl From<AllocError> for BuildFault {
    ghost use Rattle.std.specs.Prelude.{◌≡◌};
    ghost use Rattle.env_config.specs.declared.files.BuildFault.TheVariants.{NoMemory};

    ghost from_gives = { λ _ fault. fault ≡ NoMemory };

    fn from(_e: AllocError) -> BuildFault {
        BuildFault::NoMemory
    }
}

impl<T: Drop> From<AllocFailed<T>> for BuildFault {
    ghost use Rattle.std.specs.Prelude.{◌≡◌};
    ghost use Rattle.env_config.specs.declared.files.BuildFault.TheVariants.{NoMemory};

    ghost from_gives = { λ _ fault. fault ≡ NoMemory };

    fn from(_e: AllocFailed<T>) -> BuildFault {
        BuildFault::NoMemory
    }
}
