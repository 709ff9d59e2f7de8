ghost use Rattle.std.specs.Prelude.{◌≡◌, IfOk, map};
ghost use Rattle.std.specs.String.{string_bytes};
ghost use Rattle.env_config.specs.Source.{file_of, kind_name};

use smithy_core::{Mem, copied_text};
use std::alloc::Global;
use std::fmt;

/// Whether a file is read as config or as credentials.
#[derive(Clone, Copy, Debug, PartialEq, Eq)]
pub enum EnvConfigFileKind {
    /// The config file, by default `~/.aws/config`.
    Config,
    /// The credentials file, by default `~/.aws/credentials`.
    Credentials,
}

impl EnvConfigFileKind {
    // The kind in lower case.
    fn name(&self) -> &str
        ensures { result.now ≡ kind_name self.now }
    {
        match self {
            EnvConfigFileKind::Config => "config",
            EnvConfigFileKind::Credentials => "credentials",
        }
    }
}

/// The texts of profile files, and the name of the selected profile. [`Debug`](std::fmt::Debug) prints that name and how
/// many files there are.
#[derive(Drop)]
pub struct Source {
    /// The files in order.
    pub files: Vec<File>,
    /// The selected profile.
    pub profile: String,
}

impl Source {
    /// An equal source.
    pub fn try_clone(&self) -> Mem<Source>
        ensures files { IfOk result (λ copy. map file_of copy.files.items ≡ map file_of self.now.files.items) }
        ensures profile { IfOk result (λ copy. string_bytes copy.profile ≡ string_bytes self.now.profile) }
    {
        Ok(Source {
            files: copied_files(*self.files.allocator(), self.files.as_slice())?,
            profile: self.profile.clone()?,
        })
    }
}

impl fmt::Debug for Source {
    ghost use Rattle.std.specs.Prelude.{Some, length};
    ghost use Rattle.std.specs.String.{string_bytes};
    ghost use Rattle.env_config.specs.Source.{source_shown};

    ghost debug_output = { λ source. Some (source_shown (string_bytes source.profile) (length source.files.items)) };

    fn fmt<W: fmt::Write>(&self, f: &mut fmt::Formatter<W>) -> fmt::Result {
        let (profile, files) = (self.profile.as_str(), self.files.len());
        write!(f, "Source({profile} selected, {files} files)")
    }
}

// Equal files.
fn copied_files(alloc: Global, files: &[File]) -> Mem<Vec<File>>
    ensures { IfOk result (λ copies. map file_of copies.items ≡ map file_of files.now) }
{
    let mut copies = Vec::new(alloc);
    for file in files {
        copies.push(file.try_clone()?)?;
    }
    Ok(copies)
}

/// The text of a profile file. [`Debug`](std::fmt::Debug) prints its kind, its path and its length, since the text may hold
/// credentials.
#[derive(Drop)]
pub struct File {
    /// How it is read.
    pub kind: EnvConfigFileKind,
    /// Where it lies, if it lies anywhere.
    pub path: Option<String>,
    /// The text.
    pub contents: String,
}

impl File {
    /// An equal file.
    pub fn try_clone(&self) -> Mem<File>
        ensures { IfOk result (λ copy. file_of copy ≡ file_of self.now) }
    {
        Ok(File {
            kind: self.kind,
            path: copied_text(&self.path)?,
            contents: self.contents.clone()?,
        })
    }
}

impl fmt::Debug for File {
    ghost use Rattle.std.specs.Prelude.{Some, length};
    ghost use Rattle.env_config.specs.Source.{file_of, file_shown};

    ghost debug_output = { λ file. Some (file_shown (file_of file).kind (file_of file).path (length (file_of file).contents)) };

    fn fmt<W: fmt::Write>(&self, f: &mut fmt::Formatter<W>) -> fmt::Result {
        let (kind, length) = (self.kind.name(), self.contents.len());
        match &self.path {
            Some(path) => write!(f, "File({kind} at {path}, {length} bytes)"),
            None => write!(f, "File({kind}, {length} bytes)"),
        }
    }
}
