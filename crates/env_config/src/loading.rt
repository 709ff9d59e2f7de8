ghost use Rattle.std.specs.Prelude.{◌≡◌, ◌≤◌, ℕ, List, Some, IfErr, IfOk, option_copied};
ghost use Rattle.std.specs.String.{string_bytes};
ghost use Rattle.env_config.specs.Files.{file_place, file_places};
ghost use Rattle.env_config.specs.Loading.{Loads, ReadsDefault, ReadsOne, ReadsPath, after_home_sign, default_path, expanded, is_below_home, utf8_or_empty, usual_path, path_variable};
ghost use Rattle.env_config.specs.Files.Place.{At, Usual};
ghost use Rattle.env_config.specs.declared.load_fault.EnvConfigFileLoadError.TheVariants.{NoMemory};

use crate::files::{EnvConfigFile, EnvConfigFiles};
use crate::home::{Os, home_dir};
use crate::load_fault::{CouldNotReadConfigFile, EnvConfigFileLoadError};
use crate::source::{EnvConfigFileKind, File, Source};
use crate::text::joined;
use smithy_core::{Disk, DiskError, Env, Mem};
use std::alloc::Global;

/// The texts of the files, and the name of the profile that `AWS_PROFILE` selects, or `default`.
///
/// A default file lies where `AWS_CONFIG_FILE` or `AWS_SHARED_CREDENTIALS_FILE` says, or else at `~/.aws/config` or
/// `~/.aws/credentials`; the home directory stands for a `~` at the front, where there is one. It counts as empty where
/// it is absent or the disk failed. The path of any other file is taken as it is written. A file that isn't UTF-8
/// counts as empty.
///
/// # Errors
///
/// [`EnvConfigFileLoadError::CouldNotReadFile`] with the first path that was named and is absent, or whose read failed.
pub fn load<D: Disk>(
    alloc: Global,
    env: &Env,
    disk: &mut D,
    files: &EnvConfigFiles,
) -> Result<Source, EnvConfigFileLoadError>
    ensures count { D.faults disk.old ≤ D.faults disk.new }
    ensures same { D.files disk.new ≡ D.files disk.old }
    ensures loads { Loads D.answers D.faults (D.files disk.old) env.now (file_places files.now) disk.old disk.new result }
{
    let profile = String::from_str(alloc, env.get("AWS_PROFILE").unwrap_or("default"))?;
    let mut texts = Vec::new(alloc);
    for file in files.as_slice() {
        texts.push(load_file(alloc, env, disk, file)?)?;
    }
    Ok(Source {
        files: texts,
        profile,
    })
}

fn load_file<D: Disk>(
    alloc: Global,
    env: &Env,
    disk: &mut D,
    file: &EnvConfigFile,
) -> Result<File, EnvConfigFileLoadError>
    ensures count { D.faults disk.old ≤ D.faults disk.new }
    ensures same { D.files disk.new ≡ D.files disk.old }
    ensures reads { ReadsOne D.answers D.faults (D.files disk.old) env.now (file_place file.now) disk.old disk.new result }
{
    match file {
        EnvConfigFile::Default(kind) => load_default(alloc, env, disk, *kind),
        EnvConfigFile::FilePath { kind, path } => load_custom(alloc, disk, *kind, path.as_str()),
        EnvConfigFile::FileContents { kind, contents } => Ok(File {
            kind: *kind,
            path: None,
            contents: contents.clone()?,
        }),
    }
}

// The default file of this kind, which may be absent.
fn load_default<D: Disk>(
    alloc: Global,
    env: &Env,
    disk: &mut D,
    kind: EnvConfigFileKind,
) -> Result<File, EnvConfigFileLoadError>
    ensures count { D.faults disk.old ≤ D.faults disk.new }
    ensures same { D.files disk.new ≡ D.files disk.old }
    ensures reads { ReadsOne D.answers D.faults (D.files disk.old) env.now (Usual kind) disk.old disk.new result }
{
    let path = default_path(alloc, env, kind)?;
    let contents = default_text(alloc, disk, path.as_str())?;
    Ok(File {
        kind,
        path: Some(path),
        contents,
    })
}

// The text of the default file at this path, which counts as empty where it is unread.
fn default_text<D: Disk>(
    alloc: Global,
    disk: &mut D,
    path: &str,
) -> Result<String, EnvConfigFileLoadError>
    ensures count { D.faults disk.old ≤ D.faults disk.new }
    ensures same { D.files disk.new ≡ D.files disk.old }
    ensures ok { IfOk result (λ text. ReadsDefault D.answers D.faults (D.files disk.old) path.now disk.old disk.new (string_bytes text)) }
    ensures err { IfErr result (λ fault. fault ≡ NoMemory) }
{
    match read_text(alloc, disk, path) {
        Ok(text) => Ok(text),
        Err(DiskError::NotFound | DiskError::Failed) => Ok(String::new(alloc)),
        Err(DiskError::NoMemory) => Err(EnvConfigFileLoadError::NoMemory),
    }
}

// The file at this path.
fn load_custom<D: Disk>(
    alloc: Global,
    disk: &mut D,
    kind: EnvConfigFileKind,
    path: &str,
) -> Result<File, EnvConfigFileLoadError>
    ensures count { D.faults disk.old ≤ D.faults disk.new }
    ensures same { D.files disk.new ≡ D.files disk.old }
    ensures reads { (env : List (List ℕ × List ℕ)) → ReadsOne D.answers D.faults (D.files disk.old) env (At kind path.now) disk.old disk.new result }
{
    let own_path = String::from_str(alloc, path)?;
    match read_text(alloc, disk, path) {
        Ok(contents) => Ok(File {
            kind,
            path: Some(own_path),
            contents,
        }),
        Err(DiskError::NotFound | DiskError::Failed) => {
            let fault = CouldNotReadConfigFile { path: own_path };
            Err(EnvConfigFileLoadError::CouldNotReadFile(fault))
        }
        Err(DiskError::NoMemory) => Err(EnvConfigFileLoadError::NoMemory),
    }
}

// The text of the file at this path, by one read.
fn read_text<D: Disk>(alloc: Global, disk: &mut D, path: &str) -> Result<String, DiskError>
    ensures count { D.faults disk.old ≤ D.faults disk.new }
    ensures same { D.files disk.new ≡ D.files disk.old }
    ensures reads { ReadsPath D.answers D.faults (D.files disk.old) path.now disk.old disk.new result }
{
    match disk.read(path) {
        Ok(bytes) => Ok(utf8_or_empty(alloc, bytes)),
        Err(fault) => Err(fault),
    }
}

// The text of the bytes, which is empty where they aren't UTF-8.
fn utf8_or_empty(alloc: Global, bytes: Vec<u8>) -> String
    ensures { string_bytes result ≡ utf8_or_empty bytes.items }
{
    match String::from_utf8(bytes) {
        Ok(text) => text,
        Err(_) => String::new(alloc),
    }
}

// The path of the default file of this kind.
#[tactic(auto, unfolding(crate::specs::Loading::default_path, crate::specs::Loading::expanded))]
fn default_path(alloc: Global, env: &Env, kind: EnvConfigFileKind) -> Mem<String>
    ensures { IfOk result (λ path. string_bytes path ≡ default_path env.now kind) }
{
    let path = env.get(path_variable(kind)).unwrap_or(usual_path(kind));
    match home_dir(alloc, env, Os::real())? {
        Some(home) => with_home(alloc, path, home.as_str()),
        None => String::from_str(alloc, path),
    }
}

// The variable that names the path of the default file.
fn path_variable(kind: EnvConfigFileKind) -> &'static str
    ensures { result.now ≡ path_variable kind }
{
    match kind {
        EnvConfigFileKind::Config => "AWS_CONFIG_FILE",
        EnvConfigFileKind::Credentials => "AWS_SHARED_CREDENTIALS_FILE",
    }
}

// The path of the default file where no variable names it.
fn usual_path(kind: EnvConfigFileKind) -> &'static str
    ensures { result.now ≡ usual_path kind }
{
    match kind {
        EnvConfigFileKind::Config => "~/.aws/config",
        EnvConfigFileKind::Credentials => "~/.aws/credentials",
    }
}

// The path with the home directory in place of a `~` at its front.
#[tactic(auto, unfolding(crate::specs::Loading::expanded))]
fn with_home(alloc: Global, path: &str, home: &str) -> Mem<String>
    ensures { IfOk result (λ full. string_bytes full ≡ expanded path.now (Some home.now)) }
{
    match after_home_sign(path) {
        Some(rest) => joined(alloc, home, rest),
        None => String::from_str(alloc, path),
    }
}

// What follows a `~` at the front, where that is nothing or begins with a slash.
fn after_home_sign(path: &str) -> Option<&str>
    ensures { option_copied result ≡ after_home_sign path.now }
{
    let rest = path.strip_prefix('~')?;
    if is_below_home(rest) {
        Some(rest)
    } else {
        None
    }
}

// Whether it is nothing or begins with a slash.
fn is_below_home(rest: &str) -> bool
    ensures { result ≡ is_below_home rest.now }
{
    rest.is_empty() || rest.starts_with('/')
}
