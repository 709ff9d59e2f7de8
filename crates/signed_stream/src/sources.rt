ghost use Rattle.std.specs.Prelude.{◌≡◌, ◌≤◌, ◌++◌, ℕ, List, IfErr, IfOk, map, option_map};
ghost use Rattle.std.specs.String.{string_bytes};
ghost use Rattle.env_config.specs.Files.{chosen_places, file_places};
ghost use Rattle.env_config.specs.Loading.{Loads};
ghost use Rattle.signed_stream.specs.Selecting.{Selects, selection_ending};
ghost use Rattle.signed_stream.specs.ProfileOptions.{place_of, profile_wanted};
ghost use Rattle.signed_stream.specs.Plan.{unreadable};
ghost use Rattle.job_text.specs.ProfileTexts.{texts_of};
ghost use Rattle.signed_stream.specs.Sources.{DiskGives, given_place, given_places, source_places};
ghost use Rattle.signed_stream.specs.Status.{could_not_read_file};

use crate::command::{NamedFile, ProfileOptions};
use crate::settings::{Settings, SettingsFault, read_settings};
use env_config::{
    BuildFault, Builder, EnvConfigFileKind, EnvConfigFileLoadError, EnvConfigFiles,
    EnvConfigParseError, Source, load,
};
use job_text::ProfileTexts;
use smithy_core::{Disk, Env, Mem};
use std::alloc::{AllocError, Global};

/// Why nothing is selected.
#[derive(Debug, PartialEq, Eq, Drop)]
pub enum SelectFault {
    /// The file at this path, which a word names, is absent, or its read failed.
    CouldNotReadFile(String),
    /// A line of a profile file is outside the grammar: the first one of the first faulty file.
    ParseError(EnvConfigParseError),
    /// The selected profile lacks `aws_access_key_id` or `aws_secret_access_key`.
    MissingCredentials,
    /// No place gives a region.
    MissingSigningRegion,
    /// Memory ran out.
    NoMemory,
}

impl From<EnvConfigFileLoadError> for SelectFault {
    ghost use Rattle.std.specs.Prelude.{◌≡◌};
    ghost use Rattle.signed_stream.specs.Selecting.{selection_ending};
    ghost use Rattle.signed_stream.specs.Status.{load_ending};

    ghost from_gives = { λ inner fault. selection_ending fault ≡ load_ending inner };

    fn from(inner: EnvConfigFileLoadError) -> SelectFault {
        match inner {
            EnvConfigFileLoadError::ParseError(error) => SelectFault::ParseError(error),
            EnvConfigFileLoadError::CouldNotReadFile(fault) => {
                SelectFault::CouldNotReadFile(fault.path)
            }
            EnvConfigFileLoadError::NoMemory => SelectFault::NoMemory,
        }
    }
}

impl From<SettingsFault> for SelectFault {
    ghost use Rattle.std.specs.Prelude.{◌≡◌};
    ghost use Rattle.signed_stream.specs.Selecting.{selection_ending};
    ghost use Rattle.signed_stream.specs.Status.{settings_ending};

    ghost from_gives = { λ inner fault. selection_ending fault ≡ settings_ending inner };

    fn from(inner: SettingsFault) -> SelectFault {
        match inner {
            SettingsFault::ParseError(error) => SelectFault::ParseError(error),
            SettingsFault::MissingCredentials => SelectFault::MissingCredentials,
            SettingsFault::MissingSigningRegion => SelectFault::MissingSigningRegion,
            SettingsFault::NoMemory => SelectFault::NoMemory,
        }
    }
}

/// What profile files select: those that the options name, in their order, and then the texts of the input; where there
/// is none of both, the two default files.
///
/// # Errors
///
/// [`SelectFault::CouldNotReadFile`] with the path of the first file that is named and is absent, or whose read failed; and
/// the others as those of [`read_settings`](crate::read_settings).
pub fn select<D: Disk>(
    alloc: Global,
    env: &Env,
    disk: &mut D,
    options: &ProfileOptions<'_>,
    texts: ProfileTexts,
) -> Result<Settings, SelectFault>
    ensures count { D.faults disk.old ≤ D.faults disk.new }
    ensures same { D.files disk.new ≡ D.files disk.old }
    ensures selects { Selects (DiskGives D.answers D.faults (D.files disk.old) env.now disk.old disk.new) env.now (profile_wanted options.now) (texts_of texts) result }
    ensures named { IfErr result (λ fault. (path : List ℕ) → selection_ending fault ≡ could_not_read_file path
        → DiskGives D.answers D.faults (D.files disk.old) env.now disk.old disk.new (profile_wanted options.now).files (unreadable path)) }
{
    let source = load_source(alloc, env, disk, options, texts)?;
    Ok(read_settings(alloc, &source, env, options.service_id)?)
}

// The texts of the files that the options name, and then those of the input; where there is none of both, of the two
// default files.
fn load_source<D: Disk>(
    alloc: Global,
    env: &Env,
    disk: &mut D,
    options: &ProfileOptions<'_>,
    texts: ProfileTexts,
) -> Result<Source, EnvConfigFileLoadError>
    ensures count { D.faults disk.old ≤ D.faults disk.new }
    ensures same { D.files disk.new ≡ D.files disk.old }
    ensures loads { Loads D.answers D.faults (D.files disk.old) env.now (source_places (profile_wanted options.now).files (texts_of texts)) disk.old disk.new result }
{
    let files = files_of(alloc, options.files.as_slice(), texts)?;
    load(alloc, env, disk, &files)
}

// The files that are named, and then the texts of the input, or else the default files.
#[tactic(auto, unfolding(crate::specs::Sources::source_places))]
fn files_of(alloc: Global, named: &[NamedFile<'_>], texts: ProfileTexts) -> Mem<EnvConfigFiles>
    ensures { IfOk result (λ files. file_places files ≡ source_places (map place_of named.now) (texts_of texts)) }
{
    let builder = with_named(EnvConfigFiles::builder(alloc), alloc, named)?;
    match with_texts(builder, texts)?.build() {
        Ok(files) => Ok(files),
        Err(BuildFault::NoFiles) => EnvConfigFiles::default_files(alloc),
        Err(BuildFault::NoMemory) => Err(AllocError),
    }
}

// The builder with the files that are named.
#[tactic(auto, using(env_config::proofs::FilesLemmas::chosen_grows))]
fn with_named(builder: Builder, alloc: Global, named: &[NamedFile<'_>]) -> Mem<Builder>
    ensures { IfOk result (λ now. chosen_places now ≡ chosen_places builder ++ map place_of named.now) }
{
    let mut builder = builder;
    for file in named {
        builder = builder.with_file(file.kind, String::from_str(alloc, file.path)?)?;
    }
    Ok(builder)
}

// The builder with the texts of the input.
fn with_texts(builder: Builder, texts: ProfileTexts) -> Mem<Builder>
    ensures { IfOk result (λ now. chosen_places now ≡ chosen_places builder ++ given_places (texts_of texts)) }
{
    let ProfileTexts {
        config,
        credentials,
    } = texts;
    let builder = with_text(builder, EnvConfigFileKind::Config, config)?;
    with_text(builder, EnvConfigFileKind::Credentials, credentials)
}

// The builder with a text, where there is one.
#[tactic(auto, using(env_config::proofs::FilesLemmas::chosen_grows))]
fn with_text(builder: Builder, kind: EnvConfigFileKind, text: Option<String>) -> Mem<Builder>
    ensures { IfOk result (λ now. chosen_places now ≡ chosen_places builder ++ given_place kind (option_map string_bytes text)) }
{
    match text {
        Some(text) => builder.with_contents(kind, text),
        None => Ok(builder),
    }
}
