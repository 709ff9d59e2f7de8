//! The settings of a process.
ghost use Rattle.std.specs.Prelude.{◌≡◌, ◌≤◌, IfOk, None, map, string_bytes};
ghost use Rattle.env_config.specs.Source.{file_of};
ghost use Rattle.aws_settings.specs.AwsSettings.{LoadsDefaults, ReadsSettings, named_text, named_texts, settings_given};
ghost use Rattle.aws_settings.specs.Choice.{GivesChosen, profile_name};

use crate::choice::{profile_name, settings_of};
use crate::fault::SettingsFault;
use env_config::{EnvConfigFileKind, EnvConfigFileLoadError, EnvConfigFiles, File, Source, load};
use smithy_core::{Credentials, Disk, Env, Mem};
use std::alloc::{AllocError, Global};

/// What a process has to sign with: its region and its credentials. There is no [`Debug`](std::fmt::Debug), so that no secret is
/// printed.
#[derive(Drop)]
pub struct AwsSettings {
    /// The region.
    pub region: String,
    /// The key's id, its secret, and the session token, where there is one.
    pub credentials: Credentials,
}

impl AwsSettings {
    /// The settings of a process, by its variables and the two profile files: `AWS_CONFIG_FILE` or `~/.aws/config`, and
    /// `AWS_SHARED_CREDENTIALS_FILE` or `~/.aws/credentials`, of which an absent one counts as empty. The key is that of the variables
    /// `AWS_ACCESS_KEY_ID`, `AWS_SECRET_ACCESS_KEY` and `AWS_SESSION_TOKEN`, or else that of the profile that `AWS_PROFILE` selects, or
    /// of `default`. The region is that of `AWS_REGION` or `AWS_DEFAULT_REGION`, or else the profile's. An empty value counts as none.
    ///
    /// ```rust
    /// let env = Env::real(alloc, &rt)?;
    /// let mut disk = HostDisk::new(alloc, &rt);
    /// let settings = AwsSettings::from_environment(alloc, &env, &mut disk)?;
    /// let mut signer = Signer::new(alloc, &settings.credentials, settings.region.as_str(), "iam")?;
    /// ```
    ///
    /// # Errors
    ///
    /// The first of these: [`SettingsFault::Profile`] with the first line outside the grammar in the first faulty file;
    /// [`SettingsFault::MissingSecret`] where the variables have half a key, or [`SettingsFault::MissingKey`] where there is none;
    /// [`SettingsFault::MissingRegion`].
    pub fn from_environment<D: Disk>(
        alloc: Global,
        env: &Env,
        disk: &mut D,
    ) -> Result<AwsSettings, SettingsFault>
        ensures count { D.faults disk.old ≤ D.faults disk.new }
        ensures same { D.files disk.new ≡ D.files disk.old }
        ensures reads { ReadsSettings D.answers D.faults (D.files disk.old) env.now disk.old disk.new result }
    {
        let source = default_source(alloc, env, disk)?;
        settings_of(alloc, false, None, env, &source)
    }

    /// The same by the texts of a config and a credentials file, where no file is read.
    ///
    /// ```rust
    /// let config = "[default]\nregion = us-east-1\n";
    /// let settings = AwsSettings::from_texts(alloc, &env, config, credentials)?;
    /// ```
    ///
    /// # Errors
    ///
    /// Those of [`AwsSettings::from_environment`].
    pub fn from_texts(
        alloc: Global,
        env: &Env,
        config: &str,
        credentials: &str,
    ) -> Result<AwsSettings, SettingsFault>
        ensures { GivesChosen (settings_given (named_texts config.now credentials.now) env.now) result }
    {
        let source = source_of(alloc, env, config, credentials)?;
        settings_of(alloc, false, None, env, &source)
    }
}

// The texts of the default files, and the profile that the variables select.
fn default_source<D: Disk>(alloc: Global, env: &Env, disk: &mut D) -> Mem<Source>
    ensures count { D.faults disk.old ≤ D.faults disk.new }
    ensures same { D.files disk.new ≡ D.files disk.old }
    ensures loads { IfOk result (LoadsDefaults D.answers D.faults (D.files disk.old) env.now disk.old disk.new) }
{
    let files = EnvConfigFiles::default_files(alloc)?;
    match load(alloc, env, disk, &files) {
        Ok(source) => Ok(Source {
            files: source.files,
            profile: usual_profile(alloc, env)?,
        }),
        Err(EnvConfigFileLoadError::NoMemory) => Err(AllocError),
        Err(_) => unreachable!(),
    }
}

// The texts in place of the default files, and the profile that the variables select.
fn source_of(alloc: Global, env: &Env, config: &str, credentials: &str) -> Mem<Source>
    ensures files { IfOk result (λ source. map file_of source.files.items ≡ named_texts config.now credentials.now) }
    ensures profile { IfOk result (λ source. string_bytes source.profile ≡ profile_name None env.now) }
{
    let mut files = Vec::new(alloc);
    files.push(named_text(alloc, EnvConfigFileKind::Config, "the config text", config)?)?;
    files.push(named_text(
        alloc,
        EnvConfigFileKind::Credentials,
        "the credentials text",
        credentials,
    )?)?;
    Ok(Source {
        files,
        profile: usual_profile(alloc, env)?,
    })
}

// The name of the profile that the variables select.
fn usual_profile(alloc: Global, env: &Env) -> Mem<String>
    ensures { IfOk result (λ name. string_bytes name ≡ profile_name None env.now) }
{
    String::from_str(alloc, profile_name(None, env))
}

// A text in a file's place: a fault in it names it so.
fn named_text(alloc: Global, kind: EnvConfigFileKind, name: &str, text: &str) -> Mem<File>
    ensures { IfOk result (λ file. file_of file ≡ named_text kind name.now text.now) }
{
    Ok(File {
        kind,
        path: Some(String::from_str(alloc, name)?),
        contents: String::from_str(alloc, text)?,
    })
}
