//! What each profile file has of the selected profile by itself.
ghost use Rattle.std.specs.Prelude.{◌≡◌, [], ◌∷◌, IfOk, map, string_bytes};
ghost use Rattle.env_config.specs.Source.{file_of};
ghost use Rattle.aws_settings.specs.Choice.{GivesProfile};
ghost use Rattle.awsign_settings.specs.Own.{GivesOwn, GivesOwns, alone, own_of, own_path, own_profiles};

use aws_settings::{ProfileValues, SettingsFault, read_profile};
use env_config::{File, Source};
use smithy_core::Mem;
use std::alloc::Global;

/// What the selected profile has in a file by itself. There is no [`Debug`](std::fmt::Debug), so that no secret is printed.
#[derive(Drop)]
pub struct OwnProfile {
    /// The file.
    pub file: File,
    /// What the profile has in it.
    pub values: ProfileValues,
}

impl OwnProfile {
    /// The path of the file, where it has one.
    pub fn path(&self) -> &str
        ensures { result.now ≡ own_path (own_of self.now) }
    {
        match &self.file.path {
            Some(path) => path.as_str(),
            None => "",
        }
    }
}

/// What the selected profile has in each file of a source by itself.
///
/// # Errors
///
/// [`SettingsFault::Profile`] with the first line outside the grammar in the first faulty file.
pub fn own_profiles(alloc: Global, source: &Source) -> Result<Vec<OwnProfile>, SettingsFault>
    ensures { GivesOwns (own_profiles (string_bytes source.now.profile) (map file_of source.now.files.items)) result }
{
    let mut owns = Vec::new(alloc);
    for file in &source.files {
        let own = own_profile(alloc, source.profile.as_str(), file)?;
        if owns.push(own).is_err() {
            return Err(SettingsFault::NoMemory);
        }
    }
    Ok(owns)
}

fn own_profile(alloc: Global, profile: &str, file: &File) -> Result<OwnProfile, SettingsFault>
    ensures { GivesOwn (file_of file.now) (alone profile.now (file_of file.now)) result }
{
    let file = file.try_clone()?;
    match read_alone(alloc, profile, file.try_clone()?) {
        Ok(values) => Ok(OwnProfile { file, values }),
        Err(fault) => Err(fault),
    }
}

/// What a profile has in a file by itself.
pub(crate) fn read_alone(
    alloc: Global,
    profile: &str,
    file: File,
) -> Result<ProfileValues, SettingsFault>
    ensures { GivesProfile (alone profile.now (file_of file)) result }
{
    let source = source_of(alloc, profile, file)?;
    read_profile(alloc, &source)
}

// A source that has one file.
fn source_of(alloc: Global, profile: &str, file: File) -> Mem<Source>
    ensures files { IfOk result (λ source. map file_of source.files.items ≡ file_of file ∷ []) }
    ensures name { IfOk result (λ source. string_bytes source.profile ≡ profile.now) }
{
    let profile = String::from_str(alloc, profile)?;
    let mut files = Vec::new(alloc);
    files.push(file)?;
    Ok(Source { files, profile })
}
