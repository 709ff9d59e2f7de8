//! What a profile has to sign with.
ghost use Rattle.std.specs.Prelude.{◌≡◌, IfOk, Ok, map, string_bytes};
ghost use Rattle.env_config.specs.Sections.{sections};
ghost use Rattle.env_config.specs.Selected.{kept_of};
ghost use Rattle.env_config.specs.Source.{file_of};
ghost use Rattle.aws_settings.specs.Choice.{GivesProfile, profile_in, profile_of, profile_values};

use crate::fault::SettingsFault;
use env_config::{SelectedProfile, Source};
use job_text::copied;
use smithy_core::Mem;
use std::alloc::Global;

/// What a profile has to sign with. There is no [`Debug`](std::fmt::Debug), so that no secret is printed.
#[derive(Drop)]
pub struct ProfileValues {
    /// The profile's name.
    pub name: String,
    /// The id of its key.
    pub key_id: Option<String>,
    /// The secret of its key.
    pub secret: Option<String>,
    /// The session token.
    pub token: Option<String>,
    /// The region.
    pub region: Option<String>,
}

/// What the selected profile has to sign with, by the texts of profile files.
///
/// # Errors
///
/// [`SettingsFault::Profile`] with the first line outside the grammar in the first faulty file.
pub fn read_profile(alloc: Global, source: &Source) -> Result<ProfileValues, SettingsFault>
    ensures { GivesProfile (profile_of (sections (map file_of source.now.files.items)) (string_bytes source.now.profile)) result }
{
    let keys = [
        "aws_access_key_id",
        "aws_secret_access_key",
        "aws_session_token",
        "region",
    ];
    match SelectedProfile::parse(alloc, source, &keys, None) {
        Ok(profile) => given_values(alloc, source.profile.as_str(), &profile),
        Err(fault) => Err(SettingsFault::from(fault)),
    }
}

fn given_values(
    alloc: Global,
    name: &str,
    profile: &SelectedProfile,
) -> Result<ProfileValues, SettingsFault>
    ensures { GivesProfile (Ok (profile_in name.now (kept_of profile.now))) result }
{
    Ok(profile_values(alloc, name, profile)?)
}

fn profile_values(alloc: Global, name: &str, profile: &SelectedProfile) -> Mem<ProfileValues>
    ensures { IfOk result (λ values. profile_values values ≡ profile_in name.now (kept_of profile.now)) }
{
    Ok(ProfileValues {
        name: String::from_str(alloc, name)?,
        key_id: copied(alloc, profile.get("aws_access_key_id"))?,
        secret: copied(alloc, profile.get("aws_secret_access_key"))?,
        token: copied(alloc, profile.get("aws_session_token"))?,
        region: copied(alloc, profile.get("region"))?,
    })
}
