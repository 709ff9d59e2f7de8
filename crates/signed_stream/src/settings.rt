ghost use Rattle.std.specs.Prelude.{◌≡◌, IfOk, None, map, option_copied, option_map};
ghost use Rattle.std.specs.String.{string_bytes};
ghost use Rattle.smithy_core.specs.Identity.{credentials_expiry};
ghost use Rattle.env_config.specs.EnvConfigValue.{asked_of};
ghost use Rattle.env_config.specs.Selected.{kept_of};
ghost use Rattle.env_config.specs.Source.{file_of};
ghost use Rattle.signed_stream.specs.Settings.{GivesSettings, IsSameSettingsFault, asked_region, region_in, selected_in, settings, settings_in};

use env_config::{EnvConfigParseError, EnvConfigValue, ParseFault, SelectedProfile, Source};
use job_text::copied;
use smithy_core::{Credentials, Env, Mem, Region};
use std::alloc::{AllocError, Global};
use std::fmt;

/// What a profile and the variables give to sign with. There is no [`Debug`](std::fmt::Debug), so that no secret is
/// printed.
#[derive(Drop)]
pub struct Settings {
    /// The name of the selected profile.
    pub profile: String,
    /// The region.
    pub region: Region,
    /// The key id, the secret and the token of the selected profile.
    pub credentials: Credentials,
}

impl Settings {
    /// Equal settings.
    pub fn try_clone(&self) -> Mem<Settings>
        ensures selected { IfOk result (λ copy. selected_in copy ≡ selected_in self.now) }
        ensures expiry { IfOk result (λ copy. credentials_expiry copy.credentials ≡ credentials_expiry self.now.credentials) }
    {
        Ok(Settings {
            profile: self.profile.clone()?,
            region: self.region.try_clone()?,
            credentials: self.credentials.try_clone()?,
        })
    }
}

/// Why there are no settings.
#[derive(Debug, PartialEq, Eq, Drop)]
pub enum SettingsFault {
    /// A line of a profile file is outside the grammar: the first one of the first faulty file.
    ParseError(EnvConfigParseError),
    /// The selected profile lacks `aws_access_key_id` or `aws_secret_access_key`.
    MissingCredentials,
    /// No place gives a region.
    MissingSigningRegion,
    /// Memory ran out.
    NoMemory,
}

impl SettingsFault {
    /// An equal fault.
    pub fn try_clone(&self) -> Mem<SettingsFault>
        ensures { IfOk result (IsSameSettingsFault self.now) }
    {
        Ok(match self {
            SettingsFault::ParseError(error) => SettingsFault::ParseError(error.try_clone()?),
            SettingsFault::MissingCredentials => SettingsFault::MissingCredentials,
            SettingsFault::MissingSigningRegion => SettingsFault::MissingSigningRegion,
            SettingsFault::NoMemory => SettingsFault::NoMemory,
        })
    }
}

impl fmt::Display for SettingsFault {
    ghost use Rattle.std.specs.Prelude.{Some};
    ghost use Rattle.signed_stream.specs.Settings.{settings_fault_text};

    ghost output = { λ fault. Some (settings_fault_text fault) };

    fn fmt<W: fmt::Write>(&self, f: &mut fmt::Formatter<W>) -> fmt::Result {
        match self {
            SettingsFault::ParseError(error) => error.fmt(f),
            SettingsFault::MissingCredentials => f.write_str("missing credentials"),
            SettingsFault::MissingSigningRegion => f.write_str("missing signing region"),
            SettingsFault::NoMemory => f.write_str("no memory"),
        }
    }
}

impl std::error::Error for SettingsFault {}

impl From<AllocError> for SettingsFault {
    ghost use Rattle.std.specs.Prelude.{◌≡◌};
    ghost use Rattle.signed_stream.specs.declared.settings.SettingsFault.TheVariants.{NoMemory};

    ghost from_gives = { λ _ fault. fault ≡ NoMemory };

    fn from(_e: AllocError) -> SettingsFault {
        SettingsFault::NoMemory
    }
}

impl From<ParseFault> for SettingsFault {
    ghost use Rattle.std.specs.Prelude.{◌≡◌};
    ghost use Rattle.signed_stream.specs.Settings.{settings_fault};

    ghost from_gives = { λ fault result. result ≡ settings_fault fault };

    fn from(fault: ParseFault) -> SettingsFault {
        match fault {
            ParseFault::Parse(error) => SettingsFault::ParseError(error),
            ParseFault::NoMemory => SettingsFault::NoMemory,
        }
    }
}

/// The credentials of the source's selected profile, and the region: that of the service's own variable, of the
/// variable `AWS_REGION`, of the service's own sub-property or of the property `region`, the first that is there. An
/// empty value counts as given.
///
/// ```rust
/// let source = load(alloc, &env, &mut disk, &files)?;
/// let settings = read_settings(alloc, &source, &env, None)?;
/// let region = settings.region.as_str();
/// ```
///
/// # Errors
///
/// - [`SettingsFault::ParseError`] with the first line outside the grammar in the first faulty file;
/// - [`SettingsFault::MissingCredentials`] where the profile has no key id or no secret;
/// - [`SettingsFault::MissingSigningRegion`] where no place has a region.
#[tactic(auto, unfolding(crate::specs::Settings::settings))]
pub fn read_settings(
    alloc: Global,
    source: &Source,
    env: &Env,
    service_id: Option<&str>,
) -> Result<Settings, SettingsFault>
    ensures settings { GivesSettings (settings (map file_of source.now.files.items) (string_bytes source.now.profile) env.now (option_copied service_id.entry)) result }
    ensures no_expiry { IfOk result (λ settings. credentials_expiry settings.credentials ≡ None) }
{
    let keys = [
        "aws_access_key_id",
        "aws_secret_access_key",
        "aws_session_token",
        "region",
    ];
    let profile = SelectedProfile::parse(alloc, source, &keys, service_id)?;
    settings_in(alloc, &profile, env, service_id)
}

// What the profile gives.
fn settings_in(
    alloc: Global,
    profile: &SelectedProfile,
    env: &Env,
    service_id: Option<&str>,
) -> Result<Settings, SettingsFault>
    ensures settings { GivesSettings (settings_in (kept_of profile.now) env.now (option_copied service_id.entry)) result }
    ensures no_expiry { IfOk result (λ settings. credentials_expiry settings.credentials ≡ None) }
{
    let Some(key_id) = profile.get("aws_access_key_id") else {
        return Err(SettingsFault::MissingCredentials);
    };
    let Some(secret) = profile.get("aws_secret_access_key") else {
        return Err(SettingsFault::MissingCredentials);
    };
    let Some(region) = region_in(alloc, profile, env, service_id)? else {
        return Err(SettingsFault::MissingSigningRegion);
    };
    let credentials = Credentials::new(
        String::from_str(alloc, key_id)?,
        String::from_str(alloc, secret)?,
        copied(alloc, profile.get("aws_session_token"))?,
        None,
    );
    Ok(Settings {
        profile: String::from_str(alloc, profile.name())?,
        region: Region::new(region),
        credentials,
    })
}

// The region, the service's own first.
fn region_in(
    alloc: Global,
    profile: &SelectedProfile,
    env: &Env,
    service_id: Option<&str>,
) -> Mem<Option<String>>
    ensures { IfOk result (λ region. option_map string_bytes region ≡ region_in (kept_of profile.now) env.now (option_copied service_id.entry)) }
{
    match profile.load(alloc, env, &asked_region(service_id))? {
        Some((region, _)) => Ok(Some(region)),
        None => Ok(None),
    }
}

// What is asked for the region.
fn asked_region(service_id: Option<&str>) -> EnvConfigValue<'_>
    ensures { asked_of result ≡ asked_region (option_copied service_id.entry) }
{
    let asked = EnvConfigValue::new().env("AWS_REGION").profile("region");
    match service_id {
        Some(id) => asked.service_id(id),
        None => asked,
    }
}
