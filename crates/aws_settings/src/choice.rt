//! Which key and region count.
ghost use Rattle.std.specs.Prelude.{◌≡◌, IfOk, Ok, map, option_copied, option_map, string_bytes};
ghost use Rattle.std.specs.Option.{option_or};
ghost use Rattle.env_config.specs.Sections.{sections};
ghost use Rattle.env_config.specs.Source.{file_of};
ghost use Rattle.aws_settings.specs.Choice.{GivesChosenKey, GivesChosen, chosen_key, region_by, chosen_settings, filled, key_in, key_with, profile_key, profile_name, profile_of, profile_values, choice_by, settings_of_parts, variable, variable_key, variables_key};

use crate::fault::SettingsFault;
use crate::profile::{ProfileValues, read_profile};
use crate::settings::AwsSettings;
use env_config::Source;
use job_text::copied;
use smithy_core::{Credentials, Env, Mem};
use std::alloc::Global;

/// The name of the profile: the caller's, that of the variable `AWS_PROFILE`, or `default`.
pub fn profile_name<'a>(named: Option<&'a str>, env: &'a Env) -> &'a str
    ensures { result.now ≡ profile_name (option_copied named.entry) env.now }
{
    named.or(variable(env, "AWS_PROFILE")).unwrap_or("default")
}

/// The settings by what the caller says, by variables and by the source's profile. `names_profile` says whether the caller named the
/// profile, and `region` is the caller's.
///
/// # Errors
///
/// Those of [`read_profile`], and then those of [`choose_settings`].
pub fn settings_of(
    alloc: Global,
    names_profile: bool,
    region: Option<&str>,
    env: &Env,
    source: &Source,
) -> Result<AwsSettings, SettingsFault>
    ensures { GivesChosen (choice_by names_profile (option_copied region.entry) env.now (profile_of (sections (map file_of source.now.files.items)) (string_bytes source.now.profile))) result }
{
    match read_profile(alloc, source) {
        Ok(profile) => choose_settings(alloc, names_profile, region, env, &profile),
        Err(fault) => Err(fault),
    }
}

/// The settings by what the caller says, by variables and by a profile, in this order; an empty variable or value counts as none. Where
/// the caller named the profile, the key is that of the profile, and else that of `AWS_ACCESS_KEY_ID` and `AWS_SECRET_ACCESS_KEY`, with
/// `AWS_SESSION_TOKEN`, before it. The region is the caller's, that of `AWS_REGION` or `AWS_DEFAULT_REGION`, or the profile's.
///
/// # Errors
///
/// [`SettingsFault::MissingSecret`] where the variables have half a key, and [`SettingsFault::MissingKey`] where there is none; then
/// [`SettingsFault::MissingRegion`].
pub fn choose_settings(
    alloc: Global,
    names_profile: bool,
    region: Option<&str>,
    env: &Env,
    profile: &ProfileValues,
) -> Result<AwsSettings, SettingsFault>
    ensures { GivesChosen (chosen_settings names_profile (option_copied region.entry) env.now (profile_values profile.now)) result }
{
    match choose_key(alloc, names_profile, env, profile) {
        Ok(credentials) => {
            let region = region_of(region, env, profile);
            settings_with(alloc, credentials, region, profile.name.as_str())
        }
        Err(fault) => Err(fault),
    }
}

// The settings with this key, where there is a region.
fn settings_with(
    alloc: Global,
    credentials: Credentials,
    region: Option<&str>,
    profile: &str,
) -> Result<AwsSettings, SettingsFault>
    ensures { GivesChosen (settings_of_parts profile.now (Ok (key_in credentials)) (option_copied region.entry)) result }
{
    match region {
        Some(region) => Ok(AwsSettings {
            region: String::from_str(alloc, region)?,
            credentials,
        }),
        None => Err(SettingsFault::MissingRegion(String::from_str(alloc, profile)?)),
    }
}

// The key: that of the variables, or that of the profile.
fn choose_key(
    alloc: Global,
    names_profile: bool,
    env: &Env,
    profile: &ProfileValues,
) -> Result<Credentials, SettingsFault>
    ensures { GivesChosenKey (chosen_key names_profile env.now (profile_values profile.now)) result }
{
    match variable_key(names_profile, env) {
        Some(key_id) => key_of_variables(alloc, key_id, env),
        None => key_of_profile(alloc, profile),
    }
}

// The key of the variables, whose id this is.
fn key_of_variables(alloc: Global, key_id: &str, env: &Env) -> Result<Credentials, SettingsFault>
    ensures { GivesChosenKey (variables_key key_id.now env.now) result }
{
    let secret = variable(env, "AWS_SECRET_ACCESS_KEY");
    let token = variable(env, "AWS_SESSION_TOKEN");
    match key_of(alloc, Some(key_id), secret, token)? {
        Some(credentials) => Ok(credentials),
        None => Err(SettingsFault::MissingSecret),
    }
}

// The key of a profile.
fn key_of_profile(alloc: Global, profile: &ProfileValues) -> Result<Credentials, SettingsFault>
    ensures { GivesChosenKey (profile_key (profile_values profile.now)) result }
{
    let key_id = filled_text(&profile.key_id);
    let secret = filled_text(&profile.secret);
    match key_of(alloc, key_id, secret, filled_text(&profile.token))? {
        Some(credentials) => Ok(credentials),
        None => Err(SettingsFault::MissingKey(String::from_str(alloc, profile.name.as_str())?)),
    }
}

// The key of these parts, where both of the two that it takes are there.
fn key_of(
    alloc: Global,
    key_id: Option<&str>,
    secret: Option<&str>,
    token: Option<&str>,
) -> Mem<Option<Credentials>>
    ensures { IfOk result (λ key. option_map key_in key ≡ key_with (option_copied key_id.entry) (option_copied secret.entry) (option_copied token.entry)) }
{
    match (key_id, secret) {
        (Some(key_id), Some(secret)) => Ok(Some(Credentials::new(
            String::from_str(alloc, key_id)?,
            String::from_str(alloc, secret)?,
            copied(alloc, token)?,
            None,
        ))),
        _ => Ok(None),
    }
}

// The variable of the key id, which counts unless the caller named the profile.
fn variable_key<'a>(names_profile: bool, env: &'a Env) -> Option<&'a str>
    ensures { option_copied result ≡ variable_key names_profile env.now }
{
    if names_profile {
        None
    } else {
        variable(env, "AWS_ACCESS_KEY_ID")
    }
}

fn region_of<'a>(
    region: Option<&'a str>,
    env: &'a Env,
    profile: &'a ProfileValues,
) -> Option<&'a str>
    ensures { option_copied result ≡ region_by (option_copied region.entry) env.now (profile_values profile.now) }
{
    let set = either(region, variable(env, "AWS_REGION"));
    let usual = either(set, variable(env, "AWS_DEFAULT_REGION"));
    either(usual, filled_text(&profile.region))
}

// The first text, or else the second.
fn either<'a>(first: Option<&'a str>, second: Option<&'a str>) -> Option<&'a str>
    ensures { option_copied result ≡ option_or (option_copied first.entry) (option_copied second.entry) }
{
    match first {
        Some(text) => Some(text),
        None => second,
    }
}

// A variable; an empty one counts as unset.
fn variable<'a>(env: &'a Env, name: &str) -> Option<&'a str>
    ensures { option_copied result ≡ variable env.now name.now }
{
    filled(env.get(name))
}

fn filled_text(text: &Option<String>) -> Option<&str>
    ensures { option_copied result ≡ filled (option_map string_bytes text.now) }
{
    match text {
        Some(text) => filled(Some(text.as_str())),
        None => None,
    }
}

// The text, unless it is empty.
fn filled(text: Option<&str>) -> Option<&str>
    ensures { option_copied result ≡ filled (option_copied text.entry) }
{
    match text {
        Some(text) if !text.is_empty() => Some(text),
        _ => None,
    }
}
