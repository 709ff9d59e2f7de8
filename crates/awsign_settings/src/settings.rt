//! Which settings are used.
ghost use Rattle.std.specs.Prelude.{◌≡◌, Some, IfOk, if◌then◌else◌, map, option_map};
ghost use Rattle.aws_settings.specs.Choice.{lack_in, no_key, no_secret};
ghost use Rattle.awsign_settings.specs.Own.{own_of};
ghost use Rattle.awsign_settings.specs.Settings.{settings_lack, used_key, used_key_of, used_of, used_profile, used_region, used_settings, used_settings_of, used_variable_key};

use crate::own::OwnProfile;
use crate::part::Part;
use crate::sourced::{FoundIn, Sourced, from_files, from_option, from_variable};
use aws_settings::{SettingsFault, profile_name};
use smithy_core::{Env, Mem};
use std::alloc::Global;

/// What a request is signed with: each value, and where it came from. There is no [`Debug`](std::fmt::Debug), so that no secret is printed.
#[derive(Clone, Copy)]
pub struct Settings<'a> {
    /// The name of the profile.
    pub profile: Sourced<'a>,
    /// The key.
    pub key: KeySettings<'a>,
    /// The region.
    pub region: Option<Sourced<'a>>,
}

/// A key, part by part. There is no [`Debug`](std::fmt::Debug), so that no secret is printed.
#[derive(Clone, Copy)]
pub struct KeySettings<'a> {
    /// Whether it is that of the variables, and not the profile's.
    pub by_variables: bool,
    /// Its id.
    pub key_id: Option<Sourced<'a>>,
    /// Its secret.
    pub secret: Option<Sourced<'a>>,
    /// Its session token.
    pub token: Option<Sourced<'a>>,
}

/// What a request is signed with, by options, variables and what each profile file has by itself, in this order; of files a later one
/// wins. An empty variable or property counts as unset.
#[tactic(auto, unfolding(crate::specs::Settings::used_settings))]
pub fn settings_of<'a>(
    alloc: Global,
    options: &'a Env,
    env: &'a Env,
    owns: &'a [OwnProfile],
) -> Mem<Settings<'a>>
    ensures { IfOk result (λ settings. used_settings_of settings ≡ used_settings options.now env.now (map own_of owns.now)) }
{
    Ok(Settings {
        profile: used_profile(options, env),
        key: used_key(alloc, options, env, owns)?,
        region: used_region(alloc, options, env, owns)?,
    })
}

fn used_profile<'a>(options: &'a Env, env: &'a Env) -> Sourced<'a>
    ensures { used_of result ≡ used_profile options.now env.now }
{
    let named = from_option(options, "--profile").or(from_variable(env, "AWS_PROFILE"));
    named.unwrap_or(Sourced {
        value: "default",
        origin: FoundIn::Unnamed,
    })
}

fn used_region<'a>(
    alloc: Global,
    options: &'a Env,
    env: &'a Env,
    owns: &'a [OwnProfile],
) -> Mem<Option<Sourced<'a>>>
    ensures { IfOk result (λ region. option_map used_of region ≡ used_region options.now env.now (map own_of owns.now)) }
{
    let set = from_option(options, "--region").or(from_variable(env, "AWS_REGION"));
    match set.or(from_variable(env, "AWS_DEFAULT_REGION")) {
        Some(region) => Ok(Some(region)),
        None => from_files(
            alloc,
            profile_name(options.get("--profile"), env),
            owns,
            Part::Region,
        ),
    }
}

fn used_key<'a>(
    alloc: Global,
    options: &'a Env,
    env: &'a Env,
    owns: &'a [OwnProfile],
) -> Mem<KeySettings<'a>>
    ensures { IfOk result (λ key. used_key_of key ≡ used_key options.now env.now (map own_of owns.now)) }
{
    match variable_key(options, env) {
        Some(key_id) => Ok(KeySettings {
            by_variables: true,
            key_id: Some(key_id),
            secret: from_variable(env, "AWS_SECRET_ACCESS_KEY"),
            token: from_variable(env, "AWS_SESSION_TOKEN"),
        }),
        None => {
            let profile = profile_name(options.get("--profile"), env);
            Ok(KeySettings {
                by_variables: false,
                key_id: from_files(alloc, profile, owns, Part::KeyId)?,
                secret: from_files(alloc, profile, owns, Part::Secret)?,
                token: from_files(alloc, profile, owns, Part::Token)?,
            })
        }
    }
}

// The variable of the key id, which counts unless an option names a profile.
fn variable_key<'a>(options: &Env, env: &'a Env) -> Option<Sourced<'a>>
    ensures { option_map used_of result ≡ used_variable_key options.now env.now }
{
    if options.get("--profile").is_some() {
        None
    } else {
        from_variable(env, "AWS_ACCESS_KEY_ID")
    }
}

/// What these settings lack for a signature, where they do: a whole key, or a region. The service isn't missed, since the host of a request
/// may name it.
pub fn lack(alloc: Global, settings: &Settings<'_>) -> Mem<Option<SettingsFault>>
    ensures { IfOk result (λ lack. option_map lack_in lack ≡ option_map Some (settings_lack (used_settings_of settings.now))) }
{
    let (profile, key) = (settings.profile.value, &settings.key);
    if key.key_id.is_none() || key.secret.is_none() {
        return Ok(Some(key_lack(alloc, profile, key.by_variables)?));
    }
    match settings.region {
        Some(_) => Ok(None),
        None => {
            let profile = String::from_str(alloc, profile)?;
            Ok(Some(SettingsFault::MissingRegion(profile)))
        }
    }
}

fn key_lack(alloc: Global, profile: &str, by_variables: bool) -> Mem<SettingsFault>
    ensures { IfOk result (λ fault. lack_in fault ≡ Some (if by_variables then no_secret else no_key profile.now)) }
{
    if by_variables {
        Ok(SettingsFault::MissingSecret)
    } else {
        Ok(SettingsFault::MissingKey(String::from_str(alloc, profile)?))
    }
}
