use crate::files::source_of;
use crate::texts::{env_of, given, printed, rest, word};
use aws_settings::{AwsSettings, SettingsFault, profile_name, settings_of};
use smithy_core::{Env, Mem};
use std::alloc::Global;

// The settings of two texts and of variables, or of the profile and the region that a caller says, of variables and of files.
pub fn answer(alloc: Global, call: &str, words: &[&str]) -> Mem<String> {
    let env = env_of(alloc, word(words, 2))?;
    match call {
        "texts" => {
            let (config, credentials) = (word(words, 0), word(words, 1));
            let settings = AwsSettings::from_texts(alloc, &env, config, credentials);
            settings_text(alloc, settings)
        }
        _ => of_files(
            alloc,
            &env,
            given(word(words, 0)),
            given(word(words, 1)),
            rest(words, 3),
        ),
    }
}

fn of_files(
    alloc: Global,
    env: &Env,
    profile: Option<&str>,
    region: Option<&str>,
    files: &[&str],
) -> Mem<String> {
    let source = source_of(alloc, profile_name(profile, env), files)?;
    let settings = settings_of(alloc, profile.is_some(), region, env, &source);
    settings_text(alloc, settings)
}

// The region and the parts of the key, or what the fault prints.
fn settings_text(alloc: Global, settings: Result<AwsSettings, SettingsFault>) -> Mem<String> {
    match settings {
        Ok(settings) => {
            let (region, keys) = (&settings.region, &settings.credentials);
            let (key_id, secret) = (keys.access_key_id(), keys.secret_access_key());
            let token = keys.session_token().unwrap_or("-");
            format!(in alloc; "{region} {key_id} {secret} {token}")
        }
        Err(fault) => printed(alloc, Ok(fault)),
    }
}
