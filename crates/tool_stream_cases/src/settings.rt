//! What is selected of profile files `config: TEXT`, `credentials PATH: TEXT` and variables.
use crate::jobs::env_of;
use env_config::{EnvConfigFileKind, File, Source};
use signed_stream::{Settings, SettingsFault, read_settings};
use smithy_core::Mem;
use std::alloc::Global;
use tool_case_lines::{compared, unknown};

/// What the files select for a service and a profile, and what a copy of that is.
pub fn answer(alloc: Global, words: &[&str]) -> Mem<String> {
    let [service_id, profile, parts @ ..] = words else {
        return unknown(alloc);
    };
    let source = Source {
        files: files_of(alloc, parts)?,
        profile: String::from_str(alloc, profile)?,
    };
    let service_id = Some(*service_id).filter(|id| *id != "-");
    match read_settings(alloc, &source, &env_of(alloc, parts)?, service_id) {
        Ok(settings) => both_settings(alloc, &settings),
        Err(fault) => both_faults(alloc, &fault),
    }
}

fn files_of(alloc: Global, parts: &[&str]) -> Mem<Vec<File>> {
    let mut files = Vec::new(alloc);
    for part in parts {
        if let Some((place, contents)) = part.split_once(": ") {
            files.push(file_of(alloc, place, contents)?)?;
        }
    }
    Ok(files)
}

fn file_of(alloc: Global, place: &str, contents: &str) -> Mem<File> {
    let (kind, path) = match place.split_once(' ') {
        Some((kind, path)) => (kind, Some(String::from_str(alloc, path)?)),
        None => (place, None),
    };
    let kind = match kind {
        "credentials" => EnvConfigFileKind::Credentials,
        _ => EnvConfigFileKind::Config,
    };
    let contents = String::from_str(alloc, contents)?;
    Ok(File {
        kind,
        path,
        contents,
    })
}

fn both_settings(alloc: Global, settings: &Settings) -> Mem<String> {
    let copy = settings.try_clone()?;
    compared(alloc, told(alloc, settings), told(alloc, &copy))
}

// The profile, the region, the key id, the secret and the token.
fn told(alloc: Global, settings: &Settings) -> Mem<String> {
    let (profile, region) = (settings.profile.as_str(), settings.region.as_str());
    let credentials = &settings.credentials;
    let (key_id, secret) = (credentials.access_key_id(), credentials.secret_access_key());
    let token = credentials.session_token();
    format!(in alloc; "{profile} {region} {key_id} {secret} {token:?}")
}

fn both_faults(alloc: Global, fault: &SettingsFault) -> Mem<String> {
    let copy = fault.try_clone()?;
    let text = format!(in alloc; "{fault:?}: {fault}");
    compared(alloc, text, format!(in alloc; "{copy:?}: {copy}"))
}
