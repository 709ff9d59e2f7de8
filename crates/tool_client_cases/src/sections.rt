use crate::files::sections_of;
use crate::texts::{push_visible, text};
use env_config::{EnvConfigSections, Profile, Properties, Property, SsoSession};
use smithy_core::Mem;
use std::alloc::Global;
use std::collections::BTreeMap;

// Each profile and each session with those of the keys that it has, and whether there are other sections.
pub fn sections_text(alloc: Global, sections: &EnvConfigSections, keys: &str) -> Mem<String> {
    let mut out = String::new(alloc);
    push_profiles(alloc, &mut out, sections, keys)?;
    push_sessions(alloc, &mut out, sections, keys)?;
    if *sections.other_sections() != Properties::new(alloc) {
        out.push_str(" others")?;
    }
    Ok(out)
}

fn push_profiles(
    alloc: Global,
    out: &mut String,
    sections: &EnvConfigSections,
    keys: &str,
) -> Mem<()> {
    if sections.is_empty() {
        return out.push_str("no profiles");
    }
    for name in sections.profiles() {
        match sections.get_profile(name.as_str()) {
            Some(profile) => push_profile(alloc, out, profile, keys)?,
            None => out.push_str("no profile")?,
        }
    }
    Ok(())
}

fn push_sessions(
    alloc: Global,
    out: &mut String,
    sections: &EnvConfigSections,
    keys: &str,
) -> Mem<()> {
    for name in sections.sso_sessions() {
        match sections.sso_session(name.as_str()) {
            Some(session) => push_session(alloc, out, session, name.as_str(), keys)?,
            None => out.push_str("no session")?,
        }
    }
    Ok(())
}

// Appends `[NAME] KEY=VALUE ..`.
pub fn push_profile(alloc: Global, out: &mut String, profile: &Profile, keys: &str) -> Mem<()> {
    push_front(out, "[", profile.name())?;
    let name = text(alloc, profile.name())?;
    let found = Profile::new(name, push_values(alloc, out, profile, keys)?);
    push_rest(out, found == *profile)
}

// Appends the keys that have values, and gives them.
fn push_values(
    alloc: Global,
    out: &mut String,
    profile: &Profile,
    keys: &str,
) -> Mem<BTreeMap<String, Property>> {
    let mut found = BTreeMap::new(alloc);
    for key in keys.split(' ') {
        if let Some(value) = profile.get(key) {
            push_pair(out, key, value)?;
            insert_property(alloc, &mut found, key, value)?;
        }
    }
    Ok(found)
}

// Appends `[sso-session NAME] KEY=VALUE ..`.
fn push_session(
    alloc: Global,
    out: &mut String,
    session: &SsoSession,
    name: &str,
    keys: &str,
) -> Mem<()> {
    push_front(out, "[sso-session ", name)?;
    let mut file = format!(in alloc; "config: [sso-session {name}]\n")?;
    for key in keys.split(' ') {
        if let Some(value) = session.get(key) {
            push_pair(out, key, value)?;
            write!(file, "{key} = {value}\n")?;
        }
    }
    push_rest(out, gives_session(alloc, file.as_str(), name, session))
}

// Whether a file gives an equal session of this name.
fn gives_session(alloc: Global, file: &str, name: &str, session: &SsoSession) -> bool {
    match &sections_of(alloc, "default", &[file]) {
        Ok(sections) => sections.sso_session(name) == Some(session),
        Err(_) => false,
    }
}

fn push_front(out: &mut String, front: &str, name: &str) -> Mem<()> {
    let gap = if out.is_empty() { "" } else { " " };
    write!(out, "{gap}{front}{name}]")
}

pub fn push_pair(out: &mut String, key: &str, value: &str) -> Mem<()> {
    write!(out, " {key}=")?;
    push_visible(out, value)
}

pub fn insert_property(
    alloc: Global,
    properties: &mut BTreeMap<String, Property>,
    key: &str,
    value: &str,
) -> Mem<()> {
    let property = property_of(alloc, key, value)?;
    properties.insert(text(alloc, key)?, property)?;
    Ok(())
}

pub fn property_of(alloc: Global, key: &str, value: &str) -> Mem<Property> {
    let key = text(alloc, key)?;
    Ok(Property::new(key, text(alloc, value)?))
}

// Says whether there are keys beside those that were asked for.
pub fn push_rest(out: &mut String, is_whole: bool) -> Mem<()> {
    if is_whole {
        return Ok(());
    }
    out.push_str(" and others")
}
