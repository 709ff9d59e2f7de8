use crate::files::{file_of, push_file, sections_of, source_of, source_text};
use crate::keys::builder_of;
use crate::sections::{
    insert_property, property_of, push_pair, push_profile, push_rest, sections_text,
};
use crate::texts::{given, rest, text, word};
use env_config::{
    EnvConfigSections, EnvConfigValue, File, ParseFault, Profile, Properties, PropertiesKey,
    Property, SelectedProfile, SsoSession,
};
use smithy_core::{Env, Mem};
use std::alloc::Global;
use std::collections::BTreeMap;

pub fn answer(alloc: Global, call: &str, words: &[&str]) -> Mem<String> {
    let (first, second) = (word(words, 0), word(words, 1));
    match call {
        "choose" => chosen(alloc, words),
        "source" => source_text(
            alloc,
            &source_of(alloc, first, rest(words, 1))?.try_clone()?,
        ),
        "equal" => equal(alloc, words),
        "profile" => profile(alloc, words),
        "property" => property_text(alloc, &property_of(alloc, first, second)?.try_clone()?),
        "none" => selected(alloc, &EnvConfigSections::new(alloc)?, first),
        "file" => file_text(alloc, &file_of(alloc, first)?.try_clone()?),
        _ => of_files(alloc, call, words),
    }
}

// What the sections of files answer to a call, for `default` or the profile that is selected.
fn of_files(alloc: Global, call: &str, words: &[&str]) -> Mem<String> {
    let (selected, place) = match call {
        "select" => (word(words, 0), 2),
        "session" => ("default", 2),
        _ => ("default", 1),
    };
    match &sections_of(alloc, selected, rest(words, place)) {
        Ok(sections) => of_sections(alloc, call, sections, words),
        Err(fault) => fault_text(alloc, fault),
    }
}

// They or a copy of them with the keys, a copy of the others, the session, or the selected profile.
fn of_sections(
    alloc: Global,
    call: &str,
    sections: &EnvConfigSections,
    words: &[&str],
) -> Mem<String> {
    let (first, second) = (word(words, 0), word(words, 1));
    match call {
        "copy" => sections_text(alloc, &sections.try_clone()?, first),
        "others" => others_text(alloc, &sections.other_sections().try_clone()?, first),
        "session" => session_text(alloc, sections.sso_session(first), second),
        "select" => selected(alloc, sections, second),
        _ => sections_text(alloc, sections, first),
    }
}

// `PATH line NUMBER: MESSAGE`.
pub fn fault_text(alloc: Global, fault: &ParseFault) -> Mem<String> {
    match fault {
        ParseFault::Parse(error) => {
            let (path, number, message) = (&error.path, error.line_number, &error.message);
            let gap = if path.is_empty() { "" } else { " " };
            format!(in alloc; "{path}{gap}line {number}: {message}")
        }
        _ => format!(in alloc; "{fault}"),
    }
}

// What is read of the profile for the keys and the service, and the region of the service, which is its own or else the profile's.
fn chosen(alloc: Global, words: &[&str]) -> Mem<String> {
    let (keys, service) = (word(words, 1), given(word(words, 2)));
    let asked: Vec<&str> = keys.split(' ').collect(alloc)?;
    let source = source_of(alloc, word(words, 0), rest(words, 3))?;
    match &SelectedProfile::parse(alloc, &source, asked.as_slice(), service) {
        Ok(profile) => chosen_text(alloc, profile, keys, service),
        Err(fault) => fault_text(alloc, fault),
    }
}

fn chosen_text(
    alloc: Global,
    profile: &SelectedProfile,
    keys: &str,
    service: Option<&str>,
) -> Mem<String> {
    let mut out = text(alloc, profile.name())?;
    for key in keys.split(' ') {
        push_pair(&mut out, key, profile.get(key).unwrap_or("-"))?;
    }
    if let Some(id) = service {
        push_region(alloc, &mut out, profile, id)?;
    }
    Ok(out)
}

fn push_region(alloc: Global, out: &mut String, profile: &SelectedProfile, id: &str) -> Mem<()> {
    let asked = EnvConfigValue::new().profile("region").service_id(id);
    match &profile.load(alloc, &Env::new(alloc), &asked)? {
        Some((region, _)) => push_pair(out, "region", region.as_str()),
        None => push_pair(out, "region", "-"),
    }
}

fn selected(alloc: Global, sections: &EnvConfigSections, key: &str) -> Mem<String> {
    let (name, value) = (
        sections.selected_profile(),
        sections.get(key).unwrap_or("-"),
    );
    let is_empty = sections.is_empty();
    format!(in alloc; "{name} {key}={value} empty={is_empty}")
}

// The sub-properties of the keys.
fn others_text(alloc: Global, others: &Properties, keys: &str) -> Mem<String> {
    let mut out = String::new(alloc);
    let mut found = Properties::new(alloc);
    for word in keys.split(',') {
        if let Ok(key) = builder_of(alloc, word)?.build() {
            push_other(alloc, &mut out, &mut found, key, others)?;
        }
    }
    push_rest(&mut out, found == *others)?;
    Ok(out)
}

// Appends the key and its value, where it has one, and notes it as found.
fn push_other(
    alloc: Global,
    out: &mut String,
    found: &mut Properties,
    key: PropertiesKey,
    others: &Properties,
) -> Mem<()> {
    let Some(value) = others.get(&key) else {
        return Ok(());
    };
    let gap = if out.is_empty() { "" } else { " " };
    write!(out, "{gap}{key}={value}")?;
    found.insert(key, text(alloc, value)?)
}

// Whether two files with a selected profile each give equal sections.
fn equal(alloc: Global, words: &[&str]) -> Mem<String> {
    match &sections_of(alloc, word(words, 0), &[word(words, 1)]) {
        Ok(sections) => equal_to(alloc, sections, word(words, 2), word(words, 3)),
        Err(fault) => fault_text(alloc, fault),
    }
}

fn equal_to(alloc: Global, sections: &EnvConfigSections, name: &str, file: &str) -> Mem<String> {
    match &sections_of(alloc, name, &[file]) {
        Ok(others) => text(alloc, if sections == others { "yes" } else { "no" }),
        Err(fault) => fault_text(alloc, fault),
    }
}

// A copy of a profile with one property, and the value of the key that is asked for.
fn profile(alloc: Global, words: &[&str]) -> Mem<String> {
    let mut properties = BTreeMap::new(alloc);
    insert_property(alloc, &mut properties, word(words, 1), word(words, 2))?;
    let profile = Profile::new(text(alloc, word(words, 0))?, properties).try_clone()?;
    let mut out = String::new(alloc);
    push_profile(alloc, &mut out, &profile, word(words, 3))?;
    Ok(out)
}

fn property_text(alloc: Global, property: &Property) -> Mem<String> {
    let (key, value) = (property.key(), property.value());
    format!(in alloc; "{key}={value}")
}

// The value of a key in a copy of the session.
fn session_text(alloc: Global, session: Option<&SsoSession>, key: &str) -> Mem<String> {
    match session {
        Some(session) => text(alloc, session.try_clone()?.get(key).unwrap_or("-")),
        None => text(alloc, "no session"),
    }
}

fn file_text(alloc: Global, file: &File) -> Mem<String> {
    let mut out = String::new(alloc);
    push_file(&mut out, file)?;
    Ok(out)
}
