use crate::parts::part_of;
use crate::texts::{debugged, printed, text, word};
use aws_intercept::{ApiMetadata, BuildMetadata, OsFamily};
use smithy_core::Mem;
use std::alloc::Global;

// What a copy of the metadata prints, or the refusal.
pub fn answer(alloc: Global, call: &str, words: &[&str]) -> Mem<String> {
    let first = word(words, 0);
    match call {
        "api" => printed(alloc, api_of(alloc, first, word(words, 1))),
        "family" => printed(alloc, Ok(family_of(first))),
        "build" => build_text(alloc, &build_of(alloc, family_of(first))?),
        _ => part_text(alloc, call, words),
    }
}

fn part_text(alloc: Global, kind: &str, words: &[&str]) -> Mem<String> {
    match part_of(alloc, kind, words) {
        Ok(part) => printed(alloc, Ok(part)),
        Err(fault) => debugged(alloc, Ok(fault)),
    }
}

// A copy of the metadata of these texts.
pub fn api_of(alloc: Global, service: &str, version: &str) -> Mem<ApiMetadata> {
    let service = text(alloc, service)?;
    ApiMetadata::new(service, text(alloc, version)?).try_clone()
}

fn family_of(word: &str) -> OsFamily {
    match word {
        "Windows" => OsFamily::Windows,
        "Linux" => OsFamily::Linux,
        "Macos" => OsFamily::Macos,
        "Android" => OsFamily::Android,
        "Ios" => OsFamily::Ios,
        _ => OsFamily::Other,
    }
}

// The build that the agents of these cases say.
pub fn build_of(alloc: Global, os_family: OsFamily) -> Mem<BuildMetadata> {
    let core_version = text(alloc, "0.1")?;
    Ok(BuildMetadata {
        core_version,
        rust_version: text(alloc, "1.50.0")?,
        os_family,
        extra: None,
    })
}

// The parts of a copy of a build.
fn build_text(alloc: Global, build: &BuildMetadata) -> Mem<String> {
    let copy = build.try_clone()?;
    let (core, rust, family) = (&copy.core_version, &copy.rust_version, copy.os_family);
    format!(in alloc; "{core} {rust} {family}")
}
