use crate::texts::{given_text, push_visible, text};
use env_config::{EnvConfigFileKind, EnvConfigSections, File, ParseFault, Source};
use smithy_core::Mem;
use std::alloc::Global;

// The sections of the files `KIND: TEXT` or `KIND PATH: TEXT`.
pub fn sections_of(
    alloc: Global,
    selected: &str,
    files: &[&str],
) -> Result<EnvConfigSections, ParseFault> {
    let source = source_of(alloc, selected, files)?;
    EnvConfigSections::parse(alloc, &source)
}

// These files, with a profile selected.
pub fn source_of(alloc: Global, selected: &str, words: &[&str]) -> Mem<Source> {
    let mut files = Vec::new(alloc);
    for word in words {
        files.push(file_of(alloc, word)?)?;
    }
    let profile = text(alloc, selected)?;
    Ok(Source { files, profile })
}

// The file `KIND: TEXT` or `KIND PATH: TEXT`.
pub fn file_of(alloc: Global, word: &str) -> Mem<File> {
    let (place, contents) = word.split_once(": ").unwrap_or((word, ""));
    let (kind, path) = place.split_once(' ').unwrap_or((place, "-"));
    let path = given_text(alloc, path)?;
    let contents = text(alloc, contents)?;
    Ok(File {
        kind: kind_of(kind),
        path,
        contents,
    })
}

pub fn kind_of(word: &str) -> EnvConfigFileKind {
    match word {
        "credentials" => EnvConfigFileKind::Credentials,
        _ => EnvConfigFileKind::Config,
    }
}

// The profile and the files of a source, as words give them.
pub fn source_text(alloc: Global, source: &Source) -> Mem<String> {
    let profile = source.profile.as_str();
    let mut out = format!(in alloc; "profile {profile}")?;
    for file in &source.files {
        out.push_str(" | ")?;
        push_file(&mut out, file)?;
    }
    Ok(out)
}

// Appends the file as a word gives it.
pub fn push_file(out: &mut String, file: &File) -> Mem<()> {
    out.push_str(match file.kind {
        EnvConfigFileKind::Config => "config",
        EnvConfigFileKind::Credentials => "credentials",
    })?;
    if let Some(path) = &file.path {
        write!(out, " {path}")?;
    }
    out.push_str(": ")?;
    push_visible(out, file.contents.as_str())
}
