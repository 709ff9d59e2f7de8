use crate::files::{kind_of, source_text};
use crate::texts::{debugged, env_of, printed, text, word};
use env_config::{BuildFault, Builder, EnvConfigFileKind, EnvConfigFiles, load};
use smithy_core::{CalmDisk, Disk, FaultyDisk, Mem};
use std::alloc::Global;
use tool_case_lines::bytes_of_hex;

// What loading from a disk gives, or of `fail` from one of which these reads fail.
pub fn answer(alloc: Global, call: &str, words: &[&str]) -> Mem<String> {
    match call {
        "fail" => {
            let fails = reads_of(alloc, word(words, 0))?;
            let mut disk = FaultyDisk::new(disk_of(alloc, word(words, 3))?, fails);
            loaded(alloc, word(words, 1), word(words, 2), &mut disk)
        }
        _ => {
            let mut disk = CalmDisk::new(disk_of(alloc, word(words, 2))?);
            loaded(alloc, word(words, 0), word(words, 1), &mut disk)
        }
    }
}

// The files `PATH=TEXT` or `PATH=0xDIGITS`, with blanks between.
fn disk_of(alloc: Global, files: &str) -> Mem<Vec<(String, Vec<u8>)>> {
    let mut listed = Vec::new(alloc);
    for file in files.split(' ') {
        if let Some((path, contents)) = file.split_once('=') {
            let path = text(alloc, path)?;
            listed.push((path, bytes_of(alloc, contents)?))?;
        }
    }
    Ok(listed)
}

fn bytes_of(alloc: Global, contents: &str) -> Mem<Vec<u8>> {
    match contents.strip_prefix("0x") {
        Some(digits) => bytes_of_hex(alloc, digits),
        None => Vec::from_slice(alloc, contents.as_bytes()),
    }
}

// The numbers of the reads that fail.
fn reads_of(alloc: Global, reads: &str) -> Mem<Vec<u64>> {
    let mut fails = Vec::new(alloc);
    for number in reads.split(' ') {
        if let Ok(number) = number.parse() {
            fails.push(number)?;
        }
    }
    Ok(fails)
}

// The profile and the files that are loaded, or the fault.
fn loaded<D: Disk>(alloc: Global, steps: &str, variables: &str, disk: &mut D) -> Mem<String> {
    let env = env_of(alloc, variables)?;
    match chosen(alloc, steps) {
        Ok(files) => match load(alloc, &env, disk, &files) {
            Ok(source) => source_text(alloc, &source),
            Err(fault) => printed(alloc, Ok(fault)),
        },
        Err(fault) => debugged(alloc, Ok(fault)),
    }
}

// The files that the steps choose, ` + ` between, or the default ones.
fn chosen(alloc: Global, steps: &str) -> Result<EnvConfigFiles, BuildFault> {
    match steps {
        "default" => Ok(EnvConfigFiles::default_files(alloc)?),
        "copy of default" => Ok(EnvConfigFiles::default_files(alloc)?.try_clone()?),
        _ => stepped(alloc, steps)?.try_clone()?.build(),
    }
}

// A builder after these steps, ` + ` between.
pub fn stepped(alloc: Global, steps: &str) -> Mem<Builder> {
    let mut builder = EnvConfigFiles::builder(alloc);
    for step in steps.split(" + ") {
        if let Some((kind, what)) = step.split_once(' ') {
            builder = with_step(alloc, builder, kind_of(kind), what)?;
        }
    }
    Ok(builder)
}

// `default`, `at PATH` or `text TEXT`.
fn with_step(alloc: Global, builder: Builder, kind: EnvConfigFileKind, what: &str) -> Mem<Builder> {
    match (what.split_once(' '), kind) {
        (Some(("at", path)), _) => builder.with_file(kind, text(alloc, path)?),
        (Some((_, contents)), _) => builder.with_contents(kind, text(alloc, contents)?),
        (None, EnvConfigFileKind::Config) => Ok(builder.include_default_config_file(true)),
        (None, EnvConfigFileKind::Credentials) => {
            Ok(builder.include_default_credentials_file(true))
        }
    }
}
