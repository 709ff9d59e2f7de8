//! Settings of profile files.
use env_config::{EnvConfigFiles, EnvConfigSections, load};
use smithy_core::{Disk, Env};
use std::alloc::Global;

/// The region that the default files of a disk set for the profile that `AWS_PROFILE` selects, or else for `default`.
pub fn region_of<D: Disk>(
    alloc: Global,
    env: &Env,
    disk: &mut D,
) -> anyhow::Result<Option<String>> {
    let sections = sections_of(alloc, env, disk)?;
    copied(alloc, sections.get("region"))
}

fn sections_of<D: Disk>(
    alloc: Global,
    env: &Env,
    disk: &mut D,
) -> anyhow::Result<EnvConfigSections> {
    let files = EnvConfigFiles::default_files(alloc)?;
    let source = load(alloc, env, disk, &files)?;
    Ok(EnvConfigSections::parse(alloc, &source)?)
}

fn copied(alloc: Global, value: Option<&str>) -> anyhow::Result<Option<String>> {
    match value {
        Some(value) => Ok(Some(String::from_str(alloc, value)?)),
        None => Ok(None),
    }
}
