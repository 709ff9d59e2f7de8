use crate::digest::Digest;
use env_config::{EnvConfigFileKind, EnvConfigSections, File, Source};
use std::alloc::{AllocError, Global};

/// So many profiles of five properties take some 100 KB.
const PROFILES: u32 = 587;

/// Parses a profile file so many times.
pub fn parsed(alloc: Global, count: u32) -> anyhow::Result<Digest> {
    let source = example_source(alloc)?;
    let mut digest = Digest::new();
    for _ in 0..count {
        digest = with_region(alloc, digest, &source)?;
    }
    Ok(digest)
}

// The digest of the region more that a profile has.
fn with_region(alloc: Global, digest: Digest, source: &Source) -> anyhow::Result<Digest> {
    let sections = EnvConfigSections::parse(alloc, source)?;
    Ok(digest.with(sections.get("region").unwrap_or("").as_bytes()))
}

fn example_source(alloc: Global) -> Result<Source, AllocError> {
    let mut files = Vec::new(alloc);
    files.push(File {
        kind: EnvConfigFileKind::Config,
        path: None,
        contents: example_text(alloc)?,
    })?;
    Ok(Source {
        files,
        profile: String::from_str(alloc, "team-7")?,
    })
}

fn example_text(alloc: Global) -> Result<String, AllocError> {
    let mut text = String::new(alloc);
    for number in 0..PROFILES {
        let profile = format!(in alloc;
            "[profile team-{number}]\nregion = eu-west-{number}\noutput = json\naws_access_key_id = AKIDEXAMPLE{number}\naws_secret_access_key = wJalrXUtnFEMI/K7MDENG+bPxRfiCYEXAMPLEKEY\nmax_attempts = 3\n"
        )?;
        text.push_str(profile.as_str())?;
    }
    Ok(text)
}
