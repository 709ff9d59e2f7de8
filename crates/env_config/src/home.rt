ghost use Rattle.std.specs.Prelude.{◌≡◌, IfOk, option_map};
ghost use Rattle.std.specs.String.{string_bytes};
ghost use Rattle.env_config.specs.Home.{home, windows_home};
ghost use Rattle.env_config.specs.declared.home.Os.TheVariants.{Unix};

use crate::text::joined;
use smithy_core::{Env, Mem};
use std::alloc::Global;

/// The system whose variables name the home directory.
#[derive(Clone, Copy, Debug, PartialEq, Eq)]
pub enum Os {
    /// `HOME`, then `USERPROFILE`, then `HOMEDRIVE` with `HOMEPATH`.
    Windows,
    /// `HOME` alone.
    Unix,
}

impl Os {
    /// The system that programs run on: Unix.
    pub fn real() -> Os
        ensures { result ≡ Unix }
    {
        Os::Unix
    }
}

/// The home directory, if a variable names it.
pub fn home_dir(alloc: Global, env: &Env, os: Os) -> Mem<Option<String>>
    ensures { IfOk result (λ dir. option_map string_bytes dir ≡ home env.now os) }
{
    if let Some(home) = env.get("HOME") {
        return Ok(Some(String::from_str(alloc, home)?));
    }
    match os {
        Os::Windows => windows_dir(alloc, env),
        Os::Unix => Ok(None),
    }
}

// The profile of the user, or the drive with the path on it.
fn windows_dir(alloc: Global, env: &Env) -> Mem<Option<String>>
    ensures { IfOk result (λ dir. option_map string_bytes dir ≡ windows_home env.now) }
{
    if let Some(profile) = env.get("USERPROFILE") {
        return Ok(Some(String::from_str(alloc, profile)?));
    }
    match (env.get("HOMEDRIVE"), env.get("HOMEPATH")) {
        (Some(drive), Some(path)) => Ok(Some(joined(alloc, drive, path)?)),
        _ => Ok(None),
    }
}
