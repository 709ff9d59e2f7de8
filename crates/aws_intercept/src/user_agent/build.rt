ghost use Rattle.std.specs.Prelude.{IfOk};
ghost use Rattle.aws_intercept.specs.Build.{IsSameBuild};

use crate::user_agent::metadata::AdditionalMetadata;
use smithy_core::Mem;
use std::fmt;

/// A family of operating systems, printed in lower case.
#[derive(Clone, Copy, Debug, PartialEq, Eq)]
pub enum OsFamily {
    Windows,
    Linux,
    Macos,
    Android,
    Ios,
    Other,
}

impl fmt::Display for OsFamily {
    ghost use Rattle.std.specs.Prelude.{Some};
    ghost use Rattle.aws_intercept.specs.Build.{family_text};

    ghost output = { λ family. Some (family_text family) };

    fn fmt<W: fmt::Write>(&self, f: &mut fmt::Formatter<W>) -> fmt::Result {
        f.write_str(match self {
            OsFamily::Windows => "windows",
            OsFamily::Linux => "linux",
            OsFamily::Macos => "macos",
            OsFamily::Android => "android",
            OsFamily::Ios => "ios",
            OsFamily::Other => "other",
        })
    }
}

/// What the user agent says of how a program was built.
#[derive(Debug, Drop)]
pub struct BuildMetadata {
    /// The version of the SDK's core.
    pub core_version: String,
    /// The version of the language.
    pub rust_version: String,
    /// The family of the operating system.
    pub os_family: OsFamily,
    /// More, if there is more to say.
    pub extra: Option<AdditionalMetadata>,
}

impl BuildMetadata {
    /// Equal metadata.
    pub fn try_clone(&self) -> Mem<BuildMetadata>
        ensures { IfOk result (IsSameBuild self.now) }
    {
        let extra = match &self.extra {
            Some(extra) => Some(extra.try_clone()?),
            None => None,
        };
        Ok(BuildMetadata {
            core_version: self.core_version.clone()?,
            rust_version: self.rust_version.clone()?,
            os_family: self.os_family,
            extra,
        })
    }
}
