ghost use Rattle.std.specs.Prelude.{◌≡◌, IfOk, option_copied, option_map, string_bytes};
ghost use Rattle.aws_intercept.specs.Metadata.{ChecksNameVersion, same_name_version};

use crate::user_agent::metadata::{InvalidMetadataValue, is_metadata};
use smithy_core::{Mem, copied_text};
use std::fmt;
use std::marker::Model;

/// A name, and a version where there is one, printed as `NAME` or `NAME/VERSION`.
#[derive(Debug)]
pub(crate) struct NameVersion {
    name: String,
    version: Option<String>,
}

// Written out: a derived drop would be taken apart in the proof of each function that drops one.
impl Drop for NameVersion {
    fn drop(self) {
        let NameVersion { name, version } = self;
        drop(name);
        drop(version);
    }
}

impl Model for NameVersion {
    ghost use Rattle.std.specs.Prelude.{option_map, string_bytes};
    ghost use Rattle.aws_intercept.specs.Metadata.{NameVersion};

    ghost Value = { NameVersion };

    ghost view = { λ named. record { name = string_bytes named.name; version = option_map string_bytes named.version } };
}

impl NameVersion {
    /// The two texts, where metadata can have them.
    pub(crate) fn new(
        name: String,
        version: Option<String>,
    ) -> Result<NameVersion, InvalidMetadataValue>
        ensures { ChecksNameVersion name version result }
    {
        if !is_metadata(name.as_str()) {
            return Err(InvalidMetadataValue);
        }
        if let Some(version) = &version
            && !is_metadata(version.as_str())
        {
            return Err(InvalidMetadataValue);
        }
        Ok(NameVersion { name, version })
    }

    /// The name.
    pub(crate) fn name(&self) -> &str
        ensures { result.now ≡ self.now.name }
    {
        self.name.as_str()
    }

    /// The version, where there is one.
    pub(crate) fn version(&self) -> Option<&str>
        ensures { option_copied result ≡ self.now.version }
    {
        match &self.version {
            Some(version) => Some(version.as_str()),
            None => None,
        }
    }

    /// Whether both texts are the same.
    pub(crate) fn is_same(&self, other: &NameVersion) -> bool
        ensures { result ≡ same_name_version self.now other.now }
    {
        self.name() == other.name() && self.version() == other.version()
    }

    /// Equal texts.
    pub(crate) fn try_clone(&self) -> Mem<NameVersion>
        ensures { IfOk result (λ copy. copy ≡ self.now) }
    {
        Ok(NameVersion {
            name: self.name.clone()?,
            version: copied_text(&self.version)?,
        })
    }
}

impl fmt::Display for NameVersion {
    ghost use Rattle.std.specs.Prelude.{Some};
    ghost use Rattle.aws_intercept.specs.Metadata.{name_version_text};

    ghost output = { λ named. Some (name_version_text named) };

    fn fmt<W: fmt::Write>(&self, f: &mut fmt::Formatter<W>) -> fmt::Result {
        let name = &self.name;
        match &self.version {
            Some(version) => write!(f, "{name}/{version}"),
            None => write!(f, "{name}"),
        }
    }
}
