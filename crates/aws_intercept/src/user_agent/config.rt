ghost use Rattle.std.specs.Prelude.{◌≡◌, IfOk};
ghost use Rattle.aws_intercept.specs.Metadata.{ChecksNameVersion};

use crate::user_agent::metadata::InvalidMetadataValue;
use crate::user_agent::name_version::NameVersion;
use smithy_core::Mem;
use std::fmt;
use std::marker::Model;

/// A value of the configuration, printed as `cfg/NAME` or `cfg/NAME/VERSION`. No agent keeps it.
///
/// Contracts see its name and its version.
#[derive(Debug)]
pub struct ConfigMetadata {
    named: NameVersion,
}

// Written out: a derived drop would be taken apart in the proof of each function that drops one.
impl Drop for ConfigMetadata {
    fn drop(self) {
        let ConfigMetadata { named } = self;
        drop(named);
    }
}

impl Model for ConfigMetadata {
    ghost use Rattle.aws_intercept.specs.Metadata.{NameVersion};

    ghost Value = { NameVersion };

    ghost view = { λ config. config.named };
}

impl ConfigMetadata {
    /// The value of this name and this version.
    ///
    /// # Errors
    ///
    /// [`InvalidMetadataValue`] exactly where one of them holds a character that metadata can't have.
    pub fn new(
        name: String,
        version: Option<String>,
    ) -> Result<ConfigMetadata, InvalidMetadataValue>
        ensures { ChecksNameVersion name version result }
    {
        let named = NameVersion::new(name, version)?;
        Ok(ConfigMetadata { named })
    }

    /// Equal metadata.
    pub fn try_clone(&self) -> Mem<ConfigMetadata>
        ensures { IfOk result (λ copy. copy ≡ self.now) }
    {
        let named = self.named.try_clone()?;
        Ok(ConfigMetadata { named })
    }
}

impl fmt::Display for ConfigMetadata {
    ghost use Rattle.std.specs.Prelude.{Some};
    ghost use Rattle.aws_intercept.specs.Metadata.{config_text};

    ghost output = { λ config. Some (config_text config) };

    fn fmt<W: fmt::Write>(&self, f: &mut fmt::Formatter<W>) -> fmt::Result {
        let named = &self.named;
        write!(f, "cfg/{named}")
    }
}
