ghost use Rattle.std.specs.Prelude.{◌≡◌, [], ◌∷◌, ◌++◌, IfOk};
ghost use Rattle.aws_intercept.specs.Metadata.{ChecksFeature};

use crate::user_agent::additional::copied_additional;
use crate::user_agent::metadata::{AdditionalMetadata, InvalidMetadataValue};
use crate::user_agent::name_version::NameVersion;
use smithy_core::Mem;
use std::alloc::Global;
use std::fmt;
use std::marker::Model;

/// A feature of the SDK, printed as `ft/NAME` or `ft/NAME/VERSION`, and each additional value after a space. No agent
/// keeps it.
///
/// Contracts see its name, its version and the additional values.
#[derive(Debug)]
pub struct FeatureMetadata {
    named: NameVersion,
    additional: Vec<AdditionalMetadata>,
}

// Written out: a derived drop would be taken apart in the proof of each function that drops one.
impl Drop for FeatureMetadata {
    fn drop(self) {
        let FeatureMetadata { named, additional } = self;
        drop(named);
        drop(additional);
    }
}

impl Model for FeatureMetadata {
    ghost use Rattle.aws_intercept.specs.Metadata.{Feature};

    ghost Value = { Feature };

    ghost view = { λ feature. record { named = feature.named; additional = feature.additional.items } };
}

impl FeatureMetadata {
    /// The feature of this name and this version, with no additional value.
    ///
    /// # Errors
    ///
    /// [`InvalidMetadataValue`] exactly where one of them holds a character that metadata can't have.
    pub fn new(
        alloc: Global,
        name: String,
        version: Option<String>,
    ) -> Result<FeatureMetadata, InvalidMetadataValue>
        ensures { ChecksFeature name version result }
    {
        let named = NameVersion::new(name, version)?;
        Ok(FeatureMetadata {
            named,
            additional: Vec::new(alloc),
        })
    }

    /// The feature with this additional value, after the others.
    pub fn with_additional(mut self, metadata: AdditionalMetadata) -> Mem<FeatureMetadata>
        ensures { IfOk result (λ feature. feature ≡ record self { additional = self.additional ++ metadata ∷ [] }) }
    {
        self.additional.push(metadata)?;
        Ok(self)
    }

    /// Equal metadata.
    pub fn try_clone(&self) -> Mem<FeatureMetadata>
        ensures { IfOk result (λ copy. copy ≡ self.now) }
    {
        Ok(FeatureMetadata {
            named: self.named.try_clone()?,
            additional: copied_additional(
                *self.additional.allocator(),
                self.additional.as_slice(),
            )?,
        })
    }
}

impl fmt::Display for FeatureMetadata {
    ghost use Rattle.std.specs.Prelude.{Some};
    ghost use Rattle.aws_intercept.specs.Metadata.{feature_text};

    ghost output = { λ feature. Some (feature_text feature) };

    fn fmt<W: fmt::Write>(&self, f: &mut fmt::Formatter<W>) -> fmt::Result {
        let named = &self.named;
        write!(f, "ft/{named}")?;
        for metadata in &self.additional {
            write!(f, " {metadata}")?;
        }
        Ok(())
    }
}
