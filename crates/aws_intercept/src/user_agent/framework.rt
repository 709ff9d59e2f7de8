ghost use Rattle.std.specs.Prelude.{◌≡◌, IfOk, option_copied};
ghost use Rattle.aws_intercept.specs.Metadata.{ChecksNameVersion};

use crate::user_agent::metadata::InvalidMetadataValue;
use crate::user_agent::name_version::NameVersion;
use smithy_core::Mem;
use std::fmt;
use std::marker::Model;

/// A framework that stands on the SDK, printed as `lib/NAME` or `lib/NAME/VERSION`.
///
/// Contracts see its name and its version.
#[derive(Debug)]
pub struct FrameworkMetadata {
    named: NameVersion,
}

// Written out: a derived drop would be taken apart in the proof of each function that drops one.
impl Drop for FrameworkMetadata {
    fn drop(self) {
        let FrameworkMetadata { named } = self;
        drop(named);
    }
}

impl Model for FrameworkMetadata {
    ghost use Rattle.aws_intercept.specs.Metadata.{NameVersion};

    ghost Value = { NameVersion };

    ghost view = { λ framework. framework.named };
}

impl FrameworkMetadata {
    /// The framework of this name and this version.
    ///
    /// # Errors
    ///
    /// [`InvalidMetadataValue`] exactly where one of them holds a character that metadata can't have.
    pub fn new(
        name: String,
        version: Option<String>,
    ) -> Result<FrameworkMetadata, InvalidMetadataValue>
        ensures { ChecksNameVersion name version result }
    {
        let named = NameVersion::new(name, version)?;
        Ok(FrameworkMetadata { named })
    }

    /// The name.
    pub fn name(&self) -> &str
        ensures { result.now ≡ self.now.name }
    {
        self.named.name()
    }

    /// The version, where there is one.
    pub fn version(&self) -> Option<&str>
        ensures { option_copied result ≡ self.now.version }
    {
        self.named.version()
    }

    /// Equal metadata.
    pub fn try_clone(&self) -> Mem<FrameworkMetadata>
        ensures { IfOk result (λ copy. copy ≡ self.now) }
    {
        let named = self.named.try_clone()?;
        Ok(FrameworkMetadata { named })
    }
}

impl PartialEq for FrameworkMetadata {
    ghost use Rattle.std.specs.Cmp.{and_per, on_per, partial_equiv_from_equiv};
    ghost use Rattle.std.specs.Cmp.Lexicographic.{nat_list_eq_equiv, options_equiv};
    ghost use Rattle.aws_intercept.specs.Metadata.{same_name_version};

    ghost eq = { same_name_version };

    ghost laws = { and_per (on_per (λ named. named.name) (partial_equiv_from_equiv nat_list_eq_equiv))
        (on_per (λ named. named.version) (partial_equiv_from_equiv (options_equiv nat_list_eq_equiv))) };

    fn eq(&self, other: &FrameworkMetadata) -> bool {
        self.named.is_same(&other.named)
    }
}

impl fmt::Display for FrameworkMetadata {
    ghost use Rattle.std.specs.Prelude.{Some};
    ghost use Rattle.aws_intercept.specs.Metadata.{framework_text};

    ghost output = { λ framework. Some (framework_text framework) };

    fn fmt<W: fmt::Write>(&self, f: &mut fmt::Formatter<W>) -> fmt::Result {
        let named = &self.named;
        write!(f, "lib/{named}")
    }
}
