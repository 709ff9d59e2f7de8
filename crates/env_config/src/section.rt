ghost use Rattle.std.specs.Prelude.{◌≡◌, length, IfOk, option_copied};
ghost use Rattle.std.specs.String.{string_bytes};
ghost use Rattle.smithy_core.specs.TextPairs.{lower};
ghost use Rattle.env_config.specs.Section.{IsSameSection, section_contents, section_of};
ghost use Rattle.env_config.specs.SectionProperties.{property_values};
ghost use Rattle.env_config.specs.Texts.{value_under};
ghost use Rattle.env_config.specs.declared.section.Section.{Section as Held};

use crate::section_properties::SectionProperties;
use smithy_core::Mem;

/// Properties by their keys, under a name.
#[derive(PartialEq, Eq, Drop)]
pub struct Section {
    name: String,
    properties: SectionProperties,
}

impl Section {
    /// This name with these properties by their keys.
    pub fn new(name: String, properties: SectionProperties) -> Section
        ensures section { section_of result ≡ record { name = string_bytes name; properties = property_values properties } }
        ensures contents { section_contents result ≡ properties }
    {
        Section { name, properties }
    }

    /// The name.
    pub fn name(&self) -> &str
        ensures { result.now ≡ (section_of self.now).name }
    {
        self.name.as_str()
    }

    /// The value of a key, in whatever case the key is given.
    pub fn get(&self, name: &str) -> Option<&str>
        ensures { option_copied result ≡ value_under (section_of self.now).properties (lower name.now) }
    {
        self.properties.get(name)
    }

    /// How many properties there are.
    pub fn len(&self) -> usize
        ensures { result ≡ length (section_of self.now).properties }
    {
        self.properties.len()
    }

    /// An equal section.
    pub fn try_clone(&self) -> Mem<Section>
        ensures { IfOk result (IsSameSection self.now) }
    {
        Ok(Section {
            name: self.name.clone()?,
            properties: self.properties.try_clone()?,
        })
    }

    /// The properties by their keys.
    pub fn into_properties(self) -> SectionProperties
        ensures { result ≡ self.properties }
    {
        self.properties
    }
}

/// A profile or a session: a section, as a type of its own.
pub trait SectionKind: Drop {
    ghost held: { Self → Held };

    /// The profile or the session of this section.
    fn of_section(section: Section) -> Self
        ensures { held result ≡ section };

    /// Its section.
    fn into_section(self) -> Section
        ensures { result ≡ held self };
}
