ghost use Rattle.std.specs.Prelude.{◌≡◌, IfOk, option_map};
ghost use Rattle.std.specs.String.{string_bytes};
ghost use Rattle.env_config.specs.PropertiesKey.{BuildsKey, key_of, key_parts, names_of};

use smithy_core::{Mem, copied_text};
use std::fmt;

/// What stands before the name of a section, and the name.
#[derive(Debug, PartialEq, Eq, PartialOrd, Ord, Hash, Drop)]
pub struct SectionNames {
    section_key: String,
    section_name: String,
}

impl SectionNames {
    /// This name behind this prefix.
    pub fn new(section_key: String, section_name: String) -> SectionNames
        ensures { names_of result ≡ (string_bytes section_key, string_bytes section_name) }
    {
        SectionNames {
            section_key,
            section_name,
        }
    }

    // An equal name.
    fn try_clone(&self) -> Mem<SectionNames>
        ensures { IfOk result (λ copy. names_of copy ≡ names_of self.now) }
    {
        Ok(SectionNames {
            section_key: self.section_key.clone()?,
            section_name: self.section_name.clone()?,
        })
    }
}

impl Clone for SectionNames {
    ghost use Rattle.std.specs.Prelude.{◌≡◌};
    ghost use Rattle.env_config.specs.PropertiesKey.{names_of};

    ghost is_clone = { λ name copy. names_of copy ≡ names_of name };

    fn clone(&self) -> Mem<SectionNames> {
        self.try_clone()
    }
}

/// Where a property of a section that is neither profile nor session stands.
#[derive(Debug, PartialEq, Eq, PartialOrd, Ord, Hash, Drop)]
pub struct PropertiesKey {
    section: SectionNames,
    property_name: String,
    sub_property_name: Option<String>,
}

impl PropertiesKey {
    pub(crate) fn new(
        section_key: String,
        section_name: String,
        property_name: String,
        sub_property_name: Option<String>,
    ) -> PropertiesKey
        ensures { key_of result ≡ record { section_key = string_bytes section_key; section_name = string_bytes section_name; property_name = string_bytes property_name; sub_property_name = option_map string_bytes sub_property_name } }
    {
        PropertiesKey {
            section: SectionNames::new(section_key, section_name),
            property_name,
            sub_property_name,
        }
    }

    // The names of the section, of the property and of the sub-property.
    pub(crate) fn into_parts(self) -> (SectionNames, String, Option<String>)
        ensures { key_of self ≡ record { section_key = (names_of result.0).0; section_name = (names_of result.0).1; property_name = string_bytes result.1; sub_property_name = option_map string_bytes result.2 } }
    {
        (self.section, self.property_name, self.sub_property_name)
    }

    // The names of the section.
    pub(crate) fn section(&self) -> &SectionNames
        ensures { names_of result.now ≡ ((key_of self.now).section_key, (key_of self.now).section_name) }
    {
        &self.section
    }

    // The name of the property.
    pub(crate) fn property_name(&self) -> &str
        ensures { result.now ≡ (key_of self.now).property_name }
    {
        self.property_name.as_str()
    }

    // The name of the sub-property.
    pub(crate) fn sub_property_name(&self) -> &Option<String>
        ensures { option_map string_bytes result.now ≡ (key_of self.now).sub_property_name }
    {
        &self.sub_property_name
    }

    /// A builder with no parts.
    pub fn builder() -> PropertiesKeyBuilder
        ensures { key_parts result ≡ record { section_key = None; section_name = None; property_name = None; sub_property_name = None } }
    {
        PropertiesKeyBuilder {
            section_key: None,
            section_name: None,
            property_name: None,
            sub_property_name: None,
        }
    }

    /// An equal key.
    pub fn try_clone(&self) -> Mem<PropertiesKey>
        ensures { IfOk result (λ copy. key_of copy ≡ key_of self.now) }
    {
        Ok(PropertiesKey {
            section: self.section.try_clone()?,
            property_name: self.property_name.clone()?,
            sub_property_name: copied_text(&self.sub_property_name)?,
        })
    }
}

impl Clone for PropertiesKey {
    ghost use Rattle.std.specs.Prelude.{◌≡◌};
    ghost use Rattle.env_config.specs.PropertiesKey.{key_of};

    ghost is_clone = { λ key copy. key_of copy ≡ key_of key };

    fn clone(&self) -> Mem<PropertiesKey> {
        self.try_clone()
    }
}

impl fmt::Display for PropertiesKey {
    ghost use Rattle.std.specs.Prelude.{Some};
    ghost use Rattle.env_config.specs.PropertiesKey.{key_text};

    ghost output = { λ key. Some (key_text key) };

    fn fmt<W: fmt::Write>(&self, f: &mut fmt::Formatter<W>) -> fmt::Result {
        let prefix = self.section.section_key.as_str();
        let name = self.section.section_name.as_str();
        let property = self.property_name.as_str();
        match &self.sub_property_name {
            Some(sub) => write!(f, "[{prefix} {name}].{property}.{sub}"),
            None => write!(f, "[{prefix} {name}].{property}"),
        }
    }
}

/// The parts of a [`PropertiesKey`].
#[derive(Debug)]
pub struct PropertiesKeyBuilder {
    section_key: Option<String>,
    section_name: Option<String>,
    property_name: Option<String>,
    sub_property_name: Option<String>,
}

// Written out: a derived drop would be taken apart in the proof of each function that drops one.
impl Drop for PropertiesKeyBuilder {
    fn drop(self) {
        let PropertiesKeyBuilder {
            section_key,
            section_name,
            property_name,
            sub_property_name,
        } = self;
        drop(section_key);
        drop(section_name);
        drop(property_name);
        drop(sub_property_name);
    }
}

impl PropertiesKeyBuilder {
    /// Sets what stands before the section's name, as `services`.
    pub fn section_key(mut self, section_key: String) -> PropertiesKeyBuilder
        ensures { key_parts result ≡ record (key_parts self) { section_key = Some (string_bytes section_key) } }
    {
        self.section_key = Some(section_key);
        self
    }

    /// Sets the section's name.
    pub fn section_name(mut self, section_name: String) -> PropertiesKeyBuilder
        ensures { key_parts result ≡ record (key_parts self) { section_name = Some (string_bytes section_name) } }
    {
        self.section_name = Some(section_name);
        self
    }

    /// Sets the property's name.
    pub fn property_name(mut self, property_name: String) -> PropertiesKeyBuilder
        ensures { key_parts result ≡ record (key_parts self) { property_name = Some (string_bytes property_name) } }
    {
        self.property_name = Some(property_name);
        self
    }

    /// Sets the sub-property's name.
    pub fn sub_property_name(mut self, sub_property_name: String) -> PropertiesKeyBuilder
        ensures { key_parts result ≡ record (key_parts self) { sub_property_name = Some (string_bytes sub_property_name) } }
    {
        self.sub_property_name = Some(sub_property_name);
        self
    }

    /// An equal builder.
    pub fn try_clone(&self) -> Mem<PropertiesKeyBuilder>
        ensures { IfOk result (λ copy. key_parts copy ≡ key_parts self.now) }
    {
        Ok(PropertiesKeyBuilder {
            section_key: copied_text(&self.section_key)?,
            section_name: copied_text(&self.section_name)?,
            property_name: copied_text(&self.property_name)?,
            sub_property_name: copied_text(&self.sub_property_name)?,
        })
    }

    /// The key.
    ///
    /// # Errors
    ///
    /// The first part that is missing of section key, section name and property name.
    pub fn build(self) -> Result<PropertiesKey, PropertiesKeyFault>
        ensures { BuildsKey self result }
    {
        let PropertiesKeyBuilder {
            section_key,
            section_name,
            property_name,
            sub_property_name,
        } = self;
        let Some(section_key) = section_key else {
            return Err(PropertiesKeyFault::SectionKey);
        };
        let Some(section_name) = section_name else {
            return Err(PropertiesKeyFault::SectionName);
        };
        let Some(property_name) = property_name else {
            return Err(PropertiesKeyFault::PropertyName);
        };
        Ok(PropertiesKey {
            section: SectionNames {
                section_key,
                section_name,
            },
            property_name,
            sub_property_name,
        })
    }
}

/// The part that a [`PropertiesKey`] lacks.
#[derive(Clone, Copy, Debug, PartialEq, Eq)]
pub enum PropertiesKeyFault {
    /// What stands before the section's name.
    SectionKey,
    /// The section's name.
    SectionName,
    /// The property's name.
    PropertyName,
}

impl fmt::Display for PropertiesKeyFault {
    ghost use Rattle.std.specs.Prelude.{Some};
    ghost use Rattle.env_config.specs.PropertiesKey.{key_fault_text};

    ghost output = { λ fault. Some (key_fault_text fault) };

    fn fmt<W: fmt::Write>(&self, f: &mut fmt::Formatter<W>) -> fmt::Result {
        match self {
            PropertiesKeyFault::SectionKey => f.write_str("A section_key is required"),
            PropertiesKeyFault::SectionName => f.write_str("A section_name is required"),
            PropertiesKeyFault::PropertyName => f.write_str("A property_name is required"),
        }
    }
}

impl std::error::Error for PropertiesKeyFault {}
