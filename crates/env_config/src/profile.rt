ghost use Rattle.std.specs.Prelude.{◌≡◌, IfOk, option_copied};
ghost use Rattle.std.specs.String.{string_bytes};
ghost use Rattle.smithy_core.specs.TextPairs.{lower};
ghost use Rattle.env_config.specs.Profile.{profile_section, session_section};
ghost use Rattle.env_config.specs.Section.{IsSameSection, section_contents, section_of};
ghost use Rattle.env_config.specs.SectionProperties.{contents_of, values_of};
ghost use Rattle.env_config.specs.Texts.{value_under};

use crate::property::Property;
use crate::section::{Section, SectionKind};
use crate::section_properties::SectionProperties;
use smithy_core::Mem;
use std::collections::BTreeMap;
use std::fmt;

/// A profile. [`Debug`](std::fmt::Debug) prints its name and how many properties it has, since their values may be secrets.
#[derive(PartialEq, Eq, Drop)]
pub struct Profile {
    section: Section,
}

impl Profile {
    /// This name with these properties by their keys.
    pub fn new(name: String, properties: BTreeMap<String, Property>) -> Profile
        ensures section { section_of (profile_section result) ≡ record { name = string_bytes name; properties = values_of properties.entries } }
        ensures contents { section_contents (profile_section result) ≡ contents_of properties.entries }
    {
        Profile {
            section: Section::new(name, SectionProperties::given(properties)),
        }
    }

    /// The name.
    pub fn name(&self) -> &str
        ensures { result.now ≡ (section_of (profile_section self.now)).name }
    {
        self.section.name()
    }

    /// The value of a key, in whatever case the key is given.
    pub fn get(&self, name: &str) -> Option<&str>
        ensures { option_copied result ≡ value_under (section_of (profile_section self.now)).properties (lower name.now) }
    {
        self.section.get(name)
    }

    /// An equal profile.
    pub fn try_clone(&self) -> Mem<Profile>
        ensures { IfOk result (λ copy. IsSameSection (profile_section self.now) (profile_section copy)) }
    {
        let section = self.section.try_clone()?;
        Ok(Profile { section })
    }
}

impl fmt::Debug for Profile {
    ghost use Rattle.std.specs.Prelude.{Some, codes, length};
    ghost use Rattle.env_config.specs.Profile.{profile_section};
    ghost use Rattle.env_config.specs.Section.{section_of, section_shown};

    ghost debug_output = { λ profile. Some (section_shown (codes "Profile") (section_of (profile_section profile)).name (length (section_of (profile_section profile)).properties)) };

    fn fmt<W: fmt::Write>(&self, f: &mut fmt::Formatter<W>) -> fmt::Result {
        let (name, count) = (self.section.name(), self.section.len());
        write!(f, "Profile({name}, {count} properties)")
    }
}

impl Clone for Profile {
    ghost is_clone = { λ profile copy. IsSameSection (profile_section profile) (profile_section copy) };

    fn clone(&self) -> Mem<Profile> {
        self.try_clone()
    }
}

impl SectionKind for Profile {
    ghost held = { profile_section };

    fn of_section(section: Section) -> Profile {
        Profile { section }
    }

    fn into_section(self) -> Section {
        self.section
    }
}

/// A session of single sign-on. [`Debug`](std::fmt::Debug) prints its name and how many properties it has, since their
/// values may be secrets.
#[derive(PartialEq, Eq, Drop)]
pub struct SsoSession {
    section: Section,
}

impl SsoSession {
    /// The value of a key, in whatever case the key is given.
    pub fn get(&self, name: &str) -> Option<&str>
        ensures { option_copied result ≡ value_under (section_of (session_section self.now)).properties (lower name.now) }
    {
        self.section.get(name)
    }

    /// An equal session.
    pub fn try_clone(&self) -> Mem<SsoSession>
        ensures { IfOk result (λ copy. IsSameSection (session_section self.now) (session_section copy)) }
    {
        let section = self.section.try_clone()?;
        Ok(SsoSession { section })
    }
}

impl fmt::Debug for SsoSession {
    ghost use Rattle.std.specs.Prelude.{Some, codes, length};
    ghost use Rattle.env_config.specs.Profile.{session_section};
    ghost use Rattle.env_config.specs.Section.{section_of, section_shown};

    ghost debug_output = { λ session. Some (section_shown (codes "SsoSession") (section_of (session_section session)).name (length (section_of (session_section session)).properties)) };

    fn fmt<W: fmt::Write>(&self, f: &mut fmt::Formatter<W>) -> fmt::Result {
        let (name, count) = (self.section.name(), self.section.len());
        write!(f, "SsoSession({name}, {count} properties)")
    }
}

impl Clone for SsoSession {
    ghost is_clone = { λ session copy. IsSameSection (session_section session) (session_section copy) };

    fn clone(&self) -> Mem<SsoSession> {
        self.try_clone()
    }
}

impl SectionKind for SsoSession {
    ghost held = { session_section };

    fn of_section(section: Section) -> SsoSession {
        SsoSession { section }
    }

    fn into_section(self) -> Section {
        self.section
    }
}
