ghost use Rattle.std.specs.Prelude.{◌≡◌, map};
ghost use Rattle.std.specs.List.{list_all};
ghost use Rattle.env_config.specs.Sections.{has_profile_default, heading_of, is_identifier, is_identifier_byte, is_profile_default, is_taken_from};
ghost use Rattle.env_config.specs.Heading.{heading_seen};
ghost use Rattle.env_config.specs.Latest.{form_of};

use crate::line::trim;
use crate::source::EnvConfigFileKind;

/// The name of a section, and the prefix before it where there is one.
#[derive(Clone, Copy, Debug)]
pub struct Heading<'a> {
    pub prefix: Option<&'a str>,
    pub name: &'a str,
}

/// Whether a section's name stands behind a prefix.
#[derive(Clone, Copy, Debug, PartialEq, Eq)]
pub enum HeadingForm {
    /// No prefix.
    Bare,
    /// A prefix before the name.
    Prefixed,
}

impl<'a> Heading<'a> {
    /// What the text between the brackets names.
    #[tactic(auto, unfolding(crate::specs::Sections::heading_of))]
    pub fn of(text: &'a str) -> Heading<'a>
        ensures { heading_seen result ≡ heading_of text.now }
    {
        let text = trim(text);
        match text.split_once([' ', '\t']) {
            Some((prefix, name)) => Heading {
                prefix: Some(trim(prefix)),
                name: trim(name),
            },
            None => Heading {
                prefix: None,
                name: text,
            },
        }
    }

    /// Whether it has a prefix.
    pub fn form(&self) -> HeadingForm
        ensures { result ≡ form_of (heading_seen self.now).prefix }
    {
        match self.prefix {
            Some(_) => HeadingForm::Prefixed,
            None => HeadingForm::Bare,
        }
    }

    /// Whether it is `[profile default]`.
    pub fn is_profile_default(&self) -> bool
        ensures { result ≡ is_profile_default (heading_seen self.now).prefix (heading_seen self.now).name }
    {
        match self.prefix {
            Some(prefix) => prefix == "profile" && self.name == "default",
            None => false,
        }
    }

    /// Whether the section counts in a file of this kind, given whether that has `[profile default]`.
    pub fn is_taken_from(&self, kind: EnvConfigFileKind, overridden: bool) -> bool
        ensures { result ≡ is_taken_from kind overridden (heading_seen self.now).prefix (heading_seen self.now).name }
    {
        match (kind, self.prefix) {
            (EnvConfigFileKind::Config, None) => self.name == "default" && !overridden,
            (EnvConfigFileKind::Config, Some(_)) => is_identifier(self.name),
            (EnvConfigFileKind::Credentials, None) => is_identifier(self.name),
            (EnvConfigFileKind::Credentials, Some(_)) => false,
        }
    }
}

/// Whether some section is `[profile default]`.
pub fn has_profile_default(names: &[&str]) -> bool
    ensures { result ≡ has_profile_default (map (λ name. name.now) names.now) }
{
    for name in names {
        if Heading::of(name).is_profile_default() {
            return true;
        }
    }
    false
}

/// Whether the text has letters, digits and `_-/.%@:+` alone.
#[tactic(auto, unfolding(crate::specs::Sections::is_identifier))]
pub fn is_identifier(text: &str) -> bool
    ensures { result ≡ is_identifier text.now }
{
    has_identifier_bytes(text.as_bytes())
}

fn has_identifier_bytes(bytes: &[u8]) -> bool
    ensures { result ≡ list_all is_identifier_byte bytes.now }
{
    bytes.iter().all(|b| is_identifier_byte(*b))
}

fn is_identifier_byte(b: u8) -> bool
    ensures { result ≡ is_identifier_byte b }
{
    b.is_ascii_alphanumeric() || matches!(b, b'_' | b'-' | b'/' | b'.' | b'%' | b'@' | b':' | b'+')
}
