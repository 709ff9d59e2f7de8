ghost use Rattle.std.specs.Prelude.{◌≡◌, ◌&&◌, bytes_eq, map};
ghost use Rattle.std.specs.List.{list_any};
ghost use Rattle.smithy_core.specs.TextPairs.{lower};
ghost use Rattle.env_config.specs.Heading.{heading_seen};
ghost use Rattle.env_config.specs.Kept.{has_heading, is_kept_profile, is_kept_sub, keeps_of};

use crate::heading::Heading;
use smithy_core::is_lower_of;

/// Which sections of a text are kept, which of their keys, and which sub-properties.
#[derive(Clone, Copy)]
pub enum Kept<'a> {
    /// All sections with all keys.
    All,
    /// Of the sections of one profile these keys, whatever their case, and `services`.
    Profile {
        name: &'a str,
        keys: &'a [&'a str],
    },
    /// Of the services sections of one name the property of one service, and the sub-properties with these names.
    Services {
        name: &'a str,
        service: &'a str,
        sub_properties: &'a [&'a str],
    },
}

impl<'a> Kept<'a> {
    /// Whether the section with this text between its brackets is kept.
    pub fn has_section(&self, text: &str) -> bool
        ensures { result ≡ (keeps_of self.now).section text.now }
    {
        match self {
            Kept::All => true,
            Kept::Profile { name, .. } => is_kept_profile(&Heading::of(text), name),
            Kept::Services { name, .. } => has_heading(&Heading::of(text), "services", name),
        }
    }

    /// Whether the property with this key is kept.
    pub fn has_key(&self, key: &str) -> bool
        ensures { result ≡ (keeps_of self.now).key key.now }
    {
        match self {
            Kept::All => true,
            Kept::Profile { keys, .. } => key == "services" || is_one_of(key, keys),
            Kept::Services { service, .. } => key == *service,
        }
    }

    /// Whether the sub-property with this name is kept.
    pub fn has_sub_property(&self, name: &str) -> bool
        ensures { result ≡ (keeps_of self.now).sub name.now }
    {
        match self {
            Kept::All | Kept::Profile { .. } => true,
            Kept::Services { sub_properties, .. } => is_among(name, sub_properties),
        }
    }
}

// `[profile default]` is kept too, since it decides whether `[default]` is taken.
fn is_kept_profile(heading: &Heading<'_>, name: &str) -> bool
    ensures { result ≡ is_kept_profile name.now (heading_seen heading.now) }
{
    has_heading(heading, "profile", name) || heading.is_profile_default()
}

/// Whether the section has this prefix and this name. One without prefix is a profile.
pub fn has_heading(heading: &Heading<'_>, prefix: &str, name: &str) -> bool
    ensures { result ≡ has_heading prefix.now name.now (heading_seen heading.now) }
{
    heading.prefix.unwrap_or("profile") == prefix && heading.name == name
}

// Whether the text is one of the keys in lower case.
fn is_one_of(text: &str, keys: &[&str]) -> bool
    ensures { result ≡ list_any (λ k. bytes_eq text.now (lower k)) (map (λ k. k.now) keys.now) }
{
    for key in keys {
        if is_lower_of(text, key) {
            return true;
        }
    }
    false
}

// Whether the text is one of these.
fn is_among(text: &str, texts: &[&str]) -> bool
    ensures { result ≡ is_kept_sub (map (λ t. t.now) texts.now) text.now }
{
    for other in texts {
        if text == *other {
            return true;
        }
    }
    false
}
