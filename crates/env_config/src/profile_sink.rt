ghost use Rattle.std.specs.Prelude.{◌≡◌, None};
ghost use Rattle.env_config.specs.Latest.{group_of};
ghost use Rattle.env_config.specs.ProfileSink.{StandsForProfile};
ghost use Rattle.env_config.specs.Sections.{heading_of};
ghost use Rattle.env_config.specs.Texts.{nothing_named};

use crate::heading::{Heading, HeadingForm};
use crate::kept::has_heading;
use crate::latest::Latest;
use crate::reader::Sink;
use smithy_core::Mem;
use std::alloc::Global;

/// Keeps the values of a profile that count.
#[derive(Drop)]
pub struct ProfileSink<'t, 'p> {
    profile: &'p str,
    latest: Latest<'t>,
    /// The place of the section that is open, and the form of its heading, where it is one of the profile.
    place: usize,
    group: Option<HeadingForm>,
}

impl<'t, 'p> ProfileSink<'t, 'p> {
    /// No values of this profile.
    pub fn new(alloc: Global, profile: &'p str) -> ProfileSink<'t, 'p>
        ensures { StandsForProfile result profile.now None nothing_named }
    {
        ProfileSink {
            profile,
            latest: Latest::new(alloc),
            place: 0,
            group: None,
        }
    }

    /// The values, where the text is over.
    pub fn into_latest(self) -> Latest<'t>
        ensures { result ≡ self.entry.latest }
    {
        self.latest
    }
}

impl<'t, 'p> Sink<'t> for ProfileSink<'t, 'p> {
    ghost use Rattle.env_config.specs.ProfileSink.{StandsForProfile};

    ghost stands = { StandsForProfile };

    fn open(&mut self, _alloc: Global, name: &'t str) -> Mem<()> {
        let place = self.latest.place_of(name)?;
        let group = group_of(self.profile, name);
        self.place = place;
        self.group = group;
        Ok(())
    }

    fn put(&mut self, key: String, value: String) -> Mem<()> {
        match self.group {
            Some(group) => self.latest.put(group, self.place, key, value),
            None => Ok(()),
        }
    }
}

// The form of the section's heading, where it is one of the profile.
fn group_of(profile: &str, name: &str) -> Option<HeadingForm>
    ensures { result ≡ group_of profile.now (heading_of name.now) }
{
    let heading = Heading::of(name);
    if has_heading(&heading, "profile", profile) {
        Some(heading.form())
    } else {
        None
    }
}
