//! The words of `watch`.
ghost use Rattle.std.specs.Prelude.{◌≡◌, map};
ghost use Rattle.std.specs.String.{string_bytes};
ghost use Rattle.signed_stream.specs.WatchWords.{ReadsWatch, no_watch_given, read_after_watch, watch_given, watch_words};

use crate::command::option_words::{TakeOption, read_options};
use crate::command::profile::{ProfileOption, ProfileOptions};
use job_text::WordsFault;
use sigv4::parts::is_signature;
use std::alloc::Global;

/// What `watch` is asked for.
#[derive(Debug, Drop)]
pub struct WatchWords<'a> {
    /// The name of the service.
    pub name: &'a str,
    /// The signature that the first frame is signed over, in 64 digits in lower case.
    pub seed: &'a str,
    /// What is asked of profiles.
    pub profile: ProfileOptions<'a>,
}

/// An option of `watch`.
#[derive(Clone, Copy, Debug)]
pub enum WatchOption {
    Name,
    Seed,
    OfProfile(ProfileOption),
}

/// What the options of `watch` so far gave.
#[derive(Drop)]
pub struct GivenWatch<'a> {
    name: Option<&'a str>,
    seed: Option<&'a str>,
    profile: ProfileOptions<'a>,
}

impl<'a> GivenWatch<'a> {
    /// No options.
    pub fn new(alloc: Global) -> Self
        ensures { watch_given result ≡ no_watch_given }
    {
        GivenWatch {
            name: None,
            seed: None,
            profile: ProfileOptions::new(alloc),
        }
    }

    /// What is asked, where the place after the last word is reached.
    pub fn finish(self, place: usize) -> Result<WatchWords<'a>, WordsFault>
        ensures { let given = watch_given self.entry in ReadsWatch (watch_words place given) result }
    {
        match (self.name, self.seed) {
            (Some(name), Some(seed)) => Ok(WatchWords {
                name,
                seed,
                profile: self.profile,
            }),
            _ => Err(WordsFault::BadWord(place)),
        }
    }
}

impl<'a> TakeOption<'a> for GivenWatch<'a> {
    ghost use Rattle.std.specs.Prelude.{◌≡◌};
    ghost use Rattle.signed_stream.specs.WatchWords.{WatchGiven, watch_given, watch_option, watch_rules};

    type Named = WatchOption;

    ghost Given = { WatchGiven };

    ghost given = { watch_given };

    ghost rules = { watch_rules };

    fn named(word: &str) -> Option<WatchOption>
        ensures { result ≡ watch_option word.now }
    {
        match word {
            "--name" => Some(WatchOption::Name),
            "--seed" => Some(WatchOption::Seed),
            _ => Some(WatchOption::OfProfile(ProfileOption::named(word)?)),
        }
    }

    fn stood(&self, option: WatchOption) -> bool {
        match option {
            WatchOption::Name => self.name.is_some(),
            WatchOption::Seed => self.seed.is_some(),
            WatchOption::OfProfile(option) => self.profile.has(option),
        }
    }

    fn take_value(
        &mut self,
        option: WatchOption,
        place: usize,
        value: &'a str,
    ) -> Result<(), WordsFault> {
        match option {
            WatchOption::Name => self.name = Some(value),
            WatchOption::Seed if !is_signature(value) => return Err(WordsFault::BadWord(place)),
            WatchOption::Seed => self.seed = Some(value),
            WatchOption::OfProfile(option) => self.profile.take(option, value)?,
        }
        Ok(())
    }

    fn take_flag(&mut self, place: usize, _word: &str) -> Result<(), WordsFault> {
        Err(WordsFault::BadWord(place))
    }
}

/// What the words behind `watch` ask for.
///
/// # Errors
///
/// The place of the first bad word.
pub fn read_watch<'a>(alloc: Global, words: &'a [String]) -> Result<WatchWords<'a>, WordsFault>
    ensures { ReadsWatch (read_after_watch (map string_bytes words.now)) result }
{
    let (given, place) = read_options(GivenWatch::new(alloc), 2, words)?;
    given.finish(place)
}
