//! The words of `check`.
ghost use Rattle.std.specs.Prelude.{◌≡◌};
ghost use Rattle.signed_stream.specs.Command.{check_words, no_check_given};
ghost use Rattle.signed_stream.specs.Options.{ReadsCheck, check_given};

use crate::command::option_words::TakeOption;
use crate::command::profile::{ProfileOption, ProfileOptions};
use job_text::WordsFault;
use std::alloc::Global;

/// What `check` is asked for.
#[derive(Debug, Drop)]
pub struct CheckWords<'a> {
    /// The name of the service.
    pub name: &'a str,
    /// What is asked of profiles.
    pub profile: ProfileOptions<'a>,
}

/// An option of `check`.
#[derive(Clone, Copy, Debug)]
pub enum CheckOption {
    Name,
    OfProfile(ProfileOption),
}

/// What the options of `check` so far gave.
#[derive(Drop)]
pub struct GivenCheck<'a> {
    name: Option<&'a str>,
    profile: ProfileOptions<'a>,
}

impl<'a> GivenCheck<'a> {
    /// No options.
    pub fn new(alloc: Global) -> Self
        ensures { check_given result ≡ no_check_given }
    {
        GivenCheck {
            name: None,
            profile: ProfileOptions::new(alloc),
        }
    }

    /// What is asked, where the place after the last word is reached.
    pub fn finish(self, place: usize) -> Result<CheckWords<'a>, WordsFault>
        ensures { let given = check_given self.entry in ReadsCheck (check_words place given) result }
    {
        match self.name {
            Some(name) => Ok(CheckWords {
                name,
                profile: self.profile,
            }),
            None => Err(WordsFault::BadWord(place)),
        }
    }
}

impl<'a> TakeOption<'a> for GivenCheck<'a> {
    ghost use Rattle.std.specs.Prelude.{◌≡◌};
    ghost use Rattle.signed_stream.specs.Command.{CheckGiven, check_option, check_rules};
    ghost use Rattle.signed_stream.specs.Options.{check_given};

    type Named = CheckOption;

    ghost Given = { CheckGiven };

    ghost given = { check_given };

    ghost rules = { check_rules };

    fn named(word: &str) -> Option<CheckOption>
        ensures { result ≡ check_option word.now }
    {
        match word {
            "--name" => Some(CheckOption::Name),
            _ => Some(CheckOption::OfProfile(ProfileOption::named(word)?)),
        }
    }

    fn stood(&self, option: CheckOption) -> bool {
        match option {
            CheckOption::Name => self.name.is_some(),
            CheckOption::OfProfile(option) => self.profile.has(option),
        }
    }

    fn take_value(
        &mut self,
        option: CheckOption,
        _place: usize,
        value: &'a str,
    ) -> Result<(), WordsFault> {
        match option {
            CheckOption::Name => self.name = Some(value),
            CheckOption::OfProfile(option) => self.profile.take(option, value)?,
        }
        Ok(())
    }

    fn take_flag(&mut self, place: usize, _word: &str) -> Result<(), WordsFault> {
        Err(WordsFault::BadWord(place))
    }
}
