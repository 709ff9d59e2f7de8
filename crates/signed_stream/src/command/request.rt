//! The words of a program that reads a job without events.
ghost use Rattle.std.specs.Prelude.{◌≡◌, map};
ghost use Rattle.std.specs.String.{string_bytes};
ghost use Rattle.signed_stream.specs.RequestWords.{GivesMoment, ReadsRequestWords, all_request_words, at_or_place, no_request_given, request_given, request_wanted, request_words};

use crate::command::option_words::{TakeOption, parse_moment, read_options};
use crate::command::profile::{ProfileOption, ProfileOptions};
use job_text::WordsFault;
use smithy_core::Moment;
use std::alloc::Global;

/// What the words of a program ask for that reads a job without events.
#[derive(Debug, Drop)]
pub struct RequestWords<'a> {
    /// The name of the service.
    pub name: &'a str,
    /// The moment, where the words name one.
    pub at: Option<Moment>,
    /// What is asked of profiles.
    pub profile: ProfileOptions<'a>,
}

impl RequestWords<'_> {
    /// The moment, for a program that needs the words to name it; the place is that after the last word.
    ///
    /// # Errors
    ///
    /// [`WordsFault::BadWord`] with the place where there is none.
    pub fn moment(&self, place: usize) -> Result<Moment, WordsFault>
        ensures { GivesMoment (at_or_place place (request_wanted self.now).at) result }
    {
        self.at.ok_or(WordsFault::BadWord(place))
    }
}

/// An option.
#[derive(Clone, Copy, Debug)]
pub enum RequestOption {
    Name,
    At,
    OfProfile(ProfileOption),
}

/// What the options so far gave.
#[derive(Drop)]
pub struct GivenRequest<'a> {
    name: Option<&'a str>,
    at: Option<Moment>,
    profile: ProfileOptions<'a>,
}

impl<'a> GivenRequest<'a> {
    /// No options.
    pub fn new(alloc: Global) -> Self
        ensures { request_given result ≡ no_request_given }
    {
        GivenRequest {
            name: None,
            at: None,
            profile: ProfileOptions::new(alloc),
        }
    }

    /// What is asked, where the place after the last word is reached.
    pub fn finish(self, place: usize) -> Result<RequestWords<'a>, WordsFault>
        ensures { let given = request_given self.entry in ReadsRequestWords (all_request_words place given) result }
    {
        match self.name {
            Some(name) => Ok(RequestWords {
                name,
                at: self.at,
                profile: self.profile,
            }),
            None => Err(WordsFault::BadWord(place)),
        }
    }
}

impl<'a> TakeOption<'a> for GivenRequest<'a> {
    ghost use Rattle.std.specs.Prelude.{◌≡◌};
    ghost use Rattle.signed_stream.specs.RequestWords.{RequestGiven, request_given, request_option, request_rules};

    type Named = RequestOption;

    ghost Given = { RequestGiven };

    ghost given = { request_given };

    ghost rules = { request_rules };

    fn named(word: &str) -> Option<RequestOption>
        ensures { result ≡ request_option word.now }
    {
        match word {
            "--name" => Some(RequestOption::Name),
            "--at" => Some(RequestOption::At),
            _ => Some(RequestOption::OfProfile(ProfileOption::named(word)?)),
        }
    }

    fn stood(&self, option: RequestOption) -> bool {
        match option {
            RequestOption::Name => self.name.is_some(),
            RequestOption::At => self.at.is_some(),
            RequestOption::OfProfile(option) => self.profile.has(option),
        }
    }

    fn take_value(
        &mut self,
        option: RequestOption,
        place: usize,
        value: &'a str,
    ) -> Result<(), WordsFault> {
        match option {
            RequestOption::Name => self.name = Some(value),
            RequestOption::At => {
                self.at = Some(parse_moment(value).ok_or(WordsFault::BadWord(place))?)
            },
            RequestOption::OfProfile(option) => self.profile.take(option, value)?,
        }
        Ok(())
    }

    fn take_flag(&mut self, place: usize, _word: &str) -> Result<(), WordsFault> {
        Err(WordsFault::BadWord(place))
    }
}

/// What the words behind the program's name ask for: `--name NAME`, which is required, `--at N`, `--service-id ID`, `--config PATH`
/// and `--credentials PATH`, each at most once and in any order.
///
/// # Errors
///
/// The place of the first bad word.
#[tactic(auto, unfolding(crate::specs::RequestWords::request_words))]
pub fn read_request_words<'a>(
    alloc: Global,
    words: &'a [String],
) -> Result<RequestWords<'a>, WordsFault>
    ensures { ReadsRequestWords (request_words (map string_bytes words.now)) result }
{
    let (given, place) = read_options(GivenRequest::new(alloc), 1, words)?;
    given.finish(place)
}
