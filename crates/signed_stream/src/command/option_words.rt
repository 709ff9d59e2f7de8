//! The words of a command that has options, most of which have a value, the next word.
ghost use Rattle.std.specs.Prelude.{◌≡◌, ◌≤◌, map};
ghost use Rattle.std.specs.String.{string_bytes};
ghost use Rattle.signed_stream.specs.OptionWords.{ReadsGiven, options_from, spelled_moment};

use job_text::{TakeWord, WordsFault, parse_i64, take_words};
use smithy_core::Moment;

/// Takes the options of a command one by one.
pub trait TakeOption<'a>: Drop {
    ghost use Rattle.std.specs.Prelude.{◌≡◌, Option};
    ghost use Rattle.job_text.specs.Words.{TakesWord};
    ghost use Rattle.signed_stream.specs.OptionWords.{OptionRules};

    /// An option that has a value.
    type Named: Copy;

    // what contracts know of the options so far
    ghost Given: { Type 0 };

    ghost given: { Self → Given };

    ghost rules: { OptionRules Given Self.Named };

    /// The option that a word names, where that has a value.
    fn named(word: &str) -> Option<Self::Named>
        ensures { result ≡ rules.named word.now };

    /// Whether the option stood, where it may stand once.
    fn stood(&self, option: Self::Named) -> bool
        ensures { result ≡ rules.stood (given self.now) option };

    /// Takes the value of an option, which is the word at this place.
    ///
    /// # Errors
    ///
    /// [`WordsFault::BadWord`] with this place where the value is bad.
    fn take_value(
        &mut self,
        option: Self::Named,
        place: usize,
        value: &'a str,
    ) -> Result<(), WordsFault>
        ensures { TakesWord (rules.valued (given self.old) option value.now) place (given self.new) result };

    /// Takes the word at this place, which names no option that has a value.
    ///
    /// # Errors
    ///
    /// [`WordsFault::BadWord`] with this place where it names none without one either, or one that stood.
    fn take_flag(&mut self, place: usize, word: &str) -> Result<(), WordsFault>
        ensures { TakesWord (rules.flagged (given self.old) word.now) place (given self.new) result };
}

/// What the words so far gave, and the option that waits for its value.
#[derive(Drop)]
pub struct OptionWords<T, N> {
    given: T,
    awaited: Option<N>,
}

impl<'a, T: TakeOption<'a>> TakeWord<'a> for OptionWords<T, T::Named> {
    ghost use Rattle.signed_stream.specs.OptionWords.{Awaiting, option_word};

    ghost Given = { Awaiting T.Given T.Named };

    ghost given = { λ words. record { given = T.given words.given; awaited = words.awaited } };

    ghost step = { option_word T.rules };

    fn take_word(&mut self, place: usize, word: &'a str) -> Result<(), WordsFault> {
        if let Some(option) = self.awaited.take() {
            return self.given.take_value(option, place, word);
        }
        let Some(option) = T::named(word) else {
            return self.given.take_flag(place, word);
        };
        if self.given.stood(option) {
            return Err(WordsFault::BadWord(place));
        }
        self.awaited = Some(option);
        Ok(())
    }
}

/// What the options give that words spell, of which the first has this place in the command line; and the place behind the last
/// word.
///
/// # Errors
///
/// [`WordsFault::BadWord`] with the place of the first word that is bad or missing.
pub fn read_options<'a, T: TakeOption<'a>>(
    none: T,
    first: usize,
    words: &'a [String],
) -> Result<(T, usize), WordsFault>
    requires { first ≤ 2 }
    ensures { ReadsGiven T.given (options_from T.rules first (T.given none) (map string_bytes words.now)) result }
{
    let mut read = OptionWords {
        given: none,
        awaited: None,
    };
    let place = take_words(&mut read, first, words)?;
    match read.awaited {
        None => Ok((read.given, place)),
        Some(_) => Err(WordsFault::BadWord(place)),
    }
}

/// The moment whose seconds a word spells.
pub fn parse_moment(word: &str) -> Option<Moment>
    ensures { result ≡ spelled_moment word.now }
{
    Some(Moment::new(parse_i64(word)?, 0))
}
