//! The words of a command line.
ghost use Rattle.std.specs.Prelude.{◌≤◌, map};
ghost use Rattle.std.specs.String.{string_bytes};
ghost use Rattle.job_text.specs.Pieces.{taken_from};
ghost use Rattle.job_text.specs.Words.{TakesWords};

use std::alloc::AllocError;

/// Why words spell no command.
#[derive(Clone, Copy, Debug, PartialEq, Eq)]
pub enum WordsFault {
    /// The word at this place is bad; places count from 1.
    BadWord(usize),
    NoMemory,
}

impl From<AllocError> for WordsFault {
    ghost use Rattle.std.specs.Prelude.{◌≡◌};
    ghost use Rattle.job_text.specs.declared.words.WordsFault.TheVariants.{NoMemory};

    ghost from_gives = { λ _ fault. fault ≡ NoMemory };

    fn from(_e: AllocError) -> WordsFault {
        WordsFault::NoMemory
    }
}

/// Takes the words of a command one by one.
pub trait TakeWord<'a> {
    ghost use Rattle.std.specs.Prelude.{ℕ, List, Option};
    ghost use Rattle.job_text.specs.Words.{TakesWord};

    // what contracts know of the words so far
    ghost Given: { Type 0 };

    ghost given: { Self → Given };

    // what a word does, where it isn't bad
    ghost step: { Given → List ℕ → Option Given };

    /// The word at a place.
    ///
    /// # Errors
    ///
    /// [`WordsFault::BadWord`] with this place where it is bad.
    fn take_word(&mut self, place: usize, word: &'a str) -> Result<(), WordsFault>
        ensures { TakesWord (step (given self.old) word.now) place (given self.new) result };
}

/// Takes words, of which the first has this place in the command line: 1, or 2 behind a command's name. Answers the place behind
/// the last one.
///
/// # Errors
///
/// [`WordsFault::BadWord`] with the place of the first word that is bad.
pub fn take_words<'a, W: TakeWord<'a>>(
    given: &mut W,
    first: usize,
    words: &'a [String],
) -> Result<usize, WordsFault>
    requires { first ≤ 2 }
    ensures { TakesWords (taken_from W.step first (W.given given.old) (map string_bytes words.now)) (W.given given.new) result }
{
    let mut place = first;
    for word in words {
        given.take_word(place, word.as_str())?;
        place += 1;
    }
    Ok(place)
}
