//! The texts of profile files that an input holds.
ghost use Rattle.std.specs.Prelude.{◌≡◌, OnOk, option_map};
ghost use Rattle.std.specs.String.{string_bytes};
ghost use Rattle.job_text.specs.Lines.{Moves};
ghost use Rattle.job_text.specs.ProfileTexts.{ReadsTexts, no_texts, profile_step, profile_texts, texts_of, with_line};

use crate::fault::{JobFault, LineFault};
use crate::lines::{TakeLine, cut_word, take_lines, text_of};
use smithy_core::Mem;
use std::alloc::Global;

/// The texts of profile files that an input holds, each from its first line on. [`Debug`](std::fmt::Debug) isn't
/// there, so that no secret is printed.
#[derive(Drop)]
pub struct ProfileTexts {
    /// The text of a config file.
    pub config: Option<String>,
    /// The text of a credentials file.
    pub credentials: Option<String>,
}

impl ProfileTexts {
    /// No texts yet.
    pub fn new() -> ProfileTexts
        ensures { texts_of result ≡ no_texts }
    {
        ProfileTexts {
            config: None,
            credentials: None,
        }
    }

    /// A line of this word and this rest, where the word names a text: the rest is one more line of it.
    ///
    /// # Errors
    ///
    /// [`LineFault::Bad`] where the word names none.
    #[tactic(auto, unfolding(crate::specs::ProfileTexts::profile_step))]
    pub fn take_text(&mut self, alloc: Global, word: &str, rest: &str) -> Result<(), LineFault>
        ensures { Moves (profile_step (texts_of self.old) word.now rest.now) (texts_of self.new) result }
    {
        match word {
            "config" => Ok(push_line(alloc, &mut self.config, rest)?),
            "credentials" => Ok(push_line(alloc, &mut self.credentials, rest)?),
            _ => Err(LineFault::Bad),
        }
    }
}

impl TakeLine for ProfileTexts {
    ghost use Rattle.job_text.specs.ProfileTexts.{ProfileTexts, texts_line_step, texts_of};

    ghost Draft = { ProfileTexts };

    ghost draft = { texts_of };

    ghost step = { texts_line_step };

    // A line of an input that has nothing else; an empty one does nothing.
    #[tactic(auto, unfolding(crate::specs::ProfileTexts::texts_line_step))]
    fn take_line(&mut self, alloc: Global, line: &str) -> Result<(), LineFault> {
        if line.is_empty() {
            return Ok(());
        }
        let (word, rest) = cut_word(line);
        self.take_text(alloc, word, rest)
    }
}

// Appends a line to the text, which begins with its first one.
fn push_line(alloc: Global, text: &mut Option<String>, line: &str) -> Mem<()>
    ensures { OnOk result (option_map string_bytes text.new ≡ with_line (option_map string_bytes text.old) line.now) }
{
    let text = text.get_or_insert(String::new(alloc));
    text.push_str(line)?;
    text.push('\n')?;
    Ok(())
}

/// The texts of profile files that the bytes spell, which have nothing else. The bytes go once these are read.
///
/// # Errors
///
/// As those of [`read_job`].
#[tactic(auto, unfolding(crate::specs::ProfileTexts::profile_texts))]
pub fn take_profile_texts(alloc: Global, bytes: Vec<u8>) -> Result<ProfileTexts, JobFault>
    ensures { ReadsTexts (profile_texts bytes.items) result }
{
    let text = text_of(bytes.as_slice())?;
    let mut texts = ProfileTexts::new();
    take_lines(alloc, &mut texts, text)?;
    Ok(texts)
}
