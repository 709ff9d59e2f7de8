//! Lines, and the words in them.
ghost use Rattle.std.specs.Prelude.{◌≡◌, ◌<◌, ◌==◌, ◌+◌, ◌∷◌, count_by, length};
ghost use Rattle.smithy_core.specs.Text.{line_feed};
ghost use Rattle.job_text.specs.Lines.{TakesLines, GivesLines, after_word_of, header_of_line, job_lines, text_lines, texts_of_pair, word_of};
ghost use Rattle.job_text.specs.Pieces.{taken_from};

use crate::fault::{JobFault, LineFault};
use std::alloc::Global;

/// Takes a text line by line.
pub trait TakeLine {
    ghost use Rattle.std.specs.Prelude.{ℕ, List, Option};
    ghost use Rattle.job_text.specs.Lines.{Moves};

    // what contracts know of the lines so far
    ghost Draft: { Type 0 };

    ghost draft: { Self → Draft };

    // what a line does, where it isn't bad
    ghost step: { Draft → List ℕ → Option Draft };

    /// A line.
    ///
    /// # Errors
    ///
    /// [`LineFault::Bad`] where it is bad.
    fn take_line(&mut self, alloc: Global, line: &str) -> Result<(), LineFault>
        ensures { Moves (step (draft self.old) line.now) (draft self.new) result };
}

/// Takes the lines of a text, and answers the place behind the last one; places count from 1.
///
/// # Errors
///
/// [`JobFault::BadLine`] at the first line that is bad.
pub fn take_lines<D: TakeLine>(alloc: Global, draft: &mut D, text: &str) -> Result<usize, JobFault>
    ensures { TakesLines (taken_from D.step 1 (D.draft draft.old) (job_lines text.now)) (D.draft draft.new) result }
{
    let mut place = 1;
    let mut rest = text;
    while !rest.is_empty() {
        let (line, others) = cut_line(rest);
        if let Err(fault) = draft.take_line(alloc, line) {
            return Err(fault.at(place));
        }
        rest = others;
        place += 1;
    }
    Ok(place)
}

/// The bytes as text.
///
/// # Errors
///
/// [`JobFault::BadLine`] at the line of the first byte that isn't UTF-8.
#[tactic(auto, unfolding(crate::specs::Lines::text_lines))]
pub fn text_of(bytes: &[u8]) -> Result<&str, JobFault>
    ensures { GivesLines (text_lines bytes.now) result }
{
    match std::str::from_utf8(bytes) {
        Ok(text) => Ok(text),
        Err(e) => Err(JobFault::BadLine(count_lf(&bytes[..e.valid_up_to()]) + 1)),
    }
}

fn count_lf(bytes: &[u8]) -> usize
    ensures { result ≡ count_by (λ b. b == line_feed) bytes.now }
{
    bytes.iter().filter(|b| **b == b'\n').count()
}

/// The first line, and what stands after it.
#[tactic(auto, using(crate::proofs::LineLemmas::lines))]
pub fn cut_line(text: &str) -> (&str, &str)
    requires { 0 < length text.now }
    ensures lines { job_lines text.now ≡ result.0.now ∷ job_lines result.1.now }
    ensures shorter { length result.1.now < length text.now }
{
    match text.split_once('\n') {
        Some(parts) => parts,
        None => (text, ""),
    }
}

/// What stands before the first space, or all, and what stands after it, or nothing.
pub fn cut_word(line: &str) -> (&str, &str)
    ensures word { result.0.now ≡ word_of line.now }
    ensures rest { result.1.now ≡ after_word_of line.now }
{
    match line.split_once(' ') {
        Some(parts) => parts,
        None => (line, ""),
    }
}

/// What stands before the first `: `, and what stands after it.
pub fn cut_pair(text: &str) -> Option<(&str, &str)>
    ensures { texts_of_pair result ≡ header_of_line text.now }
{
    text.split_once(": ")
}
