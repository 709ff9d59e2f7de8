use crate::forms::Forms;
use crate::repeats::{are_repeats, written_once};
use crate::words::{are_escapes, case_of, words_of};
use std::alloc::{AllocError, Global};
use std::io;
use std::process::ExitCode;

/// The calls of a program of cases.
pub trait Answers {
    /// The answer of the call that the first word names, for the other words as its arguments.
    fn answer(&self, alloc: Global, words: &[&str]) -> Result<String, AllocError>;
}

/// Runs the case in each line of standard input, says on standard error the number of each line that is of no form and of
/// each whose answer isn't the wanted one, and prints how many cases there were. The status is a failure where it said one.
pub fn run_cases<A: Answers>(rt: HostRuntime, answers: &A) -> io::Result<ExitCode> {
    let mut forms = Forms::new(rt.alloc());
    let (mut place, mut count) = (0u32, 0u32);
    let mut status = ExitCode::SUCCESS;
    for line in rt.lines(rt.alloc()) {
        let line = line?;
        place = place.saturating_add(1);
        if let Some(form) = line.as_str().strip_prefix("form\t") {
            forms.push(rt.alloc(), form)?;
        } else if let Some((case, want)) = case_of(line.as_str()) {
            count = count.saturating_add(1);
            let found = answered(rt.alloc(), answers, &forms, case)?;
            if !is_wanted(&rt, place, case, want, &found)? {
                status = ExitCode::FAILURE;
            }
        }
    }
    println!(rt; "{count} cases")?;
    Ok(status)
}

// Whether an answer was found that is the wanted one, or else says what is there.
fn is_wanted<R: Eprint>(
    rt: &R,
    place: u32,
    case: &str,
    want: &str,
    found: &Option<String>,
) -> io::Result<bool> {
    match found {
        Some(found) if found.as_str() == want => return Ok(true),
        Some(found) => eprintln!(rt; "line {place}: {case}: wanted {want}, found {found}")?,
        None => eprintln!(rt; "line {place}: of no form: {case}")?,
    }
    Ok(false)
}

// The answer of a case, or none of one that is of no form.
fn answered<A: Answers>(
    alloc: Global,
    answers: &A,
    forms: &Forms,
    case: &str,
) -> Result<Option<String>, AllocError> {
    if !are_escapes(case) || !are_repeats(case) || !has_form(alloc, forms, case)? {
        return Ok(None);
    }
    answer_of(alloc, answers, case).map(Some)
}

// Whether a case, with each repeat written once, is of one of the forms.
fn has_form(alloc: Global, forms: &Forms, case: &str) -> Result<bool, AllocError> {
    let case = written_once(alloc, case)?;
    let words = words_of(alloc, case.as_str())?;
    let words: Vec<&str> = words.iter().map(|word| word.as_str()).collect(alloc)?;
    Ok(forms.allow(words.as_slice()))
}

// The answer of a case, whose escapes are read.
fn answer_of<A: Answers>(alloc: Global, answers: &A, case: &str) -> Result<String, AllocError> {
    let words = words_of(alloc, case)?;
    let words: Vec<&str> = words.iter().map(|word| word.as_str()).collect(alloc)?;
    answers.answer(alloc, words.as_slice())
}
