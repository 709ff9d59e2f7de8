//! The job of an operation: the lines of a job without events, and then those of replies.
ghost use Rattle.std.specs.Prelude.{◌≡◌, IfOk, option_map};
ghost use Rattle.std.specs.String.{string_bytes};
ghost use Rattle.job_text.specs.OperationJob.{GivesReplyLine, ReadsOperation, operation_job, spelled_code, spelled_date, spelled_reply, spelled_status};

use crate::fault::{JobFault, LineFault};
use crate::lines::{TakeLine, cut_word, take_lines, text_of};
use crate::numbers::parse_u64;
use crate::request_lines::{RequestDraft, RequestJob};
use smithy_core::Mem;
use std::alloc::Global;

/// A reply as its line spells it.
#[derive(Debug, Drop)]
pub struct ReplyLine {
    /// The status, 100 to 999.
    pub status: u16,
    /// The code of the reply's error, where it is one.
    pub code: Option<String>,
    /// The text of the header `date`, where there is one.
    pub date: Option<String>,
}

/// A job of an operation. [`Debug`](std::fmt::Debug) isn't there, so that no secret is printed.
#[derive(Drop)]
pub struct OperationJob {
    /// The request, and texts of profile files.
    pub request: RequestJob,
    /// The replies in order, one at least.
    pub replies: Vec<ReplyLine>,
}

/// What the lines so far gave.
#[derive(Drop)]
pub struct OperationDraft {
    request: RequestDraft,
    replies: Vec<ReplyLine>,
}

impl OperationDraft {
    ghost use Rattle.std.specs.Prelude.{◌≡◌};
    ghost use Rattle.job_text.specs.Lines.{Moves};
    ghost use Rattle.job_text.specs.OperationJob.{ReadsOperation, before_replies_step, no_operation, operation_drafted, operation_word_step, reply_step, whole_operation};

    /// Nothing yet.
    #[tactic(auto, unfolding(crate::specs::OperationJob::operation_drafted))]
    pub fn new(alloc: Global) -> OperationDraft
        ensures { operation_drafted result ≡ no_operation }
    {
        OperationDraft {
            request: RequestDraft::new(alloc),
            replies: Vec::new(alloc),
        }
    }

    // A line of this word and this rest.
    #[tactic(auto, unfolding(crate::specs::OperationJob::operation_word_step))]
    fn take_word(&mut self, alloc: Global, word: &str, rest: &str) -> Result<(), LineFault>
        ensures { Moves (operation_word_step (operation_drafted self.old) word.now rest.now) (operation_drafted self.new) result }
    {
        match word {
            "reply" => self.take_reply(alloc, rest),
            _ => self.take_before_replies(alloc, word, rest),
        }
    }

    // `reply STATUS CODE DATE`.
    #[tactic(auto, unfolding(crate::specs::OperationJob::operation_drafted, crate::specs::OperationJob::reply_step))]
    fn take_reply(&mut self, alloc: Global, rest: &str) -> Result<(), LineFault>
        ensures { Moves (reply_step (operation_drafted self.old) rest.now) (operation_drafted self.new) result }
    {
        if !self.request.is_whole() {
            return Err(LineFault::Bad);
        }
        let reply = reply_of(alloc, rest)?;
        self.replies.push(reply)?;
        Ok(())
    }

    // A line of the request or of a profile file's text.
    #[tactic(auto, unfolding(crate::specs::OperationJob::operation_drafted, crate::specs::OperationJob::before_replies_step))]
    fn take_before_replies(
        &mut self,
        alloc: Global,
        word: &str,
        rest: &str,
    ) -> Result<(), LineFault>
        ensures { Moves (before_replies_step (operation_drafted self.old) word.now rest.now) (operation_drafted self.new) result }
    {
        if !self.replies.is_empty() {
            return Err(LineFault::Bad);
        }
        self.request.take_word(alloc, word, rest)
    }

    // The job, where the lines are over at the place.
    #[tactic(auto, unfolding(crate::specs::OperationJob::operation_drafted))]
    fn finish(self, place: usize) -> Result<OperationJob, JobFault>
        ensures { let draft = self in ReadsOperation (whole_operation place (operation_drafted draft)) result }
    {
        if self.replies.is_empty() {
            return Err(JobFault::BadLine(place));
        }
        Ok(OperationJob {
            request: self.request.finish(place)?,
            replies: self.replies,
        })
    }
}

impl TakeLine for OperationDraft {
    ghost use Rattle.job_text.specs.OperationJob.{OperationDraft, operation_drafted, operation_line_step};

    ghost Draft = { OperationDraft };

    ghost draft = { operation_drafted };

    ghost step = { operation_line_step };

    // An empty line does nothing.
    #[tactic(auto, unfolding(crate::specs::OperationJob::operation_line_step))]
    fn take_line(&mut self, alloc: Global, line: &str) -> Result<(), LineFault> {
        if line.is_empty() {
            return Ok(());
        }
        let (word, rest) = cut_word(line);
        self.take_word(alloc, word, rest)
    }
}

// The reply of `STATUS CODE` or `STATUS CODE DATE`.
#[tactic(auto, unfolding(crate::specs::OperationJob::spelled_reply))]
fn reply_of(alloc: Global, text: &str) -> Result<ReplyLine, LineFault>
    ensures { GivesReplyLine (spelled_reply text.now) result }
{
    let (status, rest) = cut_word(text);
    let status = parse_status(status).ok_or(LineFault::Bad)?;
    let (code, _) = cut_word(rest);
    if code.is_empty() {
        return Err(LineFault::Bad);
    }
    Ok(ReplyLine {
        status,
        code: code_of(alloc, code)?,
        date: date_of(alloc, rest)?,
    })
}

// The status that a text spells: 100 to 999.
#[tactic(auto, using(crate::proofs::NumberLemmas::below), unfolding(crate::specs::Numbers::natural_below, crate::specs::OperationJob::spelled_status))]
fn parse_status(text: &str) -> Option<u16>
    ensures { result ≡ spelled_status text.now }
{
    let number = parse_u64(text)?;
    if number < 100 || number >= 1000 {
        return None;
    }
    Some(number as u16)
}

// The code of a word: `-` is none.
#[tactic(auto, unfolding(crate::specs::OperationJob::spelled_code))]
fn code_of(alloc: Global, word: &str) -> Mem<Option<String>>
    ensures { IfOk result (λ code. option_map string_bytes code ≡ spelled_code word.now) }
{
    match word {
        "-" => Ok(None),
        _ => Ok(Some(String::from_str(alloc, word)?)),
    }
}

// What stands after the first space, where there is one.
#[tactic(auto, unfolding(crate::specs::OperationJob::spelled_date))]
fn date_of(alloc: Global, text: &str) -> Mem<Option<String>>
    ensures { IfOk result (λ date. option_map string_bytes date ≡ spelled_date text.now) }
{
    let (word, date) = cut_word(text);
    if word.len() == text.len() {
        return Ok(None);
    }
    Ok(Some(String::from_str(alloc, date)?))
}

/// The job of an operation that the bytes spell. They go once it is read.
///
/// # Errors
///
/// As those of [`read_job`](crate::read_job); a line other than `reply` is bad behind the first reply, a reply is bad before the
/// method and the target, and without any reply the place after the last line is.
#[tactic(auto, unfolding(crate::specs::OperationJob::operation_job))]
pub fn take_operation_job(alloc: Global, bytes: Vec<u8>) -> Result<OperationJob, JobFault>
    ensures { ReadsOperation (operation_job bytes.items) result }
{
    let text = text_of(bytes.as_slice())?;
    let mut draft = OperationDraft::new(alloc);
    let place = take_lines(alloc, &mut draft, text)?;
    draft.finish(place)
}
