//! The lines of a job that make up its request, and the job that has no others.
ghost use Rattle.job_text.specs.RequestLines.{ReadsRequest, request_job};

use crate::fault::{JobFault, LineFault};
use crate::job::hex_bytes;
use crate::lines::{TakeLine, cut_pair, cut_word, take_lines, text_of};
use crate::profile_texts::ProfileTexts;
use bytes::Bytes;
use smithy_core::{Headers, HttpRequest};
use std::alloc::Global;

/// What the lines of a request gave so far, and those of profile texts among them. [`Debug`](std::fmt::Debug) isn't there, so
/// that no secret is printed.
#[derive(Drop)]
pub struct RequestDraft {
    /// The method, once its line stood.
    pub method: Option<String>,
    /// The target, once its line stood.
    pub target: Option<String>,
    /// The headers in order.
    pub headers: Headers,
    /// The body, once its line stood.
    pub body: Option<Bytes>,
    /// The texts of profile files.
    pub texts: ProfileTexts,
}

/// A job without events: a request, and texts of profile files. [`Debug`](std::fmt::Debug) isn't there, so that no secret is
/// printed.
#[derive(Drop)]
pub struct RequestJob {
    /// The request; without a line of its own its body is empty.
    pub request: HttpRequest,
    /// The texts of profile files.
    pub texts: ProfileTexts,
}

impl RequestDraft {
    ghost use Rattle.std.specs.Prelude.{◌≡◌};
    ghost use Rattle.job_text.specs.Lines.{Moves};
    ghost use Rattle.job_text.specs.RequestLines.{ReadsRequest, body_step, has_request, header_step, method_step, no_request, request_drafted, request_step, target_step, text_step, whole_request};

    /// Nothing yet.
    #[tactic(auto, unfolding(crate::specs::RequestLines::request_drafted))]
    pub fn new(alloc: Global) -> RequestDraft
        ensures { request_drafted result ≡ no_request }
    {
        RequestDraft {
            method: None,
            target: None,
            headers: Headers::new(alloc),
            body: None,
            texts: ProfileTexts::new(),
        }
    }

    /// Whether the method and the target stood.
    #[tactic(auto, unfolding(crate::specs::RequestLines::request_drafted))]
    pub fn is_whole(&self) -> bool
        ensures { result ≡ has_request (request_drafted self.now) }
    {
        self.method.is_some() && self.target.is_some()
    }

    /// A line of this word and this rest.
    ///
    /// # Errors
    ///
    /// [`LineFault::Bad`] where it is none of a request and of profile texts, or is outside its form, or stood before.
    #[tactic(auto, unfolding(crate::specs::RequestLines::request_step))]
    pub fn take_word(&mut self, alloc: Global, word: &str, rest: &str) -> Result<(), LineFault>
        ensures { Moves (request_step (request_drafted self.old) word.now rest.now) (request_drafted self.new) result }
    {
        match word {
            "method" => self.take_method(alloc, rest),
            "target" => self.take_target(alloc, rest),
            "header" => self.take_header(rest),
            "body" => self.take_body(alloc, rest),
            _ => self.take_text(alloc, word, rest),
        }
    }

    // `method M`.
    #[tactic(auto, unfolding(crate::specs::RequestLines::request_drafted, crate::specs::RequestLines::method_step))]
    fn take_method(&mut self, alloc: Global, rest: &str) -> Result<(), LineFault>
        ensures { Moves (method_step (request_drafted self.old) rest.now) (request_drafted self.new) result }
    {
        if self.method.is_some() || rest.is_empty() || rest.as_bytes().contains(&b' ') {
            return Err(LineFault::Bad);
        }
        self.method = Some(String::from_str(alloc, rest)?);
        Ok(())
    }

    // `target T`.
    #[tactic(auto, unfolding(crate::specs::RequestLines::request_drafted, crate::specs::RequestLines::target_step))]
    fn take_target(&mut self, alloc: Global, rest: &str) -> Result<(), LineFault>
        ensures { Moves (target_step (request_drafted self.old) rest.now) (request_drafted self.new) result }
    {
        if self.target.is_some() {
            return Err(LineFault::Bad);
        }
        self.target = Some(String::from_str(alloc, rest)?);
        Ok(())
    }

    // `header NAME: VALUE`.
    #[tactic(auto, unfolding(crate::specs::RequestLines::request_drafted, crate::specs::RequestLines::header_step))]
    fn take_header(&mut self, rest: &str) -> Result<(), LineFault>
        ensures { Moves (header_step (request_drafted self.old) rest.now) (request_drafted self.new) result }
    {
        let (name, value) = cut_pair(rest).ok_or(LineFault::Bad)?;
        self.headers.append(name, value)?;
        Ok(())
    }

    // `body HEX`.
    #[tactic(auto, unfolding(crate::specs::RequestLines::request_drafted, crate::specs::RequestLines::body_step))]
    fn take_body(&mut self, alloc: Global, rest: &str) -> Result<(), LineFault>
        ensures { Moves (body_step (request_drafted self.old) rest.now) (request_drafted self.new) result }
    {
        if self.body.is_some() {
            return Err(LineFault::Bad);
        }
        self.body = Some(hex_bytes(alloc, rest)?);
        Ok(())
    }

    // A line of a profile file's text.
    #[tactic(auto, unfolding(crate::specs::RequestLines::request_drafted, crate::specs::RequestLines::text_step))]
    fn take_text(&mut self, alloc: Global, word: &str, rest: &str) -> Result<(), LineFault>
        ensures { Moves (text_step (request_drafted self.old) word.now rest.now) (request_drafted self.new) result }
    {
        self.texts.take_text(alloc, word, rest)
    }

    /// The request and the texts, where the lines are over.
    ///
    /// # Errors
    ///
    /// [`JobFault::BadLine`] with the place where a method or a target is missing.
    #[tactic(auto, unfolding(crate::specs::RequestLines::request_drafted))]
    pub fn finish(self, place: usize) -> Result<RequestJob, JobFault>
        ensures { ReadsRequest (whole_request place (request_drafted self)) result }
    {
        match (self.method, self.target) {
            (Some(method), Some(target)) => Ok(RequestJob {
                request: HttpRequest {
                    method,
                    target,
                    headers: self.headers,
                    body: self.body.unwrap_or(Bytes::new()),
                },
                texts: self.texts,
            }),
            _ => Err(JobFault::BadLine(place)),
        }
    }
}

impl TakeLine for RequestDraft {
    ghost use Rattle.job_text.specs.RequestLines.{RequestDraft, request_drafted, request_job_step};

    ghost Draft = { RequestDraft };

    ghost draft = { request_drafted };

    ghost step = { request_job_step };

    // A line of a job without events; an empty one does nothing.
    #[tactic(auto, unfolding(crate::specs::RequestLines::request_job_step))]
    fn take_line(&mut self, alloc: Global, line: &str) -> Result<(), LineFault> {
        if line.is_empty() {
            return Ok(());
        }
        let (word, rest) = cut_word(line);
        self.take_word(alloc, word, rest)
    }
}

/// The job without events that the bytes spell. They go once it is read.
///
/// # Errors
///
/// As those of [`read_job`](crate::read_job); a line `event`, `h` or `payload` is bad.
#[tactic(auto, unfolding(crate::specs::RequestLines::request_job))]
pub fn take_request_job(alloc: Global, bytes: Vec<u8>) -> Result<RequestJob, JobFault>
    ensures { ReadsRequest (request_job bytes.items) result }
{
    let text = text_of(bytes.as_slice())?;
    let mut draft = RequestDraft::new(alloc);
    let place = take_lines(alloc, &mut draft, text)?;
    draft.finish(place)
}
