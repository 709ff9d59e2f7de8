//! A request as it goes over the wire.
ghost use Rattle.std.specs.Prelude.{◌≡◌, ◌≤◌, ◌==◌, length, reverse, option_copied};
ghost use Rattle.std.specs.List.{after_first, before_first};
ghost use Rattle.job_text.specs.Lines.{Moves, colon};
ghost use Rattle.awsign_text.specs.Head.{carriage_return};
ghost use Rattle.awsign_verify.specs.Message.{CutsEndBlank, CutsFrontBlank, ReadsHead, wire_name, field_step, head_drafted, line_text, message_body, message_head, message_request, no_head, skip_blanks, start_step, head_text_step, whole_head, without_blanks};

use awsign_words::is_method;
use bytes::Bytes;
use job_text::{JobFault, LineFault, TakeLine, cut_word, take_lines, text_of};
use smithy_core::{Headers, HttpRequest};
use std::alloc::Global;

/// What the lines of a head gave so far.
#[derive(Drop)]
pub struct HeadDraft {
    method: Option<String>,
    target: Option<String>,
    headers: Headers,
}

impl HeadDraft {
    /// No lines yet.
    #[tactic(auto, unfolding(crate::specs::Message::head_drafted))]
    pub fn new(alloc: Global) -> HeadDraft
        ensures { head_drafted result ≡ no_head }
    {
        HeadDraft {
            method: None,
            target: None,
            headers: Headers::new(alloc),
        }
    }

    // Takes a line without its CR.
    #[tactic(auto, unfolding(crate::specs::Message::head_drafted, crate::specs::Message::head_text_step))]
    fn take_text(&mut self, alloc: Global, text: &str) -> Result<(), LineFault>
        ensures { Moves (head_text_step (head_drafted self.old) text.now) (head_drafted self.new) result }
    {
        if self.method.is_none() {
            return self.take_start(alloc, text);
        }
        if text.is_empty() {
            return Ok(());
        }
        self.take_field(text)
    }

    // Takes the first line.
    #[tactic(auto, unfolding(crate::specs::Message::head_drafted, crate::specs::Message::start_step))]
    fn take_start(&mut self, alloc: Global, text: &str) -> Result<(), LineFault>
        ensures { Moves (start_step (head_drafted self.old) text.now) (head_drafted self.new) result }
    {
        let (method, rest) = cut_word(text);
        let (target, version) = cut_word(rest);
        if !is_method(method) || target.is_empty() || !version.as_bytes().starts_with(b"HTTP/") {
            return Err(LineFault::Bad);
        }
        let method = String::from_str(alloc, method)?;
        let target = String::from_str(alloc, target)?;
        self.method = Some(method);
        self.target = Some(target);
        Ok(())
    }

    // Takes a field.
    #[tactic(auto, unfolding(crate::specs::Message::head_drafted, crate::specs::Message::field_step))]
    fn take_field(&mut self, text: &str) -> Result<(), LineFault>
        ensures { Moves (field_step (head_drafted self.old) text.now) (head_drafted self.new) result }
    {
        let (name, value) = cut_field(text);
        if name.len() == text.len() {
            return Err(LineFault::Bad);
        }
        self.headers.append(name, without_blanks(value))?;
        Ok(())
    }

    /// The request, where the lines are over.
    ///
    /// # Errors
    ///
    /// [`JobFault::BadLine`] with the place where the first line is missing.
    #[tactic(auto, unfolding(crate::specs::Message::head_drafted))]
    pub fn finish(self, place: usize) -> Result<HttpRequest, JobFault>
        ensures { ReadsHead (whole_head place (head_drafted self)) result }
    {
        match (self.method, self.target) {
            (Some(method), Some(target)) => Ok(HttpRequest {
                method,
                target,
                headers: self.headers,
                body: Bytes::new(),
            }),
            _ => Err(JobFault::BadLine(place)),
        }
    }
}

impl TakeLine for HeadDraft {
    ghost use Rattle.awsign_verify.specs.Message.{HeadDraft, head_drafted, head_step};

    ghost Draft = { HeadDraft };

    ghost draft = { head_drafted };

    ghost step = { head_step };

    fn take_line(&mut self, alloc: Global, line: &str) -> Result<(), LineFault> {
        match line_text(line) {
            Some(text) => self.take_text(alloc, text),
            None => Err(LineFault::Bad),
        }
    }
}

// A line without the CR at its end, where it has no other.
#[tactic(auto, unfolding(crate::specs::Message::line_text))]
fn line_text(line: &str) -> Option<&str>
    ensures { option_copied result ≡ line_text line.now }
{
    let (text, rest) = cut_return(line);
    if rest.is_empty() { Some(text) } else { None }
}

// What stands before and behind the first CR.
fn cut_return(line: &str) -> (&str, &str)
    ensures front { result.0.now ≡ before_first (λ byte. byte == carriage_return) line.now }
    ensures back { result.1.now ≡ after_first (λ byte. byte == carriage_return) line.now }
{
    match line.split_once('\r') {
        Some(parts) => parts,
        None => (line, ""),
    }
}

// What stands before and behind the first colon.
fn cut_field(text: &str) -> (&str, &str)
    ensures name { result.0.now ≡ wire_name text.now }
    ensures value { result.1.now ≡ after_first (λ byte. byte == colon) text.now }
{
    match text.split_once(':') {
        Some(parts) => parts,
        None => (text, ""),
    }
}

// A text without the spaces and the tabs at its ends.
fn without_blanks(text: &str) -> &str
    ensures { result.now ≡ without_blanks text.now }
{
    before_blanks(behind_blanks(text))
}

fn behind_blanks(text: &str) -> &str
    ensures { result.now ≡ skip_blanks text.now }
{
    let mut rest = text;
    while let Some(others) = cut_front_blank(rest) {
        rest = others;
    }
    rest
}

fn before_blanks(text: &str) -> &str
    ensures { result.now ≡ reverse (skip_blanks (reverse text.now)) }
{
    let mut rest = text;
    while let Some(others) = cut_end_blank(rest) {
        rest = others;
    }
    rest
}

// The text behind the blank that it begins with.
fn cut_front_blank(text: &str) -> Option<&str>
    ensures { CutsFrontBlank text.now result }
{
    match text.strip_prefix(' ') {
        Some(rest) => Some(rest),
        None => text.strip_prefix('\t'),
    }
}

// The text before the blank that it ends with.
fn cut_end_blank(text: &str) -> Option<&str>
    ensures { CutsEndBlank text.now result }
{
    match text.strip_suffix(' ') {
        Some(front) => Some(front),
        None => text.strip_suffix('\t'),
    }
}

/// The body of a message: what stands behind its first empty line.
#[tactic(auto, unfolding(crate::specs::Message::message_body))]
pub fn message_body(bytes: &[u8]) -> &[u8]
    ensures body { result.now ≡ message_body bytes.now }
    ensures shorter { length result.now ≤ length bytes.now }
{
    let mut rest = bytes;
    let mut blank = true;
    while let [byte, others @ ..] = rest {
        if *byte == b'\n' && blank {
            return others;
        }
        blank = *byte == b'\n' || (blank && *byte == b'\r');
        rest = others;
    }
    rest
}

/// The request that a message spells. Its body is [`message_body`] of the same bytes, and isn't copied.
///
/// # Errors
///
/// [`JobFault::BadLine`] at the first line of the head that is bad; places count from 1.
#[tactic(auto, unfolding(crate::specs::Message::message_request, crate::specs::Message::message_head))]
pub fn read_message(alloc: Global, bytes: &[u8]) -> Result<HttpRequest, JobFault>
    ensures { ReadsHead (message_request bytes.now) result }
{
    let head = bytes.len() - message_body(bytes).len();
    let text = text_of(&bytes[..head])?;
    let mut draft = HeadDraft::new(alloc);
    let place = take_lines(alloc, &mut draft, text)?;
    draft.finish(place)
}
