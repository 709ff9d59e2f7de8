//! The record that `check` reads.
ghost use Rattle.std.specs.Prelude.{◌≡◌};
ghost use Rattle.job_text.specs.Record.{ReadsRecord, record_parts, spelled_record, whole_record};

use crate::fault::{JobFault, LineFault};
use crate::job::hex_bytes;
use crate::lines::{TakeLine, cut_pair, cut_word, take_lines, text_of};
use crate::profile_texts::ProfileTexts;
use bytes::Bytes;
use smithy_core::{Headers, HttpRequest};
use std::alloc::Global;

/// What comes next in the input of `check`.
#[derive(Clone, Copy, Debug, PartialEq, Eq)]
pub enum Stage {
    /// Lines of profile texts, and then the line `record`.
    Texts,
    /// The request line.
    RequestLine,
    /// Headers, and then the empty line that ends the head.
    Headers,
    /// Lines of the chain.
    Chain,
}

/// What the lines so far gave.
#[derive(Drop)]
pub struct RecordDraft {
    pub stage: Stage,
    pub texts: ProfileTexts,
    /// The request that was sent; its body isn't recorded.
    pub request: HttpRequest,
    /// The bytes of the frames.
    pub chain: Vec<u8>,
}

impl RecordDraft {
    ghost use Rattle.job_text.specs.Record.{chain_line_step, head_line_step, no_record, request_line_step, text_line_step};
    ghost use Rattle.job_text.specs.Lines.{Moves};

    /// Nothing yet.
    #[tactic(auto, unfolding(crate::specs::Record::record_parts))]
    pub fn new(alloc: Global) -> RecordDraft
        ensures { record_parts result ≡ no_record }
    {
        RecordDraft {
            stage: Stage::Texts,
            texts: ProfileTexts::new(),
            request: HttpRequest {
                method: String::new(alloc),
                target: String::new(alloc),
                headers: Headers::new(alloc),
                body: Bytes::new(),
            },
            chain: Vec::new(alloc),
        }
    }

    // A line of profile texts, or the line `record`.
    #[tactic(auto, unfolding(crate::specs::Record::record_parts, crate::specs::Record::text_line_step))]
    fn take_text_line(&mut self, alloc: Global, line: &str) -> Result<(), LineFault>
        ensures { Moves (text_line_step (record_parts self.old) line.now) (record_parts self.new) result }
    {
        let (word, rest) = cut_word(line);
        if word == "record" && rest.is_empty() {
            self.stage = Stage::RequestLine;
            return Ok(());
        }
        self.texts.take_line(alloc, line)
    }

    // `METHOD target`.
    #[tactic(auto, unfolding(crate::specs::Record::record_parts, crate::specs::Record::request_line, crate::specs::Record::request_line_step))]
    fn take_request_line(&mut self, alloc: Global, line: &str) -> Result<(), LineFault>
        ensures { Moves (request_line_step (record_parts self.old) line.now) (record_parts self.new) result }
    {
        let (method, target) = cut_word(line);
        if method.is_empty() || method.len() == line.len() {
            return Err(LineFault::Bad);
        }
        self.request.method = String::from_str(alloc, method)?;
        self.request.target = String::from_str(alloc, target)?;
        self.stage = Stage::Headers;
        Ok(())
    }

    // `name: value`, or the empty line that ends the head.
    #[tactic(auto, unfolding(crate::specs::Record::record_parts, crate::specs::Record::head_line_step))]
    fn take_head_line(&mut self, line: &str) -> Result<(), LineFault>
        ensures { Moves (head_line_step (record_parts self.old) line.now) (record_parts self.new) result }
    {
        if line.is_empty() {
            self.stage = Stage::Chain;
            return Ok(());
        }
        let (name, value) = cut_pair(line).ok_or(LineFault::Bad)?;
        self.request.headers.append(name, value)?;
        Ok(())
    }

    // Hexadecimal digits.
    #[tactic(auto, unfolding(crate::specs::Record::record_parts, crate::specs::Record::chain_line_step))]
    fn take_chain_line(&mut self, alloc: Global, line: &str) -> Result<(), LineFault>
        ensures { Moves (chain_line_step (record_parts self.old) line.now) (record_parts self.new) result }
    {
        let bytes = hex_bytes(alloc, line)?;
        self.chain.extend_from_slice(bytes.as_slice())?;
        Ok(())
    }
}

impl TakeLine for RecordDraft {
    ghost use Rattle.job_text.specs.Record.{RecordParts, record_line_step, record_parts};

    ghost Draft = { RecordParts };

    ghost draft = { record_parts };

    ghost step = { record_line_step };

    #[tactic(auto, unfolding(crate::specs::Record::record_parts))]
    fn take_line(&mut self, alloc: Global, line: &str) -> Result<(), LineFault> {
        match self.stage {
            Stage::Texts => self.take_text_line(alloc, line),
            Stage::RequestLine => self.take_request_line(alloc, line),
            Stage::Headers => self.take_head_line(line),
            Stage::Chain => self.take_chain_line(alloc, line),
        }
    }
}

/// The record that the bytes spell, behind profile texts. The bytes go once it is read.
///
/// # Errors
///
/// As those of [`read_job`].
#[tactic(auto, unfolding(crate::specs::Record::spelled_record))]
pub fn take_record(alloc: Global, bytes: Vec<u8>) -> Result<RecordDraft, JobFault>
    ensures { ReadsRecord (spelled_record bytes.items) result }
{
    let text = text_of(bytes.as_slice())?;
    let mut draft = RecordDraft::new(alloc);
    let place = take_lines(alloc, &mut draft, text)?;
    whole_record(draft, place)
}

// The record, where the lines are over at the place.
#[tactic(auto, unfolding(crate::specs::Record::record_parts))]
fn whole_record(draft: RecordDraft, place: usize) -> Result<RecordDraft, JobFault>
    ensures { ReadsRecord (whole_record place (record_parts draft)) result }
{
    match draft.stage {
        Stage::Chain => Ok(draft),
        _ => Err(JobFault::BadLine(place)),
    }
}
