use crate::fault::LineFault;
use crate::job::bytes_pool::BytesPool;
use crate::job::event::OpenEvent;
use crate::job::event_header::{header_of, hex_bytes};
use crate::lines::{TakeLine, cut_word};
use crate::request_lines::RequestDraft;
use smithy_core::{Mem, Message};
use std::alloc::Global;

/// What the lines so far gave: the request with the texts of profile files, the finished events, and the open one. The pool has
/// the short names, values and payloads of events.
#[derive(Drop)]
pub struct Draft {
    pub request: RequestDraft,
    pub events: Vec<Message>,
    pub event: Option<OpenEvent>,
    pub pool: BytesPool,
}

impl Draft {
    ghost use Rattle.std.specs.Prelude.{◌≡◌, None, OnOk};
    ghost use Rattle.job_text.specs.Job.{before_events_step, event_header_step, event_step, events_of, in_event, no_draft, payload_step, word_step};
    ghost use Rattle.job_text.specs.Draft.{draft_of};
    ghost use Rattle.job_text.specs.Lines.{Moves};

    /// Nothing yet.
    #[tactic(auto, unfolding(crate::specs::Draft::draft_of))]
    pub fn new(alloc: Global) -> Draft
        ensures { draft_of result ≡ no_draft }
    {
        Draft {
            request: RequestDraft::new(alloc),
            events: Vec::new(alloc),
            event: None,
            pool: BytesPool::new(alloc),
        }
    }

    // A line of this word and this rest.
    #[tactic(auto, unfolding(crate::specs::Draft::draft_of, crate::specs::Job::word_step))]
    fn take_word(&mut self, alloc: Global, word: &str, rest: &str) -> Result<(), LineFault>
        ensures { Moves (word_step (draft_of self.old) word.now rest.now) (draft_of self.new) result }
    {
        match word {
            "event" => self.begin_event(alloc, rest),
            "h" => self.take_event_header(alloc, rest),
            "payload" => self.take_payload(alloc, rest),
            _ if self.event.is_some() => Err(LineFault::Bad),
            _ => self.take_before_events(alloc, word, rest),
        }
    }

    // A line of the request or of a profile file's text.
    #[tactic(auto, unfolding(crate::specs::Draft::draft_of, crate::specs::Job::before_events_step))]
    fn take_before_events(&mut self, alloc: Global, word: &str, rest: &str) -> Result<(), LineFault>
        ensures { Moves (before_events_step (draft_of self.old) word.now rest.now) (draft_of self.new) result }
    {
        self.request.take_word(alloc, word, rest)
    }

    // `event`.
    #[tactic(auto, unfolding(crate::specs::Draft::draft_of, crate::specs::Job::event_step))]
    fn begin_event(&mut self, alloc: Global, rest: &str) -> Result<(), LineFault>
        ensures { Moves (event_step (draft_of self.old) rest.now) (draft_of self.new) result }
    {
        if !rest.is_empty() || !self.request.is_whole() {
            return Err(LineFault::Bad);
        }
        self.close_event()?;
        self.event = Some(OpenEvent {
            headers: Vec::new(alloc),
            payload: None,
        });
        Ok(())
    }

    /// Moves the open event to the finished ones.
    #[tactic(auto, unfolding(crate::specs::Draft::draft_of))]
    pub fn close_event(&mut self) -> Mem<()>
        ensures { OnOk result (draft_of self.new ≡ record (draft_of self.old) { events = events_of (draft_of self.old); event = None }) }
    {
        if let Some(event) = self.event.take() {
            self.events.push(event.into_message())?;
        }
        Ok(())
    }

    // `h NAME KIND VALUE`.
    #[tactic(auto, unfolding(crate::specs::Draft::draft_of, crate::specs::Job::event_header_step))]
    fn take_event_header(&mut self, alloc: Global, rest: &str) -> Result<(), LineFault>
        ensures { Moves (in_event (draft_of self.old).event (λ event. event_header_step (draft_of self.old) event rest.now)) (draft_of self.new) result }
    {
        match &mut self.event {
            Some(event) => {
                let header = header_of(alloc, &mut self.pool, rest)?;
                event.headers.push(header)?;
                Ok(())
            }
            None => Err(LineFault::Bad),
        }
    }

    // `payload HEX`.
    #[tactic(auto, unfolding(crate::specs::Draft::draft_of, crate::specs::Job::payload_step))]
    fn take_payload(&mut self, alloc: Global, rest: &str) -> Result<(), LineFault>
        ensures { Moves (in_event (draft_of self.old).event (λ event. payload_step (draft_of self.old) event rest.now)) (draft_of self.new) result }
    {
        match &mut self.event {
            Some(event) if event.payload.is_none() => {
                let payload = hex_bytes(alloc, rest)?;
                event.payload = Some(self.pool.pooled(payload)?);
                Ok(())
            }
            _ => Err(LineFault::Bad),
        }
    }
}

impl TakeLine for Draft {
    ghost use Rattle.job_text.specs.Job.{Draft, job_line_step};
    ghost use Rattle.job_text.specs.Draft.{draft_of};

    ghost Draft = { Draft };

    ghost draft = { draft_of };

    ghost step = { job_line_step };

    // An empty line does nothing.
    #[tactic(auto, unfolding(crate::specs::Job::job_line_step))]
    fn take_line(&mut self, alloc: Global, line: &str) -> Result<(), LineFault> {
        if line.is_empty() {
            return Ok(());
        }
        let (word, rest) = cut_word(line);
        self.take_word(alloc, word, rest)
    }
}
