//! The job that `stream` reads: a request, texts of profile files, and events.
ghost use Rattle.std.specs.Prelude.{◌≡◌, IfOk};
ghost use Rattle.job_text.specs.Job.{job, whole_job};
ghost use Rattle.job_text.specs.Draft.{ReadsJob, draft_of, job_parts};

mod bytes_pool;
mod draft;
mod event;
mod event_header;

use crate::fault::JobFault;
use crate::job::draft::Draft;
pub use crate::job::event_header::hex_bytes;
use crate::lines::{take_lines, text_of};
use crate::request_lines::RequestJob;
use smithy_core::{HttpRequest, Mem, Message, copied_text};
use std::alloc::Global;

/// A job: what is signed and streamed, and what text of profile files goes with it. [`Debug`](std::fmt::Debug) isn't
/// there, so that no secret is printed.
#[derive(Drop)]
pub struct Job {
    /// The request; without a line of its own its body is empty.
    pub request: HttpRequest,
    /// The text of a config file, where there is a line of it.
    pub config: Option<String>,
    /// The text of a credentials file, where there is a line of it.
    pub credentials: Option<String>,
    /// The events in order.
    pub events: Vec<Message>,
}

impl Job {
    /// An equal job.
    pub fn try_clone(&self) -> Mem<Job>
        ensures { IfOk result (λ copy. job_parts copy ≡ job_parts self.now) }
    {
        Ok(Job {
            request: self.request.try_clone()?,
            config: copied_text(&self.config)?,
            credentials: copied_text(&self.credentials)?,
            events: copied_events(*self.events.allocator(), self.events.as_slice())?,
        })
    }
}

/// Equal events.
pub fn copied_events(alloc: Global, events: &[Message]) -> Mem<Vec<Message>>
    ensures { IfOk result (λ copies. copies.items ≡ events.now) }
{
    let mut copies = Vec::new(alloc);
    for event in events {
        copies.push(event.try_clone()?)?;
    }
    Ok(copies)
}

/// The job that the bytes spell.
///
/// ```rust
/// let job = read_job(alloc, b"method GET\ntarget /\nevent\npayload 00\n")?;
/// let events = job.events.len();
/// ```
///
/// # Errors
///
/// [`JobFault::BadLine`] at the first line that is bad. Bytes that aren't UTF-8 are bad at the line of the first bad
/// byte.
#[tactic(auto, unfolding(crate::specs::Job::job))]
pub fn read_job(alloc: Global, bytes: &[u8]) -> Result<Job, JobFault>
    ensures { ReadsJob (job bytes.now) result }
{
    let text = text_of(bytes)?;
    let mut draft = Draft::new(alloc);
    let place = take_lines(alloc, &mut draft, text)?;
    into_job(draft, place)
}

/// The job that the bytes spell. They go once it is read.
///
/// # Errors
///
/// As those of [`read_job`].
pub fn take_job(alloc: Global, bytes: Vec<u8>) -> Result<Job, JobFault>
    ensures { ReadsJob (job bytes.items) result }
{
    read_job(alloc, bytes.as_slice())
}

// The job, where the lines are over at the place.
#[tactic(auto, unfolding(crate::specs::Draft::draft_of))]
fn into_job(mut draft: Draft, place: usize) -> Result<Job, JobFault>
    ensures { ReadsJob (whole_job place (draft_of draft)) result }
{
    draft.close_event()?;
    let RequestJob { request, texts } = draft.request.finish(place)?;
    Ok(Job {
        request,
        config: texts.config,
        credentials: texts.credentials,
        events: draft.events,
    })
}
