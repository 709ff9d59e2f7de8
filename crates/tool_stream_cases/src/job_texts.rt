//! What the lines of a job spell.
use crate::jobs::input_of;
use eventstream::write_message_to;
use signed_stream::{Job, read_job};
use smithy_core::{Headers, Mem, Message};
use std::alloc::Global;
use tool_case_lines::compared;

/// The job, and what a copy of it is, or why there is none.
pub fn answer(alloc: Global, lines: &[&str]) -> Mem<String> {
    let input = input_of(alloc, lines)?;
    match read_job(alloc, input.as_slice()) {
        Ok(job) => both(alloc, &job),
        Err(fault) => format!(in alloc; "{fault:?}: {fault}"),
    }
}

fn both(alloc: Global, job: &Job) -> Mem<String> {
    let copy = job.try_clone()?;
    compared(alloc, told(alloc, job), told(alloc, &copy))
}

// The request, the texts of profile files, and the frames of the events.
fn told(alloc: Global, job: &Job) -> Mem<String> {
    let request = &job.request;
    let (method, target) = (request.method.as_str(), request.target.as_str());
    let mut text = format!(in alloc; "{method} {target}\n")?;
    push_headers(&mut text, &request.headers)?;
    text.push_str(hex::encode(alloc, request.body.as_slice())?.as_str())?;
    push_texts(&mut text, job)?;
    push_events(alloc, &mut text, job.events.as_slice())?;
    Ok(text)
}

fn push_headers(text: &mut String, headers: &Headers) -> Mem<()> {
    for (name, value) in headers.iter() {
        write!(text, "{name}: {value}\n")?;
    }
    text.push('\n')
}

fn push_texts(text: &mut String, job: &Job) -> Mem<()> {
    let (config, credentials) = (&job.config, &job.credentials);
    write!(text, "\n{config:?}\n{credentials:?}")
}

fn push_events(alloc: Global, text: &mut String, events: &[Message]) -> Mem<()> {
    for event in events {
        let mut frame = Vec::new(alloc);
        let _ = write_message_to(alloc, event, &mut frame);
        text.push('\n')?;
        text.push_str(hex::encode(alloc, frame.as_slice())?.as_str())?;
    }
    Ok(())
}
