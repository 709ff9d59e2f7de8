//! Jobs that are signed and streamed by a call of the library, from the words of their lines.
use crate::jobs::{clock_of, env_of, fails_of, input_of};
use crate::texts::bytes_on_one_line;
use aws_auth::SigningOptions;
use env_config::{EnvConfigFileKind, File, Source};
use signed_stream::{Form, Job, StreamFault, StreamOptions, read_job, sign_and_stream};
use smithy_core::{Env, FaultySink, HttpRequest, Mem, Moment};
use std::alloc::Global;
use tool_case_lines::unknown;

/// What a stream of a job answers: the target of the signed request or the fault, the moments that it took, and what
/// the sink holds. The words are the service's name, `lines` or `raw`, and the lines of the job.
pub fn answer(alloc: Global, words: &[&str]) -> Mem<String> {
    let [name, form, lines @ ..] = words else {
        return unknown(alloc);
    };
    match read_job(alloc, input_of(alloc, lines)?.as_slice()) {
        Ok(job) => of_job(alloc, name, form_of(form), &job, lines),
        Err(_) => unknown(alloc),
    }
}

fn form_of(word: &str) -> Form {
    match word {
        "raw" => Form::Raw,
        _ => Form::HexLines,
    }
}

// What a stream is given beside its job.
#[derive(Drop)]
struct Given {
    form: Form,
    env: Env,
    options: StreamOptions,
    source: Source,
}

fn of_job(alloc: Global, name: &str, form: Form, job: &Job, lines: &[&str]) -> Mem<String> {
    let given = Given {
        form,
        env: env_of(alloc, lines)?,
        options: options_of(alloc, name)?,
        source: source_of(alloc, job)?,
    };
    streamed(alloc, &given, job, lines)
}

fn options_of(alloc: Global, name: &str) -> Mem<StreamOptions> {
    Ok(StreamOptions {
        name: String::from_str(alloc, name)?,
        service_id: None,
        signing: SigningOptions::default(),
        token_name: None,
        skew_millis: None,
    })
}

/// The texts of the job, under the profile `default`.
pub fn source_of(alloc: Global, job: &Job) -> Mem<Source> {
    let profile = String::from_str(alloc, "default")?;
    let mut files = Vec::new(alloc);
    push_file(&mut files, EnvConfigFileKind::Config, &job.config)?;
    push_file(&mut files, EnvConfigFileKind::Credentials, &job.credentials)?;
    Ok(Source { files, profile })
}

fn push_file(files: &mut Vec<File>, kind: EnvConfigFileKind, text: &Option<String>) -> Mem<()> {
    if let Some(text) = text {
        files.push(File {
            kind,
            path: None,
            contents: text.clone()?,
        })?;
    }
    Ok(())
}

fn streamed(alloc: Global, given: &Given, job: &Job, lines: &[&str]) -> Mem<String> {
    let mut clock = clock_of(alloc, lines)?;
    let mut sink = FaultySink::new(alloc, fails_of(alloc, lines, "@out")?);
    let mut moments = Vec::new(alloc);
    let streamed = sign_and_stream(
        alloc,
        &given.source,
        &given.env,
        &job.request,
        &given.options,
        job.events.as_slice(),
        &mut clock,
        given.form,
        &mut sink,
        &mut moments,
    );
    told(alloc, given.form, streamed, moments.as_slice(), sink.held())
}

fn told(
    alloc: Global,
    form: Form,
    streamed: Result<HttpRequest, StreamFault>,
    moments: &[Moment],
    held: &[u8],
) -> Mem<String> {
    let target = target_of(alloc, streamed)?;
    let taken = seconds_of(alloc, moments)?;
    let held = held_text(alloc, form, held)?;
    format!(in alloc; "{target}|{taken}|{held}")
}

// The target of the signed request, or the fault.
fn target_of(alloc: Global, streamed: Result<HttpRequest, StreamFault>) -> Mem<String> {
    match streamed {
        Ok(request) => Ok(request.target),
        Err(fault) => format!(in alloc; "{fault:?}"),
    }
}

// The seconds of the moments, one behind the other.
fn seconds_of(alloc: Global, moments: &[Moment]) -> Mem<String> {
    let mut text = String::new(alloc);
    for moment in moments {
        write!(text, "{} ", moment.secs())?;
    }
    Ok(text)
}

fn held_text(alloc: Global, form: Form, held: &[u8]) -> Mem<String> {
    match form {
        Form::Raw => hex::encode(alloc, held),
        Form::HexLines => bytes_on_one_line(alloc, held),
    }
}
