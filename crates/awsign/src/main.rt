//! The program: makes the real objects, hands them to `run_signing`, `run_verify`, `run_settings`, `make_upload` or a call of
//! `awsign_events`, and ends with the number of its status.
#![tactic(auto)]

mod help;

use crate::help::text_asked;
use awsign_chunk::{ChunkStatus, ChunkedUpload, held_data, make_upload, say_chunk, write_upload};
use awsign_events::{
    EventsStatus, decode_events, encode_events, read_hex, say_events, verify_events,
};
use awsign_run::{ProgressSource, Status, print_service, run_signing, say, url_host, write_text};
use awsign_settings::run_settings;
use awsign_verify::{VerifyStatus, run_verify, say_verify};
use awsign_words::{Asked, AskedCommand, EventsAction, EventsAsked, VerifyAsked, read_command};
use program_start::{StartFault, words_and_env};
use smithy_core::{ByteSource, CalmSource, Env, HostDisk, StdSink, StdSource, SystemClock};
use std::fs::{File, Metadata, metadata};
use std::io::{IsTerminal, Stdout};
use std::os::unix::fs::MetadataExt;
use std::process::ExitCode;

/// The number that the process ends with where whoever read the output left before its end: what a shell says of a program that
/// SIGPIPE ended.
const LOST_READER: u8 = 141;

fn main(rt: HostRuntime) -> ExitCode {
    let mut out = StdSink::new(rt.stdout());
    let code = match words_and_env(&rt) {
        Ok((words, env)) => {
            let ended = answer(&rt, words.as_slice(), &env, &mut out);
            if out.has_lost_reader() {
                LOST_READER
            } else {
                said(&rt, words.as_slice(), &ended)
            }
        }
        Err(StartFault::BadWord) => {
            let mut err = StdSink::new(rt.stderr());
            write_text(b"awsign: a word isn't UTF-8\n".as_slice(), &mut err);
            Status::BadWord(1).code()
        }
        Err(StartFault::NoMemory) => said(&rt, &[], &Ended::Run(Status::NoMemory)),
    };
    ExitCode::from(code)
}

/// How a command ended.
#[derive(Drop)]
enum Ended {
    Run(Status),
    Verify(VerifyStatus),
    Chunk(ChunkStatus),
    Events(EventsStatus),
}

// Does what the words ask for.
fn answer(rt: &HostRuntime, words: &[String], env: &Env, out: &mut StdSink<Stdout>) -> Ended {
    if let Some(text) = text_asked(words) {
        return Ended::Run(write_text(text.as_bytes(), out));
    }
    match read_command(rt.alloc(), words) {
        Ok(AskedCommand::Signing(asked)) => Ended::Run(sign(rt, asked, env, out)),
        Ok(AskedCommand::Verifying(asked)) => Ended::Verify(verify(rt, &asked, env, out)),
        Ok(AskedCommand::Showing(options)) => Ended::Run(settings(rt, &options, env, out)),
        Ok(AskedCommand::Chunking(asked)) => Ended::Chunk(chunk(rt, asked, env, out)),
        Ok(AskedCommand::Streaming(asked)) => Ended::Events(stream(rt, &asked, env, out)),
        Err(fault) => Ended::Run(Status::from(fault)),
    }
}

// Says how a command ended, and answers its number.
fn said(rt: &HostRuntime, words: &[String], ended: &Ended) -> u8 {
    let mut err = StdSink::new(rt.stderr());
    match ended {
        Ended::Run(status) => {
            say(rt.alloc(), words, status, &mut err);
            status.code()
        }
        Ended::Verify(status) => {
            say_verify(rt.alloc(), words, status, &mut err);
            status.code()
        }
        Ended::Chunk(status) => {
            say_chunk(rt.alloc(), words, status, &mut err);
            status.code()
        }
        Ended::Events(status) => {
            say_events(rt.alloc(), words, status, &mut err);
            status.code()
        }
    }
}

// Opens the data that an option names, and signs.
fn sign(rt: &HostRuntime, asked: Asked<'_>, env: &Env, out: &mut StdSink<Stdout>) -> Status {
    let url = match asked.url_sent(rt.alloc()) {
        Ok(url) => url,
        Err(_) => return Status::NoMemory,
    };
    let asked = asked.with_url(url.as_str());
    print_guess(rt, &asked);
    match asked.options.get("--data") {
        None => {
            let mut nothing = CalmSource::new(Vec::new(rt.alloc()));
            sign_over(rt, &asked, env, &mut nothing, out)
        }
        Some("-") => sign_shown(rt, &asked, env, StdSource::new(rt.reader()), out),
        Some(path) => match File::open(rt, path) {
            Ok(file) => sign_shown(rt, &asked, env, StdSource::new(file), out),
            Err(_) => Status::DataFault,
        },
    }
}

// Says which service the host names, where no option does.
fn print_guess(rt: &HostRuntime, asked: &Asked<'_>) {
    let mut err = StdSink::new(rt.stderr());
    print_service(rt.alloc(), &asked.options, url_host(asked.url), &mut err);
}

// Signs over the data of a source, and shows on a terminal how much of it is read.
fn sign_shown<S: ByteSource + Drop>(
    rt: &HostRuntime,
    asked: &Asked<'_>,
    env: &Env,
    mut data: S,
    out: &mut StdSink<Stdout>,
) -> Status {
    if !rt.stderr().is_terminal() {
        return sign_over(rt, asked, env, &mut data, out);
    }
    let err = StdSink::new(rt.stderr());
    let mut data = ProgressSource::new(rt.alloc(), data, err);
    sign_over(rt, asked, env, &mut data, out)
}

// Signs over the data of a source.
fn sign_over<S: ByteSource>(
    rt: &HostRuntime,
    asked: &Asked<'_>,
    env: &Env,
    data: &mut S,
    out: &mut StdSink<Stdout>,
) -> Status {
    let mut disk = HostDisk::new(rt.alloc(), rt);
    let mut clock = SystemClock::new(rt);
    run_signing(rt.alloc(), asked, env, data, &mut disk, &mut clock, out)
}

// Prints the settings under these options.
fn settings(rt: &HostRuntime, options: &Env, env: &Env, out: &mut StdSink<Stdout>) -> Status {
    let mut disk = HostDisk::new(rt.alloc(), rt);
    run_settings(rt.alloc(), options, env, &mut disk, out)
}

// Opens the data that an option names, and writes it in chunks.
fn chunk(rt: &HostRuntime, asked: Asked<'_>, env: &Env, out: &mut StdSink<Stdout>) -> ChunkStatus {
    let url = match asked.url_sent(rt.alloc()) {
        Ok(url) => url,
        Err(_) => return ChunkStatus::Ended(Status::NoMemory),
    };
    let asked = asked.with_url(url.as_str());
    print_guess(rt, &asked);
    match asked.options.get("--data") {
        None | Some("-") => chunk_held(rt, &asked, env, StdSource::new(rt.reader()), out),
        Some(path) => match File::open(rt, path) {
            Ok(file) => chunk_file(rt, &asked, env, file, out),
            Err(_) => ChunkStatus::Ended(Status::DataFault),
        },
    }
}

// Writes the data of a file in chunks, while it is read where its length is known.
fn chunk_file(
    rt: &HostRuntime,
    asked: &Asked<'_>,
    env: &Env,
    file: File,
    out: &mut StdSink<Stdout>,
) -> ChunkStatus {
    match known_length(rt, &file, asked.options.get("--out").unwrap_or("")) {
        Some(length) => chunk_shown(rt, asked, env, StdSource::new(file), length, out),
        None => chunk_held(rt, asked, env, StdSource::new(file), out),
    }
}

// How long the data of a file is, where that is known before it is read. A pipe has no length, and a file that the system makes while it
// is read has 0. Nor can it be read while the body takes its place.
fn known_length(rt: &HostRuntime, file: &File, out: &str) -> Option<u64> {
    let found = file.metadata().ok()?;
    if found.is_file() && found.len() > 0 && !is_at(rt, &found, out) {
        Some(found.len())
    } else {
        None
    }
}

// Whether a path leads to this file.
fn is_at(rt: &HostRuntime, file: &Metadata, path: &str) -> bool {
    match metadata(rt, path) {
        Ok(other) => other.dev() == file.dev() && other.ino() == file.ino(),
        Err(_) => false,
    }
}

// Writes the data of a source in chunks, and shows on a terminal how much of it is read.
fn chunk_shown<S: ByteSource + Drop>(
    rt: &HostRuntime,
    asked: &Asked<'_>,
    env: &Env,
    mut data: S,
    length: u64,
    out: &mut StdSink<Stdout>,
) -> ChunkStatus {
    if !rt.stderr().is_terminal() {
        return chunk_over(rt, asked, env, &mut data, length, out);
    }
    let err = StdSink::new(rt.stderr());
    let mut data = ProgressSource::new(rt.alloc(), data, err);
    chunk_over(rt, asked, env, &mut data, length, out)
}

// Writes the data of a source whose length isn't known in chunks.
fn chunk_held<S: ByteSource + Drop>(
    rt: &HostRuntime,
    asked: &Asked<'_>,
    env: &Env,
    data: S,
    out: &mut StdSink<Stdout>,
) -> ChunkStatus {
    match held_shown(rt, data) {
        Ok(bytes) => {
            let length = bytes.len() as u64;
            chunk_over(rt, asked, env, &mut CalmSource::new(bytes), length, out)
        }
        Err(status) => status,
    }
}

// All data of a source, of which is shown on a terminal how much is read.
fn held_shown<S: ByteSource + Drop>(rt: &HostRuntime, mut data: S) -> Result<Vec<u8>, ChunkStatus> {
    if !rt.stderr().is_terminal() {
        return held_data(rt.alloc(), &mut data);
    }
    let err = StdSink::new(rt.stderr());
    held_data(rt.alloc(), &mut ProgressSource::new(rt.alloc(), data, err))
}

// Writes the data of a source in chunks, of which there are so many bytes.
fn chunk_over<S: ByteSource>(
    rt: &HostRuntime,
    asked: &Asked<'_>,
    env: &Env,
    data: &mut S,
    length: u64,
    out: &mut StdSink<Stdout>,
) -> ChunkStatus {
    let mut disk = HostDisk::new(rt.alloc(), rt);
    let mut clock = SystemClock::new(rt);
    match make_upload(rt.alloc(), asked, env, length, &mut disk, &mut clock) {
        Ok(upload) => write_out(
            rt,
            upload,
            asked.options.get("--out").unwrap_or(""),
            data,
            out,
        ),
        Err(status) => status,
    }
}

// Writes an upload: its body to the file at a path, and its head to the output. A standard input or output that is closed leaves its
// number to the next file that is opened: two others take those, or the head would follow the body.
fn write_out<S: ByteSource>(
    rt: &HostRuntime,
    upload: ChunkedUpload,
    path: &str,
    data: &mut S,
    out: &mut StdSink<Stdout>,
) -> ChunkStatus {
    let _taken = (File::open(rt, "/dev/null"), File::open(rt, "/dev/null"));
    match File::create(rt, path) {
        Ok(file) => write_upload(rt.alloc(), upload, data, &mut StdSink::new(file), out),
        Err(_) => ChunkStatus::FileFault,
    }
}

// Verifies a request.
fn verify(
    rt: &HostRuntime,
    asked: &VerifyAsked<'_>,
    env: &Env,
    out: &mut StdSink<Stdout>,
) -> VerifyStatus {
    let mut input = StdSource::new(rt.reader());
    let mut disk = HostDisk::new(rt.alloc(), rt);
    let mut clock = SystemClock::new(rt);
    run_verify(
        rt.alloc(),
        asked,
        env,
        &mut input,
        &mut disk,
        &mut clock,
        out,
    )
}

// Writes the frames of the input's lines, or prints the events of its frames.
fn stream(
    rt: &HostRuntime,
    asked: &EventsAsked,
    env: &Env,
    out: &mut StdSink<Stdout>,
) -> EventsStatus {
    let mut input = StdSource::new(rt.reader());
    let is_hex = asked.options.get("--hex").is_some();
    match asked.action {
        EventsAction::Encode => encode_events(rt.alloc(), is_hex, &mut input, out),
        EventsAction::Decode | EventsAction::Verify if is_hex => {
            match read_hex(rt.alloc(), &mut input) {
                Ok(frames) => print_events(rt, asked, env, &mut CalmSource::new(frames), out),
                Err(status) => status,
            }
        }
        EventsAction::Decode | EventsAction::Verify => {
            print_events(rt, asked, env, &mut input, out)
        }
    }
}

// Prints the events of the frames of a source.
fn print_events<S: ByteSource>(
    rt: &HostRuntime,
    asked: &EventsAsked,
    env: &Env,
    frames: &mut S,
    out: &mut StdSink<Stdout>,
) -> EventsStatus {
    match asked.action {
        EventsAction::Verify => {
            let mut disk = HostDisk::new(rt.alloc(), rt);
            verify_events(rt.alloc(), asked, env, frames, &mut disk, out)
        }
        EventsAction::Decode | EventsAction::Encode => {
            decode_events(rt.alloc(), asked.form(), frames, out)
        }
    }
}
