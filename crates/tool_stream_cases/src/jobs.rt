//! What a run is given, from the words of its line: a line of the job each, but for those that begin with `@`.
use crate::streamed::raw_stream;
use smithy_core::{Env, FaultyDisk, ListClock, Mem, Moment};
use std::alloc::Global;
use tool_case_lines::{bytes_of_hex, with_repeats};

// A job with one event is these three, one after another.
const REQUEST: &[u8] = b"method POST
target https://transcribe.us-east-1.amazonaws.com/stream
header content-type: application/vnd.amazon.eventstream
";

const PROFILE: &[u8] = b"credentials [default]
credentials aws_access_key_id = AKIDEXAMPLE
credentials aws_secret_access_key = wJalrXUtnFEMI/K7MDENG+bPxRfiCYEXAMPLEKEY
credentials region = us-east-1
";

const EVENT: &[u8] = b"event
h :message-type text event
payload 68656c6c6f
";

const LONG_EVENT: &[u8] = b"event
payload abababababababababababababababababababababababababababababababababababababababababababababababababababababababababababababababababababababababababababababababababababababababababababababababababababab
";

// The two frames of that job's stream, and the same with another signature in the closing one.
const CHAIN: &str =
    "0000007e00000043cc1591ed103a6368756e6b2d7369676e61747572650600201f21cef2f6ef80602e68b53cf8eef518cad870abf5992bb709a9975bcc5b2736053a64617465080000014f7e9b6f800000002b0000001627e7742d0d3a6d6573736167652d747970650700056576656e7468656c6c6fcc8019328c848f530000005300000043f5447a58103a6368756e6b2d7369676e6174757265060020624d8899799296b936e200257d28d8bc1e2316e008dfdfb05f5e49ccff660a6f053a64617465080000014f7e9b6f80a703f498";

const FORGED: &str =
    "0000007e00000043cc1591ed103a6368756e6b2d7369676e61747572650600201f21cef2f6ef80602e68b53cf8eef518cad870abf5992bb709a9975bcc5b2736053a64617465080000014f7e9b6f800000002b0000001627e7742d0d3a6d6573736167652d747970650700056576656e7468656c6c6fcc8019328c848f530000005300000043f5447a58103a6368756e6b2d7369676e6174757265060020624d8899799296b936e200257d28d8bc1e2316e008dfdfb05f5e49ccff660a6e053a64617465080000014f7e9b6f80096b6509";

// What a record of that job begins with: the line `record`, and the head of what `stream` wrote.
const HEAD: &[u8] = b"record
POST https://transcribe.us-east-1.amazonaws.com/stream
content-type: application/vnd.amazon.eventstream
x-amz-date: 20150830T123600Z
authorization: AWS4-HMAC-SHA256 Credential=AKIDEXAMPLE/20150830/us-east-1/transcribe/aws4_request, SignedHeaders=content-type;host;x-amz-date, Signature=b7db4a80bf8b321aa7c8af3c621b0cf7eb74b977fd5567af56334e248464d66c

";

/// The bytes of the input.
pub fn input_of(alloc: Global, lines: &[&str]) -> Mem<Vec<u8>> {
    let mut input = Vec::new(alloc);
    for line in lines {
        push_line(alloc, &mut input, line)?;
    }
    Ok(input)
}

fn push_line(alloc: Global, input: &mut Vec<u8>, line: &str) -> Mem<()> {
    match line.split_once(' ').unwrap_or((line, "")) {
        ("@hex", digits) => push_digits(alloc, input, digits),
        ("@text", text) => input.extend_from_slice(text.as_bytes()),
        ("@streamed", count) => push_streamed(alloc, input, count.parse().unwrap_or(0)),
        ("@cut", len) => {
            input.truncate(len.parse().unwrap_or(0));
            Ok(())
        }
        ("@env" | "@file" | "@digits" | "@read" | "@disk" | "@out" | "@err" | "@clock", _) => Ok(
            (),
        ),
        (word, _) => push_part(alloc, input, word, line),
    }
}

// Appends the frames of a stream of so many events, as bytes.
fn push_streamed(alloc: Global, input: &mut Vec<u8>, count: usize) -> Mem<()> {
    let mut job = Vec::new(alloc);
    job.extend_from_slice(REQUEST)?;
    job.extend_from_slice(PROFILE)?;
    for _ in 0..count {
        job.extend_from_slice(LONG_EVENT)?;
    }
    let raw = raw_stream(alloc, job)?;
    input.extend_from_slice(raw.as_slice())
}

fn push_digits(alloc: Global, input: &mut Vec<u8>, digits: &str) -> Mem<()> {
    let bytes = bytes_of_hex(alloc, digits)?;
    input.extend_from_slice(bytes.as_slice())
}

// Appends a part of the example, or else the line.
fn push_part(alloc: Global, input: &mut Vec<u8>, word: &str, line: &str) -> Mem<()> {
    match word {
        "@request" => input.extend_from_slice(REQUEST),
        "@profile" => input.extend_from_slice(PROFILE),
        "@event" => input.extend_from_slice(EVENT),
        "@head" => input.extend_from_slice(HEAD),
        "@chain" => push_digits(alloc, input, CHAIN),
        "@forged" => push_digits(alloc, input, FORGED),
        _ => push_job_line(alloc, input, line),
    }
}

fn push_job_line(alloc: Global, input: &mut Vec<u8>, line: &str) -> Mem<()> {
    let line = with_repeats(alloc, line)?;
    input.extend_from_slice(line.as_bytes())?;
    input.extend_from_slice(b"\n")
}

/// The variables.
pub fn env_of(alloc: Global, lines: &[&str]) -> Mem<Env> {
    let mut env = Env::new(alloc);
    for line in lines {
        if let Some(("@env", pair)) = line.split_once(' ') {
            let (name, value) = pair.split_once('=').unwrap_or((pair, ""));
            env.set(name, value)?;
        }
    }
    Ok(env)
}

/// The disk, whose calls `@disk PLACE` fail.
pub fn disk_of(alloc: Global, lines: &[&str]) -> Mem<FaultyDisk> {
    let files = files_of(alloc, lines)?;
    Ok(FaultyDisk::new(files, fails_of(alloc, lines, "@disk")?))
}

/// The files of the disk: those of `@file PATH TEXT` and of `@digits PATH DIGITS`.
pub fn files_of(alloc: Global, lines: &[&str]) -> Mem<Vec<(String, Vec<u8>)>> {
    let mut files = Vec::new(alloc);
    for line in lines {
        push_file(alloc, &mut files, line)?;
    }
    Ok(files)
}

fn push_file(alloc: Global, files: &mut Vec<(String, Vec<u8>)>, line: &str) -> Mem<()> {
    let (key, file) = line.split_once(' ').unwrap_or((line, ""));
    let (path, content) = file.split_once(' ').unwrap_or((file, ""));
    let bytes = match key {
        "@file" => Vec::from_slice(alloc, content.as_bytes())?,
        "@digits" => bytes_of_hex(alloc, content)?,
        _ => return Ok(()),
    };
    files.push((String::from_str(alloc, path)?, bytes))?;
    Ok(())
}

/// The calls that fail on an I/O object.
pub fn fails_of(alloc: Global, lines: &[&str], object: &str) -> Mem<Vec<u64>> {
    let mut fails = Vec::new(alloc);
    for line in lines {
        let (key, place) = line.split_once(' ').unwrap_or((line, ""));
        if key == object {
            fails.push(place.parse().unwrap_or(0))?;
        }
    }
    Ok(fails)
}

/// The clock, which gives the moments of each `@clock SECONDS` in their order, or second 0 where there are none.
pub fn clock_of(alloc: Global, lines: &[&str]) -> Mem<ListClock> {
    let mut moments = Vec::new(alloc);
    for line in lines {
        if let Some(("@clock", secs)) = line.split_once(' ') {
            moments.push(Moment::new(secs.parse().unwrap_or(0), 0))?;
        }
    }
    if moments.is_empty() {
        moments.push(Moment::new(0, 0))?;
    }
    Ok(ListClock::new(moments))
}
