ghost use Rattle.std.specs.Prelude.{◌≤◌, length, IfOk};

use crate::shown::{debugged, quoted};
use crate::steps::all_answers;
use crate::words::{bytes_of, parted, size_of, word};
use smithy_core::{Clock, Disk, Env, HostDisk, Mem, SystemClock};
use std::alloc::Global;
use std::env::FillError;
use std::fs::{File, OpenFile};
use std::io::Write;
use std::rt::{Files, Runtime};
use std::{env, fs, io};
use tool_case_lines::{number, unknown};

pub fn answer<R: Runtime>(
    runtime: &R,
    process: u32,
    alloc: Global,
    call: &str,
    words: &[&str],
) -> Mem<String> {
    match call {
        "disk" => all_answers(alloc, HostDisk::new(alloc, runtime), words),
        "listed_variable" => listed_variable(alloc, words),
        "new_file" => new_file(runtime, process, alloc, words),
        _ => of_word(runtime, alloc, call, word(words, 0)),
    }
}

fn of_word<R: Runtime>(runtime: &R, alloc: Global, call: &str, word: &str) -> Mem<String> {
    match call {
        "variable" => variable(runtime, alloc, word),
        "clock" => clock(runtime, alloc, number(word)),
        _ => unknown(alloc),
    }
}

// What is read of a new file of this process.
fn new_file<R: Runtime>(runtime: &R, process: u32, alloc: Global, words: &[&str]) -> Mem<String> {
    let path = format!(in alloc; "/tmp/tool_frame_cases-{process}")?;
    let content = bytes_of(alloc, word(words, 0))?;
    let len = size_of(word(words, 1));
    made_and_read(runtime, alloc, path.as_str(), content.as_slice(), len)
}

fn made_and_read<R: Runtime>(
    runtime: &R,
    alloc: Global,
    path: &str,
    content: &[u8],
    len: usize,
) -> Mem<String> {
    match make(runtime, path, content, len) {
        Ok(()) => read_new(runtime, alloc, path),
        Err(_) => String::from_str(alloc, "no new file"),
    }
}

// A file with this content, up to this length or followed by zeros.
fn make<R: Files>(runtime: &R, path: &str, content: &[u8], len: usize) -> io::Result<()> {
    let mut file = File::create(runtime, path)?;
    file.write_all(content)?;
    file.set_len(len as u64)
}

// What is read of a file, which then goes. Of a long one only the length is shown.
fn read_new<R: Runtime>(runtime: &R, alloc: Global, path: &str) -> Mem<String> {
    let read = read_file(runtime, alloc, path);
    match fs::remove_file(runtime, path) {
        Ok(()) => read,
        Err(_) => String::from_str(alloc, "the file stays"),
    }
}

fn read_file<R: Runtime>(runtime: &R, alloc: Global, path: &str) -> Mem<String> {
    match HostDisk::new(alloc, runtime).read(path) {
        Ok(bytes) => shown(alloc, bytes.as_slice()),
        Err(fault) => debugged(alloc, &fault),
    }
}

fn shown(alloc: Global, bytes: &[u8]) -> Mem<String> {
    if bytes.len() > 400 {
        return format!(in alloc; "{} bytes", bytes.len());
    }
    quoted(alloc, bytes)
}

// Whether a variable has the value that the system's own call gives.
fn variable<R: Runtime>(runtime: &R, alloc: Global, name: &str) -> Mem<String> {
    let found = Env::real(alloc, runtime)?;
    is_same(runtime, found.get(name), name).to_string(alloc)
}

fn is_same<R: Runtime>(runtime: &R, found: Option<&str>, name: &str) -> bool {
    match env::var(runtime, name) {
        Ok(value) => found == Some(value.as_str()),
        Err(_) => found.is_none(),
    }
}

// Variables as a system may give them.
#[derive(Drop)]
struct Listed {
    entries: Vec<Vec<u8>>,
}

impl env::Env for Listed {
    fn arg(&self, _i: usize, _buf: &mut [u8]) -> Result<usize, FillError> {
        Err(FillError::NotPresent)
    }

    fn var(&self, _name: &str, _buf: &mut [u8]) -> Result<usize, FillError> {
        Err(FillError::NotPresent)
    }

    fn var_at(&self, i: usize, buf: &mut [u8]) -> Result<usize, FillError> {
        match self.entries.get(i) {
            Some(entry) => copy_entry(entry.as_slice(), buf),
            None => Err(FillError::NotPresent),
        }
    }
}

fn copy_entry(entry: &[u8], buf: &mut [u8]) -> Result<usize, FillError>
    ensures { IfOk result (λ n. n ≤ length buf.new) }
{
    if entry.len() > buf.len() {
        return Err(FillError::TooLong);
    }
    buf[..entry.len()].copy_from_slice(entry);
    Ok(entry.len())
}

fn listed_variable(alloc: Global, words: &[&str]) -> Mem<String> {
    let (entries, name) = parted(words);
    let listed = listed_of(alloc, entries)?;
    variable_of(alloc, &listed, name)
}

fn variable_of(alloc: Global, listed: &Listed, name: &str) -> Mem<String> {
    let env = Env::real(alloc, listed)?;
    match env.get(name) {
        Some(value) => quoted(alloc, value.as_bytes()),
        None => String::from_str(alloc, "none"),
    }
}

fn listed_of(alloc: Global, words: &[&str]) -> Mem<Listed> {
    let mut entries = Vec::new(alloc);
    for word in words {
        entries.push(bytes_of(alloc, word)?)?;
    }
    Ok(Listed { entries })
}

// Whether the system's clock is past a second.
fn clock<R: Runtime>(runtime: &R, alloc: Global, secs: i64) -> Mem<String> {
    let is_past = SystemClock::new(runtime).now().secs() > secs;
    is_past.to_string(alloc)
}
