//! What is said of how a run ended.
ghost use Rattle.std.specs.Prelude.{◌≡◌, ◌≤◌, ◌-◌, ◌++◌, false, Some, IfOk, codes, map, option_copied, slice_get};
ghost use Rattle.std.specs.String.{string_bytes};
ghost use Rattle.sigv4.specs.Error.{error_text};
ghost use Rattle.awsign_run.specs.Saying.{GainsSome, Says, behind_word, fault_reason, faulty_text, no_key_text, no_region_text, status_line, tool_line, unread_data_text, word_text};

use crate::fault::Fault;
use crate::status::Status;
use aws_settings::EnvConfigParseError;
use sigv4::SigningError;
use smithy_core::{ByteSink, Mem, write_all};
use std::alloc::Global;

/// Says on `err` how a run with these words ended, in a line that begins with the tool's name; nothing where all was printed.
pub fn say<E: ByteSink>(alloc: Global, words: &[String], status: &Status, err: &mut E)
    ensures said { Says (map string_bytes words.now) status.now (E.held err.old) (E.held err.new) }
    ensures count { E.faults err.old ≤ E.faults err.new }
{
    if let Status::Done = status {
        return;
    }
    match line_of(alloc, words, status) {
        Ok(line) => write_some(line.as_str(), err),
        Err(_) => write_some("awsign: no memory\n", err),
    }
}

/// Writes a line; a fault of the error stream can't be said anywhere.
pub fn write_some<E: ByteSink>(line: &str, err: &mut E)
    ensures gains { GainsSome (E.held err.old) (E.held err.new) line.now }
    ensures count { E.faults err.old ≤ E.faults err.new }
{
    let _ = write_all(err, line.as_bytes());
}

fn line_of(alloc: Global, words: &[String], status: &Status) -> Mem<String>
    ensures { IfOk result (λ line. string_bytes line ≡ status_line (map string_bytes words.now) status.now) }
{
    match status {
        Status::Done => Ok(String::new(alloc)),
        Status::BadWord(place) => word_line(alloc, *place, word_at(words, *place)),
        Status::CouldNotReadFile(path) => unread_line(alloc, path.as_str()),
        Status::DataFault => unread_data_line(alloc, word_behind(words, "--data")),
        Status::Refused(fault) => fault_line(alloc, fault),
        Status::OutputFault => tool_line(alloc, "the output failed"),
        Status::NoMemory => tool_line(alloc, "no memory"),
    }
}

/// A line of the tool.
pub fn tool_line(alloc: Global, text: &str) -> Mem<String>
    ensures { IfOk result (λ line. string_bytes line ≡ tool_line text.now) }
{
    format!(in alloc; "awsign: {text}\n")
}

fn unread_line(alloc: Global, path: &str) -> Mem<String>
    ensures { IfOk result (λ line. string_bytes line ≡ tool_line (codes "could not read the profile file " ++ path.now)) }
{
    let text = format!(in alloc; "could not read the profile file {path}")?;
    tool_line(alloc, text.as_str())
}

fn unread_data_line(alloc: Global, path: Option<&str>) -> Mem<String>
    ensures { IfOk result (λ line. string_bytes line ≡ tool_line (unread_data_text (option_copied path.entry))) }
{
    match path {
        Some(path) => {
            let text = format!(in alloc; "could not read the file that --data names: {path}")?;
            tool_line(alloc, text.as_str())
        }
        None => tool_line(alloc, "could not read the file that --data names"),
    }
}

// The word behind the first that is this one.
fn word_behind<'a>(words: &'a [String], name: &str) -> Option<&'a str>
    ensures { option_copied result ≡ behind_word name.now false (map string_bytes words.now) }
{
    let mut stood = false;
    for word in words {
        if stood {
            return Some(word.as_str());
        }
        stood = word.as_str() == name;
    }
    None
}

// The word at a place, where there is one.
fn word_at(words: &[String], place: usize) -> Option<&str>
    ensures { option_copied result ≡ slice_get (map string_bytes words.now) (place - 1) }
{
    match words.get(place.saturating_sub(1)) {
        Some(word) => Some(word.as_str()),
        None => None,
    }
}

fn word_line(alloc: Global, place: usize, word: Option<&str>) -> Mem<String>
    ensures { IfOk result (λ line. string_bytes line ≡ tool_line (word_text place (option_copied word.entry))) }
{
    match word {
        Some(word) => bad_word_line(alloc, place, word),
        None => tool_line(
            alloc,
            "a word is missing at the end; awsign COMMAND --help lists the words",
        ),
    }
}

fn bad_word_line(alloc: Global, place: usize, word: &str) -> Mem<String>
    ensures { IfOk result (λ line. string_bytes line ≡ tool_line (word_text place (Some word.now))) }
{
    let text = format!(in alloc;
        "word {place} isn't understood here: {word}; awsign COMMAND --help lists the words"
    )?;
    tool_line(alloc, text.as_str())
}

/// The line that says why nothing is signed.
pub fn fault_line(alloc: Global, fault: &Fault) -> Mem<String>
    ensures { IfOk result (λ line. string_bytes line ≡ tool_line (fault_reason fault.now)) }
{
    match fault {
        Fault::Profile(error) => faulty_line(alloc, error),
        Fault::MissingKey { profile, files } => {
            no_key_line(alloc, profile.as_str(), files.as_str())
        }
        Fault::MissingSecret => tool_line(
            alloc,
            "AWS_ACCESS_KEY_ID is set and AWS_SECRET_ACCESS_KEY isn't: set both, or neither",
        ),
        Fault::MissingRegion(profile) => no_region_line(alloc, profile.as_str()),
        Fault::EmptyRegion => tool_line(
            alloc,
            "the region is empty: give --region a name, or leave it out",
        ),
        Fault::MissingService => tool_line(
            alloc,
            "no service, and the host names none: say --service NAME, or --s3",
        ),
        Fault::EmptyService => tool_line(
            alloc,
            "the service's name is empty: give --service a name, or leave it out",
        ),
        Fault::LongExpiry => tool_line(
            alloc,
            "the URL would be good for over 604800 seconds, which AWS refuses; --long makes it all the same",
        ),
        Fault::AlreadyPresigned => tool_line(
            alloc,
            "the URL is presigned already: leave out its signature's parameters",
        ),
        Fault::Signing(error) => unsigned_line(alloc, error),
        Fault::NoMemory => tool_line(alloc, "no memory"),
    }
}

fn unsigned_line(alloc: Global, error: &SigningError) -> Mem<String>
    ensures { IfOk result (λ line. string_bytes line ≡ tool_line (codes "the request can't be signed: " ++ error_text error.now)) }
{
    let text = format!(in alloc; "the request can't be signed: {error}")?;
    tool_line(alloc, text.as_str())
}

fn no_key_line(alloc: Global, profile: &str, files: &str) -> Mem<String>
    ensures { IfOk result (λ line. string_bytes line ≡ tool_line (no_key_text profile.now files.now)) }
{
    let text = format!(in alloc;
        "no key: set AWS_ACCESS_KEY_ID and AWS_SECRET_ACCESS_KEY, which don't count beside --profile, or give the profile '{profile}' aws_access_key_id and aws_secret_access_key; looked in {files}"
    )?;
    tool_line(alloc, text.as_str())
}

fn no_region_line(alloc: Global, profile: &str) -> Mem<String>
    ensures { IfOk result (λ line. string_bytes line ≡ tool_line (no_region_text profile.now)) }
{
    let text = format!(in alloc;
        "no region: say --region, set AWS_REGION, or give the profile '{profile}' a region; awsign settings says where it is looked for"
    )?;
    tool_line(alloc, text.as_str())
}

fn faulty_line(alloc: Global, error: &EnvConfigParseError) -> Mem<String>
    ensures { IfOk result (λ line. string_bytes line ≡ tool_line (faulty_text error.now)) }
{
    let (path, number, message) = (
        error.path.as_str(),
        error.line_number,
        error.message.as_str(),
    );
    let text = format!(in alloc; "{path}, line {number}: {message}")?;
    tool_line(alloc, text.as_str())
}
