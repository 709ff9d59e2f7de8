use crate::files::sections_of;
use crate::texts::{printed, printed_of, rest, text, word};
use aws_intercept::{IdFault, InvalidInvocationId, InvalidMetadataValue, UserAgentFault};
use env_config::{
    BuildFault, CouldNotReadConfigFile, EnvConfigFileLoadError, EnvConfigParseError, ParseFault,
    ValidateFault,
};
use smithy_core::Mem;
use std::alloc::Global;

// What the faults print, each fault of files or values by a copy.
pub fn answer(alloc: Global, call: &str, words: &[&str]) -> Mem<String> {
    let first = word(words, 0);
    match call {
        "parse" => parse_text(alloc, words),
        "line" => printed(alloc, line_fault(alloc, words)),
        "load" => printed(alloc, load_fault(alloc, words)),
        "file" => printed(alloc, unread(alloc, first)),
        "memory" if first == "parse" => printed(alloc, ParseFault::NoMemory.try_clone()),
        "memory" => value_text(alloc, &ValidateFault::NoMemory),
        _ => of_client(alloc, call, first),
    }
}

fn of_client(alloc: Global, call: &str, name: &str) -> Mem<String> {
    match call {
        "invocation" => printed(alloc, Ok(InvalidInvocationId)),
        "metadata" => printed(alloc, Ok(InvalidMetadataValue)),
        "build" => printed_of(alloc, &[BuildFault::NoFiles, BuildFault::NoMemory], name),
        "id" => printed_of(alloc, &[IdFault::UsedUp, IdFault::NoMemory], name),
        _ => printed_of(alloc, &USER_AGENT_FAULTS, name),
    }
}

const USER_AGENT_FAULTS: [UserAgentFault; 5] = [
    UserAgentFault::MissingApiMetadata,
    UserAgentFault::MissingUserAgent,
    UserAgentFault::InvalidMetadataValue,
    UserAgentFault::InvalidHeaderValue,
    UserAgentFault::NoMemory,
];

fn parse_text(alloc: Global, files: &[&str]) -> Mem<String> {
    match &sections_of(alloc, "default", files) {
        Ok(_) => text(alloc, "-"),
        Err(fault) => printed(alloc, fault.try_clone()),
    }
}

fn value_text(alloc: Global, fault: &ValidateFault<&'static str>) -> Mem<String> {
    printed(alloc, fault.try_clone())
}

// The error of PATH, LINE and MESSAGE.
fn line_fault(alloc: Global, words: &[&str]) -> Mem<EnvConfigParseError> {
    let path = text(alloc, word(words, 0))?;
    let message = text(alloc, word(words, 2))?;
    let fault = EnvConfigParseError {
        path,
        line_number: word(words, 1).parse().unwrap_or(0),
        message,
    };
    fault.try_clone()
}

// The fault `line` of a line, or `file` of a file, or want of memory.
fn load_fault(alloc: Global, words: &[&str]) -> Mem<EnvConfigFileLoadError> {
    let fault = match word(words, 0) {
        "file" => EnvConfigFileLoadError::CouldNotReadFile(unread(alloc, word(words, 1))?),
        "line" => EnvConfigFileLoadError::from(line_fault(alloc, rest(words, 1))?),
        _ => EnvConfigFileLoadError::NoMemory,
    };
    fault.try_clone()
}

fn unread(alloc: Global, path: &str) -> Mem<CouldNotReadConfigFile> {
    let path = text(alloc, path)?;
    CouldNotReadConfigFile { path }.try_clone()
}
