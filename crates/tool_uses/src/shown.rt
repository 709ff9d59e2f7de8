//! How requests and bodies are shown.
use smithy_core::HttpRequest;
use std::alloc::{AllocError, Global};

/// Appends the method and the target, the headers, and an empty line.
pub fn push_request(text: &mut String, request: &HttpRequest) -> Result<(), AllocError> {
    write!(text, "{} {}\n", request.method, request.target)?;
    for (name, value) in request.headers.iter() {
        write!(text, "{name}: {value}\n")?;
    }
    text.push('\n')
}

/// Appends bytes that are text, each line with `$` for its carriage return, and an empty line.
pub fn push_lines(alloc: Global, text: &mut String, bytes: &[u8]) -> Result<(), AllocError> {
    let lines = String::from_utf8_lossy(alloc, bytes)?;
    text.push_str(lines.as_str().replace(alloc, "\r\n", "$\n")?.as_str())?;
    text.push('\n')
}
