//! The replies of a transport.
use crate::texts::given_text;
use operation_run::Reply;
use smithy_core::{ErrorMetadata, Headers, HttpResponse, Mem};
use std::alloc::Global;
use tool_case_lines::halves;

/// The reply `STATUS CODE SKEW`, with what follows the first `|`: `NAME VALUE` of a header, with `|` between two.
pub fn reply_of(alloc: Global, said: &str) -> Mem<Reply> {
    let (line, headers) = said.split_once('|').unwrap_or((said, ""));
    let (status, rest) = halves(line);
    let (code, skew) = halves(rest);
    let error = error_of(alloc, code)?;
    let headers = headers_of(alloc, headers)?;
    let response = HttpResponse {
        status: status.parse().unwrap_or(0),
        headers,
        skew: skew.parse().ok(),
    };
    Ok(Reply { response, error })
}

fn headers_of(alloc: Global, said: &str) -> Mem<Headers> {
    let mut headers = Headers::new(alloc);
    for header in said.split('|') {
        if let Some((name, value)) = header.split_once(' ') {
            headers.append(name, value)?;
        }
    }
    Ok(headers)
}

fn error_of(alloc: Global, code: &str) -> Mem<Option<ErrorMetadata>> {
    match given_text(alloc, code)? {
        None => Ok(None),
        code => Ok(Some(ErrorMetadata {
            code,
            message: None,
        })),
    }
}
