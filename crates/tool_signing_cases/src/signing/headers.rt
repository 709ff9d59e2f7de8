//! Headers that may be absent.
use smithy_core::{Headers, HttpRequest, HttpResponse, Mem};
use smithy_http::{HeaderFault, set_request_header_if_absent, set_response_header_if_absent};
use std::alloc::Global;
use tool_case_lines::on_one_line;

/// The headers of a request after one is set beside `foo=bar`, and before them the fault where it isn't.
pub fn on_request(alloc: Global, name: &str, value: &str) -> Mem<String> {
    let mut request = HttpRequest::new(alloc, "GET", "/")?;
    request.headers.append("foo", "bar")?;
    let answer = set_request_header_if_absent(alloc, &mut request, name, value);
    outcome(alloc, answer, &request.headers)
}

/// The same of a response.
pub fn on_response(alloc: Global, name: &str, value: &str) -> Mem<String> {
    let mut response = HttpResponse {
        status: 200,
        headers: Headers::new(alloc),
        skew: None,
    };
    response.headers.append("foo", "bar")?;
    let answer = set_response_header_if_absent(alloc, &mut response, name, value);
    outcome(alloc, answer, &response.headers)
}

fn outcome(alloc: Global, answer: Result<(), HeaderFault>, headers: &Headers) -> Mem<String> {
    let mut text = String::new(alloc);
    push_outcome(&mut text, answer, headers)?;
    on_one_line(alloc, text.as_str())
}

fn push_outcome(text: &mut String, answer: Result<(), HeaderFault>, headers: &Headers) -> Mem<()> {
    if let Err(fault) = answer {
        write!(text, "{fault:?} ")?;
    }
    for (name, value) in headers.iter() {
        write!(text, "{name}={value};")?;
    }
    Ok(())
}
