use crate::texts::text;
use smithy_core::{Headers, HttpRequest, HttpResponse, Mem};
use std::alloc::Global;

// Appends the headers `NAME: VALUE`; other words are none.
fn append_all(headers: &mut Headers, words: &[&str]) -> Mem<()> {
    for word in words {
        if let Some((name, value)) = word.split_once(": ") {
            headers.append(name, value)?;
        }
    }
    Ok(())
}

// A request with these headers.
pub fn request_of(alloc: Global, headers: &[&str]) -> Mem<HttpRequest> {
    let mut request = HttpRequest::new(alloc, "GET", "/")?;
    append_all(&mut request.headers, headers)?;
    Ok(request)
}

// A response with these headers.
pub fn response_of(alloc: Global, words: &[&str]) -> Mem<HttpResponse> {
    let mut headers = Headers::new(alloc);
    append_all(&mut headers, words)?;
    Ok(HttpResponse {
        status: 200,
        headers,
        skew: None,
    })
}

// All headers, `NAME: VALUE`, with bars between.
pub fn headers_text(alloc: Global, headers: &Headers) -> Mem<String> {
    if headers.is_empty() {
        return text(alloc, "-");
    }
    let mut out = String::new(alloc);
    for (name, value) in headers.iter() {
        let gap = if out.is_empty() { "" } else { " | " };
        write!(out, "{gap}{name}: {value}")?;
    }
    Ok(out)
}
