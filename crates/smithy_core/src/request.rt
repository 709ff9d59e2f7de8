ghost use Rattle.std.specs.Prelude.{◌≡◌, [], IfOk};
ghost use Rattle.std.specs.String.{string_bytes};

use crate::headers::Headers;
use crate::memory::Mem;
use crate::text_pairs::fmt_name;
use bytes::Bytes;
use std::alloc::Global;
use std::fmt;

/// An HTTP request. [`Debug`](std::fmt::Debug) prints the method, the headers' names, and how long the target, the headers'
/// values and the body are, since each of these may hold a secret.
#[derive(Drop)]
pub struct HttpRequest {
    /// The method, as `GET`.
    pub method: String,
    /// The target as it goes out: an absolute URI, or a path with a query.
    pub target: String,
    /// The headers in order.
    pub headers: Headers,
    /// The body.
    pub body: Bytes,
}

impl HttpRequest {
    /// A request of this method and target, with no headers and an empty body.
    pub fn new(alloc: Global, method: &str, target: &str) -> Mem<HttpRequest>
        ensures method { IfOk result (λ request. string_bytes request.method ≡ method.now) }
        ensures target { IfOk result (λ request. string_bytes request.target ≡ target.now) }
        ensures empty { IfOk result (λ request. (request.headers ≡ []) × (request.body ≡ [])) }
    {
        Ok(HttpRequest {
            method: String::from_str(alloc, method)?,
            target: String::from_str(alloc, target)?,
            headers: Headers::new(alloc),
            body: Bytes::new(),
        })
    }

    /// A request with the same method, target, headers and body.
    pub fn try_clone(&self) -> Mem<HttpRequest>
        ensures method { IfOk result (λ copy. string_bytes copy.method ≡ string_bytes self.now.method) }
        ensures target { IfOk result (λ copy. string_bytes copy.target ≡ string_bytes self.now.target) }
        ensures headers { IfOk result (λ copy. copy.headers ≡ self.now.headers) }
        ensures body { IfOk result (λ copy. copy.body ≡ self.now.body) }
    {
        Ok(HttpRequest {
            method: self.method.clone()?,
            target: self.target.clone()?,
            headers: self.headers.try_clone()?,
            body: self.body.clone()?,
        })
    }
}

impl fmt::Debug for HttpRequest {
    ghost use Rattle.std.specs.Prelude.{Some};
    ghost use Rattle.smithy_core.specs.Request.{request_sizes};

    ghost debug_output = { λ request. Some (request_sizes request) };

    fn fmt<W: fmt::Write>(&self, f: &mut fmt::Formatter<W>) -> fmt::Result {
        let (target, headers, body) = (self.target.len(), &self.headers, self.body.len());
        f.write_str("HttpRequest { method: ")?;
        fmt_name(self.method.as_str(), f)?;
        write!(
            f,
            ", target_len: {target}, headers: {headers:?}, body_len: {body} }}"
        )
    }
}
