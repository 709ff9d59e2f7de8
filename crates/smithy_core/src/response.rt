ghost use Rattle.std.specs.Prelude.{◌≡◌, IfOk};

use crate::headers::Headers;
use crate::memory::Mem;
use std::fmt;

/// What an HTTP response says before its body. [`Debug`](std::fmt::Debug) prints of the headers the names and how long the
/// values are, since a value may be a secret.
#[derive(Drop)]
pub struct HttpResponse {
    /// The status code, as 200.
    pub status: u16,
    /// The headers in order.
    pub headers: Headers,
    /// How far the service's clock is ahead, in milliseconds, where that was measured.
    pub skew: Option<i64>,
}

impl HttpResponse {
    /// A response with the same status, headers and skew.
    pub fn try_clone(&self) -> Mem<HttpResponse>
        ensures status { IfOk result (λ copy. copy.status ≡ self.now.status) }
        ensures headers { IfOk result (λ copy. copy.headers ≡ self.now.headers) }
        ensures skew { IfOk result (λ copy. copy.skew ≡ self.now.skew) }
    {
        Ok(HttpResponse {
            status: self.status,
            headers: self.headers.try_clone()?,
            skew: self.skew,
        })
    }
}

impl fmt::Debug for HttpResponse {
    ghost use Rattle.std.specs.Prelude.{Some};
    ghost use Rattle.smithy_core.specs.Response.{response_sizes};

    ghost debug_output = { λ response. Some (response_sizes response) };

    fn fmt<W: fmt::Write>(&self, f: &mut fmt::Formatter<W>) -> fmt::Result {
        let (status, headers, skew) = (self.status, &self.headers, self.skew);
        write!(
            f,
            "HttpResponse {{ status: {status}, headers: {headers:?}, skew: {skew:?} }}"
        )
    }
}
