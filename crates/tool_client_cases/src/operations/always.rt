//! A transport of one's own.
use operation_run::{Reply, SendFault, Transport};
use smithy_core::{Headers, HttpRequest, HttpResponse};
use std::alloc::Global;

/// Answers 200 to each request, and shows contracts nothing.
#[derive(Drop)]
pub struct Always {
    pub alloc: Global,
}

impl Transport for Always {
    ghost use Rattle.std.specs.Prelude.{None};

    ghost sent = { λ _. None };

    ghost replied = { λ _. None };

    ghost faults = { λ _. 0 };

    fn send(&mut self, _request: &HttpRequest) -> Result<Reply, SendFault> {
        let headers = Headers::new(self.alloc);
        let response = HttpResponse {
            status: 200,
            headers,
            skew: None,
        };
        Ok(Reply {
            response,
            error: None,
        })
    }
}
