ghost use Rattle.std.specs.Prelude.{◌≡◌, IfOk};
ghost use Rattle.sigv4.specs.Request.{IsMadeOf, IsMadeOfRequest, IsSameRequest, request_body, request_uri};

use crate::body::SignableBody;
use crate::error::SigningError;
use http_uri::Uri;
use smithy_core::{Headers, HttpRequest, Mem};
use smithy_http::read_target;
use std::alloc::Global;

/// A request to be signed.
#[derive(Drop)]
pub struct SignableRequest<'a> {
    pub(crate) method: &'a str,
    pub(crate) uri: Uri,
    pub(crate) headers: &'a Headers,
    pub(crate) body: SignableBody<'a>,
}

impl<'a> SignableRequest<'a> {
    /// A request of these parts. The method is taken as it is: that it is a token isn't tested here, so that CR and LF in it
    /// pass into the canonical text.
    ///
    /// # Errors
    ///
    /// [`SigningError::InvalidUri`] exactly where the text isn't accepted as a target, or has an authority without a scheme.
    pub fn new(
        alloc: Global,
        method: &'a str,
        uri: &str,
        headers: &'a Headers,
        body: SignableBody<'a>,
    ) -> Result<Self, SigningError>
        ensures { IsMadeOf method.now uri.now headers.now body.entry result }
    {
        Ok(SignableRequest {
            method,
            uri: read_target(alloc, uri)?,
            headers,
            body,
        })
    }

    /// The request as it stands, its body signed as bytes. Its method is taken as it is, as by [`SignableRequest::new`].
    ///
    /// # Errors
    ///
    /// Those of [`SignableRequest::new`].
    #[tactic(auto, using(crate::proofs::TargetLemmas::made_of_request))]
    pub fn from_http_request(alloc: Global, request: &'a HttpRequest) -> Result<Self, SigningError>
        ensures { IsMadeOfRequest request.now result }
    {
        let body = SignableBody::Bytes(request.body.as_slice());
        SignableRequest::new(
            alloc,
            request.method.as_str(),
            request.target.as_str(),
            &request.headers,
            body,
        )
    }

    /// An equal request, over the same headers.
    pub fn try_clone(&self) -> Mem<SignableRequest<'a>>
        ensures { IfOk result (IsSameRequest self.now) }
    {
        Ok(SignableRequest {
            method: self.method,
            uri: self.uri.clone()?,
            headers: self.headers,
            body: self.body.try_clone()?,
        })
    }

    /// The URI that was read of the request's target. The SDK has no such public call.
    pub fn into_uri(self) -> Uri
        ensures { result ≡ request_uri self.entry }
    {
        self.uri
    }

    /// The body.
    pub fn body(&self) -> &SignableBody<'_>
        ensures { result.now ≡ request_body self.now }
    {
        &self.body
    }
}
