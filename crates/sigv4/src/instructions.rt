ghost use Rattle.std.specs.Prelude.{◌≡◌, [], map, IfOk, OnOk, OnErr};
ghost use Rattle.std.specs.Option.{option_map_or};
ghost use Rattle.std.specs.String.{string_bytes};
ghost use Rattle.smithy_core.specs.TextPairs.{text_pairs};
ghost use Rattle.smithy_http.specs.QueryWriter.{SpellsTarget};
ghost use Rattle.smithy_http.specs.Target.{target_of};
ghost use Rattle.sigv4.specs.Instructions.{instruction_pair, with_instructions};
ghost use Rattle.sigv4.specs.Parameters.{AppliesParams, AppliesTo};

use crate::error::SigningError;
use crate::header::{Header, HeaderPairs};
use crate::parameters::target_with;
use http_uri::Uri;
use smithy_core::{HttpRequest, Mem};
use smithy_http::read_target;
use std::alloc::Global;
use std::marker::Model;

/// What a signature adds to its request.
///
/// Contracts see the headers and the parameters.
#[derive(Drop)]
pub struct SigningInstructions {
    headers: Vec<Header>,
    params: Vec<(String, String)>,
}

impl Model for SigningInstructions {
    ghost use Rattle.smithy_core.specs.TextPairs.{text_pairs};
    ghost use Rattle.sigv4.specs.Instructions.{Instructions};

    ghost Value = { Instructions };

    ghost view = { λ made. record { headers = made.headers.items; params = text_pairs made.params.items } };
}

impl SigningInstructions {
    // These headers, and no parameters.
    pub(crate) fn of_headers(alloc: Global, headers: Vec<Header>) -> SigningInstructions
        ensures { result ≡ record { headers = headers.items; params = [] } }
    {
        SigningInstructions {
            headers,
            params: Vec::new(alloc),
        }
    }

    // These parameters, and no headers.
    pub(crate) fn of_params(alloc: Global, params: Vec<(String, String)>) -> SigningInstructions
        ensures { result ≡ record { headers = []; params = text_pairs params.items } }
    {
        SigningInstructions {
            headers: Vec::new(alloc),
            params,
        }
    }

    /// The headers and the parameters, in order.
    pub fn into_parts(self) -> (Vec<Header>, Vec<(String, String)>)
        ensures headers { result.0.items ≡ self.headers }
        ensures params { text_pairs result.1.items ≡ self.params }
    {
        (self.headers, self.params)
    }

    /// The names and the values of the headers, in order.
    pub fn headers(&self) -> HeaderPairs<'_>
        ensures { result ≡ map instruction_pair self.now.headers }
    {
        HeaderPairs::over(self.headers.as_slice())
    }

    /// The parameters, in order.
    pub fn params(&self) -> &[(String, String)]
        ensures { text_pairs result.now ≡ self.now.params }
    {
        self.params.as_slice()
    }

    /// Puts the signature into its request: the headers are inserted in order, and then the parameters are added to the
    /// target's query.
    ///
    /// # Errors
    ///
    /// [`SigningError::InvalidUri`], and nothing changes, exactly where the request's own target isn't accepted as by
    /// [`SignableRequest::new`](crate::SignableRequest::new), or there are parameters and that target is `*` or the new one
    /// passes 65,534 bytes.
    pub fn apply_to_request(self, request: &mut HttpRequest) -> Result<(), SigningError>
        ensures headers { OnOk result (request.new.headers ≡ with_instructions request.old.headers self.headers) }
        ensures target { AppliesParams self.params (string_bytes request.old.target) (string_bytes request.new.target) result }
        ensures method { request.new.method ≡ request.old.method }
        ensures body { request.new.body ≡ request.old.body }
        ensures err { OnErr result ((request.new.headers ≡ request.old.headers) × (request.new.target ≡ request.old.target)) }
    {
        let uri = read_target(*self.headers.allocator(), request.target.as_str())?;
        self.apply_to_parsed(request, &uri)
    }

    /// Puts the signature into its request as [`SigningInstructions::apply_to_request`] does, where the request's target was
    /// read already: `uri` has to be what its text parses to, which
    /// [`SignableRequest::into_uri`](crate::SignableRequest::into_uri) gives. The SDK has no such public call.
    ///
    /// # Errors
    ///
    /// [`SigningError::InvalidUri`], and nothing changes, exactly where there are parameters and the target is `*` or the new
    /// one passes 65,534 bytes.
    pub fn apply_to_parsed(self, request: &mut HttpRequest, uri: &Uri) -> Result<(), SigningError>
        requires { SpellsTarget (string_bytes request.old.target) uri.now }
        ensures headers { OnOk result (request.new.headers ≡ with_instructions request.old.headers self.headers) }
        ensures target { AppliesTo self.params (target_of uri.now) (string_bytes request.old.target) (string_bytes request.new.target) result }
        ensures method { request.new.method ≡ request.old.method }
        ensures body { request.new.body ≡ request.old.body }
        ensures err { OnErr result ((request.new.headers ≡ request.old.headers) × (request.new.target ≡ request.old.target)) }
    {
        let alloc = *self.headers.allocator();
        let target = target_with(alloc, uri, self.params.as_slice())?;
        request.headers.insert_all(pairs_of(self.headers)?)?;
        replace_text(&mut request.target, target);
        Ok(())
    }

    /// Equal instructions.
    pub fn try_clone(&self) -> Mem<SigningInstructions>
        ensures { IfOk result (λ copy. copy ≡ self.now) }
    {
        Ok(SigningInstructions {
            headers: self.headers.clone()?,
            params: self.params.clone()?,
        })
    }
}

impl Clone for SigningInstructions {
    ghost is_clone = { λ made copy. copy ≡ made };

    fn clone(&self) -> Mem<SigningInstructions> {
        self.try_clone()
    }
}

// Puts the new text in place of the old one, where there is a new one.
fn replace_text(text: &mut String, new: Option<String>)
    ensures { string_bytes text.new ≡ option_map_or string_bytes new (string_bytes text.old) }
{
    if let Some(new) = new {
        *text = new;
    }
}

// The names and the values of headers.
fn pairs_of(headers: Vec<Header>) -> Mem<Vec<(String, String)>>
    ensures { IfOk result (λ pairs. text_pairs pairs.items ≡ map instruction_pair headers.items) }
{
    let mut pairs = Vec::with_capacity(*headers.allocator(), headers.len())?;
    for header in headers {
        pairs.push(header.into_pair()?)?;
    }
    Ok(pairs)
}
