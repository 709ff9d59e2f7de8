ghost use Rattle.std.specs.Prelude.{◌≡◌};
ghost use Rattle.smithy_http.specs.SetHeader.{SetsIfAbsent};
ghost use Rattle.smithy_http.specs.declared.set_header.HeaderFault.TheVariants.{NoMemory};

use smithy_core::{Headers, HttpRequest, HttpResponse, is_header_name, is_header_value};
use std::alloc::{AllocError, Global};
use std::fmt;

/// Why a header isn't set.
#[derive(Clone, Copy, Debug, PartialEq, Eq)]
pub enum HeaderFault {
    /// The name is outside the grammar of header names.
    InvalidHeaderName,
    /// The value is outside the grammar of header values.
    InvalidHeaderValue,
    /// Memory ran out.
    NoMemory,
}

impl fmt::Display for HeaderFault {
    ghost use Rattle.std.specs.Prelude.{Some};
    ghost use Rattle.smithy_http.specs.SetHeader.{header_fault_text};

    ghost output = { λ fault. Some (header_fault_text fault) };

    fn fmt<W: fmt::Write>(&self, f: &mut fmt::Formatter<W>) -> fmt::Result {
        match self {
            HeaderFault::InvalidHeaderName => f.write_str("invalid header name"),
            HeaderFault::InvalidHeaderValue => f.write_str("invalid header value"),
            HeaderFault::NoMemory => f.write_str("no memory"),
        }
    }
}

impl std::error::Error for HeaderFault {}

impl From<AllocError> for HeaderFault {
    ghost from_gives = { λ _ fault. fault ≡ NoMemory };

    fn from(_e: AllocError) -> HeaderFault {
        HeaderFault::NoMemory
    }
}

/// Appends a header to a request, where the request has none of that name. The value is tested only there.
///
/// # Errors
///
/// The first of these, and nothing changes: [`HeaderFault::InvalidHeaderName`] where the name is outside its grammar,
/// [`HeaderFault::InvalidHeaderValue`] where the value is.
pub fn set_request_header_if_absent(
    _alloc: Global,
    request: &mut HttpRequest,
    name: &str,
    value: &str,
) -> Result<(), HeaderFault>
    ensures headers { SetsIfAbsent name.now value.now request.old.headers request.new.headers result }
    ensures method { request.new.method ≡ request.old.method }
    ensures target { request.new.target ≡ request.old.target }
    ensures body { request.new.body ≡ request.old.body }
{
    set_if_absent(&mut request.headers, name, value)
}

/// Appends a header to a response, where the response has none of that name. The value is tested only there.
///
/// # Errors
///
/// Those of [`set_request_header_if_absent`].
pub fn set_response_header_if_absent(
    _alloc: Global,
    response: &mut HttpResponse,
    name: &str,
    value: &str,
) -> Result<(), HeaderFault>
    ensures headers { SetsIfAbsent name.now value.now response.old.headers response.new.headers result }
    ensures status { response.new.status ≡ response.old.status }
    ensures skew { response.new.skew ≡ response.old.skew }
{
    set_if_absent(&mut response.headers, name, value)
}

fn set_if_absent(headers: &mut Headers, name: &str, value: &str) -> Result<(), HeaderFault>
    ensures { SetsIfAbsent name.now value.now headers.old headers.new result }
{
    if !is_header_name(name) {
        return Err(HeaderFault::InvalidHeaderName);
    }
    if headers.get(name).is_some() {
        return Ok(());
    }
    if !is_header_value(value) {
        return Err(HeaderFault::InvalidHeaderValue);
    }
    headers.append(name, value)?;
    Ok(())
}
