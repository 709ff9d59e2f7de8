ghost use Rattle.std.specs.Prelude.{◌≡◌, [], IfOk, OnErr, option_copied, string_bytes, unwrap_or};
ghost use Rattle.smithy_http.specs.Endpoint.{Applies, MovesTo, joined_path, prefixed_authority, without_first_slash, without_last_slash};
ghost use Rattle.smithy_http.specs.Target.{target_of};

use crate::endpoint_error::InvalidEndpointError;
use crate::endpoint_prefix::{EndpointPrefix, checked_authority};
use crate::target::{join_target, parse_target};
use http_uri::Uri;
use smithy_core::Mem;
use std::alloc::Global;

/// Sends a target to an endpoint: the endpoint's scheme, the prefix and the endpoint's authority, the endpoint's path
/// without its last `/`, then `/`, and the target's path and query without the first `/`. The endpoint's query doesn't
/// count. A refused target stays as it was.
///
/// # Errors
///
/// The first of these: [`InvalidEndpointError::FailedToConstructAuthority`] where prefix and authority make no
/// authority, [`InvalidEndpointError::EndpointMustHaveScheme`] where the endpoint has no scheme,
/// [`InvalidEndpointError::FailedToConstructUri`] where the joined target isn't accepted.
pub fn apply_endpoint(
    alloc: Global,
    uri: &mut Uri,
    endpoint: &Uri,
    prefix: Option<&EndpointPrefix>,
) -> Result<(), InvalidEndpointError>
    ensures applied { Applies (unwrap_or (option_copied prefix.entry) []) (target_of endpoint.now) (target_of uri.old) uri.new result }
    ensures err { OnErr result (uri.new ≡ uri.old) }
{
    *uri = target_at(alloc, uri, endpoint, prefix_text(prefix))?;
    Ok(())
}

// The target at the endpoint.
fn target_at(
    alloc: Global,
    uri: &Uri,
    endpoint: &Uri,
    prefix: &str,
) -> Result<Uri, InvalidEndpointError>
    ensures { MovesTo prefix.now (target_of endpoint.now) (target_of uri.now) result }
{
    let authority = checked_authority(prefixed_authority(alloc, prefix, endpoint)?)?;
    let Some(scheme) = endpoint.scheme_str() else {
        return Err(InvalidEndpointError::EndpointMustHaveScheme);
    };
    let path = joined_path(alloc, endpoint.path(), uri.path())?;
    let text = join_target(
        alloc,
        Some(scheme),
        Some(authority.as_str()),
        path.as_str(),
        uri.query(),
    )?;
    Ok(parse_target(text)?)
}

fn prefix_text(prefix: Option<&EndpointPrefix>) -> &str
    ensures { result.now ≡ unwrap_or (option_copied prefix.entry) [] }
{
    match prefix {
        Some(prefix) => prefix.as_str(),
        None => "",
    }
}

// The endpoint's authority after the prefix.
fn prefixed_authority(alloc: Global, prefix: &str, endpoint: &Uri) -> Mem<String>
    ensures { IfOk result (λ text. string_bytes text ≡ prefixed_authority prefix.now (target_of endpoint.now)) }
{
    let authority = match endpoint.authority() {
        Some(authority) => authority.as_str(),
        None => "",
    };
    format!(in alloc; "{prefix}{authority}")
}

// The endpoint's path, and then the target's.
fn joined_path(alloc: Global, endpoint: &str, path: &str) -> Mem<String>
    ensures { IfOk result (λ text. string_bytes text ≡ joined_path endpoint.now path.now) }
{
    let front = without_last_slash(endpoint);
    let back = without_first_slash(path);
    format!(in alloc; "{front}/{back}")
}

fn without_last_slash(path: &str) -> &str
    ensures { result.now ≡ without_last_slash path.now }
{
    path.strip_suffix('/').unwrap_or(path)
}

fn without_first_slash(path: &str) -> &str
    ensures { result.now ≡ without_first_slash path.now }
{
    path.strip_prefix('/').unwrap_or(path)
}
