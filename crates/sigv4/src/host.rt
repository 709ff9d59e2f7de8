ghost use Rattle.std.specs.Prelude.{◌≡◌, option_copied};
ghost use Rattle.smithy_http.specs.Target.{target_of};
ghost use Rattle.sigv4.specs.Host.{has_default_port, host_text};

use http_uri::{Authority, Uri};

/// The text of a request's `host` header where it isn't given: the host alone where the port is the scheme's default, and
/// else the whole authority, its user included.
#[tactic(auto, unfolding(crate::specs::Host::host_text))]
pub fn host_text(uri: &Uri) -> Option<&str>
    ensures { option_copied result ≡ host_text (target_of uri.now) }
{
    let authority = uri.authority()?;
    if has_default_port(uri.scheme_str(), authority) {
        Some(authority.host())
    } else {
        Some(authority.as_str())
    }
}

// Whether the port is written as the default port of the scheme.
fn has_default_port(scheme: Option<&str>, authority: &Authority) -> bool
    ensures { result ≡ has_default_port (option_copied scheme.entry) authority.now }
{
    let (Some(scheme), Some(port)) = (scheme, authority.port()) else {
        return false;
    };
    (scheme == "http" && port.as_str() == "80") || (scheme == "https" && port.as_str() == "443")
}
