ghost use Rattle.std.specs.Prelude.{◌≡◌, ◌++◌, ◌↔◌, IsTrue, IfOk, OnOk, option_copied};
ghost use Rattle.std.specs.String.{string_bytes};
ghost use Rattle.http_uri.specs.ByteClasses.{framed_text};
ghost use Rattle.smithy_http.specs.QueryWriter.{ParsesUri, ReadsTarget};
ghost use Rattle.smithy_http.specs.Target.{IsAuthorityAlone, target_of, target_text};

use crate::uri_fault::UriFault;
use http_uri::Uri;
use smithy_core::Mem;
use std::alloc::Global;

/// The text of a target: its scheme, its authority, its path and its query, joined (RFC 3986, section 5.3).
#[tactic(auto, unfolding(crate::specs::Target::target_text))]
pub(crate) fn join_target(
    alloc: Global,
    scheme: Option<&str>,
    authority: Option<&str>,
    path: &str,
    query: Option<&str>,
) -> Mem<String>
    ensures { IfOk result (λ text. string_bytes text
        ≡ target_text (record { scheme = option_copied scheme.entry; authority = option_copied authority.entry; path = path.now; query = option_copied query.entry })) }
{
    let mut text = String::new(alloc);
    push_framed(&mut text, "", scheme, "://")?;
    push_framed(&mut text, "", authority, "")?;
    text.push_str(path)?;
    push_framed(&mut text, "?", query, "")?;
    Ok(text)
}

// Appends the part between its marks, where there is one.
fn push_framed(out: &mut String, lead: &str, part: Option<&str>, trail: &str) -> Mem<()>
    ensures { OnOk result (string_bytes out.new ≡ string_bytes out.old ++ framed_text lead.now (option_copied part.entry) trail.now) }
{
    if let Some(part) = part {
        out.push_str(lead)?;
        out.push_str(part)?;
        out.push_str(trail)?;
    }
    Ok(())
}

/// The target that the text spells.
///
/// # Errors
///
/// [`UriFault::InvalidUri`] exactly where the text isn't accepted as a target, or passes 65,534 bytes,
/// or has an authority without a scheme.
pub fn read_target(alloc: Global, text: &str) -> Result<Uri, UriFault>
    ensures { ReadsTarget text.now result }
{
    let uri = Uri::from_str(alloc, text)?;
    if is_authority_alone(&uri) {
        return Err(UriFault::InvalidUri);
    }
    Ok(uri)
}

/// The URI that the text spells.
pub(crate) fn parse_target(text: String) -> Result<Uri, UriFault>
    ensures { ParsesUri (string_bytes text) result }
{
    Ok(Uri::from_string(text)?)
}

/// Whether the target has an authority without a scheme.
pub(crate) fn is_authority_alone(uri: &Uri) -> bool
    ensures { IsTrue result ↔ IsAuthorityAlone (target_of uri.now) }
{
    uri.scheme().is_none() && uri.authority().is_some()
}
