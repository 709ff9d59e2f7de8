//! The lines of a canonical text, in the order in which they stand in it.
ghost use Rattle.std.specs.Prelude.{◌≡◌, ◌++◌, ℕ, [], List, string_bytes, IfOk, OnOk};
ghost use Rattle.std.specs.List.{flat_map};
ghost use Rattle.http_uri.specs.Uri.{uri_path};
ghost use Rattle.smithy_core.specs.Text.{line};
ghost use Rattle.sigv4.specs.Canonical.{canonical_lines};
ghost use Rattle.sigv4.specs.CanonicalHeaders.{header_texts, pair_line};
ghost use Rattle.sigv4.specs.Path.{canonical_path};

use crate::canonical_headers::{SignedValue, push_header_lines};
use crate::path::canonical_path;
use crate::request::SignableRequest;
use crate::settings::SigningSettings;
use crate::text_sink::{TextSink, push_text_line};
use http_uri::Uri;
use smithy_core::Mem;
use std::alloc::Global;

/// The canonical text of a request, its canonical query, its signed headers and their names, and its payload's text.
pub(crate) fn joined_text(
    alloc: Global,
    request: &SignableRequest<'_>,
    settings: &SigningSettings,
    query: &str,
    headers: &[(&str, SignedValue<'_>)],
    names: &str,
    payload: &str,
) -> Mem<String>
    ensures { IfOk result (λ text. string_bytes text ≡ canonical_lines request.now.method.now
        (canonical_path settings.now.uri_path_normalization_mode settings.now.percent_encoding_mode (uri_path request.now.uri))
        query.now (flat_map pair_line (header_texts headers.now)) names.now payload.now) }
{
    let mut text = String::with_capacity(alloc, 512)?;
    push_head(
        &mut text,
        alloc,
        request.method,
        &request.uri,
        settings,
        query,
    )?;
    push_header_lines(&mut text, headers)?;
    push_tail(&mut text, names, payload)?;
    Ok(text)
}

/// Hands over the lines of a canonical text that stand before those of its headers: the method, the target's path and the query.
pub fn push_head<T: TextSink>(
    sink: &mut T,
    alloc: Global,
    method: &str,
    uri: &Uri,
    settings: &SigningSettings,
    query: &str,
) -> Mem<()>
    ensures { OnOk result ((front : List ℕ) → T.holds sink.old front → T.holds sink.new (front ++ line method.now
        ++ line (canonical_path settings.now.uri_path_normalization_mode settings.now.percent_encoding_mode (uri_path uri.now)) ++ line query.now)) }
{
    let path = canonical_path(
        alloc,
        settings.uri_path_normalization_mode,
        settings.percent_encoding_mode,
        uri.path(),
    )?;
    push_text_line(sink, method)?;
    push_text_line(sink, path.as_str())?;
    push_text_line(sink, query)
}

/// Hands over what stands behind the lines of the headers: an empty line, that of their names, and the payload's text.
pub fn push_tail<T: TextSink>(sink: &mut T, names: &str, payload: &str) -> Mem<()>
    ensures { OnOk result ((front : List ℕ) → T.holds sink.old front
        → T.holds sink.new (front ++ line [] ++ line names.now ++ payload.now)) }
{
    push_text_line(sink, "")?;
    push_text_line(sink, names)?;
    sink.push_text(payload)
}
