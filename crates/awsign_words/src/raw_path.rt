//! A URL whose path is written as it is.
ghost use Rattle.std.specs.Prelude.{◌≡◌, ◌<◌, IfOk};
ghost use Rattle.std.specs.String.{string_bytes};
ghost use Rattle.job_text.specs.Lines.{texts_of_pair};
ghost use Rattle.awsign_words.specs.RawPath.{behind_scheme, cut_at, encoded_path, encoded_url, slash, with_host, with_scheme};

use smithy_core::Mem;
use smithy_http::label::{EncodingStrategy, fmt_string};
use std::alloc::Global;

/// The URL with its path percent-encoded: each byte that is neither unreserved nor a slash becomes an escape, `%` too, so that what looks
/// like an escape is none. The path ends at the first `?`; what stands from there on stays.
#[tactic(auto, unfolding(crate::specs::RawPath::encoded_url))]
pub fn encoded_url(alloc: Global, url: &str) -> Mem<String>
    ensures { IfOk result (λ text. string_bytes text ≡ encoded_url url.now) }
{
    match cut_at(url, '?') {
        Some((url, query)) => {
            let url = with_scheme(alloc, url)?;
            format!(in alloc; "{url}?{query}")
        }
        None => with_scheme(alloc, url),
    }
}

// A URL before its query.
fn with_scheme(alloc: Global, url: &str) -> Mem<String>
    ensures { IfOk result (λ text. string_bytes text ≡ with_scheme url.now (cut_at slash url.now)) }
{
    match cut_at(url, '/') {
        Some(("", path)) => encoded_path(alloc, path),
        Some((scheme, rest)) => {
            let rest = behind_scheme(alloc, rest)?;
            format!(in alloc; "{scheme}/{rest}")
        }
        None => String::from_str(alloc, url),
    }
}

// What stands behind the first slash of a URL.
fn behind_scheme(alloc: Global, text: &str) -> Mem<String>
    ensures { IfOk result (λ made. string_bytes made ≡ behind_scheme text.now (cut_at slash text.now)) }
{
    match cut_at(text, '/') {
        Some(("", rest)) => {
            let rest = with_host(alloc, rest)?;
            format!(in alloc; "/{rest}")
        }
        _ => String::from_str(alloc, text),
    }
}

// A host, and the path behind it.
fn with_host(alloc: Global, text: &str) -> Mem<String>
    ensures { IfOk result (λ made. string_bytes made ≡ with_host text.now (cut_at slash text.now)) }
{
    match cut_at(text, '/') {
        Some((host, path)) => {
            let path = encoded_path(alloc, path)?;
            format!(in alloc; "{host}{path}")
        }
        None => String::from_str(alloc, text),
    }
}

// A path behind its first slash.
fn encoded_path(alloc: Global, path: &str) -> Mem<String>
    ensures { IfOk result (λ text. string_bytes text ≡ encoded_path path.now) }
{
    let path = fmt_string(alloc, path, EncodingStrategy::Greedy)?;
    format!(in alloc; "/{path}")
}

// What stands before the first such character and behind it.
fn cut_at(text: &str, mark: char) -> Option<(&str, &str)>
    requires { mark < 128 }
    ensures { texts_of_pair result ≡ cut_at mark text.now }
{
    text.split_once(mark)
}
