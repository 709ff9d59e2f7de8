ghost use Rattle.std.specs.Prelude.{◌≡◌, ◌++◌, ◌||◌, not, codes, IfOk, OnOk};
ghost use Rattle.std.specs.List.{flat_map, join_with_byte};
ghost use Rattle.std.specs.String.{string_bytes};
ghost use Rattle.http_uri.specs.ByteClasses.{slash};
ghost use Rattle.sigv4.specs.Path.{after_slash, canonical_path, closing_slash, is_dropped_segment, is_parent_segment, kept_after, norm, segment_texts};

use crate::modes::{PercentEncodingMode, UriPathNormalizationMode};
use smithy_core::Mem;
use smithy_http::label::{self, EncodingStrategy};
use std::alloc::Global;

/// The path in its normal form (RFC 3986, section 5.2.4, with repeated slashes merged): it begins with `/`, has no segment
/// that is empty, `.` or `..`, and ends with `/` where the path's last segment was one of these. The SDK has no such public
/// call.
pub fn normalize_uri_path(alloc: Global, path: &str) -> Mem<String>
    ensures { IfOk result (λ text. string_bytes text ≡ norm path.now) }
{
    let mut kept = Vec::with_capacity(alloc, 16)?;
    let mut ends_open = true;
    for segment in path.split('/') {
        ends_open = !keep(&mut kept, segment)?;
    }
    join_segments(alloc, &kept, ends_open)
}

// Keeps the segment, where it names something; `..` drops the kept segment before it. Answers whether the segment was kept.
fn keep<'a>(kept: &mut Vec<&'a str>, segment: &'a str) -> Mem<bool>
    ensures kept { OnOk result (segment_texts kept.new.items ≡ kept_after (segment_texts kept.old.items) segment.now) }
    ensures answer { IfOk result (λ is_kept. is_kept ≡ not (is_dropped_segment segment.now || is_parent_segment segment.now)) }
{
    if segment == ".." {
        kept.pop();
        return Ok(false);
    }
    if segment.is_empty() || segment == "." {
        return Ok(false);
    }
    kept.push(segment)?;
    Ok(true)
}

// A slash, the segments with slashes between, and the tail.
#[tactic(auto, using(crate::proofs::PathLemmas::none_joined, crate::proofs::PathLemmas::some_joined))]
fn join_segments(alloc: Global, kept: &[&str], ends_open: bool) -> Mem<String>
    ensures { IfOk result (λ text. string_bytes text
        ≡ codes "/" ++ (join_with_byte slash (segment_texts kept.now) ++ closing_slash ends_open (segment_texts kept.now))) }
{
    if kept.is_empty() {
        return String::from_str(alloc, "/");
    }
    let mut text = String::with_capacity(alloc, 64)?;
    push_segments(&mut text, kept)?;
    text.push_str(if ends_open { "/" } else { "" })?;
    Ok(text)
}

// Appends each segment after a slash.
fn push_segments(text: &mut String, segments: &[&str]) -> Mem<()>
    ensures { OnOk result (string_bytes text.new ≡ string_bytes text.old ++ flat_map after_slash (segment_texts segments.now)) }
{
    for segment in segments {
        text.push('/')?;
        text.push_str(segment)?;
    }
    Ok(())
}

/// The path of a canonical request: in its normal form unless that is disabled, and escaped once more unless it is to be
/// escaped a single time.
#[tactic(auto, unfolding(crate::specs::Path::canonical_path))]
pub fn canonical_path(
    alloc: Global,
    normalization: UriPathNormalizationMode,
    encoding: PercentEncodingMode,
    path: &str,
) -> Mem<String>
    ensures { IfOk result (λ text. string_bytes text ≡ canonical_path normalization encoding path.now) }
{
    match (normalization, encoding) {
        (UriPathNormalizationMode::Enabled, PercentEncodingMode::Double) => {
            let path = normalize_uri_path(alloc, path)?;
            label::fmt_string(alloc, path.as_str(), EncodingStrategy::Greedy)
        }
        (UriPathNormalizationMode::Enabled, PercentEncodingMode::Single) => {
            normalize_uri_path(alloc, path)
        }
        (UriPathNormalizationMode::Disabled, PercentEncodingMode::Double) => {
            label::fmt_string(alloc, path, EncodingStrategy::Greedy)
        }
        (UriPathNormalizationMode::Disabled, PercentEncodingMode::Single) => {
            String::from_str(alloc, path)
        }
    }
}
