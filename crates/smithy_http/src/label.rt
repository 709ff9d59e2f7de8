//! Values as labels of a path, as Smithy's trait `httpLabel` has them.
ghost use Rattle.std.specs.Prelude.{◌≡◌, IfOk};
ghost use Rattle.std.specs.String.{string_bytes};
ghost use Rattle.percent_encoding.specs.Percent.{percent_decode};
ghost use Rattle.smithy_http.specs.Escape.{escaped, FormatsEscaped};
ghost use Rattle.smithy_http.specs.Label.{label_set};

use crate::escape::{BASE_SET, GREEDY_SET, escape};
use smithy_core::{DateTime, Format, FormatFault, Mem};
use std::alloc::Global;

/// How many segments of a path a label fills.
#[derive(Clone, Copy, Debug, PartialEq, Eq)]
pub enum EncodingStrategy {
    /// One segment, so that `/` is escaped.
    Default,
    /// Any number of segments, so that `/` stays.
    Greedy,
}

/// The text as a label: each byte that isn't unreserved escaped (RFC 3986, section 2), and `/` only by
/// [`EncodingStrategy::Default`]. Decoding the escapes gives the text again.
#[tactic(auto, using(crate::proofs::EscapeLemmas::by_base_set, crate::proofs::EscapeLemmas::by_greedy_set))]
pub fn fmt_string(alloc: Global, t: &str, strategy: EncodingStrategy) -> Mem<String>
    ensures text { IfOk result (λ label. string_bytes label ≡ escaped (label_set strategy) t.now) }
    ensures undone { IfOk result (λ label. percent_decode (string_bytes label) ≡ t.now) }
{
    match strategy {
        EncodingStrategy::Default => escape(alloc, t, BASE_SET),
        EncodingStrategy::Greedy => escape(alloc, t, GREEDY_SET),
    }
}

/// The text of a moment as a label of one segment.
///
/// # Errors
///
/// Those of [`DateTime::fmt`].
pub fn fmt_timestamp(alloc: Global, t: &DateTime, format: Format) -> Result<String, FormatFault>
    ensures { FormatsEscaped format t.now result }
{
    let text = t.fmt(alloc, format)?;
    Ok(fmt_string(alloc, text.as_str(), EncodingStrategy::Default)?)
}
