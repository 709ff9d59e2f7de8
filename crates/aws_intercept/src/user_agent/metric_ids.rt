ghost use Rattle.std.specs.Prelude.{◌≡◌, ◌≤◌, ◌==◌, ◌++◌, IfOk, IfSome, OnOk, Some, codes, flat_map, if◌then◌else◌, length, string_bytes};
ghost use Rattle.std.specs.Str.{IsAscii};
ghost use Rattle.aws_intercept.specs.Metric.{metric_id};
ghost use Rattle.aws_intercept.specs.MetricIds.{comma, fitted, joined_ids, last_comma};

use crate::user_agent::metric::{BusinessMetric, push_metric};
use smithy_core::Mem;
use std::alloc::Global;

/// The ids of the metrics, joined by commas. Where they have more bytes than the limit, they end before the last comma
/// within it.
#[tactic(auto, using(crate::proofs::MetricIdsLemmas::joined_ids_ascii))]
pub(crate) fn fitting_ids(alloc: Global, metrics: &[BusinessMetric], limit: usize) -> Mem<String>
    ensures { IfOk result (λ ids. string_bytes ids ≡ fitted limit (joined_ids metrics.now)) }
{
    let mut ids = all_ids(alloc, metrics)?;
    fit(&mut ids, limit);
    Ok(ids)
}

// The ids of the metrics, joined by commas.
#[tactic(auto, unfolding(crate::specs::MetricIds::joined_ids))]
fn all_ids(alloc: Global, metrics: &[BusinessMetric]) -> Mem<String>
    ensures { IfOk result (λ ids. string_bytes ids ≡ joined_ids metrics.now) }
{
    let mut ids = String::new(alloc);
    if let Some((first, others)) = metrics.split_first() {
        push_metric(&mut ids, *first)?;
        push_others(&mut ids, others)?;
    }
    Ok(ids)
}

// Appends the id of each metric after a comma.
fn push_others(ids: &mut String, metrics: &[BusinessMetric]) -> Mem<()>
    ensures { OnOk result (string_bytes ids.new ≡ string_bytes ids.old ++ flat_map (λ metric. codes "," ++ metric_id metric) metrics.now) }
{
    for metric in metrics {
        ids.push_str(",")?;
        push_metric(ids, *metric)?;
    }
    Ok(())
}

/// Cuts ids before the last comma within the limit, or at the limit where no comma stands within, where they have more
/// bytes.
#[tactic(auto, unfolding(crate::specs::MetricIds::fitted))]
pub(crate) fn fit(ids: &mut String, limit: usize)
    requires { IsAscii (string_bytes ids.old) }
    ensures { string_bytes ids.new ≡ fitted limit (string_bytes ids.old) }
{
    if ids.len() <= limit {
        return;
    }
    let end = last_comma(&ids.as_bytes()[..limit]).unwrap_or(limit);
    ids.truncate(end);
}

// The place of the last comma.
fn last_comma(ids: &[u8]) -> Option<usize>
    ensures value { result ≡ last_comma ids.now }
    ensures within { IfSome result (λ at. at ≤ length ids.now) }
{
    let mut last = None;
    for (at, byte) in ids.iter().enumerate() {
        last = if_comma(last, at, *byte);
    }
    last
}

// The place where the byte is a comma, or else the one before.
fn if_comma(last: Option<usize>, at: usize, byte: u8) -> Option<usize>
    ensures { result ≡ (if byte == comma then Some at else last) }
{
    if byte == b',' { Some(at) } else { last }
}
