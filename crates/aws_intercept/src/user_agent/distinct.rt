ghost use Rattle.std.specs.Prelude.{◌≡◌, IfOk, OnOk};
ghost use Rattle.aws_intercept.specs.Distinct.{distinct, with_new};
ghost use Rattle.aws_intercept.specs.Metric.{is_metric};

use crate::user_agent::metric::BusinessMetric;
use smithy_core::Mem;
use std::alloc::Global;

/// The metrics in order, each one that equals an earlier one left out.
pub(crate) fn distinct_metrics(
    alloc: Global,
    metrics: &[BusinessMetric],
) -> Mem<Vec<BusinessMetric>>
    ensures { IfOk result (λ kept. kept.items ≡ distinct is_metric metrics.now) }
{
    let mut kept = Vec::new(alloc);
    for metric in metrics {
        push_new(&mut kept, *metric)?;
    }
    Ok(kept)
}

/// Appends an element that isn't there.
pub(crate) fn push_new<T: PartialEq + Drop>(elements: &mut Vec<T>, element: T) -> Mem<()>
    ensures { OnOk result (elements.new.items ≡ with_new T.eq elements.old.items element) }
{
    if !elements.contains(&element) {
        elements.push(element)?;
    }
    Ok(())
}
