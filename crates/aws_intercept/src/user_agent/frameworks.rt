ghost use Rattle.std.specs.Prelude.{◌≡◌, IfOk, OnOk};
ghost use Rattle.aws_intercept.specs.Frameworks.{first_frameworks, first_ten_with, oldest_frameworks};

use crate::user_agent::distinct::push_new;
use crate::user_agent::framework::FrameworkMetadata;
use smithy_core::Mem;
use std::alloc::Global;

/// The most frameworks that an agent names.
const MOST_FRAMEWORKS: usize = 10;

/// Equal metadata, in the same order.
pub(crate) fn copied_frameworks(
    alloc: Global,
    frameworks: &[FrameworkMetadata],
) -> Mem<Vec<FrameworkMetadata>>
    ensures { IfOk result (λ copies. copies.items ≡ frameworks.now) }
{
    let mut copies = Vec::new(alloc);
    for framework in frameworks {
        copies.push(framework.try_clone()?)?;
    }
    Ok(copies)
}

/// At most 10 different frameworks, the oldest first, of those that stand newest first.
#[tactic(auto, unfolding(crate::specs::Frameworks::oldest_frameworks))]
pub(crate) fn oldest_frameworks(
    alloc: Global,
    frameworks: &[FrameworkMetadata],
) -> Mem<Vec<FrameworkMetadata>>
    ensures { IfOk result (λ kept. kept.items ≡ oldest_frameworks frameworks.now) }
{
    let mut oldest_first = copied_frameworks(alloc, frameworks)?;
    oldest_first.reverse();
    first_frameworks(alloc, oldest_first.as_slice())
}

// The first 10 different frameworks.
#[tactic(auto, using(crate::proofs::KeptLemmas::first_frameworks_none))]
fn first_frameworks(alloc: Global, frameworks: &[FrameworkMetadata]) -> Mem<Vec<FrameworkMetadata>>
    ensures { IfOk result (λ kept. kept.items ≡ first_frameworks frameworks.now) }
{
    let mut kept = Vec::new(alloc);
    for framework in frameworks {
        keep(&mut kept, framework)?;
    }
    Ok(kept)
}

// Appends a framework that isn't there, as long as there are fewer than 10.
#[tactic(auto, unfolding(crate::specs::Frameworks::first_ten_with))]
fn keep(kept: &mut Vec<FrameworkMetadata>, framework: &FrameworkMetadata) -> Mem<()>
    ensures { OnOk result (kept.new.items ≡ first_ten_with kept.old.items framework.now) }
{
    if kept.len() < MOST_FRAMEWORKS {
        push_new(kept, framework.try_clone()?)?;
    }
    Ok(())
}
