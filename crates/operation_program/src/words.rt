//! The words of the program.
ghost use Rattle.std.specs.Prelude.{◌+◌, map};
ghost use Rattle.std.specs.String.{string_bytes};
ghost use Rattle.operation_program.specs.Running.{operation_words};
ghost use Rattle.operation_program.specs.Words.{ReadsOperationWords};

use job_text::WordsFault;
use signed_stream::{ProfileOptions, read_request_words};
use smithy_core::Moment;
use std::alloc::Global;

/// What the words ask for.
#[derive(Debug, Drop)]
pub struct OperationWords<'a> {
    /// The name of the service.
    pub name: &'a str,
    /// The one moment.
    pub at: Moment,
    /// What is asked of profiles.
    pub profile: ProfileOptions<'a>,
}

/// What the words behind the program's name ask for: `--name NAME` and `--at N`, which are required, `--service-id ID`,
/// `--config PATH` and `--credentials PATH`, each at most once and in any order.
///
/// # Errors
///
/// The place of the first bad word.
#[tactic(auto, unfolding(crate::specs::Running::operation_words))]
pub fn read_operation_words<'a>(
    alloc: Global,
    words: &'a [String],
) -> Result<OperationWords<'a>, WordsFault>
    ensures { ReadsOperationWords (operation_words (map string_bytes words.now)) result }
{
    let asked = read_request_words(alloc, words)?;
    let at = asked.moment(words.len() + 1)?;
    Ok(OperationWords {
        name: asked.name,
        at,
        profile: asked.profile,
    })
}
