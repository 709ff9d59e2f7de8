ghost use Rattle.std.specs.Prelude.{IfOk};
ghost use Rattle.env_config.specs.Kept.{keeps_of};
ghost use Rattle.env_config.specs.ProfileSink.{ReadsLatest};
ghost use Rattle.env_config.specs.Raw.{raw, ReadsRaw};
ghost use Rattle.env_config.specs.Texts.{IsApart};

use crate::fault::RawFault;
use crate::kept::Kept;
use crate::latest::Latest;
use crate::profile_sink::ProfileSink;
use crate::raw_sections::RawSections;
use crate::reader::read;
use crate::sections_sink::SectionsSink;
use std::alloc::Global;

/// The raw sections of a profile text that are kept: each a map from keys to values, under the text between its brackets.
///
/// # Errors
///
/// [`RawFault::Line`] with the number of the first line outside the grammar, and the message.
pub fn read_raw<'t>(
    alloc: Global,
    kept: &Kept<'_>,
    text: &'t str,
) -> Result<RawSections<'t>, RawFault>
    ensures reads { ReadsRaw (raw (keeps_of kept.now) text.now) result }
    ensures apart { IfOk result (λ sections. IsApart sections.names) }
{
    let sink = read(alloc, kept, text, SectionsSink::new(alloc))?;
    Ok(sink.into_sections(alloc)?)
}

/// The values of the profile that are kept, of those that the raw sections of a profile text give.
///
/// # Errors
///
/// [`RawFault::Line`] with the number of the first line outside the grammar, and the message.
pub fn read_latest<'t>(
    alloc: Global,
    kept: &Kept<'_>,
    profile: &str,
    text: &'t str,
) -> Result<Latest<'t>, RawFault>
    ensures { ReadsLatest profile.now (raw (keeps_of kept.now) text.now) result }
{
    let sink = read(alloc, kept, text, ProfileSink::new(alloc, profile))?;
    Ok(sink.into_latest())
}
