ghost use Rattle.std.specs.Prelude.{None, IsErrOf};
ghost use Rattle.smithy_core.specs.Outside.{CountsFault};
ghost use Rattle.signed_stream.specs.Carriers.{GoesForTexts, IsAfterTexts};
ghost use Rattle.signed_stream.specs.Command.{show_settings};
ghost use Rattle.signed_stream.specs.Effects.{ReadsAndWrites};
ghost use Rattle.signed_stream.specs.Sending.{Sends};
ghost use Rattle.signed_stream.specs.ProfileOptions.{profile_wanted};
ghost use Rattle.job_text.specs.ProfileTexts.{texts_of};
ghost use Rattle.signed_stream.specs.Running.{NamesUnreadable};
ghost use Rattle.signed_stream.specs.Settings.{selected_in};
ghost use Rattle.signed_stream.specs.Shown.{shown_settings};
ghost use Rattle.signed_stream.specs.Sources.{DiskGives};
ghost use Rattle.signed_stream.specs.Status.{ending_of};

use crate::chain::write_text;
use crate::command::ProfileOptions;
use crate::settings::Settings;
use crate::shown::settings_text;
use crate::sources::select;
use crate::status::{Status, StreamFault, status_of};
use job_text::ProfileTexts;
use smithy_core::{ByteSink, Disk, Env};
use std::alloc::Global;

/// Shows what profile files and variables select: the texts, with the files that the options name.
pub fn show_settings<D: Disk, K: ByteSink>(
    alloc: Global,
    texts: ProfileTexts,
    options: ProfileOptions<'_>,
    env: &Env,
    disk: &mut D,
    out: &mut K,
) -> Status
    ensures end { IsAfterTexts (ending_of result) }
    ensures planned { GoesForTexts (DiskGives D.answers D.faults (D.files disk.old) env.now disk.old disk.new) env.now (profile_wanted options.entry) (texts_of texts)
        (ending_of result) (K.held out.old) (K.held out.new) }
    ensures effects { ReadsAndWrites (NamesUnreadable (DiskGives D.answers D.faults (D.files disk.old) env.now disk.old disk.new) (show_settings (profile_wanted options.entry)))
        (ending_of result) D.Disk disk.old disk.new (K.faults out.old) (K.faults out.new) }
{
    match select(alloc, env, disk, &options, texts) {
        Ok(settings) => status_of(write_settings(alloc, &settings, out)),
        Err(fault) => Status::from(fault),
    }
}

// Writes what is selected.
#[tactic(auto, using(smithy_core::proofs::GainLemmas::prefix_at_start))]
fn write_settings<K: ByteSink>(
    alloc: Global,
    settings: &Settings,
    out: &mut K,
) -> Result<(), StreamFault>
    ensures sends { Sends None (shown_settings (selected_in settings.now)) (K.held out.old) (K.held out.new) result }
    ensures counts { CountsFault (IsErrOf result StreamFault.SinkFault) (K.faults out.old) (K.faults out.new) }
{
    let text = settings_text(alloc, settings)?;
    write_text(out, text.as_bytes())
}
