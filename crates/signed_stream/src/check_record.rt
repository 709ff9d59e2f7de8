//! The command `check`.
ghost use Rattle.std.specs.Prelude.{◌≡◌, ℕ, List, None, IsErrOf};
ghost use Rattle.smithy_core.specs.Outside.{CountsFault};
ghost use Rattle.signed_stream.specs.Carriers.{GoesForRecord, IsAfterTexts};
ghost use Rattle.signed_stream.specs.CheckRecord.{ChecksRecord, GoesForSeal, shown_events};
ghost use Rattle.signed_stream.specs.Command.{check_record};
ghost use Rattle.signed_stream.specs.Effects.{ReadsAndWrites};
ghost use Rattle.signed_stream.specs.EventLines.{AreFramed};
ghost use Rattle.signed_stream.specs.Sending.{Sends};
ghost use Rattle.signed_stream.specs.Options.{check_wanted};
ghost use Rattle.job_text.specs.Record.{record_parts};
ghost use Rattle.signed_stream.specs.Running.{NamesUnreadable};
ghost use Rattle.signed_stream.specs.Settings.{selected_in};
ghost use Rattle.signed_stream.specs.Sources.{DiskGives};
ghost use Rattle.signed_stream.specs.Status.{could_not_read_file, ending_of, output_fault};

use crate::command::CheckWords;
use crate::event_lines::{write_count, write_lines};
use crate::settings::Settings;
use crate::sources::select;
use crate::status::{CheckFault, Status, StreamFault, status_of};
use chain_watch::check_chain;
use job_text::RecordDraft;
use request_check::seal_of;
use smithy_core::{ByteSink, Disk, Env, HttpRequest, Message};
use std::alloc::Global;

/// Checks the frames of a record as the chain over the signature that its request carries, under what its texts select
/// with the files that the words name, and writes the events of the frames.
pub fn check_record<D: Disk, K: ByteSink>(
    alloc: Global,
    draft: RecordDraft,
    words: CheckWords<'_>,
    env: &Env,
    disk: &mut D,
    out: &mut K,
) -> Status
    ensures end { IsAfterTexts (ending_of result) }
    ensures planned { GoesForRecord (DiskGives D.answers D.faults (D.files disk.old) env.now disk.old disk.new) env.now (check_wanted words.entry) (record_parts draft)
        (ending_of result) (K.held out.old) (K.held out.new) }
    ensures effects { ReadsAndWrites (NamesUnreadable (DiskGives D.answers D.faults (D.files disk.old) env.now disk.old disk.new) (check_record (check_wanted words.entry)))
        (ending_of result) D.Disk disk.old disk.new (K.faults out.old) (K.faults out.new) }
{
    let RecordDraft {
        texts,
        request,
        chain,
        ..
    } = draft;
    match select(alloc, env, disk, &words.profile, texts) {
        Ok(settings) => {
            show_checked(
                alloc,
                &request,
                chain.as_slice(),
                words.name,
                &settings,
                out,
            )
        }
        Err(fault) => Status::from(fault),
    }
}

// Checks the frames, and writes their events.
fn show_checked<K: ByteSink>(
    alloc: Global,
    request: &HttpRequest,
    chain: &[u8],
    name: &str,
    settings: &Settings,
    out: &mut K,
) -> Status
    ensures end { IsAfterTexts (ending_of result) }
    ensures planned { GoesForSeal request.now name.now (selected_in settings.now) chain.now (ending_of result) (K.held out.old) (K.held out.new) }
    ensures unnamed { (path : List ℕ) → ending_of result ≡ could_not_read_file path → ⊥ }
    ensures writes { CountsFault (ending_of result ≡ output_fault) (K.faults out.old) (K.faults out.new) }
{
    match checked_events(alloc, request, chain, name, settings) {
        Ok(events) => status_of(write_events(alloc, events.as_slice(), out)),
        Err(status) => status,
    }
}

// The events of the frames, which are the chain over the seal of the request.
fn checked_events(
    alloc: Global,
    request: &HttpRequest,
    chain: &[u8],
    name: &str,
    settings: &Settings,
) -> Result<Vec<Message>, Status>
    ensures { ChecksRecord request.now name.now (selected_in settings.now) chain.now result }
{
    let region = settings.region.as_str();
    let Some(seal) = seal_of(alloc, request, region, name)? else {
        return Err(Status::CheckFailed(CheckFault::NoSignature));
    };
    let secret = settings.credentials.secret_access_key();
    Ok(check_chain(alloc, chain, seal.signature(), secret, region, name)?)
}

// Writes how many events there are, and then their frames.
fn write_events<K: ByteSink>(
    alloc: Global,
    events: &[Message],
    out: &mut K,
) -> Result<(), StreamFault>
    requires { AreFramed events.now }
    ensures sends { Sends None (shown_events events.now) (K.held out.old) (K.held out.new) result }
    ensures counts { CountsFault (IsErrOf result StreamFault.SinkFault) (K.faults out.old) (K.faults out.new) }
{
    write_count(alloc, events.len(), out)?;
    write_lines(alloc, events, out)
}
