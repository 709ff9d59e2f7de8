ghost use Rattle.std.specs.Prelude.{IfOk, IsErrOf};
ghost use Rattle.std.specs.String.{string_bytes};
ghost use Rattle.smithy_core.specs.Given.{Gives};
ghost use Rattle.smithy_core.specs.Outside.{CountsFault};
ghost use Rattle.signed_stream.specs.Carriers.{GoesForJob, IsAfterTexts};
ghost use Rattle.signed_stream.specs.Command.{stream};
ghost use Rattle.signed_stream.specs.Effects.{ReadsAndWrites};
ghost use Rattle.job_text.specs.Draft.{job_parts};
ghost use Rattle.signed_stream.specs.Options.{IsOptionsOf, wanted_of};
ghost use Rattle.signed_stream.specs.Running.{NamesUnreadable, OfClock};
ghost use Rattle.signed_stream.specs.Settings.{selected_in};
ghost use Rattle.signed_stream.specs.Sources.{DiskGives};
ghost use Rattle.signed_stream.specs.Status.{ended, ending_of};
ghost use Rattle.signed_stream.specs.Stream.{selected_plan};
ghost use Rattle.signed_stream.specs.Streaming.{TakesFor, job_for, wanted_for};

use crate::command::StreamWords;
use crate::settings::Settings;
use crate::sources::select;
use crate::status::{Status, StreamFault, status_of};
use crate::streaming::{StreamOptions, StreamedRequest, stream_selected};
use job_text::{Job, ProfileTexts, copied};
use smithy_core::{ByteSink, Clock, Disk, Env, FixedClock, HttpRequest, Mem, Moment};
use std::alloc::Global;

/// Streams a job as the words ask, under what its texts select with the files that the words name.
pub fn stream_job<D: Disk, C: Clock, K: ByteSink>(
    alloc: Global,
    job: Job,
    words: StreamWords<'_>,
    env: &Env,
    disk: &mut D,
    clock: &mut C,
    out: &mut K,
) -> Status
    ensures end { IsAfterTexts (ending_of result) }
    ensures planned { GoesForJob (DiskGives D.answers D.faults (D.files disk.old) env.now disk.old disk.new) (λ taken. Gives C.Clock clock.old taken clock.new) env.now
        (wanted_of words.entry) (job_parts job) (ending_of result) (K.held out.old) (K.held out.new) }
    ensures effects { ReadsAndWrites (NamesUnreadable (DiskGives D.answers D.faults (D.files disk.old) env.now disk.old disk.new) (stream (wanted_of words.entry)))
        (ending_of result) D.Disk disk.old disk.new (K.faults out.old) (K.faults out.new) }
{
    let Job {
        request,
        config,
        credentials,
        events,
    } = job;
    let texts = ProfileTexts {
        config,
        credentials,
    };
    match select(alloc, env, disk, &words.profile, texts) {
        Ok(settings) => {
            let at = words.at;
            let form = words.form;
            let Ok(options) = options_of(alloc, words) else {
                return Status::NoMemory;
            };
            let stream = StreamedRequest {
                request,
                events,
                options: &options,
                form,
            };
            status_of(stream_at(alloc, settings, stream, at, clock, out))
        }
        Err(fault) => Status::from(fault),
    }
}

// Streams the request and its events under what is selected, all at the one moment or else at those of the clock.
fn stream_at<C: Clock, K: ByteSink>(
    alloc: Global,
    settings: Settings,
    stream: StreamedRequest<'_>,
    at: Option<Moment>,
    clock: &mut C,
    out: &mut K,
) -> Result<HttpRequest, StreamFault>
    ensures streams { TakesFor (OfClock (λ taken. Gives C.Clock clock.old taken clock.new) at) (string_bytes stream.entry.request.target)
        (λ target moments. selected_plan (job_for stream.entry) (wanted_for stream.entry) target moments (selected_in settings)) (ended result) (K.held out.old) (K.held out.new) }
    ensures counts { CountsFault (IsErrOf result StreamFault.SinkFault) (K.faults out.old) (K.faults out.new) }
{
    let mut moments = Vec::new(alloc);
    match at {
        Some(at) => {
            let mut fixed = FixedClock::new(at);
            stream_selected(alloc, settings, stream, &mut fixed, out, &mut moments)
        }
        None => stream_selected(alloc, settings, stream, clock, out, &mut moments),
    }
}

// What the words ask of a stream.
fn options_of(alloc: Global, words: StreamWords<'_>) -> Mem<StreamOptions>
    ensures { IfOk result (IsOptionsOf words.entry) }
{
    Ok(StreamOptions {
        name: String::from_str(alloc, words.name)?,
        service_id: copied(alloc, words.profile.service_id)?,
        signing: words.signing,
        token_name: copied(alloc, words.token_name)?,
        skew_millis: words.skew_millis,
    })
}
