ghost use Rattle.std.specs.Prelude.{None, IfOk, IsErrOf, map};
ghost use Rattle.std.specs.String.{string_bytes};
ghost use Rattle.smithy_core.specs.Given.{Gives, GivesEach};
ghost use Rattle.smithy_core.specs.Outside.{CountsFault};
ghost use Rattle.env_config.specs.Source.{file_of};
ghost use Rattle.signed_stream.specs.Status.{ended};
ghost use Rattle.signed_stream.specs.Sending.{Sends};
ghost use Rattle.signed_stream.specs.Settings.{selected_in};
ghost use Rattle.signed_stream.specs.Streaming.{IsSameStreamOptions, IsSentSigned, SignsAndStreams, Streams, job_for, stream_wanted, wanted_for};
ghost use Rattle.signed_stream.specs.Stream.{selected_plan};
ghost use Rattle.signed_stream.specs.Written.{head_in_form};

use crate::chain::{stream_events, write_text};
use crate::form::Form;
use crate::settings::{Settings, read_settings};
use crate::sign::sign_request;
use crate::status::StreamFault;
use crate::written::head_of;
use aws_auth::{SigV4MessageSigner, SigningOptions};
use env_config::Source;
use event_io::take_moment;
use job_text::{copied_events, lent};
use smithy_core::{ByteSink, Clock, Env, HttpRequest, Identity, Mem, Message, Moment, copied_text};
use std::alloc::Global;

/// What is asked of a stream.
#[derive(Debug, Drop)]
pub struct StreamOptions {
    /// The name of the service that is signed for.
    pub name: String,
    /// The id of the service that may have settings of its own.
    pub service_id: Option<String>,
    /// How the request is signed.
    pub signing: SigningOptions,
    /// The name of the session token's header or parameter, where that isn't the usual one.
    pub token_name: Option<String>,
    /// By how many milliseconds the service's clock is ahead.
    pub skew_millis: Option<i64>,
}

impl StreamOptions {
    /// Equal options.
    pub fn try_clone(&self) -> Mem<StreamOptions>
        ensures { IfOk result (IsSameStreamOptions self.now) }
    {
        Ok(StreamOptions {
            name: self.name.clone()?,
            service_id: copied_text(&self.service_id)?,
            signing: self.signing.try_clone()?,
            token_name: copied_text(&self.token_name)?,
            skew_millis: self.skew_millis,
        })
    }
}

/// A request and the events that follow it, as they are to be streamed.
#[derive(Drop)]
pub struct StreamedRequest<'a> {
    /// The request, which isn't signed.
    pub request: HttpRequest,
    /// The events, in order.
    pub events: Vec<Message>,
    /// For what and how the request is signed.
    pub options: &'a StreamOptions,
    /// In which form head and frames are written.
    pub form: Form,
}

/// Signs a request by AWS Signature Version 4 and streams its events to a sink: the head of the signed request, and
/// then a chain of event stream frames, one for each event in order and an empty one last, each signed over the
/// signature before it, the first over that of the request. The answer is the signed request.
///
/// Region and credentials are those that [`read_settings`] gives. The request, each event and the closing frame take a
/// moment each of the clock, in this order; `moments` gains each that was taken, whatever the answer. In
/// [`Form::Raw`] the frames alone are written, one piece each; in [`Form::HexLines`] the head is one piece more.
///
/// The request and its events are copied first, but for the events' payloads, which are shared; [`sign_and_send`] takes its own and copies none.
///
/// ```rust
/// let source = load(alloc, &env, &mut disk, &files)?;
/// let mut moments = Vec::new(alloc);
/// let signed = sign_and_stream(
///     alloc, &source, &env, &request, &options, &events, &mut clock, Form::Raw, &mut sink, &mut moments,
/// )?;
/// ```
///
/// # Errors
///
/// The first test that fails, in the order of [`StreamFault`]'s variants but for these: the headers of the request are
/// tested one by one, each by its name and then its value, then the host, the token's name, and the signature's own
/// texts or the expiry; the length of the signed target comes after them. Until then nothing is written. Each event
/// and last the closing frame are tested after the frames before them were written: the event's own frame, the moment,
/// and the frame of its signed message. [`StreamFault::SinkFault`] comes where the sink's count of faults rose. After
/// it, and after [`StreamFault::NoMemory`], the sink has gained a prefix of the head and the frames that were begun.
pub fn sign_and_stream<C: Clock, K: ByteSink>(
    alloc: Global,
    source: &Source,
    env: &Env,
    request: &HttpRequest,
    options: &StreamOptions,
    events: &[Message],
    clock: &mut C,
    form: Form,
    sink: &mut K,
    moments: &mut Vec<Moment>,
) -> Result<HttpRequest, StreamFault>
    ensures streams { SignsAndStreams (λ taken. Gives C.Clock clock.old taken clock.new) moments.old.items moments.new.items
        (map file_of source.now.files.items) (string_bytes source.now.profile) env.now (stream_wanted options.now form) request.now events.now result
        (K.held sink.old) (K.held sink.new) }
    ensures counts { CountsFault (IsErrOf result StreamFault.SinkFault) (K.faults sink.old) (K.faults sink.new) }
{
    let request = request.try_clone()?;
    let events = copied_events(alloc, events)?;
    let stream = StreamedRequest {
        request,
        events,
        options,
        form,
    };
    sign_and_send(alloc, source, env, stream, clock, sink, moments)
}

/// Signs a request and streams its events as [`sign_and_stream`] does, without a copy of them: the request's headers are there once,
/// and an event goes when it is sent.
///
/// # Errors
///
/// As those of [`sign_and_stream`].
#[tactic(auto, unfolding(crate::specs::Settings::settings))]
pub fn sign_and_send<C: Clock, K: ByteSink>(
    alloc: Global,
    source: &Source,
    env: &Env,
    stream: StreamedRequest<'_>,
    clock: &mut C,
    sink: &mut K,
    moments: &mut Vec<Moment>,
) -> Result<HttpRequest, StreamFault>
    ensures streams { SignsAndStreams (λ taken. Gives C.Clock clock.old taken clock.new) moments.old.items moments.new.items
        (map file_of source.now.files.items) (string_bytes source.now.profile) env.now (wanted_for stream.entry) stream.entry.request stream.entry.events.items result
        (K.held sink.old) (K.held sink.new) }
    ensures counts { CountsFault (IsErrOf result StreamFault.SinkFault) (K.faults sink.old) (K.faults sink.new) }
{
    let settings = read_settings(alloc, source, env, lent(&stream.options.service_id))?;
    stream_selected(alloc, settings, stream, clock, sink, moments)
}

/// Signs the request and streams the events under what was selected.
pub fn stream_selected<C: Clock, K: ByteSink>(
    alloc: Global,
    settings: Settings,
    stream: StreamedRequest<'_>,
    clock: &mut C,
    sink: &mut K,
    moments: &mut Vec<Moment>,
) -> Result<HttpRequest, StreamFault>
    ensures streams { Streams (λ taken. GivesEach C.Clock clock.old taken clock.new) moments.old.items moments.new.items (string_bytes stream.entry.request.target)
        (λ target taken. selected_plan (job_for stream.entry) (wanted_for stream.entry) target taken (selected_in settings))
        (ended result) (K.held sink.old) (K.held sink.new) }
    ensures signed { IfOk result (IsSentSigned (job_for stream.entry) (wanted_for stream.entry) (selected_in settings) stream.entry.request moments.old.items moments.new.items) }
    ensures counts { CountsFault (IsErrOf result StreamFault.SinkFault) (K.faults sink.old) (K.faults sink.new) }
{
    let identity = Identity::Credentials(settings.credentials);
    let region = settings.region.as_str();
    let StreamedRequest {
        request,
        events,
        options,
        form,
    } = stream;
    let first = take_moment(clock, moments)?;
    let (signed, signer) = sign_request(alloc, request, &identity, region, options, first)?;
    write_head(alloc, &signed, form, sink)?;
    stream_events(alloc, signer, events, clock, form, sink, moments)?;
    Ok(signed)
}

// Writes the head of a request, where the form has one.
#[tactic(auto, using(smithy_core::proofs::GainLemmas::prefix_at_start, smithy_core::proofs::GainLemmas::gains_nothing))]
fn write_head<K: ByteSink>(
    alloc: Global,
    request: &HttpRequest,
    form: Form,
    sink: &mut K,
) -> Result<(), StreamFault>
    ensures sends { Sends None (head_in_form form (string_bytes request.now.method) (string_bytes request.now.target) request.now.headers) (K.held sink.old) (K.held sink.new) result }
    ensures counts { CountsFault (IsErrOf result StreamFault.SinkFault) (K.faults sink.old) (K.faults sink.new) }
{
    match form {
        Form::Raw => Ok(()),
        Form::HexLines => {
            let head = head_of(alloc, request)?;
            write_text(sink, head.as_slice())
        }
    }
}
