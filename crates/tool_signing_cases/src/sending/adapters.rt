//! Polls adapters.
use crate::parts::{debugged, number_of, push, word};
use crate::sending::events::{WaitingEvents, given, initial_items_of, item_of, items_of};
use crate::sending::marshalling::Telling;
use crate::sending::signers::{LastSignature, MarkSigner, PlainSigner, bearer, sigv4};
use event_io::{
    AdapterFault, EventOrInitialMarshaller, EventSource, EventStreamSender, MessageStreamAdapter,
    Next,
};
use eventstream::{DeferredSigner, MarshallMessage, NoOpSigner, SignMessage};
use smithy_core::{ListClock, Mem, Moment, RawMessage, SdkError};
use std::alloc::Global;
use tool_case_lines::{number, part, unknown};

/// What polls of an adapter with the signer of a name answer: of `events` over a source that waits, of `list` over items
/// in memory, of `initial` over items of which one may be the initial message, and of what the sender of a source or of
/// `once` an item becomes.
pub fn answer(alloc: Global, kind: &str, parts: &[&str]) -> Mem<String> {
    match (kind, word(parts, 0)) {
        ("copy", _) => of_copy(alloc, parts),
        (_, "no-op") => of_kind(alloc, kind, NoOpSigner, parts),
        (_, "mark") => of_kind(alloc, kind, MarkSigner::new(alloc), parts),
        (_, "plain") => of_kind(alloc, kind, PlainSigner::new(alloc), parts),
        (_, "deferred") => deferred(alloc, kind, parts),
        (_, "bearer") => of_kind(alloc, kind, bearer(alloc)?, parts),
        _ => of_kind(alloc, kind, sigv4(alloc)?, parts),
    }
}

// With `wire NAME` the deferred signer is handed that one.
fn deferred(alloc: Global, kind: &str, parts: &[&str]) -> Mem<String> {
    let mut signer = DeferredSigner::new();
    match part(parts, "wire") {
        Some("mark") => signer.wire(Box::new(alloc, MarkSigner::new(alloc))?),
        Some(_) => signer.wire(Box::new(alloc, sigv4(alloc)?)?),
        None => {}
    }
    of_kind(alloc, kind, signer, parts)
}

fn of_kind<G: SignMessage + LastSignature>(
    alloc: Global,
    kind: &str,
    signer: G,
    parts: &[&str],
) -> Mem<String> {
    match kind {
        "events" => of_events(alloc, signer, parts),
        "list" => of_list(alloc, signer, parts),
        "initial" => of_initial(alloc, signer, parts),
        "sender" => of_sender(alloc, signer, parts),
        "once" => of_once(alloc, signer, parts),
        _ => unknown(alloc),
    }
}

fn of_events<G: SignMessage + LastSignature>(
    alloc: Global,
    signer: G,
    parts: &[&str],
) -> Mem<String> {
    let marshaller = Telling::new(alloc);
    let source = WaitingEvents::of(alloc, parts)?;
    let mut adapter = MessageStreamAdapter::new(alloc, marshaller, marshaller, signer, source);
    let answers = polls(alloc, &mut adapter, parts)?;
    let (_, _, signer, mut source) = adapter.into_parts();
    with_rest(
        alloc,
        answers.as_str(),
        &mut source,
        signer.last_signature(),
    )
}

// After the polls, what the source gives next and the last signature of the signer.
fn with_rest(
    alloc: Global,
    answers: &str,
    source: &mut WaitingEvents,
    signature: &str,
) -> Mem<String> {
    let next = given(alloc, source, 1)?;
    format!(in alloc; "{answers}; {next}; {signature}")
}

fn of_list<G: SignMessage>(alloc: Global, signer: G, parts: &[&str]) -> Mem<String> {
    let marshaller = Telling::new(alloc);
    let items = items_of(alloc, parts)?;
    let mut adapter = MessageStreamAdapter::new(alloc, marshaller, marshaller, signer, items);
    polls(alloc, &mut adapter, parts)
}

fn of_initial<G: SignMessage>(alloc: Global, signer: G, parts: &[&str]) -> Mem<String> {
    let marshaller = EventOrInitialMarshaller::new(Telling::new(alloc));
    let errors = Telling::new(alloc);
    let items = initial_items_of(alloc, parts)?;
    let mut adapter = MessageStreamAdapter::new(alloc, marshaller, errors, signer, items);
    polls(alloc, &mut adapter, parts)
}

fn of_sender<G: SignMessage>(alloc: Global, signer: G, parts: &[&str]) -> Mem<String> {
    let sender = EventStreamSender::from(WaitingEvents::of(alloc, parts)?);
    let marshaller = Telling::new(alloc);
    let mut adapter = sender.into_body_stream(alloc, marshaller, marshaller, signer);
    polls(alloc, &mut adapter, parts)
}

fn of_once<G: SignMessage>(alloc: Global, signer: G, parts: &[&str]) -> Mem<String> {
    let Some(item) = item_of(alloc, word(parts, 1))? else {
        return unknown(alloc);
    };
    let marshaller = Telling::new(alloc);
    let sender = EventStreamSender::once(alloc, item)?;
    let mut adapter = sender.into_body_stream(alloc, marshaller, marshaller, signer);
    polls(alloc, &mut adapter, parts)
}

// The polls of an adapter, and then those of the copy that was made before them.
fn of_copy(alloc: Global, parts: &[&str]) -> Mem<String> {
    let marshaller = Telling::new(alloc);
    let source = WaitingEvents::of(alloc, parts)?;
    let mut adapter = MessageStreamAdapter::new(alloc, marshaller, marshaller, NoOpSigner, source);
    let mut copy = adapter.try_clone()?;
    let mut answers = polls(alloc, &mut adapter, parts)?;
    push_copy(&mut answers, polls(alloc, &mut copy, parts))?;
    Ok(answers)
}

fn push_copy(answers: &mut String, of_copy: Mem<String>) -> Mem<()> {
    write!(answers, "; {}", of_copy?)
}

// What `polls N` polls answer at the moments of `clock SECONDS ..`, and then the seconds that they took.
fn polls<S, M, EM, G>(
    alloc: Global,
    adapter: &mut MessageStreamAdapter<S, M, EM, G>,
    parts: &[&str],
) -> Mem<String>
where
    S: EventSource,
    M: MarshallMessage<Input = S::Item>,
    EM: MarshallMessage<Input = S::Error>,
    G: SignMessage,
{
    let mut clock = clock_of(alloc, part(parts, "clock").unwrap_or("1440938160"))?;
    let mut moments = Vec::new(alloc);
    let mut answers = String::new(alloc);
    for _ in 0..number_of(parts, "polls", 1) {
        let next = adapter.poll_next(&mut clock, &mut moments);
        push(&mut answers, next_text(alloc, next))?;
    }
    push_moments(&mut answers, moments.as_slice())?;
    Ok(answers)
}

/// The frame of an answer, or its name.
pub fn next_text(
    alloc: Global,
    next: Result<Next, SdkError<AdapterFault, AdapterFault, RawMessage>>,
) -> Mem<String> {
    match next {
        Ok(Next::Frame(bytes)) => hex::encode(alloc, bytes.as_slice()),
        Ok(next) => debugged(alloc, &next),
        Err(error) => debugged(alloc, &error),
    }
}

fn push_moments(answers: &mut String, moments: &[Moment]) -> Mem<()> {
    answers.push_str("; at")?;
    for moment in moments {
        write!(answers, " {}", moment.secs())?;
    }
    Ok(())
}

fn clock_of(alloc: Global, word: &str) -> Mem<ListClock> {
    let moments = moments_of(alloc, word)?;
    if moments.is_empty() {
        return Ok(ListClock::new(vec![in alloc; Moment::new(0, 0)]?));
    }
    Ok(ListClock::new(moments))
}

fn moments_of(alloc: Global, word: &str) -> Mem<Vec<Moment>> {
    let mut moments = Vec::new(alloc);
    for secs in word.split(' ') {
        moments.push(Moment::new(number(secs), 0))?;
    }
    Ok(moments)
}
