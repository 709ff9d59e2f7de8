ghost use Rattle.std.specs.Prelude.{◌≡◌, [], None};

use crate::parts::{debugged, push, word};
use crate::sending::marshalling::event_or_initial;
use event_io::{EventOrInitial, EventPolled, EventSource, EventStreamSender, ListEvents};
use smithy_core::Mem;
use std::alloc::Global;
use std::collections::VecDeque;
use std::fmt;
use tool_case_lines::halves;

/// The items of `event WORD` and `error WORD`.
pub fn items_of(alloc: Global, parts: &[&str]) -> Mem<ListEvents<String, String>> {
    let mut items = VecDeque::new(alloc);
    for part in parts {
        if let Some(item) = item_of(alloc, part)? {
            items.push_back(item)?;
        }
    }
    Ok(ListEvents::new(items))
}

/// The item of a part, where it is one.
pub fn item_of(alloc: Global, part: &str) -> Mem<Option<Result<String, String>>> {
    Ok(match halves(part) {
        ("event", word) => Some(Ok(String::from_str(alloc, word)?)),
        ("error", word) => Some(Err(String::from_str(alloc, word)?)),
        _ => None,
    })
}

/// The items, where an event `initial` is the initial message.
pub fn initial_items_of(
    alloc: Global,
    parts: &[&str],
) -> Mem<ListEvents<EventOrInitial<String>, String>> {
    let mut items = VecDeque::new(alloc);
    for part in parts {
        if let ("event", word) = halves(part) {
            items.push_back(Ok(event_or_initial(alloc, word)?))?;
        }
    }
    Ok(ListEvents::new(items))
}

/// Items, with waits between them.
#[derive(Clone, Drop)]
pub struct WaitingEvents {
    // Nothing for a wait.
    steps: VecDeque<Option<Result<String, String>>>,
    waits: u64,
}

impl WaitingEvents {
    /// The items of `event WORD` and `error WORD`, and a wait for each `wait`.
    pub fn of(alloc: Global, parts: &[&str]) -> Mem<WaitingEvents> {
        let mut steps = VecDeque::new(alloc);
        for part in parts {
            if let ("event" | "error" | "wait", _) = halves(part) {
                steps.push_back(item_of(alloc, part)?)?;
            }
        }
        Ok(WaitingEvents { steps, waits: 0 })
    }
}

impl EventSource for WaitingEvents {
    type Item = String;

    type Error = String;

    ghost left = { λ _. None };

    ghost waits = { λ events. events.waits };

    ghost ended = { λ events. events.steps.items ≡ [] };

    fn poll_event(&mut self) -> EventPolled<String, String> {
        match self.steps.pop_front() {
            Some(Some(item)) => EventPolled::Item(item),
            Some(None) => {
                self.waits = self.waits.saturating_add(1);
                EventPolled::NotYet
            }
            None => EventPolled::End,
        }
    }
}

/// What so many polls of a source answer.
pub fn given<S: EventSource>(alloc: Global, source: &mut S, count: u64) -> Mem<String>
where
    S::Item: fmt::Debug + Drop,
    S::Error: fmt::Debug + Drop,
{
    let mut answers = String::new(alloc);
    for _ in 0..count {
        push(&mut answers, debugged(alloc, &source.poll_event()))?;
    }
    Ok(answers)
}

/// What the source of a sender answers to so many polls: of a copy of one that was made from a source, or of one of `once`
/// an item.
pub fn sender_of(alloc: Global, kind: &str, parts: &[&str], count: u64) -> Mem<String> {
    match (kind, item_of(alloc, word(parts, 0))?) {
        ("once", Some(item)) => {
            let sender = EventStreamSender::once(alloc, item)?;
            given(alloc, &mut sender.into_inner(), count)
        }
        _ => {
            let sender = EventStreamSender::from(WaitingEvents::of(alloc, parts)?);
            given(alloc, &mut sender.try_clone()?.into_inner(), count)
        }
    }
}
