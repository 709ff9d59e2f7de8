ghost use Rattle.std.specs.Prelude.{◌≡◌, ◌≤◌, [], Some, IfOk};
ghost use Rattle.std.specs.List.{AllZip};
ghost use Rattle.event_io.specs.EventSource.{GivesEvent, IsItemCopy, IsPolledCopy};
ghost use Rattle.event_io.specs.declared.event_source.EventPolled.TheVariants as polled;

use smithy_core::Mem;
use std::collections::VecDeque;
use std::marker::Model;

/// What a poll of a source of events answers.
#[derive(Debug, Drop)]
pub enum EventPolled<T, E> {
    /// The next item: an event, or an error in its place.
    Item(Result<T, E>),
    /// Nothing has come yet.
    NotYet,
    /// No item follows.
    End,
}

impl<T: Clone + Drop, E: Clone + Drop> EventPolled<T, E> {
    /// The same answer, with a copy of the item.
    pub fn try_clone(&self) -> Mem<EventPolled<T, E>>
        ensures { IfOk result (IsPolledCopy T.is_clone E.is_clone self.now) }
    {
        Ok(match self {
            EventPolled::Item(Ok(event)) => EventPolled::Item(Ok(event.clone()?)),
            EventPolled::Item(Err(error)) => EventPolled::Item(Err(error.clone()?)),
            EventPolled::NotYet => EventPolled::NotYet,
            EventPolled::End => EventPolled::End,
        })
    }
}

/// Gives the items of a stream one by one, each an event or an error.
pub trait EventSource {
    ghost use Rattle.std.specs.Prelude.{ℕ, List, Option, Result};
    ghost use Rattle.smithy_core.specs.Outside.{RoseOrStands};

    type Item;

    type Error;

    // the items that are left, if it shows them
    ghost left: { Self → Option (List (Result Self.Item Self.Error)) };

    // how often it has answered that nothing has come yet
    ghost waits: { Self → ℕ };

    // that it has answered the end
    ghost ended: { Self → Type 0 };

    /// The next item. [`EventPolled::NotYet`] comes only where the count of waits rose, or is saturated. After
    /// [`EventPolled::End`] each call answers it again.
    fn poll_event(&mut self) -> EventPolled<Self::Item, Self::Error>
        ensures waits { waits self.old ≤ waits self.new }
        ensures waited { result ≡ polled.NotYet → RoseOrStands (waits self.old) (waits self.new) }
        ensures gives { GivesEvent (left self.old) (left self.new) result }
        ensures ends { result ≡ polled.End → ended self.new }
        ensures again { ended self.old → result ≡ polled.End };
}

/// Items in memory, which never wait.
///
/// Contracts see the items that are left.
#[derive(Debug, Drop)]
pub struct ListEvents<T, E> {
    items: VecDeque<Result<T, E>>,
}

impl<T, E> Model for ListEvents<T, E> {
    ghost use Rattle.std.specs.Prelude.{List, Result};

    ghost Value = { List (Result T E) };

    ghost view = { λ events. events.items.items };
}

impl<T, E> ListEvents<T, E> {
    /// All of the items are left.
    pub fn new(items: VecDeque<Result<T, E>>) -> ListEvents<T, E>
        ensures { result ≡ items.items }
    {
        ListEvents { items }
    }
}

impl<T: Clone + Drop, E: Clone + Drop> ListEvents<T, E> {
    /// Copies of the items are left.
    pub fn try_clone(&self) -> Mem<ListEvents<T, E>>
        ensures { IfOk result (AllZip (IsItemCopy T.is_clone E.is_clone) self.now) }
    {
        Ok(ListEvents {
            items: self.items.clone()?,
        })
    }
}

impl<T, E> EventSource for ListEvents<T, E> {
    type Item = T;

    type Error = E;

    ghost left = { λ events. Some events };

    ghost waits = { λ _. 0 };

    ghost ended = { λ events. events ≡ [] };

    fn poll_event(&mut self) -> EventPolled<T, E>
        ensures gives { GivesEvent (Some self.old) (Some self.new) result }
        ensures never_waits { result ≡ polled.NotYet → ⊥ }
        ensures ends { result ≡ polled.End → self.new ≡ [] }
        ensures again { self.old ≡ [] → result ≡ polled.End }
    {
        match self.items.pop_front() {
            Some(item) => EventPolled::Item(item),
            None => EventPolled::End,
        }
    }
}
