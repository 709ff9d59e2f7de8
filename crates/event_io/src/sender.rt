ghost use Rattle.std.specs.Prelude.{◌≡◌, [], ◌∷◌, IfOk};
ghost use Rattle.event_io.specs.Adapter.{new_adapter};
ghost use Rattle.event_io.specs.Sender.{sender_over, source_of};

use crate::adapter::MessageStreamAdapter;
use crate::event_source::{EventSource, ListEvents};
use smithy_core::Mem;
use std::alloc::Global;
use std::collections::VecDeque;

/// What sends the events of a source.
#[derive(Debug, Drop)]
pub struct EventStreamSender<S> {
    source: S,
}

impl<T: Drop, E: Drop> EventStreamSender<ListEvents<T, E>> {
    /// A sender of one item.
    pub fn once(alloc: Global, item: Result<T, E>) -> Mem<EventStreamSender<ListEvents<T, E>>>
        ensures { IfOk result (λ sender. source_of sender ≡ item ∷ []) }
    {
        let mut items = VecDeque::new(alloc);
        items.push_back(item)?;
        Ok(EventStreamSender {
            source: ListEvents::new(items),
        })
    }
}

impl<S: EventSource> EventStreamSender<S> {
    /// The source of events.
    pub fn into_inner(self) -> S
        ensures { result ≡ source_of self }
    {
        self.source
    }

    /// The frames of the events: each is marshalled, and signed by the signer.
    pub fn into_body_stream<M, EM, G>(
        self,
        alloc: Global,
        marshaller: M,
        error_marshaller: EM,
        signer: G,
    ) -> MessageStreamAdapter<S, M, EM, G>
        ensures { result ≡ new_adapter alloc marshaller error_marshaller signer (source_of self) }
    {
        MessageStreamAdapter::new(alloc, marshaller, error_marshaller, signer, self.source)
    }
}

impl<S: Clone + Drop> EventStreamSender<S> {
    /// A sender of the events of a copy of the source.
    pub fn try_clone(&self) -> Mem<EventStreamSender<S>>
        ensures { IfOk result (λ copy. S.is_clone (source_of self.now) (source_of copy)) }
    {
        Ok(EventStreamSender {
            source: self.source.clone()?,
        })
    }
}

impl<S: EventSource> From<S> for EventStreamSender<S> {
    ghost from_gives = { λ source sender. sender ≡ sender_over source };

    fn from(source: S) -> EventStreamSender<S> {
        EventStreamSender { source }
    }
}
