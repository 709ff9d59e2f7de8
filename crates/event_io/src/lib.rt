//! Event streams over sources: what sends the events of a source as signed frames, and what receives those of a body.
//!
//! The layer above is promised that each call of [`MessageStreamAdapter::poll_next`] answers the frame of what the signer
//! answered for the next item, as its marshaller made it a message, at the one moment that the call took of the clock
//! (`specs/Adapter.antt`); that the items are taken in order (`specs/EventSource.antt`); that the signer is asked once for the
//! message that ends the stream; and that each other answer comes only for its cause. Of a [`Receiver`] it is promised that
//! each call answers the kept message, or else the next one of the bytes that came and are to come, in whatever pieces, as its
//! unmarshaller makes it an event, or why there is none, and that no other answer loses a byte (`specs/Receiver.antt`); and
//! of [`receive_all`] that it takes the first messages of these bytes, and says why it takes no more (`specs/Drain.antt`). Over any
//! list of these calls the answers are the messages of the bytes in order, their one fault, and then the end (`specs/Laws.antt`).
//! A [`SignedUnmarshaller`] makes events of signed messages, and checks no signature (`specs/SignedEvent.antt`).
#![tactic(auto)]

mod adapter;
mod adapter_fault;
mod coming;
mod drain;
mod event_source;
mod initial;
mod initial_receiver;
mod laws;
mod received;
mod receiver;
mod response_fault;
mod sender;
mod signed_event;
mod stop;
mod stream_error;

pub use crate::adapter::{MessageStreamAdapter, Next, take_moment};
pub use crate::adapter_fault::AdapterFault;
pub use crate::drain::{Drained, receive_all};
pub use crate::event_source::{EventPolled, EventSource, ListEvents};
pub use crate::initial::{EventOrInitial, EventOrInitialMarshaller};
pub use crate::laws::{calls_join, calls_tell_the_reading, chain_polled, chains_read_back};
pub use crate::received::{InitialMessageType, Received, Tried};
pub use crate::receiver::Receiver;
pub use crate::response_fault::{ReceiverError, ResponseFault};
pub use crate::sender::EventStreamSender;
pub use crate::signed_event::{SignedEvent, SignedUnmarshaller};
pub use crate::stream_error::MessageStreamError;
