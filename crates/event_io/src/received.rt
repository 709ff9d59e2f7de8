ghost use Rattle.std.specs.Prelude.{◌≡◌, IfOk};
ghost use Rattle.event_io.specs.Received.{IsReceivedCopy, IsTriedCopy, initial_text};

use smithy_core::{Mem, Message};

/// What a call of a receiver answers.
#[derive(Debug, Drop)]
pub enum Received<T> {
    /// The next event.
    Event(T),
    /// No message follows.
    End,
    /// Nothing has come yet.
    NotYet,
    /// So many frames without data came that the call gave up. The next call goes on.
    OutOfTurns,
}

impl<T: Clone + Drop> Received<T> {
    /// The same answer, with a copy of the event.
    pub fn try_clone(&self) -> Mem<Received<T>>
        ensures { IfOk result (IsReceivedCopy T.is_clone self.now) }
    {
        Ok(match self {
            Received::Event(event) => Received::Event(event.clone()?),
            Received::End => Received::End,
            Received::NotYet => Received::NotYet,
            Received::OutOfTurns => Received::OutOfTurns,
        })
    }
}

/// What a receiver answers when it is asked for the message that begins the stream.
#[derive(Debug, Drop)]
pub enum Tried<M> {
    /// The message that begins the stream, and what its preprocessor made along with it.
    Initial(Message, M),
    /// The first message is another one, and is kept.
    Other,
    /// No message follows.
    End,
    /// Nothing has come yet.
    NotYet,
    /// So many frames without data came that the call gave up. The next call goes on.
    OutOfTurns,
}

impl<M: Clone + Drop> Tried<M> {
    /// The same answer, with an equal message and a copy of what was made along with it.
    pub fn try_clone(&self) -> Mem<Tried<M>>
        ensures { IfOk result (IsTriedCopy M.is_clone self.now) }
    {
        Ok(match self {
            Tried::Initial(message, made) => Tried::Initial(message.try_clone()?, made.clone()?),
            Tried::Other => Tried::Other,
            Tried::End => Tried::End,
            Tried::NotYet => Tried::NotYet,
            Tried::OutOfTurns => Tried::OutOfTurns,
        })
    }
}

/// Which message begins a stream.
#[derive(Clone, Copy, Debug, PartialEq, Eq)]
pub enum InitialMessageType {
    /// That of a request.
    Request,
    /// That of a response.
    Response,
}

impl InitialMessageType {
    // The type of event that the message names.
    pub(crate) fn text(self) -> &'static str
        ensures { result.now ≡ initial_text self }
    {
        match self {
            InitialMessageType::Request => "initial-request",
            InitialMessageType::Response => "initial-response",
        }
    }
}
