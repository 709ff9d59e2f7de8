ghost use Rattle.std.specs.Prelude.{◌≡◌, None, Ok, Some};
ghost use Rattle.smithy_core.specs.declared.raw_message.RawMessage.TheVariants.{Invalid};
ghost use Rattle.event_io.specs.Receiver.{NamesWantOfMemory, recv_stop, silent_stop, tried_stop};
ghost use Rattle.event_io.specs.ResponseFault.{response_error};
ghost use Rattle.event_io.specs.Stop.{NamesStopWant};
ghost use Rattle.event_io.specs.declared.received.Received.TheVariants as received;
ghost use Rattle.event_io.specs.declared.received.Tried.TheVariants as tried;
ghost use Rattle.event_io.specs.declared.response_fault.ResponseFault.TheVariants.{Frame};
ghost use Rattle.event_io.specs.declared.stop.Silence.TheVariants as silence;
ghost use Rattle.event_io.specs.declared.stop.Stop.TheVariants.{End};

use crate::received::{Received, Tried};
use crate::response_fault::{ReceiveError, ReceiverError, ResponseFault, is_want, response_error};
use bytes::Bytes;
use eventstream::Error;
use smithy_core::{RawMessage, SdkError};
use std::alloc::AllocError;

// Why there is no message.
#[derive(Drop)]
pub(crate) enum Stop {
    // The stream ended.
    End,
    // Nothing has come yet.
    NotYet,
    // Too many frames had no data.
    OutOfTurns,
    // The source failed.
    Failed,
    // Memory ran out.
    NoMemory,
    // The bytes are no frame.
    Faulty(Error),
    // The stream ended within a frame, after these bytes of it.
    CutOff(Bytes),
}

// Why nothing is answered.
#[derive(Clone, Copy)]
enum Silence {
    End,
    NotYet,
    OutOfTurns,
}

impl Stop {
    // As an answer of `recv`.
    pub(crate) fn received<T, E>(self) -> Result<Received<T>, ReceiveError<E>>
        requires { NamesStopWant self }
        ensures stop { recv_stop result ≡ Some self }
        ensures end { self ≡ End → result ≡ Ok received.End }
        ensures want { NamesWantOfMemory result }
    {
        Ok(match self.silence()? {
            Silence::End => Received::End,
            Silence::NotYet => Received::NotYet,
            Silence::OutOfTurns => Received::OutOfTurns,
        })
    }

    // As an answer of a call that looks for the first message.
    pub(crate) fn tried<M, E>(self) -> Result<Tried<M>, ReceiveError<E>>
        requires { NamesStopWant self }
        ensures stop { tried_stop result ≡ Some self }
        ensures end { self ≡ End → result ≡ Ok tried.End }
        ensures want { NamesWantOfMemory result }
    {
        Ok(match self.silence()? {
            Silence::End => Tried::End,
            Silence::NotYet => Tried::NotYet,
            Silence::OutOfTurns => Tried::OutOfTurns,
        })
    }

    // Why nothing is answered, or the error.
    fn silence<E>(self) -> Result<Silence, ReceiveError<E>>
        requires { NamesStopWant self }
        ensures stop { silent_stop result ≡ Some self }
        ensures end { self ≡ End → result ≡ Ok silence.End }
        ensures want { NamesWantOfMemory result }
    {
        match self {
            Stop::End => Ok(Silence::End),
            Stop::NotYet => Ok(Silence::NotYet),
            Stop::OutOfTurns => Ok(Silence::OutOfTurns),
            Stop::Failed => Err(SdkError::DispatchFailure),
            Stop::NoMemory => Err(SdkError::NoMemory),
            Stop::Faulty(error) => Err(frame_error(error)),
            Stop::CutOff(bytes) => Err(SdkError::ResponseError {
                source: ResponseFault::UnexpectedEndOfStream(ReceiverError),
                raw: RawMessage::Invalid(Some(bytes)),
            }),
        }
    }
}

impl From<Error> for Stop {
    ghost use Rattle.event_io.specs.Stop.{stop_of};

    ghost from_gives = { λ error stop. stop ≡ stop_of error };

    fn from(error: Error) -> Stop {
        if is_want(&error) {
            Stop::NoMemory
        } else {
            Stop::Faulty(error)
        }
    }
}

impl From<AllocError> for Stop {
    ghost use Rattle.event_io.specs.declared.stop.Stop.TheVariants.{NoMemory};

    ghost from_gives = { λ _ stop. stop ≡ NoMemory };

    fn from(_e: AllocError) -> Stop {
        Stop::NoMemory
    }
}

// The error of bytes that are no frame.
fn frame_error<E>(error: Error) -> ReceiveError<E>
    ensures { result ≡ response_error (Frame error) (Invalid None) }
{
    response_error(ResponseFault::Frame(error), RawMessage::Invalid(None))
}
