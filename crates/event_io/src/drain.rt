ghost use Rattle.std.specs.Prelude.{◌≡◌, None};
ghost use Rattle.event_io.specs.Drain.{ReceivesAll, stops};
ghost use Rattle.event_io.specs.Receiver.{KeepsOthers, NamesWantOfMemory, kept_message};

use crate::received::Received;
use crate::receiver::Receiver;
use crate::response_fault::{ReceiveError, ResponseFault};
use eventstream::{Error, IdentityUnmarshaller};
use smithy_core::{FrameSource, Message, RawMessage, SdkError};
use std::alloc::Global;

/// Why a call that takes messages takes no more.
#[derive(Clone, Copy, Debug, PartialEq, Eq)]
pub enum Drained {
    /// No message follows.
    End,
    /// Nothing has come yet.
    NotYet,
    /// So many frames without data came that the call gave up. The next call goes on.
    OutOfTurns,
    /// It has as many as were asked for.
    Enough,
}

/// Takes messages, which `out` gains, until it has `most` of them, and says why it takes no more.
///
/// The receiver has to keep no message: one that `try_recv_initial` kept is taken by [`Receiver::recv`] first.
///
/// # Errors
///
/// As [`Receiver::recv`] has them, but for those of the unmarshaller, which takes messages as they are. `out` keeps the
/// messages before them. Room in `out` is made before each message is taken, so none is lost where memory runs out.
pub fn receive_all<F: FrameSource>(
    _alloc: Global,
    receiver: &mut Receiver<F, IdentityUnmarshaller>,
    most: usize,
    out: &mut Vec<Message>,
) -> Result<Drained, SdkError<Error, ResponseFault, RawMessage>>
    requires { kept_message receiver.old ≡ None }
    ensures receives { ReceivesAll F.FrameSource most receiver.old receiver.new out.old.items out.new.items result }
    ensures kept { kept_message receiver.new ≡ None }
    ensures others { KeepsOthers F.FrameSource receiver.old receiver.new }
    ensures want { NamesWantOfMemory result }
{
    let mut count = 0;
    'messages: while count < most {
        let answer = receive_one(receiver, out);
        if stops(&answer) {
            return answer;
        }
        count += 1;
    }
    Ok(Drained::Enough)
}

// Takes one message.
fn receive_one<F: FrameSource>(
    receiver: &mut Receiver<F, IdentityUnmarshaller>,
    out: &mut Vec<Message>,
) -> Result<Drained, ReceiveError<Error>>
    requires { kept_message receiver.old ≡ None }
    ensures receives { ReceivesAll F.FrameSource 1 receiver.old receiver.new out.old.items out.new.items result }
    ensures kept { kept_message receiver.new ≡ None }
    ensures others { KeepsOthers F.FrameSource receiver.old receiver.new }
    ensures want { NamesWantOfMemory result }
{
    out.reserve(1)?;
    match receiver.recv() {
        Ok(Received::Event(message)) => {
            out.push_reserved(message);
            Ok(Drained::Enough)
        }
        Ok(Received::End) => Ok(Drained::End),
        Ok(Received::NotYet) => Ok(Drained::NotYet),
        Ok(Received::OutOfTurns) => Ok(Drained::OutOfTurns),
        Err(error) => Err(error),
    }
}

// Whether an answer is why no message was taken.
fn stops(answer: &Result<Drained, ReceiveError<Error>>) -> bool
    ensures { result ≡ stops answer.now }
{
    !matches!(answer, Ok(Drained::Enough))
}
