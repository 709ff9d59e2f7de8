ghost use Rattle.std.specs.Prelude.{◌≡◌, None};
ghost use Rattle.event_io.specs.Receiver.{kept_message};

use crate::parts::{framed, push};
use crate::receiving::shown::drained;
use crate::receiving::sources::source_of;
use event_io::{Drained, Receiver, ResponseFault, receive_all};
use eventstream::{Error, IdentityUnmarshaller};
use smithy_core::{FaultyFrames, FrameSource, Mem, Message, RawMessage, SdkError};
use std::alloc::Global;
use tool_case_lines::halves;

/// What the calls `all N` among the words answer, which tell the source too: before each answer the frames of the messages
/// that the call gained.
pub fn answer(alloc: Global, words: &[&str]) -> Mem<String> {
    let mut receiver = Receiver::new(alloc, IdentityUnmarshaller, source_of(alloc, words)?);
    answers_of(alloc, &mut receiver, words)
}

fn answers_of(
    alloc: Global,
    receiver: &mut Receiver<FaultyFrames, IdentityUnmarshaller>,
    words: &[&str],
) -> Mem<String>
    requires { kept_message receiver.old ≡ None }
{
    let mut answers = String::new(alloc);
    'words: for word in words {
        if let ("all", most) = halves(word) {
            push_all(alloc, receiver, most.parse().unwrap_or(0), &mut answers)?;
        }
    }
    Ok(answers)
}

fn push_all<F: FrameSource>(
    alloc: Global,
    receiver: &mut Receiver<F, IdentityUnmarshaller>,
    most: usize,
    answers: &mut String,
) -> Mem<()>
    requires { kept_message receiver.old ≡ None }
    ensures { kept_message receiver.new ≡ None }
{
    let mut gained = Vec::new(alloc);
    let answer = receive_all(alloc, receiver, most, &mut gained);
    push_drained(alloc, answers, &gained, &answer)
}

fn push_drained(
    alloc: Global,
    answers: &mut String,
    gained: &[Message],
    answer: &Result<Drained, SdkError<Error, ResponseFault, RawMessage>>,
) -> Mem<()> {
    for message in gained {
        push(answers, framed(alloc, message))?;
    }
    push(answers, drained(alloc, answer))
}
