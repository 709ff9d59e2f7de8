//! Calls of receivers.
use crate::parts::push;
use crate::receiving::preprocessing::{beginning, marking, refusing};
use crate::receiving::shown::{Shown, message_type, received, tried};
use crate::receiving::sources::source_of;
use event_io::Receiver;
use eventstream::{Error, UnmarshallMessage};
use smithy_core::{FaultyFrames, Mem, Message};
use std::alloc::Global;
use std::fmt;
use tool_case_lines::halves;

/// What a receiver answers to the calls among the words, which tell its source too.
pub fn answers<U: UnmarshallMessage>(alloc: Global, unmarshaller: U, words: &[&str]) -> Mem<String>
where
    U::Output: Shown + fmt::Debug + Drop,
    U::Error: fmt::Debug + Drop,
    U: Drop,
{
    let mut receiver = Receiver::new(alloc, unmarshaller, source_of(alloc, words)?);
    answers_of(alloc, &mut receiver, words)
}

fn answers_of<U: UnmarshallMessage>(
    alloc: Global,
    receiver: &mut Receiver<FaultyFrames, U>,
    words: &[&str],
) -> Mem<String>
where
    U::Output: Shown + fmt::Debug + Drop,
    U::Error: fmt::Debug + Drop,
{
    let mut answers = String::new(alloc);
    for word in words {
        push_called(alloc, &mut answers, receiver, word)?;
    }
    Ok(answers)
}

// Adds the answer to a call. Other words are none.
fn push_called<U: UnmarshallMessage>(
    alloc: Global,
    answers: &mut String,
    receiver: &mut Receiver<FaultyFrames, U>,
    word: &str,
) -> Mem<()>
where
    U::Output: Shown + fmt::Debug + Drop,
    U::Error: fmt::Debug + Drop,
{
    match halves(word) {
        ("recv", _) => push(answers, received(alloc, &receiver.recv())),
        ("initial", kind) => {
            push(
                answers,
                tried(alloc, &receiver.try_recv_initial(message_type(kind))),
            )
        }
        ("refusing", kind) => push(answers, initial_by(alloc, receiver, kind, refusing)),
        ("beginning", kind) => push(answers, initial_by(alloc, receiver, kind, beginning)),
        ("marking", kind) => push(answers, initial_by(alloc, receiver, kind, marking)),
        _ => Ok(()),
    }
}

// The message that begins the stream, by a preprocessor.
fn initial_by<U: UnmarshallMessage, P>(
    alloc: Global,
    receiver: &mut Receiver<FaultyFrames, U>,
    kind: &str,
    preprocessor: P,
) -> Mem<String>
where
    U::Error: fmt::Debug + Drop,
    P: FnOnce(Message) -> Result<(Message, u8), Error>,
    requires { P.IsAlwaysCallable preprocessor }
{
    tried(
        alloc,
        &receiver.try_recv_initial_with_preprocessor(message_type(kind), preprocessor),
    )
}
