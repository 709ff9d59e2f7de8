//! What copies show: the same as what they were made of.
use crate::parts::{copy_shown, frame_or_error, number_of, word};
use crate::sending::adapters::next_text;
use crate::sending::errors::{self, fault_of, sign_error_of};
use crate::sending::events::{given, item_of, items_of};
use crate::sending::marshalling::marshalled;
use crate::sending::signers::sigv4;
use crate::sending::signing::sign;
use bytes::Bytes;
use event_io::{EventPolled, Next};
use smithy_core::Mem;
use std::alloc::Global;
use tool_case_lines::bytes_of_hex;

/// What the copy of a value of this kind shows.
pub fn answer(alloc: Global, kind: &str, words: &[&str]) -> Mem<String> {
    let (word, rest) = (word(words, 0), word(words, 1));
    match kind {
        "ListEvents" => {
            let mut copy = items_of(alloc, words)?.try_clone()?;
            given(alloc, &mut copy, number_of(words, "polls", 1))
        }
        "AdapterFault" => copy_shown(alloc, fault_of(alloc, word, rest)?.try_clone()),
        "SignMessageError" => copy_shown(alloc, sign_error_of(alloc, word)?.try_clone()),
        "SigV4MessageSigner" => sign(alloc, &mut sigv4(alloc)?.try_clone()?, word),
        "EventOrInitial" | "EventOrInitialMarshaller" => {
            frame_or_error(alloc, marshalled(alloc, kind, word))
        }
        "Next" => next(alloc, word),
        "EventPolled" => polled(alloc, word),
        _ => errors::answer(alloc, kind, word, rest),
    }
}

fn next(alloc: Global, word: &str) -> Mem<String> {
    let next = match word {
        "NotYet" => Next::NotYet,
        "End" => Next::End,
        digits => Next::Frame(Bytes::from_vec(bytes_of_hex(alloc, digits)?)?),
    };
    next_text(alloc, Ok(next.try_clone()?))
}

fn polled(alloc: Global, word: &str) -> Mem<String> {
    let polled = match item_of(alloc, word)? {
        Some(item) => EventPolled::Item(item),
        None if word == "NotYet" => EventPolled::NotYet,
        None => EventPolled::End,
    };
    copy_shown(alloc, polled.try_clone())
}
