use crate::bags::{moment_of, put};
use crate::headers::response_of;
use crate::texts::{given, rest, word};
use aws_intercept::{ConfigBag, ServiceClockSkewInterceptor};
use smithy_core::Mem;
use std::alloc::Global;

// The skews, once an interceptor saw an attempt with a bag of these entries, which have commas between.
pub fn answer(alloc: Global, bag: &mut ConfigBag, call: &str, words: &[&str]) -> Mem<String> {
    for entry in word(words, 0).split(',') {
        put(alloc, bag, entry)?;
    }
    match call {
        "begin" => begin(alloc, bag, word(words, 1)),
        _ => measure(alloc, bag, words),
    }
}

// The skews of the response and of the bag, and the one that the next operation begins with, once an attempt was sent,
// where a moment is given, and its answer received.
fn measure(alloc: Global, bag: &mut ConfigBag, words: &[&str]) -> Mem<String> {
    let mut response = response_of(alloc, rest(words, 3))?;
    let mut interceptor = ServiceClockSkewInterceptor::new();
    send(&mut interceptor, bag, word(words, 1));
    interceptor.modify_before_deserialization(&mut response, moment_of(word(words, 2)), bag);
    let mut out = String::new(alloc);
    push_skew(&mut out, "response ", response.skew)?;
    push_skew(&mut out, ", bag ", bag.attempt_skew)?;
    push_skew(&mut out, ", next ", next_skew(alloc, interceptor))?;
    Ok(out)
}

fn send(interceptor: &mut ServiceClockSkewInterceptor, bag: &mut ConfigBag, sent: &str) {
    if let Some(moment) = given(sent) {
        interceptor.read_before_transmit(moment_of(moment), bag);
    }
}

fn next_skew(alloc: Global, mut interceptor: ServiceClockSkewInterceptor) -> Option<i64> {
    let mut bag = ConfigBag::new(alloc);
    interceptor.modify_before_retry_loop(&mut bag);
    bag.attempt_skew
}

// The skew of the bag and the second of sending, once an operation began and an attempt was sent.
fn begin(alloc: Global, bag: &mut ConfigBag, sent: &str) -> Mem<String> {
    let mut interceptor = ServiceClockSkewInterceptor::new();
    interceptor.modify_before_retry_loop(bag);
    send(&mut interceptor, bag, sent);
    let mut out = String::new(alloc);
    push_skew(&mut out, "bag ", bag.attempt_skew)?;
    push_skew(&mut out, ", sent ", second_sent(bag))?;
    Ok(out)
}

fn second_sent(bag: &ConfigBag) -> Option<i64> {
    match bag.time_sent {
        Some(moment) => Some(moment.secs()),
        None => None,
    }
}

// Appends a number behind its name, `-` where there is none.
fn push_skew(out: &mut String, name: &str, skew: Option<i64>) -> Mem<()> {
    match skew {
        Some(number) => write!(out, "{name}{number}"),
        None => write!(out, "{name}-"),
    }
}
