use crate::headers::{headers_text, request_of};
use crate::texts::{debugged, printed, text, word};
use aws_intercept::{
    ConfigBag, DefaultInvocationIdGenerator, IdFault, InvocationId, InvocationIdGenerator,
    InvocationIdInterceptor, NoInvocationIdGenerator, PredefinedInvocationIdGenerator,
};
use rand_pcg::Pcg32;
use smithy_core::Mem;
use std::alloc::Global;
use tool_case_lines::shown;

// The headers of so many invocations, an id's copy, or whether two are equal.
pub fn answer(alloc: Global, call: &str, words: &[&str]) -> Mem<String> {
    let (first, second) = (word(words, 0), word(words, 1));
    match call {
        "none" => invoked(alloc, &mut NoInvocationIdGenerator::new(), whole(first)),
        "random" => invoked(
            alloc,
            &mut random(alloc, first, second),
            whole(word(words, 2)),
        ),
        "copied" => copied_random(alloc, &mut random(alloc, first, second)),
        "text" => copied_text(alloc, first),
        "equal" => equal(alloc, first, second),
        _ => predefined(alloc, first, whole(second)),
    }
}

fn random(alloc: Global, seed: &str, stream: &str) -> DefaultInvocationIdGenerator<Pcg32> {
    DefaultInvocationIdGenerator::new(alloc, Pcg32::new(whole(seed), whole(stream)))
}

fn whole(word: &str) -> u64 {
    word.parse().unwrap_or(0)
}

// By a copy of the generator of the ids, which have commas between.
fn predefined(alloc: Global, words: &str, count: u64) -> Mem<String> {
    let mut ids = Vec::new(alloc);
    for word in words.split(',') {
        push_id(alloc, &mut ids, word)?;
    }
    let mut generator = PredefinedInvocationIdGenerator::new(ids).try_clone()?;
    invoked(alloc, &mut generator, count)
}

// Appends the id of a text, where it is one.
pub fn push_id(alloc: Global, ids: &mut Vec<InvocationId>, word: &str) -> Mem<()> {
    if let Ok(id) = InvocationId::new(text(alloc, word)?) {
        ids.push(id)?;
    }
    Ok(())
}

// With the generator's first id, with the next one of a copy, and with its own.
fn copied_random(
    alloc: Global,
    generator: &mut DefaultInvocationIdGenerator<Pcg32>,
) -> Mem<String> {
    let mut out = String::new(alloc);
    push_invoked(alloc, &mut out, generator)?;
    push_invoked(alloc, &mut out, &mut generator.try_clone()?)?;
    push_invoked(alloc, &mut out, generator)?;
    Ok(out)
}

// The headers of so many invocations, or the faults, in turn.
fn invoked<G: InvocationIdGenerator>(alloc: Global, generator: &mut G, count: u64) -> Mem<String> {
    let mut out = String::new(alloc);
    for _ in 0..count {
        push_invoked(alloc, &mut out, generator)?;
    }
    Ok(out)
}

fn push_invoked<G: InvocationIdGenerator>(
    alloc: Global,
    out: &mut String,
    generator: &mut G,
) -> Mem<()> {
    let gap = if out.is_empty() { "" } else { " | " };
    let header = shown(alloc, sent_with(alloc, generator))?;
    write!(out, "{gap}{header}")
}

// The header of an invocation with the generator's next id, which is the bag's then.
fn sent_with<G: InvocationIdGenerator>(
    alloc: Global,
    generator: &mut G,
) -> Result<String, IdFault> {
    let mut bag = ConfigBag::new(alloc);
    InvocationIdInterceptor::new().modify_before_retry_loop(generator, &mut bag)?;
    Ok(id_header(alloc, &mut bag)?)
}

fn id_header(alloc: Global, bag: &mut ConfigBag) -> Mem<String> {
    let mut request = request_of(alloc, &[])?;
    InvocationIdInterceptor::new().modify_before_transmit(&mut request, bag)?;
    headers_text(alloc, &request.headers)
}

// A copy of the id, which is equal, or the refusal.
fn copied_text(alloc: Global, word: &str) -> Mem<String> {
    match InvocationId::new(text(alloc, word)?) {
        Ok(id) => equal_copy(alloc, &id),
        Err(fault) => debugged(alloc, Ok(fault)),
    }
}

fn equal_copy(alloc: Global, id: &InvocationId) -> Mem<String> {
    let copy = id.try_clone()?;
    if copy == *id {
        printed(alloc, Ok(copy.as_str()))
    } else {
        text(alloc, "another id")
    }
}

// Whether the ids of two texts are equal.
fn equal(alloc: Global, word: &str, other: &str) -> Mem<String> {
    let id = InvocationId::new(text(alloc, word)?);
    let other = InvocationId::new(text(alloc, other)?);
    text(
        alloc,
        match (&id, &other) {
            (Ok(id), Ok(other)) if id == other => "yes",
            (Ok(_), Ok(_)) => "no",
            _ => "no ids",
        },
    )
}
