use crate::bags::{fill, moment_of};
use crate::headers::{headers_text, request_of};
use crate::metadata::build_of;
use crate::texts::{debugged, rest, text, word};
use aws_intercept::{
    ConfigBag, InvocationIdInterceptor, OsFamily, RequestInfoInterceptor, UserAgentFault,
    UserAgentInterceptor,
};
use smithy_core::{Env, HttpRequest, Mem};
use std::alloc::Global;

// The headers of a request that had none, once an interceptor saw it with a bag of these entries.
pub fn answer(alloc: Global, bag: &mut ConfigBag, call: &str, words: &[&str]) -> Mem<String> {
    if call == "copy" {
        fill(alloc, bag, words)?;
        return copied(alloc, bag);
    }
    let mut request = request_of(alloc, &[])?;
    match send(alloc, bag, &mut request, call, words) {
        Ok(()) => headers_text(alloc, &request.headers),
        Err(fault) => debugged(alloc, Ok(fault)),
    }
}

// Sends the attempt at a moment, the id, or the agent, which `agent` makes before where the bag has none.
fn send(
    alloc: Global,
    bag: &mut ConfigBag,
    request: &mut HttpRequest,
    call: &str,
    words: &[&str],
) -> Result<(), UserAgentFault> {
    let place = if call == "attempt" { 1 } else { 0 };
    fill(alloc, bag, rest(words, place))?;
    match call {
        "attempt" => {
            let now = moment_of(word(words, 0));
            Ok(RequestInfoInterceptor::new().modify_before_transmit(request, now, bag)?)
        }
        "id" => Ok(InvocationIdInterceptor::new().modify_before_transmit(request, bag)?),
        _ => {
            if call == "agent" {
                make_agent(alloc, bag)?;
            }
            UserAgentInterceptor::new().modify_before_signing(request, bag)
        }
    }
}

fn make_agent(alloc: Global, bag: &mut ConfigBag) -> Result<(), UserAgentFault> {
    let build = build_of(alloc, OsFamily::Macos)?;
    UserAgentInterceptor::new().read_after_serialization(&Env::new(alloc), &build, bag)
}

// Whether a copy of the bag is the same to the eye, or else the copy.
fn copied(alloc: Global, bag: &ConfigBag) -> Mem<String> {
    let copy = debugged(alloc, bag.try_clone())?;
    if copy == format!(in alloc; "{bag:?}")? {
        return text(alloc, "the same");
    }
    Ok(copy)
}
