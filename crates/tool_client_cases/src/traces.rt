use crate::headers::{headers_text, request_of};
use crate::texts::{given, rest, word};
use aws_intercept::{ConfigBag, RecursionDetectionInterceptor};
use smithy_core::{Env, Mem};
use std::alloc::Global;

// The headers of a request, once a copy of the interceptor saw it with these values of the two variables.
pub fn answer(alloc: Global, bag: &mut ConfigBag, words: &[&str]) -> Mem<String> {
    let env = env_of(alloc, word(words, 0), word(words, 1))?;
    let mut interceptor = RecursionDetectionInterceptor::new(env).try_clone()?;
    let mut request = request_of(alloc, rest(words, 2))?;
    interceptor.modify_before_signing(&mut request, bag)?;
    headers_text(alloc, &request.headers)
}

// The function's name and the trace, where they are given.
fn env_of(alloc: Global, function: &str, trace: &str) -> Mem<Env> {
    let mut env = Env::new(alloc);
    if let Some(function) = given(function) {
        env.set("AWS_LAMBDA_FUNCTION_NAME", function)?;
    }
    if let Some(trace) = given(trace) {
        env.set("_X_AMZN_TRACE_ID", trace)?;
    }
    Ok(env)
}
