ghost use Rattle.std.specs.Prelude.{◌≡◌, IfOk, List, OnErr, OnOk, string_bytes, ℕ};
ghost use Rattle.http_header.specs.Token.{AllPass};
ghost use Rattle.smithy_core.specs.HeaderGrammar.{IsHeaderValue};
ghost use Rattle.aws_intercept.specs.Recursion.{escaped_trace, is_visible, traced};

use crate::bag::ConfigBag;
use percent_encoding::{CONTROLS, percent_encode};
use smithy_core::{Env, HttpRequest, Mem};
use std::alloc::Global;
use std::marker::Model;

/// Tells a service which trace a request of a function belongs to, so that it can detect calls that go round in a loop.
///
/// Contracts see the variables of its environment.
#[derive(Drop)]
pub struct RecursionDetectionInterceptor {
    env: Env,
}

impl Model for RecursionDetectionInterceptor {
    ghost use Rattle.std.specs.Prelude.{ℕ, List};

    ghost Value = { List (List ℕ × List ℕ) };

    ghost view = { λ interceptor. interceptor.env };
}

impl RecursionDetectionInterceptor {
    /// The interceptor in this environment.
    pub fn new(env: Env) -> RecursionDetectionInterceptor
        ensures { result ≡ env }
    {
        RecursionDetectionInterceptor { env }
    }

    /// An interceptor in the same environment.
    pub fn try_clone(&self) -> Mem<RecursionDetectionInterceptor>
        ensures { IfOk result (λ copy. copy ≡ self.now) }
    {
        Ok(RecursionDetectionInterceptor {
            env: self.env.try_clone()?,
        })
    }

    /// Inserts the variable `_X_AMZN_TRACE_ID` as `x-amzn-trace-id`, its controls and bytes past ASCII escaped, where the
    /// request has no such header and the variable `AWS_LAMBDA_FUNCTION_NAME` is set too.
    ///
    /// Call it on the attempt's copy of the operation's request, before it is signed.
    pub fn modify_before_signing(
        &mut self,
        request: &mut HttpRequest,
        bag: &mut ConfigBag,
    ) -> Mem<()>
        ensures ok { OnOk result (request.new.headers ≡ traced self.old request.old.headers) }
        ensures err { OnErr result (request.new.headers ≡ request.old.headers) }
        ensures method { request.new.method ≡ request.old.method }
        ensures target { request.new.target ≡ request.old.target }
        ensures body { request.new.body ≡ request.old.body }
        ensures bag { bag.new ≡ bag.old }
        ensures env { self.new ≡ self.old }
    {
        let _bag = bag;
        if request.headers.get("x-amzn-trace-id").is_some() {
            return Ok(());
        }
        let function = self.env.get("AWS_LAMBDA_FUNCTION_NAME");
        match (function, self.env.get("_X_AMZN_TRACE_ID")) {
            (Some(_), Some(trace)) => {
                let value = escape(*request.method.allocator(), trace.as_bytes())?;
                request.headers.insert("x-amzn-trace-id", value.as_str())
            }
            _ => Ok(()),
        }
    }
}

// The bytes with controls and those past ASCII escaped.
#[tactic(auto, using(crate::proofs::RecursionLemmas::by_controls))]
pub(crate) fn escape(alloc: Global, bytes: &[u8]) -> Mem<String>
    ensures { IfOk result (λ value. string_bytes value ≡ escaped_trace bytes.now) }
{
    let mut value = String::new(alloc);
    percent_encode(bytes, CONTROLS).append_to(&mut value)?;
    Ok(value)
}

/// Whatever its bytes, an escaped trace is visible ASCII and spaces, and so a header's value.
#[tactic(auto, using(crate::proofs::RecursionLemmas::escaped_visible, crate::proofs::RecursionLemmas::escaped_fits))]
pub fn escaped_traces_fit()
    ensures visible { (trace : List ℕ) → AllPass is_visible (escaped_trace trace) }
    ensures value { (trace : List ℕ) → IsHeaderValue (escaped_trace trace) }
{}
