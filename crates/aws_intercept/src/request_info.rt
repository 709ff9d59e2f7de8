ghost use Rattle.std.specs.Prelude.{◌≡◌, ◌≤ℤ◌, ◌+ℤ◌, ◌*ℤ◌, ◌++◌, pos, negsuc, IfOk, OnErr, OnOk, codes, option_and_then, option_map, string_bytes};
ghost use Rattle.smithy_core.specs.Moment.{total_nanos};
ghost use Rattle.smithy_core.specs.TextPairs.{inserted};
ghost use Rattle.aws_intercept.specs.RequestInfo.{awaited, deadline, info_text, max_end, stamped, ttl, ttl_front};

use crate::bag::ConfigBag;
use smithy_core::{DateTime, HttpRequest, Mem, Moment, RetryConfig, civil};
use std::alloc::Global;

/// Tells with each attempt its number, how many there may be, and until when its answer is awaited.
#[derive(Clone, Copy, Debug)]
pub struct RequestInfoInterceptor;

impl RequestInfoInterceptor {
    /// The interceptor.
    pub fn new() -> RequestInfoInterceptor {
        RequestInfoInterceptor
    }

    /// Sets the header `amz-sdk-request`: `ttl=STAMP; attempt=N; max=N`.
    ///
    /// The stamp is the moment, shifted by the skew and by the read timeout. It is there from the second attempt on, where
    /// there is a timeout and the shifted moment lies in the years 0 to 9999; `max` where there is a retry config.
    ///
    /// Call it on the attempt's copy of the operation's request, after it was signed: on a request of an earlier attempt the
    /// signature would cover the text that this call replaces.
    pub fn modify_before_transmit(
        &mut self,
        request: &mut HttpRequest,
        now: Moment,
        bag: &mut ConfigBag,
    ) -> Mem<()>
        ensures ok { OnOk result (request.new.headers ≡ inserted request.old.headers (codes "amz-sdk-request") (info_text now bag.old)) }
        ensures err { OnErr result (request.new.headers ≡ request.old.headers) }
        ensures method { request.new.method ≡ request.old.method }
        ensures target { request.new.target ≡ request.old.target }
        ensures body { request.new.body ≡ request.old.body }
        ensures bag { bag.new ≡ bag.old }
    {
        let text = info_text(*request.method.allocator(), now, bag)?;
        request.headers.insert("amz-sdk-request", text.as_str())
    }
}

// The header's value.
#[tactic(auto, using(crate::proofs::RequestInfoLemmas::info_in_turn))]
fn info_text(alloc: Global, now: Moment, bag: &ConfigBag) -> Mem<String>
    ensures { IfOk result (λ text. string_bytes text ≡ info_text now bag.now) }
{
    let mut text = String::new(alloc);
    let ttl = ttl(alloc, now, bag)?;
    push_ttl(&mut text, &ttl)?;
    let attempts = bag.attempts.unwrap_or(0);
    write!(text, "attempt={attempts}")?;
    push_max(&mut text, &bag.retry)?;
    Ok(text)
}

// Appends until when the answer is awaited, if that is known.
fn push_ttl(text: &mut String, ttl: &Option<String>) -> Mem<()>
    ensures { OnOk result (string_bytes text.new ≡ string_bytes text.old ++ ttl_front (option_map string_bytes ttl.now)) }
{
    if let Some(stamp) = ttl {
        write!(text, "ttl={stamp}; ")?;
    }
    Ok(())
}

// Appends how many attempts there may be, if that is known.
fn push_max(text: &mut String, retry: &Option<RetryConfig>) -> Mem<()>
    ensures { OnOk result (string_bytes text.new ≡ string_bytes text.old ++ max_end retry.now) }
{
    if let Some(retry) = retry {
        let max = retry.max_attempts;
        write!(text, "; max={max}")?;
    }
    Ok(())
}

// The stamp of the moment until which the answer is awaited, if that is known.
fn ttl(alloc: Global, now: Moment, bag: &ConfigBag) -> Mem<Option<String>>
    ensures { IfOk result (λ stamp. option_map string_bytes stamp ≡ ttl now bag.now) }
{
    match awaited(bag) {
        Some(timeout) => deadline_stamp(alloc, now, bag.attempt_skew.unwrap_or(0), timeout),
        None => Ok(None),
    }
}

// The read timeout in seconds, where there is one and this isn't the first attempt.
fn awaited(bag: &ConfigBag) -> Option<u64>
    ensures { result ≡ awaited bag.now }
{
    if bag.attempts.unwrap_or(0) < 2 {
        return None;
    }
    match &bag.timeout {
        Some(timeout) => timeout.read_timeout,
        None => None,
    }
}

// The stamp of the moment so many milliseconds and seconds later, where that lies in the years 0 to 9999.
fn deadline_stamp(alloc: Global, moment: Moment, millis: i64, secs: u64) -> Mem<Option<String>>
    ensures { IfOk result (λ stamp. option_map string_bytes stamp ≡ option_and_then stamped (deadline moment millis secs)) }
{
    match deadline(moment, millis, secs) {
        Some(deadline) => stamped(alloc, deadline),
        None => Ok(None),
    }
}

// The stamp of a moment in the years 0 to 9999.
#[tactic(auto, using(crate::proofs::RequestInfoLemmas::stamped_in_years, crate::proofs::RequestInfoLemmas::never_stamped))]
fn stamped(alloc: Global, moment: Moment) -> Mem<Option<String>>
    ensures { IfOk result (λ stamp. option_map string_bytes stamp ≡ stamped moment) }
{
    match civil(moment) {
        Some(civil) => Ok(Some(civil.stamp_text(alloc)?)),
        None => Ok(None),
    }
}

// The moment so many milliseconds and seconds later, where its seconds fit 64 bits.
#[tactic(auto, unfolding(crate::specs::RequestInfo::deadline))]
fn deadline(moment: Moment, millis: i64, secs: u64) -> Option<Moment>
    ensures { result ≡ deadline moment millis secs }
{
    DateTime::from_nanos(deadline_nanos(moment, millis, secs))
}

// The nanoseconds of the moment so many milliseconds and seconds later.
fn deadline_nanos(moment: Moment, millis: i64, secs: u64) -> i128
    ensures { result ≡ total_nanos moment +ℤ (pos secs *ℤ pos 1000000000 +ℤ millis *ℤ pos 1000000) }
{
    moment.as_nanos() + delay_nanos(millis, secs)
}

// The nanoseconds of milliseconds and seconds.
fn delay_nanos(millis: i64, secs: u64) -> i128
    ensures value { result ≡ pos secs *ℤ pos 1000000000 +ℤ millis *ℤ pos 1000000 }
    ensures low { negsuc 9999999999999999999999999999 ≤ℤ result }
    ensures high { result ≤ℤ pos 99999999999999999999999999999 }
{
    i128::from(secs) * 1_000_000_000 + i128::from(millis) * 1_000_000
}
