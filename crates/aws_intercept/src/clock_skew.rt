ghost use Rattle.std.specs.Prelude.{◌≡◌, ◌+ℤ◌, ◌-ℤ◌, ◌*ℤ◌, ◌≤ℤ◌, negsuc, codes, option_and_then, pos, unwrap_or};
ghost use Rattle.std.specs.Int.{int_max};
ghost use Rattle.httpdate.specs.Date.{parse_secs};
ghost use Rattle.smithy_core.specs.Moment.{IsNanos};
ghost use Rattle.smithy_core.specs.TextPairs.{first_value};
ghost use Rattle.aws_intercept.specs.ClockSkew.{bag_with_kept, bag_with_skew, bag_with_time, is_off, measured, most_elapsed, response_with_skew, skew_at, trusted_skew, twice_skew};

use crate::bag::ConfigBag;
use httpdate::HttpDate;
use smithy_core::{Headers, HttpResponse, Moment};
use std::marker::Model;

/// Whether no skew between the clocks of client and service is to be measured.
///
/// Contracts see just that.
#[derive(Clone, Copy, Debug, PartialEq, Eq)]
pub struct DisableClockSkewCorrection {
    is_disabled: bool,
}

impl Model for DisableClockSkewCorrection {
    ghost use Rattle.std.specs.Prelude.{Bool};

    ghost Value = { Bool };

    ghost view = { λ correction. correction.is_disabled };

    ghost inverse = { λ is_disabled. record { is_disabled = is_disabled } };
}

impl DisableClockSkewCorrection {
    /// Whether none is to be measured.
    pub fn is_disabled(&self) -> bool
        ensures { result ≡ self.now }
    {
        self.is_disabled
    }
}

impl From<bool> for DisableClockSkewCorrection {
    ghost from_gives = { λ disable correction. correction ≡ disable };

    fn from(is_disabled: bool) -> DisableClockSkewCorrection {
        DisableClockSkewCorrection { is_disabled }
    }
}

/// The most nanoseconds from sending a request to receiving its answer at which the skew is measured: 15 minutes.
const MOST_ELAPSED: i128 = 900_000_000_000;

/// Measures how far the service's clock is ahead of the client's, and keeps that from one operation to the next.
///
/// Contracts see the skew that is kept, in milliseconds.
#[derive(Clone, Copy, Debug)]
pub struct ServiceClockSkewInterceptor {
    // In milliseconds.
    kept: i64,
}

impl Model for ServiceClockSkewInterceptor {
    ghost use Rattle.std.specs.Prelude.{ℤ};

    ghost Value = { ℤ };

    ghost view = { λ interceptor. interceptor.kept };

    ghost inverse = { λ kept. record { kept = kept } };
}

impl ServiceClockSkewInterceptor {
    /// An interceptor that keeps the skew 0.
    pub fn new() -> ServiceClockSkewInterceptor
        ensures { result ≡ pos 0 }
    {
        ServiceClockSkewInterceptor { kept: 0 }
    }

    /// Gives the operation the skew that is kept, unless the correction is disabled.
    pub fn modify_before_retry_loop(&mut self, bag: &mut ConfigBag)
        ensures bag { bag.new ≡ bag_with_kept self.old bag.old }
        ensures kept { self.new ≡ self.old }
    {
        if !is_disabled(bag) {
            bag.attempt_skew = Some(self.kept);
        }
    }

    /// Notes when the request is sent, unless the correction is disabled.
    pub fn read_before_transmit(&mut self, now: Moment, bag: &mut ConfigBag)
        ensures bag { bag.new ≡ bag_with_time now bag.old }
        ensures kept { self.new ≡ self.old }
    {
        if !is_disabled(bag) {
            bag.time_sent = Some(now);
        }
    }

    /// Measures the skew, where that can be trusted, and keeps it in the bag, the response and the interceptor.
    ///
    /// Nothing is measured where the correction is disabled, no time of sending was noted, the response is from a cache
    /// (it has an `age`), it has no `date` of HTTP, or over 15 minutes elapsed; nor is a skew that leaves `i64` kept. The
    /// skew is the service's date minus the middle of the two moments of the client, in milliseconds cut toward 0 (the
    /// clock offset of NTP, RFC 5905, section 8).
    pub fn modify_before_deserialization(
        &mut self,
        response: &mut HttpResponse,
        now: Moment,
        bag: &mut ConfigBag,
    )
        ensures bag { bag.new ≡ bag_with_skew (measured bag.old response.old.headers now) bag.old }
        ensures response { response.new ≡ response_with_skew (measured bag.old response.old.headers now) response.old }
        ensures kept { self.new ≡ unwrap_or (measured bag.old response.old.headers now) self.old }
    {
        if let Some(skew) = measured(bag, &response.headers, now) {
            self.kept = skew;
            bag.attempt_skew = Some(skew);
            response.skew = Some(skew);
        }
    }
}

// Whether the correction is disabled.
fn is_disabled(bag: &ConfigBag) -> bool
    ensures { result ≡ is_off bag.now }
{
    match &bag.disable_skew {
        Some(correction) => correction.is_disabled(),
        None => false,
    }
}

// The skew, where it is measured.
fn measured(bag: &ConfigBag, headers: &Headers, received: Moment) -> Option<i64>
    ensures { result ≡ measured bag.now headers.now received }
{
    if is_disabled(bag) || headers.get("age").is_some() {
        return None;
    }
    skew_at(bag.time_sent?, received, server_second(headers)?)
}

// The second of the service's date.
fn server_second(headers: &Headers) -> Option<u64>
    ensures { result ≡ option_and_then parse_secs (first_value headers.now (codes "date")) }
{
    let text = headers.get("date")?;
    match HttpDate::parse_ascii(text.as_bytes()) {
        Ok(date) => Some(date.unix_secs()),
        Err(_) => None,
    }
}

// The skew of a service whose clock showed this second between the two moments.
#[tactic(auto, unfolding(crate::specs::ClockSkew::skew_at))]
fn skew_at(sent: Moment, received: Moment, server: u64) -> Option<i64>
    ensures { result ≡ skew_at sent received server }
{
    let (sent, received) = (sent.as_nanos(), received.as_nanos());
    skew_of(sent, elapsed(sent, received), server)
}

// The nanoseconds from sending to receiving, and 0 where the clock went back.
fn elapsed(sent: i128, received: i128) -> i128
    requires sent { IsNanos sent }
    requires received { IsNanos received }
    ensures value { result ≡ int_max (received -ℤ sent) (pos 0) }
    ensures from { pos 0 ≤ℤ result }
{
    (received - sent).max(0)
}

// The skew of a service whose clock showed this second, so many nanoseconds after a moment, where that can be trusted.
#[tactic(auto, unfolding(crate::specs::ClockSkew::trusted_skew))]
fn skew_of(sent: i128, elapsed: i128, server: u64) -> Option<i64>
    requires sent { IsNanos sent }
    requires elapsed { pos 0 ≤ℤ elapsed }
    ensures { result ≡ trusted_skew sent elapsed server }
{
    if elapsed > MOST_ELAPSED {
        return None;
    }
    i64::try_from(twice_skew(sent, elapsed, server) / 2_000_000).ok()
}

// Twice the nanoseconds from the middle of sending and receiving to the service's second.
fn twice_skew(sent: i128, elapsed: i128, server: u64) -> i128
    requires sent { IsNanos sent }
    requires from { pos 0 ≤ℤ elapsed }
    requires within { elapsed ≤ℤ most_elapsed }
    ensures { result ≡ twice_skew sent elapsed server }
{
    i128::from(server) * 2_000_000_000 - twice_middle(sent, elapsed)
}

// Twice the nanoseconds of the middle of sending and receiving.
fn twice_middle(sent: i128, elapsed: i128) -> i128
    requires sent { IsNanos sent }
    requires from { pos 0 ≤ℤ elapsed }
    requires within { elapsed ≤ℤ most_elapsed }
    ensures value { result ≡ pos 2 *ℤ sent +ℤ elapsed }
    ensures low { negsuc 99999999999999999999999999999 ≤ℤ result }
    ensures high { result ≤ℤ pos 99999999999999999999999999999 }
{
    2 * sent + elapsed
}
