ghost use Rattle.std.specs.Prelude.{◌≡◌, ◌<◌, ◌/◌, ◌+ℤ◌, ◌*ℤ◌, pos, FitsSigned, MatchResult};
ghost use Rattle.std.specs.Int.{w64};
ghost use Rattle.smithy_core.specs.Moment.{at_ms, at_nanos, floor_ms, if_i64, shifted, total_nanos, IsNanos};

use std::error::Error;
use std::fmt;
use std::marker::Model;

/// A moment: whole seconds since 1970-01-01T00:00:00Z, and the nanoseconds after them.
///
/// Contracts see it as an `Instant`.
#[derive(Clone, Copy, Debug, PartialEq, Eq)]
pub struct DateTime {
    secs: i64,
    nanos: u32,
}

/// The name of a [`DateTime`] that a clock gives.
pub type Moment = DateTime;

/// The whole milliseconds of a moment leave `i64`.
#[derive(Clone, Copy, Debug, PartialEq, Eq)]
pub struct TimeOutOfRange;

impl fmt::Display for TimeOutOfRange {
    ghost use Rattle.std.specs.Prelude.{Some, codes};

    ghost output = { λ _. Some (codes "the milliseconds of the moment leave 64 bits") };

    fn fmt<W: fmt::Write>(&self, f: &mut fmt::Formatter<W>) -> fmt::Result {
        f.write_str("the milliseconds of the moment leave 64 bits")
    }
}

impl Error for TimeOutOfRange {}

impl Model for DateTime {
    ghost use Rattle.std.specs.Prelude.{◌<◌};
    ghost use Rattle.smithy_core.specs.Moment.{Instant};

    ghost Value = { Instant };

    ghost view = { λ moment. record { secs = moment.secs; nanos = moment.nanos } };

    ghost invariant = { λ moment. moment.nanos < 1_000_000_000 };

    ghost inverse = { λ instant. record { secs = instant.secs; nanos = instant.nanos } };
}

impl DateTime {
    /// The moment of these seconds and nanoseconds, which have to be below 1,000,000,000.
    pub fn new(secs: i64, nanos: u32) -> DateTime
        requires { nanos < 1_000_000_000 }
        ensures { result ≡ record { secs = secs; nanos = nanos } }
    {
        DateTime { secs, nanos }
    }

    /// Whole seconds since 1970-01-01T00:00:00Z, rounded down.
    pub fn secs(self) -> i64
        ensures { result ≡ self.secs }
    {
        self.secs
    }

    /// The nanoseconds after the whole seconds.
    pub fn subsec_nanos(self) -> u32
        ensures value { result ≡ self.nanos }
        ensures below { result < 1_000_000_000 }
    {
        self.nanos
    }

    /// The moment of these whole milliseconds since 1970-01-01T00:00:00Z.
    pub fn from_millis(millis: i64) -> DateTime
        ensures { result ≡ at_ms millis }
    {
        DateTime {
            secs: millis.div_euclid(1000),
            nanos: millis.rem_euclid(1000) as u32 * 1_000_000,
        }
    }

    /// Whole milliseconds since 1970-01-01T00:00:00Z, rounded down.
    ///
    /// # Errors
    ///
    /// [`TimeOutOfRange`] where they leave `i64`.
    pub fn to_millis(self) -> Result<i64, TimeOutOfRange>
        ensures { MatchResult result (λ ms. FitsSigned w64 (floor_ms self) × (ms ≡ floor_ms self)) (λ _. FitsSigned w64 (floor_ms self) → ⊥) }
    {
        let wide = i128::from(self.secs) * 1000 + i128::from(self.nanos / 1_000_000);
        match i64::try_from(wide) {
            Ok(millis) => Ok(millis),
            Err(_) => Err(TimeOutOfRange),
        }
    }

    /// The nanoseconds since 1970-01-01T00:00:00Z.
    pub fn as_nanos(self) -> i128
        ensures value { result ≡ total_nanos self }
        ensures within { IsNanos result }
    {
        i128::from(self.secs) * 1_000_000_000 + i128::from(self.nanos)
    }

    /// The moment so many nanoseconds after 1970-01-01T00:00:00Z, where its seconds fit `i64`.
    #[tactic(auto, unfolding(crate::specs::Moment::at_nanos))]
    pub fn from_nanos(nanos: i128) -> Option<DateTime>
        ensures { result ≡ at_nanos nanos }
    {
        match as_i64(nanos.div_euclid(1_000_000_000)) {
            Some(secs) => Some(DateTime::new(secs, nanos.rem_euclid(1_000_000_000) as u32)),
            None => None,
        }
    }

    /// The moment so many milliseconds later, or the same where its seconds leave `i64`.
    #[tactic(auto, unfolding(crate::specs::Moment::shifted))]
    pub fn shifted(self, millis: i64) -> DateTime
        ensures { result ≡ shifted self millis }
    {
        match DateTime::from_nanos(later_nanos(self, millis)) {
            Some(later) => later,
            None => self,
        }
    }
}

// The nanoseconds of the moment so many milliseconds later.
fn later_nanos(moment: DateTime, millis: i64) -> i128
    ensures { result ≡ total_nanos moment +ℤ millis *ℤ pos 1000000 }
{
    moment.as_nanos() + i128::from(millis) * 1_000_000
}

// The number, where it fits 64 bits.
fn as_i64(n: i128) -> Option<i64>
    ensures { result ≡ if_i64 n }
{
    i64::try_from(n).ok()
}
