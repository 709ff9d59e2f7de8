ghost use Rattle.std.specs.Prelude.{◌≡◌, ◌+◌, ◌/◌, ◌%◌, ◌<◌, MatchBool, MatchOption, bytes_eq};
ghost use Rattle.smithy_core.specs.Civil.{IsInYears, civil_after, civil_of, date, day_number, is_in_years, weekday};

use crate::civil_text::Civil;
use crate::moment::Moment;
use jiff_core::civil::Date;

/// The second of 1 January of the year 0 at 00:00:00Z.
const FIRST_SECOND: i64 = -62_167_219_200;

/// The second of 31 December of the year 9999 at 23:59:59Z.
const LAST_SECOND: i64 = 253_402_300_799;

/// The days from 1 January of the year -9999, the first that `jiff_core` counts, to 1 January of the year 0.
const DAYS_BEFORE: u32 = 3_652_059;

/// The date and the time of day of a moment, and `None` outside the years 0 to 9999.
#[tactic(auto, unfolding(crate::specs::Civil::civil_of))]
pub fn civil(moment: Moment) -> Option<Civil>
    ensures { MatchOption result (IsInYears moment → ⊥) (λ civil. IsInYears moment × (civil ≡ civil_of moment)) }
{
    if !is_in_years(moment) {
        return None;
    }
    let since = (moment.secs() - FIRST_SECOND) as u64;
    Some(civil_at(since))
}

/// Whether a moment lies in the years 0 to 9999.
pub fn is_in_years(moment: Moment) -> bool
    ensures value { result ≡ is_in_years moment }
    ensures cases { MatchBool result (IsInYears moment) (IsInYears moment → ⊥) }
{
    FIRST_SECOND <= moment.secs() && moment.secs() <= LAST_SECOND
}

/// The whole days from 1 January of the year 0 to the date of a moment, which has to lie in the years 0 to 9999.
pub fn day_number(moment: Moment) -> u64
    requires { IsInYears moment }
    ensures { result ≡ day_number moment }
{
    let since = (moment.secs() - FIRST_SECOND) as u64;
    since / 86400
}

/// Whether two moments have one date. Both have to lie in the years 0 to 9999.
#[tactic(auto, using(crate::proofs::DateLemmas::same_day))]
pub fn is_same_day(first: Moment, second: Moment) -> bool
    requires first { IsInYears first }
    requires second { IsInYears second }
    ensures { result ≡ bytes_eq (date first) (date second) }
{
    day_number(first) == day_number(second)
}

// The day of the week of a moment in the years 0 to 9999, from 0 for Saturday.
pub(crate) fn weekday(moment: Moment) -> u8
    requires { IsInYears moment }
    ensures { result ≡ weekday moment }
{
    (day_number(moment) % 7) as u8
}

// The date and the time of day so many seconds after the start of the year 0.
fn civil_at(since: u64) -> Civil
    requires { since < 315_569_520_000 }
    ensures { result ≡ civil_after since }
{
    let date = Date::from_days_since_min((since / 86400) as u32 + DAYS_BEFORE);
    let second = since % 86400;
    Civil {
        year: date.year.unsigned_abs(),
        month: date.month,
        day: date.day,
        hour: (second / 3600) as u8,
        minute: (second / 60 % 60) as u8,
        second: (second % 60) as u8,
    }
}
