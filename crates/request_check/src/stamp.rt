ghost use Rattle.std.specs.Prelude.{◌≡◌, ◌+◌, ◌≤◌, ◌∷◌, [], drop, length, take, pos, ◌+ℤ◌, ◌*ℤ◌, MatchBool};
ghost use Rattle.jiff_core.specs.Date.{epoch_day};
ghost use Rattle.smithy_core.specs.Civil.{IsInYears, stamp};
ghost use Rattle.request_check.specs.Stamped.{FindsMoment, IsTwoDigits, IsOnlyCivil, IsShortDate, ReadsStamp, second_of_day};

use jiff_core::civil::Date;
use smithy_core::{Civil, Moment, civil};

/// The whole second of which the text is the stamp, `YYYYMMDDTHHMMSSZ`.
pub fn stamped_moment(text: &str) -> Option<Moment>
    ensures { ReadsStamp text.now result }
{
    let text = text.as_bytes();
    if text.len() != 16 {
        return None;
    }
    let moment = moment_of(civil_at(text))?;
    if has_stamp(moment, text) {
        Some(moment)
    } else {
        None
    }
}

// Whether the text is the stamp of the moment.
#[tactic(auto, unfolding(smithy_core::specs::Civil::stamp))]
fn has_stamp(moment: Moment, text: &[u8]) -> bool
    ensures { MatchBool result (IsInYears moment × (stamp moment ≡ text.now)) (IsInYears moment → stamp moment ≡ text.now → ⊥) }
{
    match civil(moment) {
        Some(civil) => civil.stamp().as_slice() == text,
        None => false,
    }
}

// The date and the time of day that a text spells, if it is a stamp.
fn civil_at(text: &[u8]) -> Civil
    requires { length text.now ≡ 16 }
    ensures short { IsShortDate result }
    ensures only { IsOnlyCivil text.now result }
{
    Civil {
        year: u16::from(number_at(text, 0)) * 100 + u16::from(number_at(text, 2)),
        month: number_at(text, 4),
        day: number_at(text, 6),
        hour: number_at(text, 9),
        minute: number_at(text, 11),
        second: number_at(text, 13),
    }
}

// The number of the two decimal digits at a place, and 0 where there are none.
fn number_at(text: &[u8], at: usize) -> u8
    requires { at + 2 ≤ length text.now }
    ensures { IsTwoDigits (take 2 (drop at text.now)) result }
{
    number_of(text[at], text[at + 1])
}

// The number of two decimal digits, and 0 where they aren't digits.
fn number_of(high: u8, low: u8) -> u8
    ensures { IsTwoDigits (high ∷ low ∷ []) result }
{
    if high.is_ascii_digit() && low.is_ascii_digit() {
        (high - b'0') * 10 + (low - b'0')
    } else {
        0
    }
}

// The moment of a date and a time of day, where the calendar has that date.
fn moment_of(civil: Civil) -> Option<Moment>
    requires { IsShortDate civil }
    ensures { FindsMoment civil result }
{
    match Date::new(civil.year as i16, civil.month as i8, civil.day as i8) {
        Ok(date) => Some(Moment::new(epoch_second(date, civil), 0)),
        Err(_) => None,
    }
}

// The second of a time of day on a date, from 1970-01-01T00:00:00Z on.
fn epoch_second(date: Date, civil: Civil) -> i64
    ensures { result ≡ epoch_day date *ℤ pos 86400 +ℤ pos (second_of_day civil) }
{
    i64::from(date.to_unix_epoch_day()) * 86_400 + i64::from(second_of_day(civil))
}

// The second of a time of day.
fn second_of_day(civil: Civil) -> u32
    ensures { result ≡ second_of_day civil }
{
    u32::from(civil.hour) * 3600 + u32::from(civil.minute) * 60 + u32::from(civil.second)
}
