ghost use Rattle.std.specs.Prelude.{◌≡◌, ◌<◌, ◌≤◌, ◌++◌, IfOk, OnOk};
ghost use Rattle.std.specs.Fmt.{sign_text};
ghost use Rattle.std.specs.Int.{is_negative};
ghost use Rattle.std.specs.String.{string_bytes};
ghost use Rattle.smithy_core.specs.CivilText.{FitsDigits};
ghost use Rattle.smithy_core.specs.Format.{Formats, date_time_of, day_name, fraction, http_date_of, month_name, seconds_of, without_last_zeros};
ghost use Rattle.smithy_core.specs.Moment.{total_nanos};
ghost use Rattle.smithy_core.specs.declared.format.FormatFault.TheVariants.{NoMemory};

use crate::civil_date::{civil, weekday};
use crate::civil_text::Civil;
use crate::memory::Mem;
use crate::moment::DateTime;
use std::alloc::{AllocError, Global};
use std::error::Error;
use std::fmt;

/// A form of text of a moment.
#[derive(Clone, Copy, Debug, PartialEq, Eq)]
pub enum Format {
    /// Date and time in UTC (RFC 3339), as `2015-08-30T12:36:00.5Z`. The fraction has no zeros at its end.
    DateTime,
    /// A date of HTTP (RFC 9110, section 5.6.7), as `Sun, 30 Aug 2015 12:36:00 GMT`. A fraction is dropped.
    HttpDate,
    /// Seconds since 1970-01-01T00:00:00Z, as `1440938160.5`: the exact decimal, with no zeros at the fraction's end.
    EpochSeconds,
}

/// Why a moment has no text.
#[derive(Clone, Copy, Debug, PartialEq, Eq)]
pub enum FormatFault {
    /// The form shows a date, and the moment lies outside the years 0 to 9999.
    OutOfRange,
    /// Memory ran out.
    NoMemory,
}

impl fmt::Display for FormatFault {
    ghost use Rattle.std.specs.Prelude.{Some};
    ghost use Rattle.smithy_core.specs.Format.{format_fault_text};

    ghost output = { λ fault. Some (format_fault_text fault) };

    fn fmt<W: fmt::Write>(&self, f: &mut fmt::Formatter<W>) -> fmt::Result {
        f.write_str(match self {
            FormatFault::OutOfRange => "the moment lies outside the years 0 to 9999",
            FormatFault::NoMemory => "no memory",
        })
    }
}

impl Error for FormatFault {}

impl From<AllocError> for FormatFault {
    ghost from_gives = { λ _ fault. fault ≡ NoMemory };

    fn from(_e: AllocError) -> FormatFault {
        FormatFault::NoMemory
    }
}

impl DateTime {
    /// The text of the moment in a form.
    ///
    /// # Errors
    ///
    /// [`FormatFault::OutOfRange`] where the form shows a date and the moment lies outside the years 0 to 9999, and
    /// [`FormatFault::NoMemory`] where memory runs out.
    #[tactic(auto, unfolding(crate::specs::Format::formatted), using(crate::proofs::DayLemmas::civil_fits))]
    pub fn fmt(self, alloc: Global, format: Format) -> Result<String, FormatFault>
        ensures { Formats format self result }
    {
        match format {
            Format::DateTime => match civil(self) {
                Some(civil) => Ok(date_time(alloc, civil, self.subsec_nanos())?),
                None => Err(FormatFault::OutOfRange),
            },
            Format::HttpDate => match civil(self) {
                Some(civil) => Ok(http_date(alloc, civil, weekday(self))?),
                None => Err(FormatFault::OutOfRange),
            },
            Format::EpochSeconds => Ok(epoch_seconds(alloc, self)?),
        }
    }
}

// `YYYY-MM-DDTHH:MM:SS`, the fraction, `Z`.
#[tactic(auto, unfolding(crate::specs::Format::date_time_of), using(crate::proofs::FormatLemmas::padded))]
fn date_time(alloc: Global, civil: Civil, nanos: u32) -> Mem<String>
    requires fits { FitsDigits civil }
    requires nanos { nanos < 1_000_000_000 }
    ensures { IfOk result (λ text. string_bytes text ≡ date_time_of civil nanos) }
{
    let Civil {
        year,
        month,
        day,
        hour,
        minute,
        second,
    } = civil;
    let mut text = format!(in alloc;
        "{year:04}-{month:02}-{day:02}T{hour:02}:{minute:02}:{second:02}"
    )?;
    push_fraction(&mut text, alloc, nanos)?;
    text.push('Z')?;
    Ok(text)
}

// `Mon, 16 Dec 2019 23:48:18 GMT`.
#[tactic(auto, unfolding(crate::specs::Format::http_date_of), using(crate::proofs::FormatLemmas::padded))]
fn http_date(alloc: Global, civil: Civil, weekday: u8) -> Mem<String>
    requires fits { FitsDigits civil }
    requires weekday { weekday < 7 }
    ensures { IfOk result (λ text. string_bytes text ≡ http_date_of civil weekday) }
{
    let Civil {
        year,
        month,
        day,
        hour,
        minute,
        second,
    } = civil;
    let (day_name, month_name) = (day_name(weekday), month_name(month));
    format!(in alloc;
        "{day_name}, {day:02} {month_name} {year:04} {hour:02}:{minute:02}:{second:02} GMT"
    )
}

// The exact decimal number of seconds.
#[tactic(auto, unfolding(crate::specs::Format::seconds_of))]
fn epoch_seconds(alloc: Global, moment: DateTime) -> Mem<String>
    ensures { IfOk result (λ text. string_bytes text ≡ seconds_of (total_nanos moment)) }
{
    let nanos = moment.as_nanos();
    let size = nanos.unsigned_abs();
    let sign = sign_of(nanos);
    let whole = (size / 1_000_000_000) as u64;
    let mut text = format!(in alloc; "{sign}{whole}")?;
    push_fraction(&mut text, alloc, (size % 1_000_000_000) as u32)?;
    Ok(text)
}

fn sign_of(n: i128) -> &'static str
    ensures { result.now ≡ sign_text (is_negative n) }
{
    if n < 0 { "-" } else { "" }
}

// A point and the digits of the fraction of a second, without the zeros at their end, or nothing.
#[tactic(auto, unfolding(crate::specs::Format::fraction), using(crate::proofs::FormatLemmas::padded))]
fn push_fraction(text: &mut String, alloc: Global, nanos: u32) -> Mem<()>
    requires { nanos < 1_000_000_000 }
    ensures { OnOk result (string_bytes text.new ≡ string_bytes text.old ++ fraction nanos) }
{
    if nanos == 0 {
        return Ok(());
    }
    let digits = format!(in alloc; ".{nanos:09}")?;
    text.push_str(without_last_zeros(digits.as_str()))
}

fn without_last_zeros(digits: &str) -> &str
    ensures { result.now ≡ without_last_zeros digits.now }
{
    digits.trim_end_matches('0')
}

// From 0 for Saturday.
#[tactic(auto, unfolding(crate::specs::Format::day_name))]
fn day_name(weekday: u8) -> &'static str
    requires { weekday < 7 }
    ensures { result.now ≡ day_name weekday }
{
    match weekday {
        0 => "Sat",
        1 => "Sun",
        2 => "Mon",
        3 => "Tue",
        4 => "Wed",
        5 => "Thu",
        _ => "Fri",
    }
}

// From 1 for January.
#[tactic(auto, unfolding(crate::specs::Format::month_name))]
fn month_name(month: u8) -> &'static str
    requires low { 1 ≤ month }
    requires high { month ≤ 12 }
    ensures { result.now ≡ month_name month }
{
    match month {
        1 => "Jan",
        2 => "Feb",
        3 => "Mar",
        4 => "Apr",
        5 => "May",
        6 => "Jun",
        7 => "Jul",
        8 => "Aug",
        9 => "Sep",
        10 => "Oct",
        11 => "Nov",
        _ => "Dec",
    }
}
