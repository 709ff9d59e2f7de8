ghost use Rattle.std.specs.Prelude.{◌≡◌, IfOk};
ghost use Rattle.std.specs.String.{string_bytes};
ghost use Rattle.smithy_core.specs.CivilText.{date_of, stamp_of, two_digits};

use crate::memory::Mem;
use std::alloc::Global;

/// A date of the years 0 to 9999, and a time of day, in UTC.
#[derive(Clone, Copy, Debug, PartialEq, Eq)]
pub struct Civil {
    pub year: u16,
    pub month: u8,
    pub day: u8,
    pub hour: u8,
    pub minute: u8,
    pub second: u8,
}

impl Civil {
    /// `YYYYMMDD`.
    #[tactic(auto, unfolding(crate::specs::CivilText::date_of))]
    pub fn date(self) -> [u8; 8]
        ensures { result ≡ date_of self }
    {
        let century = two_digits(self.year / 100);
        let year = two_digits(self.year);
        let month = two_digits(u16::from(self.month));
        let day = two_digits(u16::from(self.day));
        [
            century[0], century[1], year[0], year[1], month[0], month[1], day[0], day[1],
        ]
    }

    /// `YYYYMMDDTHHMMSSZ`.
    #[tactic(auto, unfolding(crate::specs::CivilText::date_of, crate::specs::CivilText::stamp_of))]
    pub fn stamp(self) -> [u8; 16]
        ensures { result ≡ stamp_of self }
    {
        let [c0, c1, y0, y1, m0, m1, d0, d1] = self.date();
        let hour = two_digits(u16::from(self.hour));
        let minute = two_digits(u16::from(self.minute));
        let second = two_digits(u16::from(self.second));
        [
            c0, c1, y0, y1, m0, m1, d0, d1, b'T', hour[0], hour[1], minute[0], minute[1],
            second[0], second[1], b'Z',
        ]
    }

    /// `YYYYMMDDTHHMMSSZ`, as a string.
    pub fn stamp_text(self, alloc: Global) -> Mem<String>
        ensures { IfOk result (λ text. string_bytes text ≡ stamp_of self) }
    {
        let stamp = Vec::from_slice(alloc, self.stamp().as_slice())?;
        Ok(String::from_utf8(stamp).unwrap())
    }
}

fn two_digits(n: u16) -> [u8; 2]
    ensures { result ≡ two_digits n }
{
    [b'0' + (n / 10 % 10) as u8, b'0' + (n % 10) as u8]
}
