//! A civil date and time of day, and the moment that it is.

ghost use Rattle.std.specs.Prelude.{◌≡◌, ◌<◌, ◌≤◌, ◌+◌, ◌-◌, true, pos, ◌≤ℤ◌, IfSome, if◌then◌else◌, Some, None};

use crate::calendar::{date_of, day_number};
use crate::day::MILLIS_PER_DAY;

/// A date and a time of day, as they are written. Not every one is real: there is no 30 February.
#[derive(Clone, Copy)]
pub(crate) struct Civil {
    pub(crate) year: u16,
    pub(crate) month: u8,
    pub(crate) day: u8,
    pub(crate) hour: u8,
    pub(crate) minute: u8,
    pub(crate) second: u8,
    pub(crate) milli: u16,
}

impl Civil {
    ghost use Rattle.time_text.specs.Civil.{is_time_of_day, is_real, millis_of_day, millis_of, moment_of};

    /// The moment, in milliseconds since 1970, where the date and the time are real.
    pub(crate) fn moment(&self) -> Option<i64>
        requires year { self.now.year < 10_000 }
        requires month { self.now.month < 100 }
        requires day { self.now.day < 100 }
        requires milli { self.now.milli < 1_000 }
        ensures { result ≡ moment_of self.now }
    {
        if !self.is_time_of_day() {
            return None;
        }
        let day = day_number(self.year, self.month, self.day)?;
        Some((MILLIS_PER_DAY * day + self.millis_of_day()) as i64)
    }

    fn is_time_of_day(&self) -> bool
        ensures { result ≡ is_time_of_day self.now }
    {
        self.hour < 24 && self.minute < 60 && self.second < 60
    }

    /// The milliseconds since midnight.
    fn millis_of_day(&self) -> u64
        ensures value { result ≡ millis_of_day self.now }
        ensures bound { result < 1_000_000_000 }
    {
        let minutes = 60 * u64::from(self.hour) + u64::from(self.minute);
        let seconds = 60 * minutes + u64::from(self.second);
        1_000 * seconds + u64::from(self.milli)
    }

    /// The date and time of day of a moment, in milliseconds since 1970. It is in the years 1970 to 9999.
    pub(crate) fn at(time: u64) -> Civil
        requires { time ≤ 253_402_300_799_999 }
        ensures real { is_real result ≡ true }
        ensures moment { millis_of result ≡ time }
        ensures year { result.year < 10_000 }
        ensures month { result.month < 100 }
        ensures day { result.day < 100 }
        ensures hour { result.hour < 100 }
        ensures minute { result.minute < 100 }
        ensures second { result.second < 100 }
        ensures milli { result.milli < 1_000 }
    {
        let date = date_of(time / MILLIS_PER_DAY);
        let millis = time % MILLIS_PER_DAY;
        let seconds = millis / 1_000;
        Civil {
            year: date.year.unsigned_abs(),
            month: date.month,
            day: date.day,
            hour: (seconds / 3_600) as u8,
            minute: (seconds / 60 % 60) as u8,
            second: (seconds % 60) as u8,
            milli: (millis % 1_000) as u16,
        }
    }
}
