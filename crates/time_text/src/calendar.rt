//! Dates of the Gregorian calendar and the days that they are, by jiff.

ghost use Rattle.std.specs.Prelude.{◌≡◌, ◌<◌, ◌≤◌, ◌+◌, ◌-◌, true, pos, ◌≤ℤ◌, IfSome, if◌then◌else◌, unsigned_abs};
ghost use Rattle.jiff_core.specs.Date.{ordinal};
ghost use Rattle.time_text.specs.Calendar.{is_date, day_number, days_of_years, days_in_year};

use jiff::civil::Date;
use jiff_core::civil;

/// The days from 1970-01-01 to a date, where the calendar has it.
pub(crate) fn day_number(year: u16, month: u8, day: u8) -> Option<u64>
    requires four_digits { year < 10_000 }
    requires two_digits { month < 100 }
    requires two_more { day < 100 }
    ensures value { result ≡ (if is_date year month day then Some (day_number year month day) else None) }
    ensures bound { IfSome result (λ n. n ≤ 2_932_896) }
{
    if year < 1970 {
        return None;
    }
    match Date::new(year as i16, month as i8, day as i8) {
        Ok(date) => Some(date.to_plain().to_unix_epoch_day() as u64),
        Err(_) => None,
    }
}

/// The date of a day, counted from 1970-01-01. It is in the years 1970 to 9999.
pub(crate) fn date_of(day: u64) -> civil::Date
    requires { day ≤ 2_932_896 }
    ensures year { unsigned_abs result.year < 10_000 }
    ensures date { is_date (unsigned_abs result.year) result.month result.day ≡ true }
    ensures number { day_number (unsigned_abs result.year) result.month result.day ≡ day }
    ensures ordinal { days_of_years (unsigned_abs result.year - 1970) + ordinal result ≡ day + 1 }
{
    civil::Date::from_unix_epoch_day(day as i64).unwrap()
}
