//! The day of a moment, and a day's name.

ghost use Rattle.std.specs.Prelude.{◌≡◌, pos, ◌≤ℤ◌, IfOk, unsigned_abs, ◌<◌};
ghost use Rattle.time_text.specs.Day.{day_of, IsDayName};
ghost use Rattle.time_text.specs.Spelling.{named, day_name_of};

use crate::calendar::date_of;
use crate::digits::{four_digits, three_digits};
use std::alloc::{AllocError, Global};

/// The milliseconds of a day.
pub(crate) const MILLIS_PER_DAY: u64 = 86_400_000;

/// The day on which a moment lies, counted from 1970-01-01; a moment before 1970 has a negative one.
#[tactic(auto, unfolding(crate::specs::Day::day_of))]
pub fn day_of(time: i64) -> i64
    ensures { result ≡ day_of time }
{
    time.div_euclid(MILLIS_PER_DAY as i64)
}

/// The name `YYYY/DOY` of a day from 0 to 2,932,896: its year, and its place in that year from 001.
pub fn day_octets(day: i64) -> [u8; 8]
    requires from { pos 0 ≤ℤ day }
    requires to { day ≤ℤ pos 2_932_896 }
    ensures { result ≡ day_name_of day }
{
    let date = date_of(day as u64);
    octets(date.year.unsigned_abs(), date.day_of_year())
}

/// The same name in memory of its own. The one error is want of memory.
pub fn day_name(alloc: Global, day: i64) -> Result<Vec<u8>, AllocError>
    requires from { pos 0 ≤ℤ day }
    requires to { day ≤ℤ pos 2_932_896 }
    ensures name { IfOk result (λ name. name.items ≡ day_name_of day) }
    ensures of_day { IfOk result (λ name. IsDayName name.items (unsigned_abs day)) }
{
    Vec::from_slice(alloc, &day_octets(day))
}

/// The name of the day at a place in a year.
fn octets(year: u16, place: u16) -> [u8; 8]
    requires year { year < 10_000 }
    requires place { place < 1_000 }
    ensures { result ≡ named year place }
{
    let mut name = *b"0000/000";
    name[0..4].copy_from_slice(&four_digits(year));
    name[5..8].copy_from_slice(&three_digits(place));
    name
}
