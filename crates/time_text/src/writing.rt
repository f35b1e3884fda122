//! Civil texts, written.

ghost use Rattle.std.specs.Prelude.{◌≡◌, pos, ◌≤ℤ◌, IfOk, Some, true, codes, ◌<◌};
ghost use Rattle.time_text.specs.Digits.{has_shape};
ghost use Rattle.time_text.specs.TimeText.{time_of};
ghost use Rattle.time_text.specs.Spelling.{spelled, time_text_of};

use crate::civil::Civil;
use crate::digits::{four_digits, three_digits, two_digits};
use std::alloc::{AllocError, Global};

/// The text `YYYY-MM-DDTHH:MM:SS.mmm` of a moment, in milliseconds since 1970. `read_time` reads it back.
/// The moment is in the years 1970 to 9999.
pub fn time_octets(time: i64) -> [u8; 23]
    requires from { pos 0 ≤ℤ time }
    requires to { time ≤ℤ pos 253_402_300_799_999 }
    ensures { result ≡ time_text_of time }
{
    octets(&Civil::at(time as u64))
}

/// The same text in memory of its own. The one error is want of memory.
pub fn write_time(alloc: Global, time: i64) -> Result<Vec<u8>, AllocError>
    requires from { pos 0 ≤ℤ time }
    requires to { time ≤ℤ pos 253_402_300_799_999 }
    ensures text { IfOk result (λ text. text.items ≡ time_text_of time) }
    ensures shape { IfOk result (λ text. has_shape (codes "0000-00-00T00:00:00.000") text.items ≡ true) }
    ensures read_back { IfOk result (λ text. time_of text.items ≡ Some time) }
{
    Vec::from_slice(alloc, &time_octets(time))
}

/// The text of a date and a time of day.
fn octets(civil: &Civil) -> [u8; 23]
    requires year { civil.now.year < 10_000 }
    requires month { civil.now.month < 100 }
    requires day { civil.now.day < 100 }
    requires hour { civil.now.hour < 100 }
    requires minute { civil.now.minute < 100 }
    requires second { civil.now.second < 100 }
    requires milli { civil.now.milli < 1_000 }
    ensures { result ≡ spelled civil.now }
{
    let mut text = *b"0000-00-00T00:00:00.000";
    text[0..4].copy_from_slice(&four_digits(civil.year));
    text[5..7].copy_from_slice(&two_digits(civil.month));
    text[8..10].copy_from_slice(&two_digits(civil.day));
    text[11..13].copy_from_slice(&two_digits(civil.hour));
    text[14..16].copy_from_slice(&two_digits(civil.minute));
    text[17..19].copy_from_slice(&two_digits(civil.second));
    text[20..23].copy_from_slice(&three_digits(civil.milli));
    text
}
