//! Time texts, read.

ghost use Rattle.std.specs.Prelude.{◌≡◌, IfOk, OnErr, Some, None, true, ◌<◌, ◌≤◌, ◌-◌, ◌^◌};
ghost use Rattle.time_text.specs.TimeText.{time_of, signed_number_of, civil_time, civil_of, without_z, is_fraction, millis_in, has_civil_shape};

use crate::civil::Civil;
use crate::digits::{has_shape, number};
use text_forms::digits::decimal_value;
use thiserror::Error;

/// The text is no time text.
#[derive(Clone, Copy, Debug, Drop, Error, PartialEq, Eq)]
#[error("not a time")]
pub struct BadTime;

/// Reads a moment, in milliseconds since 1970: an optional minus and 1 to 15 digits, which are milliseconds, or
/// `YYYY-MM-DDTHH:MM:SS`, optionally a point and 1 to 3 digits, optionally `Z`, in the years 1970 to 9999.
pub fn read_time(text: &str) -> Result<i64, BadTime>
    ensures time { IfOk result (λ time. time_of text.now ≡ Some time) }
    ensures none { OnErr result (time_of text.now ≡ None) }
{
    read_time_octets(text.as_bytes())
}

/// Reads a moment of a text's octets.
#[tactic(auto, unfolding(crate::specs::TimeText::time_of))]
pub fn read_time_octets(text: &[u8]) -> Result<i64, BadTime>
    ensures time { IfOk result (λ time. time_of text.now ≡ Some time) }
    ensures none { OnErr result (time_of text.now ≡ None) }
{
    if let Some(time) = count(text) {
        return Ok(time);
    }
    match civil_time(without_z(text)) {
        Some(time) => Ok(time),
        None => Err(BadTime),
    }
}

/// A count of milliseconds.
#[tactic(auto, unfolding(crate::specs::TimeText::signed_number_of))]
fn count(text: &[u8]) -> Option<i64>
    ensures { result ≡ signed_number_of text.now }
{
    if let [b'-', digits @ ..] = text {
        let millis = number(digits)?;
        Some(-(millis as i64))
    } else {
        let millis = number(text)?;
        Some(millis as i64)
    }
}

#[tactic(auto, unfolding(crate::specs::TimeText::without_z))]
fn without_z(text: &[u8]) -> &[u8]
    ensures { result.now ≡ without_z text.now }
{
    if let [before @ .., b'Z'] = text {
        before
    } else {
        text
    }
}

/// The moment of a civil text without a `Z`.
#[tactic(auto, unfolding(crate::specs::TimeText::civil_time))]
fn civil_time(text: &[u8]) -> Option<i64>
    ensures { result ≡ civil_time text.now }
{
    if text.len() < 19 {
        return None;
    }
    let (date_time, fraction) = text.split_at(19);
    if !has_civil_shape(date_time, fraction) {
        return None;
    }
    civil(date_time, fraction).moment()
}

fn has_civil_shape(text: &[u8], fraction: &[u8]) -> bool
    ensures { result ≡ has_civil_shape text.now fraction.now }
{
    has_shape(b"0000-00-00T00:00:00", text) && is_fraction(fraction)
}

/// Whether the text is a fraction of a second: empty, or a point and 1 to 3 digits.
#[tactic(auto, unfolding(crate::specs::TimeText::is_fraction))]
fn is_fraction(text: &[u8]) -> bool
    ensures { result ≡ is_fraction text.now }
{
    if text.len() > 4 {
        return false;
    }
    text.len() != 1 && has_shape(&b".000"[..text.len()], text)
}

/// The numbers in a civil text.
fn civil(text: &[u8], fraction: &[u8]) -> Civil
    requires { has_civil_shape text.now fraction.now ≡ true }
    ensures value { result ≡ civil_of text.now fraction.now }
    ensures year { result.year < 10_000 }
    ensures month { result.month < 100 }
    ensures day { result.day < 100 }
    ensures milli { result.milli < 1_000 }
{
    Civil {
        year: decimal_value(&text[0..4]) as u16,
        month: decimal_value(&text[5..7]) as u8,
        day: decimal_value(&text[8..10]) as u8,
        hour: decimal_value(&text[11..13]) as u8,
        minute: decimal_value(&text[14..16]) as u8,
        second: decimal_value(&text[17..19]) as u8,
        milli: millis(fraction),
    }
}

/// The milliseconds of a fraction of a second.
fn millis(fraction: &[u8]) -> u16
    requires { is_fraction fraction.now ≡ true }
    ensures value { result ≡ millis_in fraction.now }
    ensures bound { result < 1_000 }
{
    if fraction.is_empty() {
        return 0;
    }
    decimal_value(&fraction[1..]) as u16 * last_place(fraction.len() - 1)
}

/// How many milliseconds the last of 1 to 3 digits after the point counts.
fn last_place(digits: usize) -> u16
    requires some { 1 ≤ digits }
    requires few { digits ≤ 3 }
    ensures { result ≡ 10 ^ (3 - digits) }
{
    match digits {
        1 => 100,
        2 => 10,
        _ => 1,
    }
}
