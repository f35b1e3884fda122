//! The texts of names, labels, numbers and words.

ghost use Rattle.std.specs.Prelude.{◌≡◌, ◌≤◌, ◌<◌, ◌^◌, ◌==◌, length, position, None, IfSome, OnSome};
ghost use Rattle.std.specs.List.{list_all};
ghost use Rattle.mdb_items.specs.Texts.{decimal_number, is_label, is_printable, millionths, millionths_at, millionths_from, offset, small_number, whole_number};
ghost use Rattle.text_forms.specs.Digits.{digits_at_most};

use text_forms::{digits_at_most, is_digit};

fn is_printable(octet: u8) -> bool
    ensures { result ≡ is_printable octet }
{
    octet >= 32 && octet <= 126
}

fn are_printable(text: &[u8]) -> bool
    ensures { result ≡ list_all is_printable text.now }
{
    text.iter().all(|b| is_printable(*b))
}

/// The octets are a label: 1 to 64 octets from the space to `~`.
pub fn is_label(text: &[u8]) -> bool
    ensures { result ≡ is_label text.now }
{
    !text.is_empty() && text.len() <= 64 && are_printable(text)
}

/// An optional `-` and 1 to 20 digits, from -2^63 to 2^64 - 1.
pub fn whole_number(text: &[u8]) -> Option<i128>
    ensures { result ≡ whole_number text.now }
{
    if let [b'-', digits @ ..] = text {
        let value = digits_at_most(20, digits)?;
        if value <= 9223372036854775808 {
            Some(-(value as i128))
        } else {
            None
        }
    } else {
        let value = digits_at_most(20, text)?;
        if value <= 18446744073709551615 {
            Some(value as i128)
        } else {
            None
        }
    }
}

/// A whole number from `low` to `high`.
pub fn small_number(low: u8, high: u8, text: &[u8]) -> Option<u8>
    ensures { result ≡ small_number low high text.now }
{
    let number = whole_number(text)?;
    if number >= low as i128 && number <= high as i128 {
        Some(number as u8)
    } else {
        None
    }
}

/// The place of the point.
fn point_of(text: &[u8]) -> Option<usize>
    ensures value { result ≡ position (λ b. b == 46) text.now }
    ensures within { IfSome result (λ point. point < length text.now) }
{
    text.iter().position(|b| *b == b'.')
}

/// The millionths of the digits before a point and those after it.
fn millionths_from(whole: &[u8], places: &[u8]) -> Option<u64>
    ensures value { result ≡ millionths_from (digits_at_most 12 whole.now) (digits_at_most 6 places.now)
        (length places.now) }
    ensures small { IfSome result (λ n. n < 10 ^ 18) }
{
    let Some(whole) = digits_at_most(12, whole) else {
        return None;
    };
    let Some(fraction) = digits_at_most(6, places) else {
        return None;
    };
    let unit = 10u64.pow(6 - places.len() as u32);
    Some(1_000_000 * whole as u64 + fraction as u64 * unit)
}

/// The millionths of 1 to 12 digits.
fn whole_millionths(text: &[u8]) -> Option<u64>
    ensures value { result ≡ millionths_at None text.now }
    ensures small { IfSome result (λ n. n < 10 ^ 18) }
{
    let Some(whole) = digits_at_most(12, text) else {
        return None;
    };
    Some(1_000_000 * whole as u64)
}

/// The millionths of 1 to 12 digits, and optionally a point and 1 to 6 digits.
fn millionths(text: &[u8]) -> Option<u64>
    ensures value { result ≡ millionths text.now }
    ensures small { IfSome result (λ n. n < 10 ^ 18) }
{
    match point_of(text) {
        None => whole_millionths(text),
        Some(point) => millionths_from(&text[..point], &text[point + 1..]),
    }
}

/// An optional `-`, 1 to 12 digits, and optionally a point and 1 to 6 digits, in millionths.
pub fn decimal_number(text: &[u8]) -> Option<i64>
    ensures { result ≡ decimal_number text.now }
{
    if let [b'-', rest @ ..] = text {
        let size = millionths(rest)?;
        Some(-(size as i64))
    } else {
        let size = millionths(text)?;
        Some(size as i64)
    }
}

/// The number that one digit or more spell; beyond the last bit of a packet all numbers are alike.
pub fn offset(text: &[u8]) -> Option<u32>
    ensures { result ≡ offset text.now }
{
    if text.is_empty() {
        return None;
    }
    let mut value: u32 = 0;
    for octet in text {
        if !is_digit(*octet) {
            return None;
        }
        value = (10 * value + (*octet - b'0') as u32).min(524_336);
    }
    Some(value)
}
