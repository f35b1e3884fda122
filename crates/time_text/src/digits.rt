//! Decimal digits, read and written, and texts of a fixed shape.

ghost use Rattle.std.specs.Prelude.{◌≡◌, ◌<◌, IfSome};
ghost use Rattle.time_text.specs.Digits.{fits_shape, has_shape, two_digits_of, three_digits_of, four_digits_of};
ghost use Rattle.time_text.specs.TimeText.{number_of};

use text_forms::digits::{is_digit, number_of};

fn fits(place: u8, octet: u8) -> bool
    ensures { result ≡ fits_shape place octet }
{
    if place == b'0' {
        is_digit(octet)
    } else {
        octet == place
    }
}

/// Whether the text is of the shape: a digit where it has `0`, else the same octet.
pub(crate) fn has_shape(shape: &[u8], text: &[u8]) -> bool
    ensures { result ≡ has_shape shape.now text.now }
{
    if shape.len() != text.len() {
        return false;
    }
    for (i, place) in shape.iter().enumerate() {
        if !fits(*place, text[i]) {
            return false;
        }
    }
    true
}

/// The number that 1 to 15 digits stand for.
#[tactic(auto, unfolding(crate::specs::TimeText::number_of))]
pub(crate) fn number(text: &[u8]) -> Option<u64>
    ensures value { result ≡ number_of text.now }
    ensures bound { IfSome result (λ n. n < 1_000_000_000_000_000) }
{
    let n = number_of(15, text)?;
    Some(n)
}

pub(crate) fn two_digits(n: u8) -> [u8; 2]
    requires { n < 100 }
    ensures { result ≡ two_digits_of n }
{
    [b'0' + n / 10, b'0' + n % 10]
}

pub(crate) fn three_digits(n: u16) -> [u8; 3]
    requires { n < 1_000 }
    ensures { result ≡ three_digits_of n }
{
    let [tens, ones] = two_digits((n % 100) as u8);
    [b'0' + (n / 100) as u8, tens, ones]
}

pub(crate) fn four_digits(n: u16) -> [u8; 4]
    requires { n < 10_000 }
    ensures { result ≡ four_digits_of n }
{
    let [thousands, hundreds] = two_digits((n / 100) as u8);
    let [tens, ones] = two_digits((n % 100) as u8);
    [thousands, hundreds, tens, ones]
}
